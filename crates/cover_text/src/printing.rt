//! The sections of a cover, printed.

ghost use Rattle.std.specs.Prelude.{◌≡◌, ◌<◌, ◌≤◌, ◌++◌, true, pos, length, drop, replicate, decimal, flat_map, option_map, OnOk, IfOk};
ghost use Rattle.dp_model.specs.Lists.{Each};
ghost use Rattle.bound_cover.specs.Clamping.{AreWritable};
ghost use Rattle.bound_cover.specs.Exploring.{layer_of};
ghost use Rattle.cover_text.specs.Printed.{printed_bound, printed_number, printed_target, printed_arc, printed_arcs, printed_row, printed_layer, printed_layers, printed_cover};
ghost use Rattle.cover_text.specs.Written.{AreArcs, IsArc, IsKeptLayer, IsKeptRow, IsTarget, IsWord, IsWritten};

use crate::digits::{SHORT, push_negative, push_short};
use bound_cover::{Cover, CoverArc};
use dp_model::{DpModel, OutOfMemory};
use itoa::Buffer;
use tokens::{ZEROS, push_number, push_text};

/// `ZEROS` zeros as they are printed, each after a space.
const ZEROS_TEXT: &str = " 0 0 0 0 0 0 0 0";

/// Appends a bound.
fn push_bound(out: &mut Vec<u8>, bound: Option<i64>) -> Result<(), OutOfMemory>
    ensures { OnOk result (out.new.items ≡ out.old.items ++ printed_bound bound) }
{
    match bound {
        None => push_text(out, "none"),
        Some(bound) => push_number(out, bound),
    }
}

/// Appends a space and a number that may have more than four digits.
#[inline(never)]
fn push_long(out: &mut Vec<u8>, number: i64) -> Result<(), OutOfMemory>
    ensures { OnOk result (out.new.items ≡ out.old.items ++ printed_number number) }
{
    push_text(out, " ")?;
    push_number(out, number)
}

/// Appends a space and a number.
#[inline]
fn push_after(out: &mut Vec<u8>, number: i64) -> Result<(), OutOfMemory>
    ensures pushed { OnOk result (out.new.items ≡ out.old.items ++ printed_number number) }
    ensures fits { OnOk result (IsWord number) }
{
    if 0 <= number && number < SHORT {
        return push_short(out, number as u64);
    }
    if -SHORT < number && number < 0 {
        return push_negative(out, (-number) as u64);
    }
    push_long(out, number)
}

/// Whether words begin with `ZEROS` zeros.
fn begins_with_zeros(words: &[i64]) -> bool
    ensures { result ≡ true → words.now ≡ replicate ZEROS (pos 0) ++ drop ZEROS words.now }
{
    if words.len() < ZEROS {
        return false;
    }
    'words: for i in 0..ZEROS {
        if words[i] != 0 {
            return false;
        }
    }
    true
}

/// Appends the zeros with which words begin, `ZEROS` at a time, and tells how many of the words these are.
fn push_zeros(out: &mut Vec<u8>, words: &[i64]) -> Result<usize, OutOfMemory>
    ensures pushed { IfOk result (λ done. out.new.items ++ flat_map printed_number (drop done words.now) ≡ out.old.items ++ flat_map printed_number words.now) }
    ensures fits { IfOk result (λ done. Each IsWord (drop done words.now) → Each IsWord words.now) }
    ensures few { IfOk result (λ done. done ≤ length words.now) }
{
    let count = words.len() / ZEROS;
    'eights: for block in 0..count {
        if !begins_with_zeros(&words[ZEROS * block..]) {
            return Ok(ZEROS * block);
        }
        push_text(out, ZEROS_TEXT)?;
    }
    Ok(ZEROS * count)
}

/// Appends words.
fn push_each(out: &mut Vec<u8>, words: &[i64]) -> Result<(), OutOfMemory>
    ensures pushed { OnOk result (out.new.items ≡ out.old.items ++ flat_map printed_number words.now) }
    ensures fits { OnOk result (Each IsWord words.now) }
{
    for word in words {
        push_after(out, *word)?;
    }
    Ok(())
}

/// Appends the words of a row. Many rows begin with zeros, for what is decided already.
fn push_words(out: &mut Vec<u8>, words: &[i64]) -> Result<(), OutOfMemory>
    ensures pushed { OnOk result (out.new.items ≡ out.old.items ++ flat_map printed_number words.now) }
    ensures fits { OnOk result (Each IsWord words.now) }
{
    let done = push_zeros(out, words)?;
    push_each(out, &words[done..])
}

/// Appends the target of an arc.
fn push_target(out: &mut Vec<u8>, target: Option<u32>) -> Result<(), OutOfMemory>
    ensures pushed { OnOk result (out.new.items ≡ out.old.items ++ printed_target target) }
    ensures fits { OnOk result (IsTarget target) }
{
    match target {
        None => push_text(out, " r"),
        Some(row) => push_after(out, i64::from(row)),
    }
}

/// Appends an arc.
fn push_arc(out: &mut Vec<u8>, arc: CoverArc) -> Result<(), OutOfMemory>
    ensures pushed { OnOk result (out.new.items ≡ out.old.items ++ printed_arc arc) }
    ensures fits { OnOk result (IsArc arc) }
{
    push_after(out, i64::from(arc.decision))?;
    push_target(out, arc.target)
}

/// Appends the arcs of a row.
fn push_arc_list(out: &mut Vec<u8>, arcs: &[CoverArc]) -> Result<(), OutOfMemory>
    ensures pushed { OnOk result (out.new.items ≡ out.old.items ++ flat_map printed_arc arcs.now) }
    ensures fits { OnOk result (Each IsArc arcs.now) }
{
    for arc in arcs {
        push_arc(out, *arc)?;
    }
    Ok(())
}

/// Appends the arc part of a row, where it has one.
fn push_arcs(out: &mut Vec<u8>, arcs: Option<&[CoverArc]>) -> Result<(), OutOfMemory>
    ensures pushed { OnOk result (out.new.items ≡ out.old.items ++ printed_arcs (option_map (λ a. a.now) arcs.entry)) }
    ensures fits { OnOk result (AreArcs (option_map (λ a. a.now) arcs.entry)) }
{
    match arcs {
        None => Ok(()),
        Some(arcs) => {
            push_text(out, " ;")?;
            push_arc_list(out, arcs)
        }
    }
}

/// Appends the line of a row.
fn push_row(
    out: &mut Vec<u8>,
    bound: Option<i64>,
    words: &[i64],
    arcs: Option<&[CoverArc]>,
) -> Result<(), OutOfMemory>
    ensures pushed { OnOk result (out.new.items ≡ out.old.items ++ printed_row (record { bound = bound; words = words.now; arcs = option_map (λ a. a.now) arcs.entry })) }
    ensures fits { OnOk result (IsKeptRow (record { bound = bound; words = words.now; arcs = option_map (λ a. a.now) arcs.entry })) }
{
    push_bound(out, bound)?;
    push_text(out, " ;")?;
    push_words(out, words)?;
    push_arcs(out, arcs)?;
    push_text(out, "\n")
}

/// Appends the lines of a layer's rows.
fn push_rows(out: &mut Vec<u8>, cover: &Cover, layer: usize) -> Result<(), OutOfMemory>
    requires { layer < length cover.now }
    ensures pushed { OnOk result (out.new.items ≡ out.old.items ++ flat_map printed_row (layer_of cover.now layer)) }
    ensures fits { OnOk result (Each IsKeptRow (layer_of cover.now layer)) }
{
    for row in 0..cover.rows(layer) {
        push_row(
            out,
            cover.bound(layer, row),
            cover.words(layer, row),
            cover.arcs(layer, row),
        )?;
    }
    Ok(())
}

/// Appends a number that counts.
fn push_count(out: &mut Vec<u8>, count: usize) -> Result<(), OutOfMemory>
    ensures { OnOk result (out.new.items ≡ out.old.items ++ decimal count) }
{
    let mut digits = Buffer::new();
    out.extend_from_slice(digits.format(count).as_bytes())
}

/// Appends the section of a layer.
fn push_layer(out: &mut Vec<u8>, cover: &Cover, layer: usize) -> Result<(), OutOfMemory>
    requires { layer < length cover.now }
    ensures pushed { OnOk result (out.new.items ≡ out.old.items ++ printed_layer layer (layer_of cover.now layer)) }
    ensures fits { OnOk result (IsKeptLayer (layer_of cover.now layer)) }
{
    push_text(out, "layer ")?;
    push_count(out, layer)?;
    push_text(out, " ")?;
    push_count(out, cover.rows(layer))?;
    push_text(out, "\n")?;
    push_rows(out, cover, layer)
}

/// Appends the sections of the layers.
fn push_layers(out: &mut Vec<u8>, cover: &Cover) -> Result<(), OutOfMemory>
    ensures pushed { OnOk result (out.new.items ≡ out.old.items ++ printed_layers 0 cover.now) }
    ensures fits { OnOk result (Each IsKeptLayer cover.now) }
{
    for layer in 0..cover.layers() {
        push_layer(out, cover, layer)?;
    }
    Ok(())
}

/// Appends the sections of a cover, from `layer 0` to `end`. It fails only for want of memory.
///
/// `read_cover` reads them as the cover again where each bound is none or from -2^62 to 2^62 (`pushed_is_read`).
#[tactic(auto, using(crate::proofs::Writing::written))]
pub fn push_cover<M: DpModel>(
    out: &mut Vec<u8>,
    _model: &M,
    cover: &Cover,
) -> Result<(), OutOfMemory>
    ensures pushed { OnOk result (out.new.items ≡ out.old.items ++ printed_cover cover.now) }
    ensures written { OnOk result (AreWritable cover.now → IsWritten cover.now) }
{
    // What the cover keeps of its layers.
    let _ = cover.layers();
    push_layers(out, cover)?;
    push_text(out, "end\n")
}
