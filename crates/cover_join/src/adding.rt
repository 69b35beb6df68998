//! The layers of the joined cover below the root: the rows of one part after another.

ghost use Rattle.std.specs.Prelude.{◌≡◌, ℕ, ◌<◌, ◌+◌, ◌^◌, ◌++◌, [], ◌∷◌, List, length, map, fold, slice_get, Some, option_map, replicate, IfOk, OnOk};
ghost use Rattle.bound_cover.specs.Covers.{CoverRow};
ghost use Rattle.bound_cover.specs.Exploring.{layer_of};
ghost use Rattle.bound_cover.specs.Stored.{with_row};
ghost use Rattle.cover_join.specs.Joined.{joined_layer, joined_layers, shifted_arc, shifted_row};
ghost use Rattle.cover_join.specs.Joining.{answers_in};

use crate::arcs::{rows_of, shifted, with_rows};
use bound_cover::{Cover, CoverArc, MOST_ROWS};
use cover_text::CoverText;
use dp_model::OutOfMemory;
use std::alloc::Global;

/// Adds a row to the last layer, where it has room.
#[tactic(auto, using(crate::proofs::Rows::last_is, crate::proofs::Rows::length_with_row))]
pub(crate) fn add_row(
    cover: &mut Cover,
    bound: Option<i64>,
    words: &[i64],
    arcs: Option<&[CoverArc]>,
) -> Result<(), OutOfMemory>
    requires { 0 < length cover.old }
    ensures row { OnOk result (cover.new ≡ with_row cover.old (record { bound = bound; words = words.now; arcs = option_map (λ a. a.now) arcs.entry })) }
    ensures layers { OnOk result (length cover.new ≡ length cover.old) }
{
    if rows_of(cover, cover.layers() - 1) >= MOST_ROWS {
        return Err(OutOfMemory);
    }
    cover.add_row(bound, words, arcs)
}

/// Adds an arc with its target after this number of further rows.
fn push_arc(out: &mut Vec<CoverArc>, arc: CoverArc, before: u32) -> Result<(), OutOfMemory>
    ensures { OnOk result (out.new.items ≡ out.old.items ++ shifted_arc before arc ∷ []) }
{
    let target = shifted(before, arc.target)?;
    out.push(CoverArc {
        decision: arc.decision,
        target,
    })?;
    Ok(())
}

/// The arcs with their targets after this number of further rows.
fn shifted_arcs(alloc: Global, arcs: &[CoverArc], before: u32) -> Result<Vec<CoverArc>, OutOfMemory>
    ensures { IfOk result (λ out. out.items ≡ map (shifted_arc before) arcs.now) }
{
    let mut out = Vec::new(alloc);
    let mut rest = arcs;
    while let [arc, after @ ..] = rest {
        push_arc(&mut out, *arc, before)?;
        rest = after;
    }
    Ok(out)
}

/// Adds a row of a part, with its targets after this number of further rows.
#[tactic(auto, using(crate::proofs::Rows::row_seen))]
fn push_row(
    alloc: Global,
    cover: &mut Cover,
    part: &Cover,
    layer: usize,
    row: usize,
    before: u32,
) -> Result<(), OutOfMemory>
    requires layer { 0 < length cover.old }
    requires row { row < length (layer_of part.now layer) }
    ensures row { OnOk result (option_map (λ r. with_row cover.old (shifted_row before r)) (slice_get (layer_of part.now layer) row) ≡ Some cover.new) }
    ensures layers { OnOk result (length cover.new ≡ length cover.old) }
{
    let bound = part.bound(layer, row);
    let words = part.words(layer, row);
    match part.arcs(layer, row) {
        None => add_row(cover, bound, words, None),
        Some(arcs) => {
            let arcs = shifted_arcs(alloc, arcs, before)?;
            add_row(cover, bound, words, Some(arcs.as_slice()))
        }
    }
}

/// Adds the rows of a layer of a part, with their targets after this number of further rows.
#[tactic(auto, using(crate::proofs::Rows::row_steps))]
pub(crate) fn push_rows(
    alloc: Global,
    cover: &mut Cover,
    part: &Cover,
    layer: usize,
    before: u32,
) -> Result<(), OutOfMemory>
    requires { 0 < length cover.old }
    ensures rows { OnOk result (cover.new ≡ fold with_row cover.old (map (shifted_row before) (layer_of part.now layer))) }
    ensures layers { OnOk result (length cover.new ≡ length cover.old) }
{
    for row in 0..rows_of(part, layer) {
        push_row(alloc, cover, part, layer, row, before)?;
    }
    Ok(())
}

/// Adds the rows of the layer of all parts to the last layer.
#[tactic(auto, using(crate::proofs::Rows::part_added))]
fn push_parts(
    alloc: Global,
    cover: &mut Cover,
    layer: usize,
    texts: &[CoverText],
) -> Result<(), OutOfMemory>
    requires layer { 0 < length cover.old }
    requires few { layer < 2 ^ 32 }
    ensures { OnOk result (cover.new ≡ fold with_row cover.old (joined_layer layer 0 (answers_in texts.now))) }
{
    let mut rest = texts;
    let mut before = 0;
    while let [text, after @ ..] = rest {
        push_rows(alloc, cover, &text.cover, layer, before)?;
        before = with_rows(before, &text.cover, layer + 1)?;
        rest = after;
    }
    Ok(())
}

/// Adds the next layer, with the rows of all parts.
#[tactic(auto, using(crate::proofs::Rows::layer_added))]
fn push_layer(
    alloc: Global,
    cover: &mut Cover,
    layer: usize,
    texts: &[CoverText],
) -> Result<(), OutOfMemory>
    requires { layer < 2 ^ 32 }
    ensures { OnOk result (cover.new ≡ cover.old ++ joined_layer layer 0 (answers_in texts.now) ∷ []) }
{
    cover.add_layer()?;
    push_parts(alloc, cover, layer, texts)
}

/// Adds the layers from 1 to the last one.
#[tactic(auto, using(crate::proofs::Rows::layer_steps))]
pub(crate) fn push_layers(
    alloc: Global,
    cover: &mut Cover,
    vars: usize,
    texts: &[CoverText],
) -> Result<(), OutOfMemory>
    requires { vars < 2 ^ 31 }
    ensures { OnOk result (cover.new ≡ cover.old ++ joined_layers vars 1 (answers_in texts.now)) }
{
    for layer in 0..vars {
        push_layer(alloc, cover, layer + 1, texts)?;
    }
    Ok(())
}

/// Adds layers without rows.
#[tactic(auto, using(crate::proofs::Rows::empty_steps))]
pub(crate) fn push_empty(cover: &mut Cover, count: usize) -> Result<(), OutOfMemory>
    ensures { OnOk result (cover.new ≡ cover.old ++ replicate count []) }
{
    for _ in 0..count {
        cover.add_layer()?;
    }
    Ok(())
}
