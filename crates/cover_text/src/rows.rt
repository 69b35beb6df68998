//! The lines of rows, read.

ghost use Rattle.std.specs.Prelude.{◌≡◌, [], ◌++◌, ◌+◌, ◌<◌, ◌≤◌, ◌-◌, ◌^◌, ℤ, pos, cond, length, replicate, Option, Some, None, OnOk, IfOk, false};
ghost use Rattle.tokens.specs.Text.{ends_line};
ghost use Rattle.bound_cover.specs.Stored.{last_layer};
ghost use Rattle.cover_text.specs.Grammar.{Reads, until};
ghost use Rattle.cover_text.specs.RowLines.{bound_at, semicolon_at, state_word_at, ends_words, arc_at, target_at, arcs_at, row_into};

use crate::cover_error::CoverError;
use crate::fixed::{early_end, pass_word};
use bound_cover::{CoverArc, CoverBuilder, MOST_BOUND};
use dp_model::OutOfMemory;
use tokens::{Tokens, ZEROS};

/// Reads a bound: `none`, or a number from `-2^62` to `2^62`.
#[inline]
#[tactic(auto, unfolding(crate::specs::RowLines::bound_at), using(crate::proofs::Passing::passing_steps))]
fn read_bound(tokens: &mut Tokens<'_>) -> Result<Option<i64>, CoverError>
    ensures { Reads (λ b. (b, tokens.new)) result (bound_at tokens.old) }
{
    if tokens.pass_if(b"none") {
        return Ok(None);
    }
    let bound = tokens.next_number(-MOST_BOUND, MOST_BOUND)?;
    Ok(Some(bound))
}

/// Passes over the semicolon after a bound, which stands on its line.
#[inline]
#[tactic(auto, unfolding(crate::specs::RowLines::semicolon_at), using(crate::proofs::Passing::passing_steps))]
fn pass_semicolon(tokens: &mut Tokens<'_>) -> Result<(), CoverError>
    ensures { Reads (λ _. tokens.new) result (semicolon_at tokens.old) }
{
    if tokens.at_line_end() {
        return Err(early_end(tokens));
    }
    if tokens.pass_if(b";") {
        return Ok(());
    }
    pass_word(tokens, b";")
}

/// Whether the words of a row end here: at the line's end, and before a semicolon.
fn ends_words(tokens: &Tokens<'_>) -> bool
    ensures { result ≡ ends_words tokens.now }
{
    tokens.at_line_end() || tokens.next_is(b";")
}

/// Reads a word of a state after those before it.
#[tactic(auto, unfolding(crate::specs::RowLines::state_word_at))]
fn read_word(tokens: &mut Tokens<'_>, rows: &mut CoverBuilder) -> Result<(), CoverError>
    ensures read { Reads (λ _. (rows.new.words, tokens.new)) result (state_word_at rows.old.words tokens.old) }
    ensures cover { rows.new.cover ≡ rows.old.cover }
    ensures arcs { rows.new.arcs ≡ rows.old.arcs }
{
    let word = tokens.next_number(i64::MIN, i64::MAX)?;
    rows.push_word(word)?;
    Ok(())
}

/// Adds `ZEROS` zeros to the words.
#[inline]
#[tactic(auto, using(crate::proofs::ZerosRead::zero_added))]
fn add_zeros(rows: &mut CoverBuilder) -> Result<(), OutOfMemory>
    ensures words { OnOk result (rows.new.words ≡ rows.old.words ++ replicate ZEROS (pos 0)) }
    ensures cover { rows.new.cover ≡ rows.old.cover }
    ensures arcs { rows.new.arcs ≡ rows.old.arcs }
{
    for _ in 0..ZEROS {
        rows.push_word(0)?;
    }
    Ok(())
}

/// Reads the zeros with which words begin, `ZEROS` at a time, and tells how many of the words these are.
#[inline]
#[tactic(auto, using(crate::proofs::ZerosRead::eight_read))]
fn read_zeros(
    tokens: &mut Tokens<'_>,
    most: usize,
    rows: &mut CoverBuilder,
) -> Result<usize, OutOfMemory>
    ensures read { IfOk result (λ done. until ends_words state_word_at (most - done) rows.new.words tokens.new ≡ until ends_words state_word_at most rows.old.words tokens.old) }
    ensures few { IfOk result (λ done. done ≤ most) }
    ensures cover { rows.new.cover ≡ rows.old.cover }
    ensures arcs { rows.new.arcs ≡ rows.old.arcs }
{
    let count = most / ZEROS;
    'eights: for block in 0..count {
        if !tokens.pass_zeros() {
            return Ok(ZEROS * block);
        }
        add_zeros(rows)?;
    }
    Ok(ZEROS * count)
}

/// Reads words one by one, at most this many.
#[tactic(auto, using(crate::proofs::Chains::until_steps))]
fn read_each(
    tokens: &mut Tokens<'_>,
    most: usize,
    rows: &mut CoverBuilder,
) -> Result<(), CoverError>
    ensures read { Reads (λ _. (rows.new.words, tokens.new)) result (until ends_words state_word_at most rows.old.words tokens.old) }
    ensures cover { rows.new.cover ≡ rows.old.cover }
    ensures arcs { rows.new.arcs ≡ rows.old.arcs }
{
    for _ in 0..most {
        if ends_words(tokens) {
            return Ok(());
        }
        read_word(tokens, rows)?;
    }
    Ok(())
}

/// Reads the words of a row, at most this many. Many rows begin with zeros, for what is decided already.
fn read_words(
    tokens: &mut Tokens<'_>,
    most: usize,
    rows: &mut CoverBuilder,
) -> Result<(), CoverError>
    ensures read { Reads (λ _. (rows.new.words, tokens.new)) result (until ends_words state_word_at most rows.old.words tokens.old) }
    ensures cover { rows.new.cover ≡ rows.old.cover }
    ensures arcs { rows.new.arcs ≡ rows.old.arcs }
{
    let done = read_zeros(tokens, most, rows)?;
    read_each(tokens, most - done, rows)
}

/// Reads the target of an arc: a row's number, or `r`.
#[tactic(auto, unfolding(crate::specs::RowLines::target_at, crate::specs::Grammar::small_at), using(crate::proofs::Chains::part_fails, crate::proofs::Passing::passing_steps))]
fn read_target(tokens: &mut Tokens<'_>) -> Result<Option<u32>, CoverError>
    ensures { Reads (λ t. (t, tokens.new)) result (target_at tokens.old) }
{
    if tokens.at_line_end() {
        return Err(early_end(tokens));
    }
    if tokens.pass_if(b"r") {
        return Ok(None);
    }
    let row = tokens.next_u32()?;
    Ok(Some(row))
}

/// Reads an arc after those before it.
#[tactic(auto, unfolding(crate::specs::RowLines::arc_at, crate::specs::Grammar::small_at), using(crate::proofs::Chains::part_fails))]
fn read_arc(tokens: &mut Tokens<'_>, rows: &mut CoverBuilder) -> Result<(), CoverError>
    ensures read { Reads (λ _. (rows.new.arcs, tokens.new)) result (arc_at rows.old.arcs tokens.old) }
    ensures cover { rows.new.cover ≡ rows.old.cover }
    ensures words { rows.new.words ≡ rows.old.words }
{
    let decision = tokens.next_u32()?;
    let target = read_target(tokens)?;
    rows.push_arc(CoverArc { decision, target })?;
    Ok(())
}

/// Reads the arcs up to the line's end, at most this many.
#[inline(never)]
#[tactic(auto, using(crate::proofs::Chains::until_steps))]
fn read_arc_list(
    tokens: &mut Tokens<'_>,
    most: usize,
    rows: &mut CoverBuilder,
) -> Result<(), CoverError>
    ensures read { Reads (λ _. (rows.new.arcs, tokens.new)) result (until ends_line arc_at most rows.old.arcs tokens.old) }
    ensures cover { rows.new.cover ≡ rows.old.cover }
    ensures words { rows.new.words ≡ rows.old.words }
{
    for _ in 0..most {
        if tokens.at_line_end() {
            return Ok(());
        }
        read_arc(tokens, rows)?;
    }
    Ok(())
}

/// Reads the arc part, and tells whether there is one.
#[tactic(auto, unfolding(crate::specs::RowLines::arcs_at), using(crate::proofs::Chains::part_fails, crate::proofs::Chains::passed_fails, crate::proofs::Passing::passing_steps))]
fn read_arcs(
    tokens: &mut Tokens<'_>,
    most: usize,
    rows: &mut CoverBuilder,
) -> Result<bool, CoverError>
    requires { rows.old.arcs ≡ [] }
    ensures read { Reads (λ has_arcs. (cond has_arcs (Some rows.new.arcs) None, tokens.new)) result (arcs_at most tokens.old) }
    ensures cover { rows.new.cover ≡ rows.old.cover }
    ensures words { rows.new.words ≡ rows.old.words }
{
    if tokens.at_line_end() {
        return Ok(false);
    }
    if !tokens.pass_if(b";") {
        pass_word(tokens, b";")?;
    }
    read_arc_list(tokens, most, rows)?;
    Ok(true)
}

/// Reads a row into the last layer.
#[inline(never)]
#[tactic(auto, unfolding(crate::specs::RowLines::row_into), using(crate::proofs::LastLayers::last_grows, crate::proofs::LastLayers::length_with_row, crate::proofs::Chains::part_fails, crate::proofs::Chains::passed_fails))]
pub(crate) fn read_row(
    tokens: &mut Tokens<'_>,
    most: usize,
    rows: &mut CoverBuilder,
) -> Result<(), CoverError>
    requires layer { 0 < length rows.old.cover }
    requires few { length (last_layer rows.old.cover) < 2 ^ 32 - 1 }
    requires no_words { rows.old.words ≡ [] }
    requires no_arcs { rows.old.arcs ≡ [] }
    ensures read { Reads (λ _. (rows.new.cover, tokens.new)) result (row_into most rows.old.cover tokens.old) }
    ensures layers { OnOk result (length rows.new.cover ≡ length rows.old.cover) }
    ensures count { OnOk result (length (last_layer rows.new.cover) ≡ length (last_layer rows.old.cover) + 1) }
    ensures words { OnOk result (rows.new.words ≡ []) }
    ensures arcs { OnOk result (rows.new.arcs ≡ []) }
{
    let bound = read_bound(tokens)?;
    pass_semicolon(tokens)?;
    read_words(tokens, most, rows)?;
    let has_arcs = read_arcs(tokens, most, rows)?;
    rows.end_row(bound, has_arcs)?;
    Ok(())
}
