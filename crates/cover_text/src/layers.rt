//! The sections of layers, read.

ghost use Rattle.std.specs.Prelude.{◌≡◌, ◌<◌, ◌≤◌, ◌-◌, ◌^◌, ◌++◌, [], ◌∷◌, length, codes, OnOk};
ghost use Rattle.bound_cover.specs.Stored.{last_layer};
ghost use Rattle.cover_text.specs.Grammar.{Reads, until, never, stands};
ghost use Rattle.cover_text.specs.RowLines.{row_into};
ghost use Rattle.cover_text.specs.Sections.{layer_at, numbered_at, sections_at};

use crate::cover_error::CoverError;
use crate::fixed::pass_word;
use crate::rows::read_row;
use bound_cover::{Cover, CoverBuilder};
use itoa::Buffer;
use std::alloc::Global;
use tokens::{Comment, Tokens};

/// Reads this many rows into the last layer.
#[tactic(auto, using(crate::proofs::Chains::until_steps))]
fn read_rows(
    tokens: &mut Tokens<'_>,
    most: usize,
    rows: u32,
    cover: &mut CoverBuilder,
) -> Result<(), CoverError>
    requires layer { 0 < length cover.old.cover }
    requires empty { length (last_layer cover.old.cover) ≡ 0 }
    requires no_words { cover.old.words ≡ [] }
    requires no_arcs { cover.old.arcs ≡ [] }
    ensures read { Reads (λ _. (cover.new.cover, tokens.new)) result (until never (row_into most) rows cover.old.cover tokens.old) }
    ensures words { OnOk result (cover.new.words ≡ []) }
    ensures arcs { OnOk result (cover.new.arcs ≡ []) }
{
    for _ in 0..rows {
        read_row(tokens, most, cover)?;
    }
    Ok(())
}

/// Reads the section of the layer of this number, after those before it.
#[tactic(auto, unfolding(crate::specs::Sections::numbered_at, crate::specs::Grammar::small_at), using(crate::proofs::LastLayers::last_added, crate::proofs::Chains::part_fails, crate::proofs::Chains::passed_fails))]
pub(crate) fn read_numbered(
    tokens: &mut Tokens<'_>,
    most: usize,
    number: usize,
    cover: &mut CoverBuilder,
) -> Result<(), CoverError>
    requires no_words { cover.old.words ≡ [] }
    requires no_arcs { cover.old.arcs ≡ [] }
    ensures read { Reads (λ _. (cover.new.cover, tokens.new)) result (numbered_at most number cover.old.cover tokens.old) }
    ensures words { OnOk result (cover.new.words ≡ []) }
    ensures arcs { OnOk result (cover.new.arcs ≡ []) }
{
    pass_word(tokens, b"layer")?;
    let mut digits = Buffer::new();
    pass_word(tokens, digits.format(number).as_bytes())?;
    let rows = tokens.next_u32()?;
    cover.add_layer()?;
    read_rows(tokens, most, rows, cover)
}

/// Reads the section of the next layer.
#[tactic(auto, unfolding(crate::specs::Sections::layer_at))]
fn read_layer(
    tokens: &mut Tokens<'_>,
    most: usize,
    cover: &mut CoverBuilder,
) -> Result<(), CoverError>
    requires no_words { cover.old.words ≡ [] }
    requires no_arcs { cover.old.arcs ≡ [] }
    ensures read { Reads (λ _. (cover.new.cover, tokens.new)) result (layer_at most cover.old.cover tokens.old) }
    ensures words { OnOk result (cover.new.words ≡ []) }
    ensures arcs { OnOk result (cover.new.arcs ≡ []) }
{
    read_numbered(tokens, most, cover.layers(), cover)
}

/// Reads the sections up to the word `end`, at most this many.
#[tactic(auto, using(crate::proofs::Chains::until_steps))]
fn read_layers(
    tokens: &mut Tokens<'_>,
    most: usize,
    cover: &mut CoverBuilder,
) -> Result<(), CoverError>
    requires no_words { cover.old.words ≡ [] }
    requires no_arcs { cover.old.arcs ≡ [] }
    ensures read { Reads (λ _. (cover.new.cover, tokens.new)) result (until (stands (codes "end")) (layer_at most) most cover.old.cover tokens.old) }
    ensures words { OnOk result (cover.new.words ≡ []) }
    ensures arcs { OnOk result (cover.new.arcs ≡ []) }
{
    for _ in 0..most {
        if tokens.next_is(b"end") {
            return Ok(());
        }
        read_layer(tokens, most, cover)?;
    }
    Ok(())
}

/// Reads the sections to the end of the text.
#[tactic(auto, unfolding(crate::specs::Sections::sections_at), using(crate::proofs::Chains::part_fails, crate::proofs::Chains::passed_fails))]
pub(crate) fn read_sections(alloc: Global, bytes: &[u8]) -> Result<Cover, CoverError>
    requires { length bytes.now < 2 ^ 32 - 1 }
    ensures { Reads (λ c. c) result (sections_at bytes.now) }
{
    let mut tokens = Tokens::new(bytes, Comment::Never);
    let mut cover = CoverBuilder::new(alloc);
    read_layers(&mut tokens, bytes.len(), &mut cover)?;
    pass_word(&mut tokens, b"end")?;
    tokens.finish()?;
    Ok(cover.finish())
}
