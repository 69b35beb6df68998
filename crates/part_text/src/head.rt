//! The lines before the value, read.

ghost use Rattle.std.specs.Prelude.{◌≡◌, IfOk};
ghost use Rattle.dp_model.specs.Distances.{IsDistance};
ghost use Rattle.part_text.specs.Grammar.{Reads};
ghost use Rattle.part_text.specs.Reports.{digest_at, distance_at, head_at, part_at};

use crate::fixed::{is_word, pass_word, wrong_word};
use crate::read_reports_error::ReadReportsError;
use crate::written::{digest_written, part_written};
use dp_model::MOST_DISTANCE;
use problem_names::PartNumber;
use tokens::Tokens;

/// What stands before the value.
#[derive(Clone, Copy, Debug)]
pub(crate) struct Head {
    pub(crate) within: i64,
    pub(crate) part: PartNumber,
    pub(crate) digest: [u8; 32],
}

/// Reads the distance, which is 0 where none stands here, and passes over the word `part` after it.
#[tactic(auto, unfolding(crate::specs::Reports::distance_at), using(crate::proofs::Chains::passed_fails))]
fn read_distance(tokens: &mut Tokens<'_>) -> Result<i64, ReadReportsError>
    ensures read { Reads (λ within. (within, tokens.new)) result (distance_at tokens.old) }
    ensures distance { IfOk result (λ within. IsDistance within) }
{
    let place = tokens.place();
    let word = tokens.next_word()?;
    if is_word(word, b"part") {
        return Ok(0);
    }
    if !is_word(word, b"within") {
        return Err(wrong_word(place));
    }
    let within = tokens.next_number(1, MOST_DISTANCE as i64)?;
    pass_word(tokens, b"part")?;
    Ok(within)
}

/// Reads the part.
#[tactic(auto, unfolding(crate::specs::Reports::part_at))]
fn read_part(tokens: &mut Tokens<'_>) -> Result<PartNumber, ReadReportsError>
    ensures { Reads (λ part. (part, tokens.new)) result (part_at tokens.old) }
{
    let place = tokens.place();
    let word = tokens.next_word()?;
    match part_written(word) {
        Some(part) => Ok(part),
        None => Err(wrong_word(place)),
    }
}

/// Reads the digest of the journal.
#[tactic(auto, unfolding(crate::specs::Reports::digest_at))]
fn read_digest(tokens: &mut Tokens<'_>) -> Result<[u8; 32], ReadReportsError>
    ensures { Reads (λ digest. (digest, tokens.new)) result (digest_at tokens.old) }
{
    let place = tokens.place();
    let word = tokens.next_word()?;
    match digest_written(word) {
        Some(digest) => Ok(digest),
        None => Err(wrong_word(place)),
    }
}

/// Reads the lines before the value.
#[tactic(auto, unfolding(crate::specs::Reports::head_at), using(crate::proofs::Chains::part_fails, crate::proofs::Chains::passed_fails))]
pub(crate) fn read_head(tokens: &mut Tokens<'_>) -> Result<Head, ReadReportsError>
    ensures read { Reads (λ head. (head, tokens.new)) result (head_at tokens.old) }
    ensures distance { IfOk result (λ head. IsDistance head.within) }
{
    pass_word(tokens, b"settled")?;
    let within = read_distance(tokens)?;
    let part = read_part(tokens)?;
    pass_word(tokens, b"journal")?;
    let digest = read_digest(tokens)?;
    Ok(Head {
        within,
        part,
        digest,
    })
}
