//! The lines before the instance, read.

ghost use Rattle.std.specs.Prelude.{◌≡◌, ◌<◌, ◌-◌, ◌^◌, length, IfOk};
ghost use Rattle.dp_model.specs.Distances.{IsDistance};
ghost use Rattle.problem_names.specs.ModelNames.{model_named};
ghost use Rattle.problem_names.specs.Parts.{IsPart, MayBePart};
ghost use Rattle.tokens.specs.Text.{ends_line, text_start};
ghost use Rattle.tokens.specs.declared.comment.Comment.TheVariants.{Never};
ghost use Rattle.cover_text.specs.Grammar.{Reads, until};
ghost use Rattle.cover_text.specs.Heads.{claim_in, claim_at, counts_at, decision_at, distance_at, head_in, head_at, count_at, name_at, part_at, part_number_at, size_at, solution_at};

use crate::cover_error::CoverError;
use crate::fixed::{is_word, pass_word};
use dp_model::MOST_DISTANCE;
use problem_names::{MOST_PARTS, ModelName, PartNumber};
use std::alloc::Global;
use tokens::{Comment, Tokens, is_count};

/// The reported value, distance and assignment.
#[derive(Debug, Drop)]
pub(crate) struct Claim {
    pub(crate) best: Option<i64>,
    pub(crate) within: i64,
    pub(crate) assignment: Vec<u32>,
}

/// How many bytes the instance has, and the line on which this number stands.
#[derive(Clone, Copy, Debug)]
pub(crate) struct Size {
    pub(crate) bytes: u32,
    pub(crate) line: u32,
}

/// What stands before the instance.
#[derive(Debug, Drop)]
pub(crate) struct Head {
    pub(crate) claim: Claim,
    pub(crate) model: ModelName,
    pub(crate) part: Option<PartNumber>,
    pub(crate) size: Size,
}

/// Reads a decision after those before it.
#[tactic(auto, unfolding(crate::specs::Heads::decision_at, crate::specs::Grammar::small_at), using(crate::proofs::Chains::part_fails))]
fn read_decision(tokens: &mut Tokens<'_>, decisions: &mut Vec<u32>) -> Result<(), CoverError>
    ensures { Reads (λ _. (decisions.new.items, tokens.new)) result (decision_at decisions.old.items tokens.old) }
{
    let decision = tokens.next_u32()?;
    decisions.push(decision)?;
    Ok(())
}

/// Reads the decisions up to the line's end, at most this many.
#[tactic(auto, using(crate::proofs::Chains::until_steps))]
fn read_decisions(
    tokens: &mut Tokens<'_>,
    most: usize,
    decisions: &mut Vec<u32>,
) -> Result<(), CoverError>
    ensures { Reads (λ _. (decisions.new.items, tokens.new)) result (until ends_line decision_at most decisions.old.items tokens.old) }
{
    for _ in 0..most {
        if tokens.at_line_end() {
            return Ok(());
        }
        read_decision(tokens, decisions)?;
    }
    Ok(())
}

/// Reads the distance, which is 0 where none stands here, and passes over the word `value` after it.
#[tactic(auto, unfolding(crate::specs::Heads::distance_at), using(crate::proofs::Chains::passed_fails))]
fn read_distance(tokens: &mut Tokens<'_>) -> Result<i64, CoverError>
    ensures read { Reads (λ within. (within, tokens.new)) result (distance_at tokens.old) }
    ensures distance { IfOk result (λ within. IsDistance within) }
{
    let place = tokens.place();
    let word = tokens.next_word()?;
    if is_word(word, b"value") {
        return Ok(0);
    }
    if !is_word(word, b"within") {
        return Err(CoverError::Word(place));
    }
    let within = tokens.next_number(0, MOST_DISTANCE as i64)?;
    pass_word(tokens, b"value")?;
    Ok(within)
}

/// Reads what stands after the word `proved`.
#[tactic(auto, unfolding(crate::specs::Heads::solution_at), using(crate::proofs::Chains::part_fails, crate::proofs::Chains::passed_fails))]
fn read_solution(alloc: Global, tokens: &mut Tokens<'_>, most: usize) -> Result<Claim, CoverError>
    ensures read { Reads (λ c. (claim_in c, tokens.new)) result (solution_at most tokens.old) }
    ensures distance { IfOk result (λ c. IsDistance c.within) }
{
    let within = read_distance(tokens)?;
    let best = tokens.next_number(i64::MIN, i64::MAX)?;
    pass_word(tokens, b"assignment")?;
    let mut assignment = Vec::new(alloc);
    read_decisions(tokens, most, &mut assignment)?;
    Ok(Claim {
        best: Some(best),
        within,
        assignment,
    })
}

/// Reads the report.
#[tactic(auto, unfolding(crate::specs::Heads::claim_at), using(crate::proofs::Chains::part_fails))]
fn read_claim(alloc: Global, tokens: &mut Tokens<'_>, most: usize) -> Result<Claim, CoverError>
    ensures read { Reads (λ c. (claim_in c, tokens.new)) result (claim_at most tokens.old) }
    ensures distance { IfOk result (λ c. IsDistance c.within) }
{
    let place = tokens.place();
    let word = tokens.next_word()?;
    if is_word(word, b"proved") {
        read_solution(alloc, tokens, most)
    } else if is_word(word, b"infeasible") {
        Ok(Claim {
            best: None,
            within: 0,
            assignment: Vec::new(alloc),
        })
    } else {
        Err(CoverError::Word(place))
    }
}

/// Passes over a number of the lines `taken` and `finished`.
#[tactic(auto, unfolding(crate::specs::Heads::count_at))]
fn pass_count(tokens: &mut Tokens<'_>) -> Result<(), CoverError>
    ensures { Reads (λ _. tokens.new) result (count_at tokens.old) }
{
    let place = tokens.place();
    let word = tokens.next_word()?;
    if is_count(word) {
        Ok(())
    } else {
        Err(CoverError::Word(place))
    }
}

/// Passes over the word `cover`, and over the lines `taken` and `finished` where they stand before it.
#[tactic(auto, unfolding(crate::specs::Heads::counts_at), using(crate::proofs::Chains::passed_fails))]
fn pass_counts(tokens: &mut Tokens<'_>) -> Result<(), CoverError>
    ensures { Reads (λ _. tokens.new) result (counts_at tokens.old) }
{
    let place = tokens.place();
    let word = tokens.next_word()?;
    if is_word(word, b"cover") {
        return Ok(());
    }
    if !is_word(word, b"taken") {
        return Err(CoverError::Word(place));
    }
    pass_count(tokens)?;
    pass_word(tokens, b"finished")?;
    pass_count(tokens)?;
    pass_word(tokens, b"cover")
}

/// The problem whose word this is, or `None` where it is the word of none.
fn named(word: &[u8]) -> Option<ModelName>
    ensures { result ≡ model_named word.now }
{
    ModelName::ALL
        .iter()
        .copied()
        .find(|name| word == name.text().as_bytes())
}

/// Reads the name of the problem.
#[tactic(auto, unfolding(crate::specs::Heads::name_at))]
fn read_name(tokens: &mut Tokens<'_>) -> Result<ModelName, CoverError>
    ensures { Reads (λ name. (name, tokens.new)) result (name_at tokens.old) }
{
    let place = tokens.place();
    let word = tokens.next_word()?;
    match named(word) {
        Some(name) => Ok(name),
        None => Err(CoverError::Word(place)),
    }
}

/// Reads the number of a part, and how many parts there are.
#[tactic(auto, unfolding(crate::specs::Heads::part_number_at))]
fn read_part_number(tokens: &mut Tokens<'_>) -> Result<PartNumber, CoverError>
    ensures read { Reads (λ part. (part, tokens.new)) result (part_number_at tokens.old) }
    ensures part { IfOk result (λ part. IsPart part) }
{
    let index = tokens.next_natural(0, u64::from(MOST_PARTS - 1))?;
    let of = tokens.next_natural(index + 1, u64::from(MOST_PARTS))?;
    Ok(PartNumber {
        index: index as u32,
        of: of as u32,
    })
}

/// Reads the part, which is none where no line of a part stands here, and passes over the word `instance` after it.
#[tactic(auto, unfolding(crate::specs::Heads::part_at), using(crate::proofs::Chains::part_fails, crate::proofs::Chains::passed_fails))]
fn read_part(tokens: &mut Tokens<'_>) -> Result<Option<PartNumber>, CoverError>
    ensures read { Reads (λ part. (part, tokens.new)) result (part_at tokens.old) }
    ensures part { IfOk result (λ part. MayBePart part) }
{
    let place = tokens.place();
    let word = tokens.next_word()?;
    if is_word(word, b"instance") {
        return Ok(None);
    }
    if !is_word(word, b"part") {
        return Err(CoverError::Word(place));
    }
    let part = read_part_number(tokens)?;
    pass_word(tokens, b"instance")?;
    Ok(Some(part))
}

/// Reads how many bytes the instance has, to the line's end.
#[tactic(auto, unfolding(crate::specs::Heads::size_at, crate::specs::Grammar::small_at), using(crate::proofs::Chains::part_fails))]
fn read_size(tokens: &mut Tokens<'_>) -> Result<Size, CoverError>
    ensures { Reads (λ size. (size, tokens.new)) result (size_at tokens.old) }
{
    let line = tokens.place().line;
    let bytes = tokens.next_u32()?;
    if !tokens.at_line_end() {
        tokens.finish()?;
    }
    Ok(Size { bytes, line })
}

/// Reads the lines before the instance.
#[tactic(auto, unfolding(crate::specs::Heads::head_at), using(crate::proofs::Chains::part_fails, crate::proofs::Chains::passed_fails))]
pub(crate) fn read_head(alloc: Global, bytes: &[u8]) -> Result<Head, CoverError>
    requires { length bytes.now < 2 ^ 32 - 1 }
    ensures read { Reads head_in result (head_at bytes.now) }
    ensures distance { IfOk result (λ head. IsDistance head.claim.within) }
    ensures part { IfOk result (λ head. MayBePart head.part) }
{
    let mut tokens = Tokens::new(bytes, Comment::Never);
    let claim = read_claim(alloc, &mut tokens, bytes.len())?;
    pass_counts(&mut tokens)?;
    let model = read_name(&mut tokens)?;
    let part = read_part(&mut tokens)?;
    let size = read_size(&mut tokens)?;
    Ok(Head {
        claim,
        model,
        part,
        size,
    })
}
