//! The best solution and the counts, read.

ghost use Rattle.std.specs.Prelude.{◌≡◌, ◌-◌, option_map};
ghost use Rattle.tokens.specs.Text.{ends_line, token};
ghost use Rattle.journal_bytes.specs.Views.{incumbent_view};
ghost use Rattle.part_text.specs.Grammar.{Reads, until};
ghost use Rattle.part_text.specs.Reports.{best_at, count_at, counts_at, decision_at, solution_at};

use crate::fixed::{pass_word, wrong_word};
use crate::read_reports_error::ReadReportsError;
use journal_bytes::Incumbent;
use std::alloc::Global;
use tokens::{Tokens, is_count};

/// Reads a decision after those before it.
#[tactic(auto, unfolding(crate::specs::Reports::decision_at, crate::specs::Grammar::small_at), using(crate::proofs::Chains::part_fails))]
fn read_decision(tokens: &mut Tokens<'_>, decisions: &mut Vec<u32>) -> Result<(), ReadReportsError>
    ensures { Reads (λ _. (decisions.new.items, tokens.new)) result (decision_at decisions.old.items tokens.old) }
{
    let decision = tokens.next_u32()?;
    decisions.push(decision)?;
    Ok(())
}

/// Reads the decisions up to the line's end, at most this many.
#[tactic(auto, using(crate::proofs::Chains::until_steps))]
fn read_decisions(
    tokens: &mut Tokens<'_>,
    most: usize,
    decisions: &mut Vec<u32>,
) -> Result<(), ReadReportsError>
    ensures { Reads (λ _. (decisions.new.items, tokens.new)) result (until ends_line decision_at most decisions.old.items tokens.old) }
{
    for _ in 0..most {
        if tokens.at_line_end() {
            return Ok(());
        }
        read_decision(tokens, decisions)?;
    }
    Ok(())
}

/// Reads a value and an assignment.
#[tactic(auto, unfolding(crate::specs::Reports::solution_at), using(crate::proofs::Chains::part_fails, crate::proofs::Chains::passed_fails))]
fn read_solution(
    alloc: Global,
    tokens: &mut Tokens<'_>,
    most: usize,
) -> Result<Incumbent, ReadReportsError>
    ensures { Reads (λ b. (incumbent_view b, tokens.new)) result (solution_at most tokens.old) }
{
    let value = tokens.next_number(i64::MIN, i64::MAX)?;
    pass_word(tokens, b"assignment")?;
    let mut decisions = Vec::new(alloc);
    read_decisions(tokens, most, &mut decisions)?;
    Ok(Incumbent { value, decisions })
}

/// Reads the best solution, or that there is none.
#[tactic(auto, unfolding(crate::specs::Reports::best_at), using(crate::proofs::Chains::part_fails, crate::proofs::Chains::passed_fails))]
pub(crate) fn read_best(
    alloc: Global,
    tokens: &mut Tokens<'_>,
    most: usize,
) -> Result<Option<Incumbent>, ReadReportsError>
    ensures { Reads (λ o. (option_map incumbent_view o, tokens.new)) result (best_at most tokens.old) }
{
    pass_word(tokens, b"value")?;
    if tokens.pass_if(b"none") {
        return Ok(None);
    }
    let best = read_solution(alloc, tokens, most)?;
    Ok(Some(best))
}

/// Passes over a number of the lines `taken` and `finished`.
#[tactic(auto, unfolding(crate::specs::Reports::count_at))]
fn pass_count(tokens: &mut Tokens<'_>) -> Result<(), ReadReportsError>
    ensures { Reads (λ _. tokens.new) result (count_at tokens.old) }
{
    let place = tokens.place();
    let word = tokens.next_word()?;
    if is_count(word) {
        Ok(())
    } else {
        Err(wrong_word(place))
    }
}

/// Passes over the lines `taken` and `finished`, where they stand here.
#[tactic(auto, unfolding(crate::specs::Reports::counts_at), using(crate::proofs::Chains::passed_fails))]
pub(crate) fn pass_counts(tokens: &mut Tokens<'_>) -> Result<(), ReadReportsError>
    ensures { Reads (λ _. tokens.new) result (counts_at tokens.old) }
{
    if !tokens.pass_if(b"taken") {
        return Ok(());
    }
    pass_count(tokens)?;
    pass_word(tokens, b"finished")?;
    pass_count(tokens)
}
