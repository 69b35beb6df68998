//! Reports, one after another.

ghost use Rattle.std.specs.Prelude.{◌≡◌, ◌<◌, ◌-◌, ◌^◌, ◌++◌, [], ◌∷◌, length, map, IfOk, OnOk};
ghost use Rattle.dp_model.specs.Distances.{IsDistance};
ghost use Rattle.dp_model.specs.Lists.{Each};
ghost use Rattle.tokens.specs.Text.{is_at_end};
ghost use Rattle.part_text.specs.Grammar.{Reads, until};
ghost use Rattle.part_text.specs.Reports.{next_at, report_at, reports_of, settled_view};

use crate::best::{pass_counts, read_best};
use crate::head::read_head;
use crate::read_reports_error::ReadReportsError;
use crate::settled_report::SettledReport;
use part_reports::PartReport;
use std::alloc::Global;
use tokens::{Comment, Tokens};

/// Reads a report.
#[tactic(auto, unfolding(crate::specs::Reports::report_at), using(crate::proofs::Chains::part_fails, crate::proofs::Chains::passed_fails))]
fn read_report(
    alloc: Global,
    tokens: &mut Tokens<'_>,
    most: usize,
) -> Result<SettledReport, ReadReportsError>
    ensures { Reads (λ r. (settled_view r, tokens.new)) result (report_at most tokens.old) }
{
    let head = read_head(tokens)?;
    let best = read_best(alloc, tokens, most)?;
    pass_counts(tokens)?;
    let digest = head.digest;
    let report = PartReport {
        index: head.part.index,
        of: head.part.of,
        digest,
        best,
    };
    Ok(SettledReport {
        report,
        within: head.within,
    })
}

/// Reads a report after those before it.
#[tactic(auto, unfolding(crate::specs::Reports::next_at), using(crate::proofs::Chains::part_fails))]
fn read_next(
    alloc: Global,
    tokens: &mut Tokens<'_>,
    most: usize,
    reports: &mut Vec<SettledReport>,
) -> Result<(), ReadReportsError>
    ensures { Reads (λ _. (map settled_view reports.new.items, tokens.new)) result (next_at most (map settled_view reports.old.items) tokens.old) }
{
    let report = read_report(alloc, tokens, most)?;
    reports.push(report)?;
    Ok(())
}

/// Reads further reports to the end of the text.
#[tactic(auto, using(crate::proofs::Chains::until_steps))]
fn read_more(
    alloc: Global,
    tokens: &mut Tokens<'_>,
    most: usize,
    reports: &mut Vec<SettledReport>,
) -> Result<(), ReadReportsError>
    ensures { Reads (λ _. (map settled_view reports.new.items, tokens.new)) result (until is_at_end (next_at most) most (map settled_view reports.old.items) tokens.old) }
{
    for _ in 0..most {
        if tokens.at_end() {
            return Ok(());
        }
        read_next(alloc, tokens, most, reports)?;
    }
    Ok(())
}

/// Reads one or more reports of parts that are settled, to the end of the input.
///
/// Each token may stand after any blanks. The lines `taken` and `finished` after a report are passed over.
///
/// # Errors
///
/// `Text` with the first fault and its place, which is always the same:
///
/// - `EndOfText` where the text ends in a report; without a report that is a fault too.
/// - `Word` where another word stands than may stand there. So a report that begins with `stopped` is refused at its first word.
/// - `NotNumber` or `OutOfRange` at a number that is none, or out of its range: a distance is from 1 to 2^50, a value has 64 bits and a
///   decision 32.
/// - `NotAscii` at a token whose first byte is not ASCII.
///
/// `OutOfMemory` alone at any input.
#[tactic(auto, unfolding(crate::specs::Reports::reports_of), using(crate::proofs::Chains::part_fails))]
pub fn read_reports(alloc: Global, bytes: &[u8]) -> Result<Vec<SettledReport>, ReadReportsError>
    requires { length bytes.now < 2 ^ 32 - 1 }
    ensures read { Reads (λ reports. map settled_view reports.items) result (reports_of bytes.now) }
{
    let mut tokens = Tokens::new(bytes, Comment::Never);
    let mut reports = Vec::new(alloc);
    read_next(alloc, &mut tokens, bytes.len(), &mut reports)?;
    read_more(alloc, &mut tokens, bytes.len(), &mut reports)?;
    tokens.finish()?;
    Ok(reports)
}
