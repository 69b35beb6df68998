ghost use Rattle.std.specs.Prelude.{◌≡◌, ◌∷◌, [], ◌++◌, pos, IfOk, OnOk, codes, option_map};
ghost use Rattle.std.specs.Fmt.{decimal};
ghost use Rattle.bound_cover.specs.declared.cover.Verdict.TheVariants.{Refused};
ghost use Rattle.hex.specs.Hex.{encode_lower};
ghost use Rattle.solver_report.specs.Report.{report, status_of, outcome_status, covered_status, text_after, words_status, journal_status, journal_line, line, number_line, spaced, assignment_line, solution_lines, proved_line, outcome_lines, count_line, count_lines, words_line, incumbent_lines, stop_line, fault_word, fault_line, failure_numbers, table_words, refusal_line, why_words, verdict_line, verdict_status, join_line, join_status, part_lines, settled_line, settled_lines, open_lines, part_outcome_lines, part_status, report_refusal_line, report_refusal_status};

use crate::answer::{
    Answer, Counts, JoinRefusal, Outcome, PartOutcome, ReportRefusal, SearchedPart, Solution, Stop,
};
use crate::exit_status::{
    DISK_FAILED, DONE, INFEASIBLE, OUT_OF_MEMORY, REFUSED_COVER, REFUSED_INPUT, REFUSED_JOURNAL,
    REFUSED_WORDS, STOPPED, UNREAD,
};
use bound_cover::{Verdict, Why};
use dp_model::OutOfMemory;
use itoa::Buffer;
use journal_file::JournalError;
use problem_theory::InstanceRefusal;
use solver_words::WordsError;
use std::alloc::Global;
use table_refusal::{Failure, TableError};
use tokens::{InstanceError, InstanceFault, push_number, push_text};

/// The exit status of an answer.
pub fn status(answer: &Answer) -> u8
    ensures { result ≡ status_of answer.now }
{
    match answer {
        Answer::Searched(outcome, _) => outcome_status(outcome),
        Answer::Covered(outcome, _, cover) => covered_status(outcome, cover),
        Answer::Digest(_) | Answer::Drawn(_) | Answer::PartFile(_) => DONE,
        Answer::Checked(verdict) => verdict_status(*verdict),
        Answer::Refused(_)
        | Answer::CoverRefused(_)
        | Answer::ReportRefused(_)
        | Answer::PartTooLarge
        | Answer::TooLong => REFUSED_INPUT,
        Answer::PartsRefused(refusal) => join_status(*refusal),
        Answer::PartSearched { outcome, .. } => part_status(outcome),
        Answer::ReportsRefused(refusal) => report_refusal_status(*refusal),
        Answer::Width => REFUSED_WORDS,
        Answer::Words(error) => words_status(*error),
        Answer::Journal(error) => journal_status(*error),
        Answer::ReadFault => UNREAD,
        Answer::OutOfMemory => OUT_OF_MEMORY,
    }
}

/// The exit status of a search.
fn outcome_status(outcome: &Outcome) -> u8
    ensures { result ≡ outcome_status outcome.now }
{
    match outcome {
        Outcome::Proved { .. } => DONE,
        Outcome::Infeasible => INFEASIBLE,
        Outcome::Stopped(_, _, _) => STOPPED,
    }
}

/// The exit status of a search with its cover, or with no memory for that.
fn covered_status(outcome: &Outcome, cover: &Option<Vec<u8>>) -> u8
    ensures { result ≡ covered_status outcome.now cover.now }
{
    match cover {
        Some(_) => outcome_status(outcome),
        None => OUT_OF_MEMORY,
    }
}

/// The exit status of a check.
fn verdict_status(verdict: Verdict) -> u8
    ensures { result ≡ verdict_status verdict }
{
    match verdict {
        Verdict::Accepted => DONE,
        Verdict::Refused(_) => REFUSED_COVER,
    }
}

/// The exit status of outputs that are not joined.
fn join_status(refusal: JoinRefusal) -> u8
    ensures { result ≡ join_status refusal }
{
    match refusal {
        JoinRefusal::Order { .. } | JoinRefusal::Instance { .. } => REFUSED_INPUT,
        JoinRefusal::Refused { .. } => REFUSED_COVER,
    }
}

/// The exit status of the search of a part.
fn part_status(outcome: &PartOutcome) -> u8
    ensures { result ≡ part_status outcome.now }
{
    match outcome {
        PartOutcome::Settled { .. } => DONE,
        PartOutcome::Stopped(_, _, _) => STOPPED,
    }
}

/// The exit status of reports that are not joined.
fn report_refusal_status(refusal: ReportRefusal) -> u8
    ensures { result ≡ report_refusal_status refusal }
{
    match refusal {
        ReportRefusal::Order { .. }
        | ReportRefusal::Journal { .. }
        | ReportRefusal::Distance { .. } => REFUSED_INPUT,
        ReportRefusal::Value { .. } => REFUSED_COVER,
    }
}

/// The exit status of words that are refused, or that there was no memory for.
fn words_status(error: WordsError) -> u8
    ensures { result ≡ words_status error }
{
    match error {
        WordsError::Usage | WordsError::Model | WordsError::Number { .. } | WordsError::Cutset => {
            REFUSED_WORDS
        }
        WordsError::OutOfMemory => OUT_OF_MEMORY,
    }
}

/// The exit status of a journal that is not begun, or whose search does not go on.
fn journal_status(error: JournalError) -> u8
    ensures { result ≡ journal_status error }
{
    match error {
        JournalError::NotBegun
        | JournalError::Exists
        | JournalError::Damaged { .. }
        | JournalError::Malformed { .. }
        | JournalError::Version { .. }
        | JournalError::NoSolution { .. } => REFUSED_JOURNAL,
        JournalError::OutOfMemory => OUT_OF_MEMORY,
        JournalError::Disk => DISK_FAILED,
    }
}

/// The text of an answer. Fails only for want of memory.
pub fn report_text(alloc: Global, answer: &Answer) -> Result<Vec<u8>, OutOfMemory>
    ensures { IfOk result (λ text. text.items ≡ report answer.now) }
{
    let mut out = Vec::new(alloc);
    match answer {
        Answer::Searched(outcome, counts) => push_search(&mut out, outcome, *counts)?,
        Answer::Covered(outcome, counts, cover) => {
            push_covered(&mut out, outcome, *counts, cover)?
        }
        Answer::Digest(digest) => push_digest(&mut out, alloc, digest)?,
        Answer::Drawn(text) => out.extend_from_slice(text.as_slice())?,
        Answer::Checked(verdict) => push_verdict(&mut out, *verdict)?,
        Answer::Refused(refusal) => push_unspelled(&mut out, refusal)?,
        Answer::CoverRefused(error) => push_fault(&mut out, "cover ", error)?,
        Answer::PartsRefused(refusal) => push_join_refusal(&mut out, *refusal)?,
        Answer::PartFile(bytes) => out.extend_from_slice(bytes.as_slice())?,
        Answer::PartSearched {
            part,
            outcome,
            counts,
        } => push_part_search(&mut out, alloc, part, outcome, *counts)?,
        Answer::ReportRefused(error) => push_fault(&mut out, "report ", error)?,
        Answer::ReportsRefused(refusal) => push_report_refusal(&mut out, *refusal)?,
        Answer::PartTooLarge => push_line(&mut out, "part too-long")?,
        Answer::TooLong => push_line(&mut out, "input too-long")?,
        Answer::Width => push_line(&mut out, "width")?,
        Answer::Words(error) => push_words(&mut out, *error)?,
        Answer::Journal(error) => push_journal(&mut out, *error)?,
        Answer::ReadFault => push_line(&mut out, "read fault")?,
        Answer::OutOfMemory => push_line(&mut out, "out of memory")?,
    }
    Ok(out)
}

/// Appends the report of a search.
fn push_search(
    out: &mut Vec<u8>,
    outcome: &Outcome,
    counts: Option<Counts>,
) -> Result<(), OutOfMemory>
    ensures { OnOk result (out.new.items ≡ out.old.items ++ (outcome_lines outcome.now ++ count_lines counts)) }
{
    push_outcome(out, outcome)?;
    push_counts(out, counts)
}

/// Appends the report of a search and then its cover.
fn push_covered(
    out: &mut Vec<u8>,
    outcome: &Outcome,
    counts: Option<Counts>,
    cover: &Option<Vec<u8>>,
) -> Result<(), OutOfMemory>
    ensures { OnOk result (out.new.items ≡ out.old.items ++ (outcome_lines outcome.now ++ (count_lines counts ++ text_after cover.now))) }
{
    push_search(out, outcome, counts)?;
    push_after(out, cover)
}

/// Appends the text of a cover, or that memory ran out for it.
fn push_after(out: &mut Vec<u8>, cover: &Option<Vec<u8>>) -> Result<(), OutOfMemory>
    ensures { OnOk result (out.new.items ≡ out.old.items ++ text_after cover.now) }
{
    match cover {
        Some(text) => out.extend_from_slice(text.as_slice()),
        None => push_line(out, "out of memory"),
    }
}

/// Appends how a search ended.
fn push_outcome(out: &mut Vec<u8>, outcome: &Outcome) -> Result<(), OutOfMemory>
    ensures { OnOk result (out.new.items ≡ out.old.items ++ outcome_lines outcome.now) }
{
    match outcome {
        Outcome::Proved { best, within } => push_proved(out, best, *within),
        Outcome::Infeasible => push_line(out, "infeasible"),
        Outcome::Stopped(stop, incumbent, bound) => push_stopped(out, *stop, incumbent, *bound),
    }
}

/// Appends the counts of a search, where they are asked for.
fn push_counts(out: &mut Vec<u8>, counts: Option<Counts>) -> Result<(), OutOfMemory>
    ensures { OnOk result (out.new.items ≡ out.old.items ++ count_lines counts) }
{
    let Some(counts) = counts else {
        return Ok(());
    };
    push_count_line(out, "taken", counts.taken)?;
    push_count_line(out, "finished", counts.finished)
}

/// Appends a line of a word and a count.
fn push_count_line(out: &mut Vec<u8>, word: &str, count: u64) -> Result<(), OutOfMemory>
    ensures { OnOk result (out.new.items ≡ out.old.items ++ count_line word.now count) }
{
    push_text(out, word)?;
    push_text(out, " ")?;
    push_count(out, count)?;
    push_text(out, "\n")
}

/// Appends a count in decimal.
fn push_count(out: &mut Vec<u8>, count: u64) -> Result<(), OutOfMemory>
    ensures { OnOk result (out.new.items ≡ out.old.items ++ decimal count) }
{
    let mut buffer = Buffer::new();
    out.extend_from_slice(buffer.format(count).as_bytes())
}

/// Appends why words are refused, or that there was no memory for them.
fn push_words(out: &mut Vec<u8>, error: WordsError) -> Result<(), OutOfMemory>
    ensures { OnOk result (out.new.items ≡ out.old.items ++ words_line error) }
{
    match error {
        WordsError::Usage => push_line(out, "words usage"),
        WordsError::Model => push_line(out, "words model"),
        WordsError::Number { option } => push_named_number(out, option),
        WordsError::Cutset => push_line(out, "words cutset"),
        WordsError::OutOfMemory => push_line(out, "out of memory"),
    }
}

/// Appends that the number of that name is refused.
fn push_named_number(out: &mut Vec<u8>, name: &str) -> Result<(), OutOfMemory>
    ensures { OnOk result (out.new.items ≡ out.old.items ++ line (codes "words number " ++ name.now)) }
{
    push_text(out, "words number ")?;
    push_line(out, name)
}

/// Appends why a journal is not begun, or why its search does not go on.
fn push_journal(out: &mut Vec<u8>, error: JournalError) -> Result<(), OutOfMemory>
    ensures { OnOk result (out.new.items ≡ out.old.items ++ journal_line error) }
{
    match error {
        JournalError::Disk => push_line(out, "disk fault"),
        JournalError::NotBegun => push_line(out, "journal not-begun"),
        JournalError::Exists => push_line(out, "journal exists"),
        JournalError::Damaged { offset } => push_count_line(out, "journal damaged", offset),
        JournalError::Malformed { offset } => push_count_line(out, "journal malformed", offset),
        JournalError::Version { found } => push_count_line(
            out,
            "journal version",
            u64::from(found),
        ),
        JournalError::NoSolution { offset } => push_count_line(out, "journal no-solution", offset),
        JournalError::OutOfMemory => push_line(out, "out of memory"),
    }
}

/// Appends a line.
fn push_line(out: &mut Vec<u8>, text: &str) -> Result<(), OutOfMemory>
    ensures { OnOk result (out.new.items ≡ out.old.items ++ line text.now) }
{
    push_text(out, text)?;
    push_text(out, "\n")
}

/// Appends a line of a word and a number.
fn push_number_line(out: &mut Vec<u8>, word: &str, value: i64) -> Result<(), OutOfMemory>
    ensures { OnOk result (out.new.items ≡ out.old.items ++ number_line word.now value) }
{
    push_text(out, word)?;
    push_text(out, " ")?;
    push_number(out, value)?;
    push_text(out, "\n")
}

/// Appends a space and a number for each of the numbers.
fn push_spaced(out: &mut Vec<u8>, numbers: &[u32]) -> Result<(), OutOfMemory>
    ensures { OnOk result (out.new.items ≡ out.old.items ++ spaced numbers.now) }
{
    for d in numbers {
        push_text(out, " ")?;
        push_number(out, i64::from(*d))?;
    }
    Ok(())
}

/// Appends the value and the assignment of a solution.
fn push_solution(out: &mut Vec<u8>, found: &Solution) -> Result<(), OutOfMemory>
    ensures { OnOk result (out.new.items ≡ out.old.items ++ solution_lines found.now) }
{
    push_number_line(out, "value", found.value())?;
    push_text(out, "assignment")?;
    push_spaced(out, found.decisions())?;
    push_text(out, "\n")
}

/// Appends the report of a solution, and how far a better one may be above it.
fn push_proved(out: &mut Vec<u8>, found: &Solution, within: i64) -> Result<(), OutOfMemory>
    ensures { OnOk result (out.new.items ≡ out.old.items ++ (proved_line within ++ solution_lines found.now)) }
{
    push_distance(out, within)?;
    push_solution(out, found)
}

/// Appends the first line of such a report.
fn push_distance(out: &mut Vec<u8>, within: i64) -> Result<(), OutOfMemory>
    ensures { OnOk result (out.new.items ≡ out.old.items ++ proved_line within) }
{
    if within > 0 {
        push_number_line(out, "proved within", within)
    } else {
        push_line(out, "proved")
    }
}

/// Appends the report of a search that ended early.
fn push_stopped(
    out: &mut Vec<u8>,
    stop: Stop,
    incumbent: &Option<Solution>,
    bound: i64,
) -> Result<(), OutOfMemory>
    ensures { OnOk result (out.new.items ≡ out.old.items ++ (stop_line stop ++ incumbent_lines incumbent.now ++ number_line (codes "bound") bound)) }
{
    push_stop(out, stop)?;
    push_incumbent(out, incumbent)?;
    push_number_line(out, "bound", bound)
}

/// Appends why a search ended early.
fn push_stop(out: &mut Vec<u8>, stop: Stop) -> Result<(), OutOfMemory>
    ensures { OnOk result (out.new.items ≡ out.old.items ++ stop_line stop) }
{
    match stop {
        Stop::Budget => push_line(out, "stopped budget"),
        Stop::Memory => push_line(out, "stopped memory"),
        Stop::Journal => push_line(out, "stopped journal"),
    }
}

/// Appends the incumbent, or that there is none.
fn push_incumbent(out: &mut Vec<u8>, incumbent: &Option<Solution>) -> Result<(), OutOfMemory>
    ensures { OnOk result (out.new.items ≡ out.old.items ++ incumbent_lines incumbent.now) }
{
    match incumbent {
        Some(found) => push_solution(out, found),
        None => push_line(out, "value none"),
    }
}

/// Appends the report of the search of a part.
fn push_part_search(
    out: &mut Vec<u8>,
    alloc: Global,
    part: &SearchedPart,
    outcome: &PartOutcome,
    counts: Option<Counts>,
) -> Result<(), OutOfMemory>
    ensures { OnOk result (out.new.items ≡ out.old.items ++ (part_outcome_lines part.now outcome.now ++ count_lines counts)) }
{
    push_part_outcome(out, alloc, part, outcome)?;
    push_counts(out, counts)
}

/// Appends how the search of a part ended.
fn push_part_outcome(
    out: &mut Vec<u8>,
    alloc: Global,
    part: &SearchedPart,
    outcome: &PartOutcome,
) -> Result<(), OutOfMemory>
    ensures { OnOk result (out.new.items ≡ out.old.items ++ part_outcome_lines part.now outcome.now) }
{
    match outcome {
        PartOutcome::Settled { best, within } => push_settled(out, alloc, part, best, *within),
        PartOutcome::Stopped(stop, incumbent, bound) => {
            push_stop(out, *stop)?;
            push_part(out, alloc, part)?;
            push_incumbent(out, incumbent)?;
            push_number_line(out, "bound", *bound)
        }
    }
}

/// Appends the report of a part that is settled.
fn push_settled(
    out: &mut Vec<u8>,
    alloc: Global,
    part: &SearchedPart,
    best: &Option<Solution>,
    within: i64,
) -> Result<(), OutOfMemory>
    ensures { OnOk result (out.new.items ≡ out.old.items ++ settled_lines part.now best.now within) }
{
    push_settled_line(out, within)?;
    push_part(out, alloc, part)?;
    push_incumbent(out, best)
}

/// Appends the first line of such a report.
fn push_settled_line(out: &mut Vec<u8>, within: i64) -> Result<(), OutOfMemory>
    ensures { OnOk result (out.new.items ≡ out.old.items ++ settled_line within) }
{
    if within > 0 {
        push_number_line(out, "settled within", within)
    } else {
        push_line(out, "settled")
    }
}

/// Appends which part was searched, and of which journal.
fn push_part(out: &mut Vec<u8>, alloc: Global, part: &SearchedPart) -> Result<(), OutOfMemory>
    ensures { OnOk result (out.new.items ≡ out.old.items ++ part_lines part.now) }
{
    push_text(out, "part ")?;
    push_count(out, u64::from(part.index))?;
    push_text(out, "/")?;
    push_count(out, u64::from(part.of))?;
    push_text(out, "\njournal ")?;
    push_digest(out, alloc, &part.digest)
}

/// Appends why reports are not joined.
fn push_report_refusal(out: &mut Vec<u8>, refusal: ReportRefusal) -> Result<(), OutOfMemory>
    ensures { OnOk result (out.new.items ≡ out.old.items ++ report_refusal_line refusal) }
{
    match refusal {
        ReportRefusal::Order { index } => push_count_line(out, "reports order", index),
        ReportRefusal::Journal { index } => push_count_line(out, "reports journal", index),
        ReportRefusal::Distance { index } => push_count_line(out, "reports distance", index),
        ReportRefusal::Value { index } => push_count_line(out, "reports value", index),
    }
}

/// Appends a digest in hexadecimal digits.
fn push_digest(out: &mut Vec<u8>, alloc: Global, digest: &[u8; 32]) -> Result<(), OutOfMemory>
    ensures { OnOk result (out.new.items ≡ out.old.items ++ line (encode_lower digest.now)) }
{
    let digits = hex::encode(alloc, digest.as_slice())?;
    push_line(out, digits.as_str())
}

/// Appends the verdict on a cover.
fn push_verdict(out: &mut Vec<u8>, verdict: Verdict) -> Result<(), OutOfMemory>
    ensures { OnOk result (out.new.items ≡ out.old.items ++ verdict_line verdict) }
{
    match verdict {
        Verdict::Accepted => push_line(out, "accepted"),
        Verdict::Refused(why) => push_refusal(out, why),
    }
}

/// Appends that a cover is refused, and why.
fn push_refusal(out: &mut Vec<u8>, why: Why) -> Result<(), OutOfMemory>
    ensures { OnOk result (out.new.items ≡ out.old.items ++ line (codes "refused " ++ why_words why)) }
{
    push_text(out, "refused ")?;
    push_why(out, why)?;
    push_text(out, "\n")
}

/// Appends why outputs are not joined.
fn push_join_refusal(out: &mut Vec<u8>, refusal: JoinRefusal) -> Result<(), OutOfMemory>
    ensures { OnOk result (out.new.items ≡ out.old.items ++ join_line refusal) }
{
    match refusal {
        JoinRefusal::Order { index } => push_number_line(out, "parts order", i64::from(index)),
        JoinRefusal::Instance { index } => push_number_line(
            out,
            "parts instance",
            i64::from(index),
        ),
        JoinRefusal::Refused { index, why } => push_part_refusal(out, index, why),
    }
}

/// Appends that the cover of a part is refused, and why.
fn push_part_refusal(out: &mut Vec<u8>, index: u32, why: Why) -> Result<(), OutOfMemory>
    ensures { OnOk result (out.new.items ≡ out.old.items ++ (codes "part" ++ spaced (index ∷ []) ++ (32 ∷ verdict_line (Refused why)))) }
{
    push_at(out, "part", &[index])?;
    push_text(out, " ")?;
    push_refusal(out, why)
}

/// Appends the test that fails, and where.
fn push_why(out: &mut Vec<u8>, why: Why) -> Result<(), OutOfMemory>
    ensures { OnOk result (out.new.items ≡ out.old.items ++ why_words why) }
{
    match why {
        Why::Layers => push_text(out, "layers"),
        Why::Assignment => push_text(out, "assignment"),
        Why::Value => push_text(out, "value"),
        Why::Root => push_text(out, "root"),
        Why::Row { layer, row } => push_at(out, "row", &[layer, row]),
        Why::Rough { layer, row } => push_at(out, "rough", &[layer, row]),
        Why::Target {
            layer,
            row,
            decision,
        } => push_at(out, "target", &[layer, row, decision]),
        Why::Arc {
            layer,
            row,
            decision,
        } => push_at(out, "arc", &[layer, row, decision]),
        Why::Terminal { row } => push_at(out, "terminal", &[row]),
    }
}

/// Appends a word, and a space and a number for each of the numbers.
fn push_at(out: &mut Vec<u8>, word: &str, numbers: &[u32]) -> Result<(), OutOfMemory>
    ensures { OnOk result (out.new.items ≡ out.old.items ++ (word.now ++ spaced numbers.now)) }
{
    push_text(out, word)?;
    push_spaced(out, numbers)
}

/// Appends a fault of a text and its place.
fn push_fault(out: &mut Vec<u8>, subject: &str, error: &InstanceError) -> Result<(), OutOfMemory>
    ensures { OnOk result (out.new.items ≡ out.old.items ++ fault_line subject.now error.now) }
{
    push_text(out, subject)?;
    push_text(out, word_of(error.fault))?;
    push_text(out, " ")?;
    push_number(out, i64::from(error.place.line))?;
    push_text(out, " ")?;
    push_number(out, i64::from(error.place.column))?;
    push_text(out, "\n")
}

/// Appends why a text spells no instance.
fn push_unspelled(out: &mut Vec<u8>, refusal: &InstanceRefusal) -> Result<(), OutOfMemory>
    ensures { OnOk result (out.new.items ≡ out.old.items ++ refusal_line refusal.now) }
{
    match refusal {
        InstanceRefusal::Text(error) => push_fault(out, "instance ", error),
        InstanceRefusal::Table(error) => push_no_table(out, *error),
    }
}

/// Appends that a document is no table, and why.
fn push_no_table(out: &mut Vec<u8>, error: TableError) -> Result<(), OutOfMemory>
    ensures { OnOk result (out.new.items ≡ out.old.items ++ line (codes "table " ++ table_words error)) }
{
    push_text(out, "table ")?;
    push_table_words(out, error)?;
    push_text(out, "\n")
}

/// Appends why a document is no table.
fn push_table_words(out: &mut Vec<u8>, error: TableError) -> Result<(), OutOfMemory>
    ensures { OnOk result (out.new.items ≡ out.old.items ++ table_words error) }
{
    match error {
        TableError::Json => push_text(out, "json"),
        TableError::Shape { layer: None } => push_text(out, "shape"),
        TableError::Shape { layer: Some(layer) } => push_at(out, "shape", &[layer]),
        TableError::Law(failure) => push_at(out, "law", &failure_numbers(failure)),
    }
}

/// The number of the law, the layer, and the two numbers at which a test fails.
fn failure_numbers(failure: Failure) -> [u32; 4]
    ensures { result ≡ failure_numbers failure }
{
    let law = u32::from(failure.law.number());
    [law, failure.layer, failure.first, failure.second]
}

/// The word for a fault.
fn word_of(fault: InstanceFault) -> &'static str
    ensures { result.now ≡ fault_word fault }
{
    match fault {
        InstanceFault::NotNumber => "not-number",
        InstanceFault::OutOfRange => "out-of-range",
        InstanceFault::EndOfText => "end-of-text",
        InstanceFault::Trailing => "trailing",
        InstanceFault::NotAscii => "not-ascii",
        InstanceFault::Count => "count",
        InstanceFault::Limit => "limit",
        InstanceFault::ThreeLiterals => "three-literals",
        InstanceFault::Hard => "hard",
        InstanceFault::Vertex => "vertex",
        InstanceFault::Window => "window",
        InstanceFault::Word => "word",
    }
}
