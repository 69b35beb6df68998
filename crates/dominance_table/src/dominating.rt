//! Which entries dominate a new state.

ghost use Rattle.std.specs.Prelude.{◌≡◌, ℕ, ◌+◌, ◌*◌, ◌<◌, ◌≤◌, ◌≤ℤ◌, ◌-ℤ◌, length, take, true, Option, Some};
ghost use Rattle.std.specs.Int.{w64, saturate_signed};
ghost use Rattle.dp_model.specs.Gaps.{IsStateOf, covers_at};
ghost use Rattle.dominance_table.specs.Dominator.{lesser, entry_dominates, dominator, IsReached, AreStates};
ghost use Rattle.dominance_table.specs.Entries.{AreGrouped, AreRising, entry_at, row_at, with_row, with_rows};
ghost use Rattle.dominance_table.specs.Groups.{start_at};

use crate::entry::Entry;
use crate::groups::{Groups, Run, group_fold};
use dp_model::DpModel;

/// The entries of a table with their rows.
#[derive(Drop)]
pub struct Seen<'a> {
    /// The entries in the order of their puts.
    pub entries: &'a [Entry],
    /// The rows of the entries, one after another.
    pub cells: &'a [i64],
    /// How many cells a row has.
    pub words: usize,
    /// True only if no ticket is less than an earlier one.
    pub rising: bool,
}

/// A new state.
#[derive(Drop)]
pub struct Sought<'a> {
    /// Its depth.
    pub depth: usize,
    /// Its bucket in the model.
    pub bucket: u64,
    /// Its row.
    pub row: &'a [i64],
    /// Its rank in the model.
    pub rank: i64,
    /// The value that it is reached with.
    pub value: i64,
}

/// The cells of the row at a place.
fn row_at(cells: &[i64], words: usize, place: usize) -> &[i64]
    requires { place * words + words ≤ length cells.now }
    ensures { result.now ≡ row_at cells.now words place }
{
    let at = place * words;
    &cells[at..at + words]
}

/// The lesser of two tickets.
fn lesser(least: Option<u64>, ticket: u64) -> Option<u64>
    ensures { result ≡ lesser least (Some ticket) }
{
    match least {
        Some(least) if least <= ticket => Some(least),
        _ => Some(ticket),
    }
}

/// How much the first value exceeds the second, at most `i64::MAX`.
fn excess(above: i64, value: i64) -> i64
    requires { value ≤ℤ above }
    ensures { result ≡ saturate_signed w64 (above -ℤ value) }
{
    above.abs_diff(value).min(i64::MAX.cast_unsigned()) as i64
}

/// Whether the sum of the new value and the gap from the entry's row to the new state is at most the entry's value.
fn covers<M: DpModel>(model: &M, entry: &Entry, row: &[i64], sought: &Sought) -> bool
    requires state { IsStateOf (M.meaning (M.numbers model.now)) sought.now.depth sought.now.row.now }
    requires rank { sought.now.rank ≡ (M.meaning (M.numbers model.now)).rank sought.now.depth sought.now.row.now }
    requires row { IsReached (M.meaning (M.numbers model.now)) sought.now.depth row.now entry.now.rank }
    requires worth { sought.now.value ≤ℤ entry.now.value }
    ensures { result ≡ covers_at ((M.meaning (M.numbers model.now)).gap sought.now.depth row.now sought.now.row.now) entry.now.value sought.now.value }
{
    let most = excess(entry.value, sought.value);
    model
        .covers_within(sought.depth, row, entry.rank, sought.row, sought.rank, most)
        .is_some()
}

/// Whether the entry with this row dominates. It has the depth and the bucket of the new state. A gap is no less than zero, so the
/// values are compared first, which often decides.
fn dominates<M: DpModel>(model: &M, entry: &Entry, row: &[i64], sought: &Sought) -> bool
    requires state { IsStateOf (M.meaning (M.numbers model.now)) sought.now.depth sought.now.row.now }
    requires rank { sought.now.rank ≡ (M.meaning (M.numbers model.now)).rank sought.now.depth sought.now.row.now }
    requires depth { entry.now.depth ≡ sought.now.depth }
    requires bucket { entry.now.bucket ≡ (M.meaning (M.numbers model.now)).bucket sought.now.depth sought.now.row.now }
    requires row { IsReached (M.meaning (M.numbers model.now)) sought.now.depth row.now entry.now.rank }
    ensures { result ≡ entry_dominates (M.meaning (M.numbers model.now)) sought.now.depth sought.now.row.now sought.now.value (with_row entry.now row.now) }
{
    if entry.value < sought.value {
        return false;
    }
    covers(model, entry, row, sought)
}

/// The lesser of `least` and the least ticket of the dominating entries from the place `from` to before `end`. All entries there have the
/// depth and the bucket. If tickets rise, the first dominating entry ends the search.
fn least_in_run<M: DpModel>(
    model: &M,
    seen: &Seen,
    from: usize,
    end: usize,
    least: Option<u64>,
    sought: &Sought,
) -> Option<u64>
    requires state { IsStateOf (M.meaning (M.numbers model.now)) sought.now.depth sought.now.row.now }
    requires rank { sought.now.rank ≡ (M.meaning (M.numbers model.now)).rank sought.now.depth sought.now.row.now }
    requires rows { AreStates (M.meaning (M.numbers model.now)) sought.now.depth (with_rows seen.now.words seen.now.entries.now seen.now.cells.now) }
    requires cells { length seen.now.cells.now ≡ length seen.now.entries.now * seen.now.words }
    requires rising { seen.now.rising ≡ true → AreRising seen.now.entries.now }
    requires order { from ≤ end }
    requires end { end ≤ length seen.now.entries.now }
    requires depth { (i : ℕ) → from ≤ i → i < end → (entry_at seen.now.entries.now i).depth ≡ sought.now.depth }
    requires bucket { (i : ℕ) → from ≤ i → i < end → (entry_at seen.now.entries.now i).bucket ≡ (M.meaning (M.numbers model.now)).bucket sought.now.depth sought.now.row.now }
    requires least { least ≡ dominator (M.meaning (M.numbers model.now)) (take from (with_rows seen.now.words seen.now.entries.now seen.now.cells.now)) sought.now.depth sought.now.row.now sought.now.value }
    ensures { result ≡ dominator (M.meaning (M.numbers model.now)) (take end (with_rows seen.now.words seen.now.entries.now seen.now.cells.now)) sought.now.depth sought.now.row.now sought.now.value }
{
    let mut least = least;
    let mut at = from;
    while at < end {
        let entry = &seen.entries[at];
        if dominates(model, entry, row_at(seen.cells, seen.words, at), sought) {
            least = lesser(least, entry.ticket);
            if seen.rising {
                return least;
            }
        }
        at += 1;
    }
    least
}

/// The place of the first entry of the run at a place. It is the end of the run before.
fn start_of(runs: &[Run], at: usize) -> usize
    requires { at ≤ length runs.now }
    ensures { result ≡ start_at runs.now at }
{
    if at == 0 {
        return 0;
    }
    runs[at - 1].end
}

/// The least ticket of the entries that dominate. If tickets rise, the first dominating entry ends the search.
#[inline(never)]
pub fn least_dominator<M: DpModel>(
    model: &M,
    seen: &Seen,
    groups: &Groups,
    sought: &Sought,
) -> Option<u64>
    requires state { IsStateOf (M.meaning (M.numbers model.now)) sought.now.depth sought.now.row.now }
    requires bucket { sought.now.bucket ≡ (M.meaning (M.numbers model.now)).bucket sought.now.depth sought.now.row.now }
    requires rank { sought.now.rank ≡ (M.meaning (M.numbers model.now)).rank sought.now.depth sought.now.row.now }
    requires rows { AreStates (M.meaning (M.numbers model.now)) sought.now.depth (with_rows seen.now.words seen.now.entries.now seen.now.cells.now) }
    requires cells { length seen.now.cells.now ≡ length seen.now.entries.now * seen.now.words }
    requires grouped { AreGrouped seen.now.entries.now groups.now.runs }
    requires rising { seen.now.rising ≡ true → AreRising seen.now.entries.now }
    ensures { result ≡ dominator (M.meaning (M.numbers model.now)) (with_rows seen.now.words seen.now.entries.now seen.now.cells.now) sought.now.depth sought.now.row.now sought.now.value }
{
    let runs = groups.runs();
    let mut least = None;
    let mut at = groups.first(group_fold(sought.depth, sought.bucket));
    while at < runs.len() {
        let run = &runs[at];
        if run.depth == sought.depth && run.bucket == sought.bucket {
            least = least_in_run(model, seen, start_of(runs, at), run.end, least, sought);
            if seen.rising && least.is_some() {
                return least;
            }
        }
        at = groups.next(at);
    }
    least
}
