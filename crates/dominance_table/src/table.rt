ghost use Rattle.std.specs.Prelude.{◌≡◌, ℕ, ◌+◌, ◌≤◌, ◌<◌, ◌⊎◌, [], length, true, IfOk, OnOk, OnErr};
ghost use Rattle.dp_model.specs.Gaps.{IsStateOf};
ghost use Rattle.dominance_table.specs.Dominator.{dominator, AreStates, entry_of_state};
ghost use Rattle.dominance_table.specs.Entries.{put_gives, after_put, entry_at, with_row};

use crate::dominating::{Seen, Sought, least_dominator};
use crate::entry::Entry;
use crate::groups::Groups;
use crate::put::Put;
use dp_model::{DpModel, OutOfMemory};
use std::alloc::Global;
use std::marker::Model;

/// States that were reached, each with its depth, bucket, rank, value and ticket, in the order of their puts, up to a limit.
///
/// The rows lie one after another in one block. Entries of one depth and bucket that were put one after another are a run, and the
/// runs of one fold of depth and bucket are in a chain.
#[derive(Debug, Drop)]
pub struct Table {
    words: usize,
    limit: u32,
    // for how many entries there is memory, those that are in the table included
    room: usize,
    // true only if no ticket is less than an earlier one
    rising: bool,
    entries: Vec<Entry>,
    cells: Vec<i64>,
    groups: Groups,
}

impl Model for Table {
    ghost use Rattle.std.specs.Prelude.{◌-◌, vec_len, vec_capacity};
    ghost use Rattle.std.specs.Prelude.{◌≡◌, true, length};
    ghost use Rattle.dominance_table.specs.Entries.{TableView, HasRoom, HasRunRoom, AreGrouped, AreRising, with_rows};

    ghost Value = { TableView };

    ghost view = { λ t. record {
      entries = with_rows t.words t.entries.items t.cells.items;
      words = t.words;
      limit = t.limit;
      spare = t.room - vec_len t.entries;
    } };

    ghost invariant = { λ t. HasRoom t.words t.limit t.room (vec_len t.entries) (vec_capacity t.entries) (vec_len t.cells) (vec_capacity t.cells)
        × (HasRunRoom t.room (vec_len t.entries) (length t.groups.runs) t.groups.room × (AreGrouped t.entries.items t.groups.runs × (t.rising ≡ true → AreRising t.entries.items))) };
}

impl Table {
    /// An empty table for rows of this many cells, with `spare` 0. It takes no memory.
    pub fn new(alloc: Global, words: usize, limit: u32) -> Table
        requires { 1 ≤ words }
        ensures { result ≡ record { entries = []; words = words; limit = limit; spare = 0 } }
    {
        Table {
            words,
            limit,
            room: 0,
            rising: true,
            entries: Vec::new(alloc),
            cells: Vec::new(alloc),
            groups: Groups::new(alloc),
        }
    }

    /// Makes `spare` at least `rows`, so that there is memory for this many more entries. Fails only for want of memory, and then
    /// changes nothing.
    pub fn reserve(&mut self, rows: usize) -> Result<(), OutOfMemory>
        ensures kept { self.new ≡ record self.old { spare = self.new.spare } }
        ensures spare { self.old.spare ≤ self.new.spare }
        ensures ok { OnOk result (rows ≤ self.new.spare) }
        ensures err { OnErr result (self.new ≡ self.old) }
    {
        let Some(room) = self.entries.len().checked_add(rows) else {
            return Err(OutOfMemory);
        };
        if room <= self.room {
            return Ok(());
        }
        let Some(cells) = rows.checked_mul(self.words) else {
            return Err(OutOfMemory);
        };
        self.entries.reserve(rows)?;
        self.cells.reserve(cells)?;
        self.groups.reserve(rows)?;
        self.room = room;
        Ok(())
    }

    /// Puts a state at the end, with the bucket and the rank that the model gives. This lowers `spare` by one. If there are as many
    /// entries as the limit, it answers `AtLimit` and changes nothing. It takes no memory.
    ///
    /// The row is a state of the depth and has `words` cells, and `spare` is above zero or the limit is reached.
    pub fn put<M: DpModel>(
        &mut self,
        model: &M,
        depth: usize,
        row: &[i64],
        value: i64,
        ticket: u64,
    ) -> Put
        requires state { IsStateOf (M.meaning (M.numbers model.now)) depth row.now }
        requires cells { length row.now ≡ self.old.words }
        requires room { (0 < self.old.spare) ⊎ (length self.old.entries ≡ self.old.limit) }
        ensures answer { result ≡ put_gives self.old }
        ensures step { self.new ≡ after_put self.old (entry_of_state (M.meaning (M.numbers model.now)) depth row.now value ticket) }
    {
        let bucket = model.bucket(depth, row);
        let rank = model.rank(depth, row);
        let entry = Entry {
            depth,
            bucket,
            rank,
            value,
            ticket,
        };
        self.put_entry(entry, row)
    }

    /// Puts an entry with its row at the end.
    fn put_entry(&mut self, entry: Entry, row: &[i64]) -> Put
        requires cells { length row.now ≡ self.old.words }
        requires room { (0 < self.old.spare) ⊎ (length self.old.entries ≡ self.old.limit) }
        ensures answer { result ≡ put_gives self.old }
        ensures step { self.new ≡ after_put self.old (with_row entry row.now) }
    {
        if self.entries.len() == self.limit as usize {
            return Put::AtLimit;
        }
        self.rising = rise_with(self.rising, self.entries.as_slice(), entry.ticket);
        self.groups
            .enter(entry.depth, entry.bucket, self.entries.len() + 1);
        self.entries.push_reserved(entry);
        let _ = self.cells.extend_from_slice(row);
        Put::Yes
    }

    /// The least ticket of the entries that dominate the state with this value, or `None` exactly if no entry does. An entry dominates if
    /// it has the depth and the bucket of the state, and its value is no less than the sum of the new value and the gap from its row to
    /// the new one. It takes no memory.
    ///
    /// The row is a state of the depth, and so are the rows of all entries of that depth. The ranks of these entries are those of this
    /// model.
    pub fn dominator<M: DpModel>(
        &self,
        model: &M,
        depth: usize,
        row: &[i64],
        value: i64,
    ) -> Option<u64>
        requires state { IsStateOf (M.meaning (M.numbers model.now)) depth row.now }
        requires rows { AreStates (M.meaning (M.numbers model.now)) depth self.now.entries }
        ensures { result ≡ dominator (M.meaning (M.numbers model.now)) self.now.entries depth row.now value }
    {
        let sought = Sought {
            depth,
            bucket: model.bucket(depth, row),
            row,
            rank: model.rank(depth, row),
            value,
        };
        let seen = Seen {
            entries: self.entries.as_slice(),
            cells: self.cells.as_slice(),
            words: self.words,
            rising: self.rising,
        };
        least_dominator(model, &seen, &self.groups, &sought)
    }

    /// How many entries there are, at most the limit.
    pub fn len(&self) -> usize
        ensures len { result ≡ length self.now.entries }
        ensures most { result ≤ self.now.limit }
    {
        self.entries.len()
    }

    /// For how many more entries there is memory.
    pub fn spare(&self) -> usize
        ensures { result ≡ self.now.spare }
    {
        self.room - self.entries.len()
    }

    /// How many entries there are at most.
    pub fn limit(&self) -> u32
        ensures { result ≡ self.now.limit }
    {
        self.limit
    }

    /// How many cells a row has.
    pub fn words(&self) -> usize
        ensures words { result ≡ self.now.words }
        ensures some { 1 ≤ result }
    {
        self.words
    }
}

/// Whether the tickets still rise with one more at the end. `rising` tells whether they rise so far.
fn rise_with(rising: bool, entries: &[Entry], ticket: u64) -> bool
    ensures so_far { result ≡ true → rising ≡ true }
    ensures last { (i : ℕ) → result ≡ true → i + 1 ≡ length entries.now → (entry_at entries.now i).ticket ≤ ticket }
{
    match entries.last() {
        Some(last) => rising && last.ticket <= ticket,
        None => rising,
    }
}
