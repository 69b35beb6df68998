//! The entries under each fold of depth and bucket, as chains of runs.

ghost use Rattle.std.specs.Prelude.{◌≡◌, ◌≢◌, ℕ, ◌+◌, ◌<◌, ◌≤◌, [], length, max, nat_eq, true, false, None, Some, IfSome, OnOk, OnErr, vec_len, vec_capacity};
ghost use Rattle.indexmap.specs.IndexMap.{get, spare};
ghost use Rattle.dominance_table.specs.Groups.{HasEnteredRun, IsAppended, IsLonger, fold_at, group_fold, ends_after, last_in, no_place};

use dp_model::{OutOfMemory, fold};
use indexmap::IndexMap;
use std::alloc::Global;
use std::marker::Model;

/// The place of no run. It is past all runs, so one comparison with their number tests a place for it.
const NO_RUN: usize = usize::MAX;

/// Entries of one depth and one bucket that were put one after another.
#[derive(Clone, Copy, Debug)]
pub struct Run {
    /// The depth of the entries.
    pub depth: usize,
    /// The bucket of the entries.
    pub bucket: u64,
    /// The place after the last entry.
    pub end: usize,
    /// The fold of the depth and the bucket.
    pub fold: u64,
    /// The place of the next run of that fold, or `NO_RUN`.
    pub next: usize,
}

/// The places of the first and the last run of a fold.
#[derive(Clone, Copy, Debug)]
pub struct Ends {
    /// The place of the first run.
    pub first: usize,
    /// The place of the last run.
    pub last: usize,
}

/// The runs in the order of their puts. The runs of each fold are in a chain.
#[derive(Debug, Drop)]
pub struct Groups {
    // for how many runs there is memory, those that are in the chains included
    room: usize,
    // the ends of the chain of each fold
    heads: IndexMap<u64, Ends>,
    runs: Vec<Run>,
}

impl Model for Groups {
    ghost use Rattle.std.specs.Prelude.{vec_capacity};
    ghost use Rattle.dominance_table.specs.Groups.{GroupsView, AreChained, HasRunHeadRoom};

    ghost Value = { GroupsView };

    ghost view = { λ g. record { runs = g.runs.items; room = g.room } };

    ghost invariant = { λ g. AreChained g.heads g.runs.items × HasRunHeadRoom g.heads g.runs.items g.room (vec_capacity g.runs) };
}

impl Groups {
    /// No runs, and room for none. It takes no memory.
    pub fn new(alloc: Global) -> Groups
        ensures { result ≡ record { runs = []; room = 0 } }
    {
        Groups {
            room: 0,
            heads: IndexMap::new(alloc),
            runs: Vec::new(alloc),
        }
    }

    /// For how many runs there is memory, those that are in the chains included.
    pub fn room(&self) -> usize
        ensures { result ≡ self.now.room }
    {
        self.room
    }

    /// Makes room for this many more runs. Fails only for want of memory, and then changes nothing.
    pub fn reserve(&mut self, count: usize) -> Result<(), OutOfMemory>
        ensures runs { self.new.runs ≡ self.old.runs }
        ensures ok { OnOk result (self.new.room ≡ max (length self.old.runs + count) self.old.room) }
        ensures err { OnErr result (self.new ≡ self.old) }
    {
        let len = self.runs.len();
        let Some(room) = len.checked_add(count) else {
            return Err(OutOfMemory);
        };
        self.runs.reserve(count)?;
        self.heads.reserve(count)?;
        self.room = room.max(self.room);
        Ok(())
    }

    /// The place of the first run of the fold, or a place past all runs.
    pub fn first(&self, fold: u64) -> usize
        ensures fold { result < length self.now.runs → fold_at self.now.runs result ≡ fold }
        ensures before { (j : ℕ) → j < result → j < length self.now.runs → fold_at self.now.runs j ≢ fold }
    {
        match self.heads.get(&fold) {
            Some(ends) => ends.first,
            None => NO_RUN,
        }
    }

    /// The place of the next run with the fold of the run at this place, or a place past all runs.
    pub fn next(&self, place: usize) -> usize
        requires { place < length self.now.runs }
        ensures later { place < result }
        ensures fold { result < length self.now.runs → fold_at self.now.runs result ≡ fold_at self.now.runs place }
        ensures between { (j : ℕ) → place < j → j < result → j < length self.now.runs → fold_at self.now.runs j ≢ fold_at self.now.runs place }
    {
        self.runs[place].next
    }

    /// All runs, in the order of their puts.
    pub fn runs(&self) -> &[Run]
        ensures { result.now ≡ self.now.runs }
    {
        self.runs.as_slice()
    }

    /// Enters one more entry of the depth and the bucket, at the place before `end`. It takes no memory.
    pub fn enter(&mut self, depth: usize, bucket: u64, end: usize)
        requires { length self.old.runs < self.old.room }
        ensures entered { HasEnteredRun self.old.runs self.new.runs depth bucket (group_fold depth bucket) end }
        ensures room { self.new.room ≡ self.old.room }
    {
        if lengthen(&mut self.runs, depth, bucket, end) {
            return;
        }
        let fold = group_fold(depth, bucket);
        let last = set_last(&mut self.heads, fold, self.runs.len());
        append(
            &mut self.runs,
            last,
            Run {
                depth,
                bucket,
                end,
                fold,
                next: NO_RUN,
            },
        );
    }
}

/// The fold by which the entries of a depth and a bucket are found.
pub fn group_fold(depth: usize, bucket: u64) -> u64
    ensures { result ≡ group_fold depth bucket }
{
    fold(depth as u64, &[bucket.cast_signed()])
}

/// Lengthens the last run up to the new end if it has the depth and the bucket, and answers whether it has. It takes no memory.
fn lengthen(runs: &mut Vec<Run>, depth: usize, bucket: u64, end: usize) -> bool
    ensures longer { result ≡ true → IsLonger runs.old.items runs.new.items depth bucket end }
    ensures kept { result ≡ false → runs.new ≡ runs.old }
    ensures capacity { vec_capacity runs.old ≤ vec_capacity runs.new }
{
    if runs.is_empty() {
        return false;
    }
    let last = runs.len() - 1;
    if runs[last].depth != depth || runs[last].bucket != bucket {
        return false;
    }
    runs[last].end = end;
    true
}

/// Appends a run, and links it after the run at the place `last`. It takes no memory.
fn append(runs: &mut Vec<Run>, last: Option<usize>, run: Run)
    requires room { vec_len runs.old < vec_capacity runs.old }
    requires last { IfSome last (λ place. place < length runs.old.items) }
    requires end { run.next ≡ no_place }
    ensures appended { IsAppended runs.old.items runs.new.items last run.fold }
    ensures entered { HasEnteredRun runs.old.items runs.new.items run.depth run.bucket run.fold run.end }
    ensures capacity { vec_capacity runs.old ≤ vec_capacity runs.new }
{
    let place = runs.len();
    if let Some(last) = last {
        runs[last].next = place;
    }
    runs.push_reserved(run);
}

/// Makes the place the last of the fold, and answers the last place before, or `None` exactly if the fold had none. It takes no memory.
fn set_last(heads: &mut IndexMap<u64, Ends>, fold: u64, place: usize) -> Option<usize>
    requires { get nat_eq heads.old fold ≡ None → 0 < spare heads.old }
    ensures was { result ≡ last_in (get nat_eq heads.old fold) }
    ensures ends { get nat_eq heads.new fold ≡ Some (ends_after (get nat_eq heads.old fold) place) }
    ensures others { (f : ℕ) → f ≢ fold → get nat_eq heads.new f ≡ get nat_eq heads.old f }
    ensures room { spare heads.old ≤ spare heads.new + 1 }
{
    if let Some(ends) = heads.get_mut(&fold) {
        let last = ends.last;
        ends.last = place;
        return Some(last);
    }
    let ends = Ends {
        first: place,
        last: place,
    };
    let Ok(_) = heads.insert(fold, ends) else {
        unreachable!();
    };
    None
}
