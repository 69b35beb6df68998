ghost use Rattle.std.specs.Prelude.{◌≡◌, ◌≢◌, ℕ, ◌^◌, ◌<◌, ◌≤◌, [], length, slice_get, Some, None, option_map, IsSome, IsTrue, IfOk, OnOk, OnErr, IsErrOf, Ok};
ghost use Rattle.disk.specs.Counts.{Rose};
ghost use Rattle.board_laws.specs.Board.{full_slots, slot_at};
ghost use Rattle.board_laws.specs.Fates.{fates_on};
ghost use Rattle.board_laws.specs.Finishing.{MayFinish};
ghost use Rattle.board_laws.specs.Improving.{ImproveGives, after_offer};
ghost use Rattle.board_laws.specs.Steps.{finished_by, given_back, halted};
ghost use Rattle.board_laws.specs.Taking.{take_gives, after_take, handed_out, HasFirst};
ghost use Rattle.board_laws.specs.declared.cause.Cause.TheVariants.{Journal, Memory};
ghost use Rattle.dp_laws.specs.Children.{children_size};
ghost use Rattle.dp_model.specs.Prefixes.{value_of};
ghost use Rattle.journal_bytes.specs.Bodies.{RecordView, Improve};
ghost use Rattle.journal_replay.specs.Following.{finish_record, snapshot_record};
ghost use Rattle.board.specs.Contents.{contents};
ghost use Rattle.kept_board.specs.Adding.{LeavesAtMost, Acknowledges};
ghost use Rattle.kept_board.specs.Due.{is_due};
ghost use Rattle.kept_board.specs.Kept.{MayKeep, IsKept};
ghost use Rattle.kept_board.specs.Moves.{IsMove};
ghost use Rattle.kept_board.specs.View.{tag_of, since_of, one_more};

use crate::error::KeptError;
use crate::finishing::write_finish;
use crate::limits::MOST_LISTED;
use crate::recording::{record_improve, record_snapshot};
use board::{Board, Cause, Fate, Improved, Taken};
use disk::Disk;
use dp_model::{DpModel, Sub};
use journal_bytes::{Tail, VERSION};
use std::alloc::Global;
use std::marker::Model;
use std::snapshot::Snapshot;

/// A board whose steps are kept in a journal, or in none.
pub struct Kept<M: DpModel, D: Disk> {
    board: Board<M>,
    disk: D,
    tail: Option<Tail>,
    made: Snapshot<D>,
    every: u32,
}

impl<M: DpModel, D: Disk> Model for Kept<M, D> {
    ghost use Rattle.kept_board.specs.Kept.{IsKept};
    ghost use Rattle.kept_board.specs.View.{KeptView};

    ghost Value = { KeptView D };

    ghost view = { λ k. record { board = k.board; disk = k.disk; tail = k.tail; made = k.made.value; every = k.every } };

    ghost invariant = { λ k. IsKept D.Disk (M.meaning k.board.numbers) k.board.board k.made.value k.disk k.tail };
}

impl<M: DpModel, D: Disk> Kept<M, D> {
    /// A board that is kept in the journal at the tail, or in none. It takes no memory.
    ///
    /// The board holds no cause, and no slot is full. Where there is a tail, `begin` or `reopen` gave it for this disk, to which
    /// nothing was written since; the board has the distance of its head; and it is the one at the start of a search for the head
    /// that `begin` wrote, or the one that `replay` made of the records that `reopen` read.
    ///
    /// A snapshot is due after `every` finished subproblems, which is at least 1.
    pub fn new(board: Board<M>, disk: D, tail: Option<Tail>, every: u32) -> Kept<M, D>
        requires idle { (board.board.cause ≡ None) × (full_slots board.board.slots ≡ []) }
        requires made { MayKeep D.Disk (M.meaning board.numbers) board.board disk tail }
        requires every { 1 ≤ every }
        ensures board { result.board ≡ board }
        ensures disk { result.disk ≡ disk }
        ensures tail { result.tail ≡ tail }
        ensures made { result.made ≡ disk }
        ensures every { result.every ≡ every }
    {
        board.facts();
        let made = Snapshot::of(&disk);
        Kept {
            board,
            disk,
            tail,
            made,
            every,
        }
    }

    /// The board.
    pub fn board(&self) -> &Board<M>
        ensures board { result.now ≡ self.now.board }
        ensures kept { IsKept D.Disk (M.meaning self.now.board.numbers) self.now.board.board self.now.made self.now.disk self.now.tail }
    {
        &self.board
    }

    /// The board and the disk.
    pub fn into_parts(self) -> (Board<M>, D)
        ensures board { result.0 ≡ self.board }
        ensures disk { result.1 ≡ self.disk }
        ensures kept { IsKept D.Disk (M.meaning self.board.numbers) self.board.board self.made self.disk self.tail }
    {
        let Kept {
            board,
            disk,
            tail: _,
            made: _,
            every: _,
        } = self;
        (board, disk)
    }

    /// The worker asks for a subproblem, as `take` of the board says. It writes nothing.
    pub fn take(&mut self, who: u32, into: &mut Sub) -> Taken
        requires empty { slice_get self.old.board.board.slots who ≡ Some None }
        requires room { (M.meaning self.old.board.numbers).vars ≤ into.old.room }
        requires cells { length into.old.subproblem.row ≡ (M.meaning self.old.board.numbers).words }
        ensures answer { result ≡ take_gives self.old.board.board }
        ensures step { self.new.board.board ≡ after_take self.old.board.board who }
        ensures first { result ≡ Taken.Sub → HasFirst self.old.board.board.open_ones (slot_at self.new.board.board who) }
        ensures copied { into.new.subproblem ≡ handed_out result self.old.board.board into.old.subproblem }
        ensures out { result ≡ Taken.Sub → option_map (λ o. o.subproblem) (slot_at self.new.board.board who) ≡ Some into.new.subproblem }
        ensures untouched { result ≢ Taken.Sub → into.new ≡ into.old }
        ensures into_room { into.old.room ≤ into.new.room }
        ensures disk { self.new.disk ≡ self.old.disk }
        ensures tag { tag_of self.new ≡ tag_of self.old }
        ensures moves { IsMove D.Disk M.meaning self.old self.new who }
    {
        self.board.take(who, into)
    }

    /// The worker hands its subproblem back, as `give_back` of the board says: the slot is full, and a cause is held. It writes
    /// nothing.
    pub fn give_back(&mut self, who: u32)
        requires full { IsSome (slot_at self.old.board.board who) }
        requires halted { IsSome self.old.board.board.cause }
        ensures step { self.new.board.board ≡ given_back self.old.board.board who }
        ensures disk { self.new.disk ≡ self.old.disk }
        ensures tag { tag_of self.new ≡ tag_of self.old }
        ensures moves { IsMove D.Disk M.meaning self.old self.new who }
    {
        self.board.give_back(who)
    }

    /// Halts the search for want of memory, unless a cause is held. It writes nothing.
    pub fn halt_memory(&mut self)
        ensures step { self.new.board.board ≡ halted self.old.board.board Memory }
        ensures disk { self.new.disk ≡ self.old.disk }
        ensures tag { tag_of self.new ≡ tag_of self.old }
        ensures moves { (who : ℕ) → IsMove D.Disk M.meaning self.old self.new who }
    {
        self.board.halt(Cause::Memory)
    }

    /// Offers a solution, as `improve` of the board says. Where it is better, memory is taken first, then its record is added, and
    /// then the board changes. Where there is a journal, the cause is not `Journal`.
    ///
    /// # Errors
    ///
    /// `Journal` only where a call of the disk failed in this call; the board is as it was but for the cause `Journal`. After
    /// `OutOfMemory` nothing has changed.
    pub fn improve(&mut self, alloc: Global, decisions: &[u32]) -> Result<Improved, KeptError>
        requires going { IsSome self.old.tail → self.old.board.board.cause ≢ Some Journal }
        ensures since { OnOk result (since_of self.new.tail ≡ since_of self.old.tail) }
        ensures answer { IfOk result (ImproveGives (M.meaning self.old.board.numbers) self.old.board.board decisions.now) }
        ensures step { IfOk result (λ improved. self.new.board.board ≡ after_offer (M.meaning self.old.board.numbers) improved self.old.board.board decisions.now) }
        ensures journal { IsErrOf result KeptError.Journal → IsSome self.old.tail × (self.new.board.board ≡ halted self.old.board.board Journal) }
        ensures rose { IsErrOf result KeptError.Journal → Rose (D.faults self.old.disk) (D.faults self.new.disk) }
        ensures memory { IsErrOf result KeptError.OutOfMemory → self.new ≡ self.old }
        ensures tag { tag_of self.new ≡ tag_of self.old }
        ensures moves { (who : ℕ) → IsMove D.Disk M.meaning self.old self.new who }

        // Where there is a journal: at Yes the record of the solution is on the disk, and a crash at any moment of the call leaves the
        // records from before it, or these and that one.
        ensures acknowledged { result ≡ Ok Improved.Yes → IsSome self.old.tail → Acknowledges D.Disk self.old.disk self.new.disk (Improve (value_of (M.meaning self.old.board.numbers) decisions.now) decisions.now) }
        ensures any_moment { IsSome self.old.tail → LeavesAtMost D.Disk self.old.disk self.new.disk (Improve (value_of (M.meaning self.old.board.numbers) decisions.now) decisions.now) }
    {
        let Some(value) = self.board.better_value(decisions) else {
            return Ok(self.board.improve(decisions));
        };
        match record_improve(alloc, &mut self.disk, &mut self.tail, value, decisions) {
            Ok(()) => Ok(self.board.improve(decisions)),
            Err(KeptError::Journal) => {
                self.board.halt(Cause::Journal);
                Err(KeptError::Journal)
            }
            Err(KeptError::OutOfMemory) => Err(KeptError::OutOfMemory),
        }
    }

    /// The worker's slot becomes empty, and the children enter by their fates, as `finish` of the board says; `fates` is emptied and
    /// filled with them. Memory is taken first, then the record is added, and then the board changes.
    ///
    /// What the board's `finish` asks, but for the room and the fates; the children have a size of fewer than 2^32 bytes, which is 12
    /// and for each child 20 and four times its number of decisions; and where there is a journal, the cause is not `Journal`.
    ///
    /// # Errors
    ///
    /// `Journal` only where a call of the disk failed in this call; the board is as it was but for the cause `Journal`. After
    /// `OutOfMemory` board and disk are as they were. After either `subs` is as it was, and nothing is said of `fates`.
    pub fn finish(
        &mut self,
        alloc: Global,
        who: u32,
        threshold: Option<i64>,
        subs: &mut Vec<Sub>,
        fates: &mut Vec<Fate>,
    ) -> Result<(), KeptError>
        requires may { MayFinish (M.meaning self.old.board.numbers) self.old.board.board who threshold (contents subs.old.items) (fates_on (M.meaning self.old.board.numbers) self.old.board.board (contents subs.old.items)) }
        requires size { children_size (contents subs.old.items) < 2 ^ 32 }
        requires going { IsSome self.old.tail → self.old.board.board.cause ≢ Some Journal }
        ensures step { OnOk result (self.new.board.board ≡ finished_by (M.meaning self.old.board.numbers) self.old.board.board who (contents subs.old.items)) }
        ensures emptied { OnOk result (subs.new.items ≡ []) }
        ensures fates { OnOk result (fates.new.items ≡ fates_on (M.meaning self.old.board.numbers) self.old.board.board (contents subs.old.items)) }
        ensures since { OnOk result (since_of self.new.tail ≡ option_map one_more (since_of self.old.tail)) }
        ensures subs_err { OnErr result (subs.new ≡ subs.old) }
        ensures journal { IsErrOf result KeptError.Journal → IsSome self.old.tail × (self.new.board.board ≡ halted self.old.board.board Journal) }
        ensures rose { IsErrOf result KeptError.Journal → Rose (D.faults self.old.disk) (D.faults self.new.disk) }
        ensures memory { IsErrOf result KeptError.OutOfMemory → (self.new.board.board ≡ self.old.board.board) × (self.new.disk ≡ self.old.disk) }
        ensures tag { tag_of self.new ≡ tag_of self.old }
        ensures moves { IsMove D.Disk M.meaning self.old self.new who }

        // Where there is a journal: at Ok the record of the Finish is on the disk; and a crash at any moment of the call leaves the
        // records from before it, or these and that one.
        ensures acknowledged { OnOk result (IsSome self.old.tail → (r : RecordView) → finish_record (M.meaning self.old.board.numbers) self.old.board.board who (contents subs.old.items) ≡ Some r → Acknowledges D.Disk self.old.disk self.new.disk r) }
        ensures any_moment { IsSome self.old.tail → (r : RecordView) → finish_record (M.meaning self.old.board.numbers) self.old.board.board who (contents subs.old.items) ≡ Some r → LeavesAtMost D.Disk self.old.disk self.new.disk r }
    {
        match write_finish(
            alloc,
            &mut self.board,
            &mut self.disk,
            &mut self.tail,
            who,
            subs.as_slice(),
            fates,
        ) {
            Ok(()) => {
                self.board.finish(who, threshold, subs, fates.as_slice());
                Ok(())
            }
            Err(KeptError::Journal) => {
                self.board.halt(Cause::Journal);
                Err(KeptError::Journal)
            }
            Err(KeptError::OutOfMemory) => Err(KeptError::OutOfMemory),
        }
    }

    /// Whether a snapshot is due: there is a journal of version 2, or of a part of a search, as many subproblems as `new` says were finished
    /// since its last snapshot, or since its head where there is none, and at most 1,000,000 subproblems are open or out.
    pub fn snapshot_due(&self) -> bool
        ensures { result ≡ is_due self.now }
    {
        match &self.tail {
            Some(tail) => {
                tail.version == VERSION
                    && tail.since >= u64::from(self.every)
                    && self.board.live() <= MOST_LISTED
            }
            None => false,
        }
    }

    /// How many subproblems were finished since the last snapshot, or since the head where there is none; `None` exactly where there is
    /// no journal.
    pub fn since(&self) -> Option<u64>
        ensures { result ≡ since_of self.now.tail }
    {
        match &self.tail {
            Some(tail) => Some(tail.since),
            None => None,
        }
    }

    /// Adds a snapshot to the journal: the incumbent, the next ticket, and all subproblems that are open or out, in order of ticket.
    /// Whoever reads the journal from then on begins there. One is due, and the cause is not `Journal`. The board stays as it is.
    ///
    /// # Errors
    ///
    /// `Journal` only where a call of the disk failed in this call; the board is as it was but for the cause `Journal`. After
    /// `OutOfMemory` nothing has changed.
    pub fn snapshot(&mut self, alloc: Global) -> Result<(), KeptError>
        requires due { IsTrue (is_due self.old) }
        requires going { self.old.board.board.cause ≢ Some Journal }
        ensures board { OnOk result (self.new.board ≡ self.old.board) }
        ensures since { OnOk result (since_of self.new.tail ≡ Some 0) }
        ensures journal { IsErrOf result KeptError.Journal → self.new.board.board ≡ halted self.old.board.board Journal }
        ensures rose { IsErrOf result KeptError.Journal → Rose (D.faults self.old.disk) (D.faults self.new.disk) }
        ensures memory { IsErrOf result KeptError.OutOfMemory → self.new ≡ self.old }
        ensures tag { tag_of self.new ≡ tag_of self.old }
        ensures moves { (who : ℕ) → IsMove D.Disk M.meaning self.old self.new who }

        // At Ok the snapshot is on the disk, and a crash at any moment of the call leaves the records from before it, or these and
        // the snapshot.
        ensures acknowledged { OnOk result (Acknowledges D.Disk self.old.disk self.new.disk (snapshot_record self.old.board.board)) }
        ensures any_moment { LeavesAtMost D.Disk self.old.disk self.new.disk (snapshot_record self.old.board.board) }
    {
        // What every board keeps of what is open or out.
        self.board.facts();
        match record_snapshot(alloc, &self.board, &mut self.disk, &mut self.tail) {
            Ok(()) => Ok(()),
            Err(KeptError::Journal) => {
                self.board.halt(Cause::Journal);
                Err(KeptError::Journal)
            }
            Err(KeptError::OutOfMemory) => Err(KeptError::OutOfMemory),
        }
    }
}
