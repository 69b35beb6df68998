ghost use Rattle.std.specs.Prelude.{◌≡◌, ℕ, ◌+◌, ◌-◌, ◌^◌, ◌<◌, ◌≤◌, ◌≢◌, pos, List, [], length, map, slice_get, Option, Some, None, option_map, IsPermutation, IsTrue, IfOk, OnOk, OnErr, IsSome, vec_capacity, vec_len};
ghost use Rattle.std.specs.Arc.{arc_value};
ghost use Rattle.dp_model.specs.declared.limits.TheConstants.{MOST_WIDTH};
ghost use Rattle.dp_model.specs.Best.{IsBest};
ghost use Rattle.dp_model.specs.Counts.{tree};
ghost use Rattle.dp_model.specs.Laws.{IsLawful};
ghost use Rattle.dp_model.specs.Lists.{Each};
ghost use Rattle.dp_model.specs.Numbers.{AtMost};
ghost use Rattle.dp_model.specs.Prefixes.{IsSolution, value_of};
ghost use Rattle.dp_model.specs.Subproblem.{IsOwn};
ghost use Rattle.fringe.specs.Listing.{referred};
ghost use Rattle.fringe.specs.Tickets.{HasTickets};
ghost use Rattle.board_laws.specs.Board.{AreSettings, incumbent_value, reach, full_slots, slot_at, frontier, is_explored};
ghost use Rattle.board_laws.specs.Bound.{board_bound, IsGreatestBound};
ghost use Rattle.board_laws.specs.Fates.{fates_on};
ghost use Rattle.board_laws.specs.Finishing.{MayFinish};
ghost use Rattle.board_laws.specs.GoodBoard.{IsBoard, IsGood};
ghost use Rattle.board_laws.specs.Improving.{BetterGives, ImproveGives, after_offer};
ghost use Rattle.board_laws.specs.Restoring.{MayRestore, restored_board};
ghost use Rattle.board_laws.specs.Steps.{empty_slots, first_board, finished_by, given_back, halted};
ghost use Rattle.board_laws.specs.Taking.{take_gives, after_take, handed_out, HasFirst};
ghost use Rattle.board.specs.Contents.{contents};
ghost use Rattle.board.specs.Frontier.{frontier_of};
ghost use Rattle.board.specs.Opened.{solution_in, ticketed};
ghost use Rattle.board.specs.Starting.{IsStart, board_of};
ghost use Rattle.board.specs.View.{tag_of};

use crate::blank::Blank;
use crate::checked_out::CheckedOut;
use crate::copying::copy_decisions;
use crate::deciding::{decide_all, is_above};
use crate::entering::{enter_all, put_back, reserve_rows};
use crate::first::FirstBoard;
use crate::full::{count_full, raised_by_fringe, raised_by_slots};
use crate::halting::cause_after;
use crate::listing::list_frontier;
use crate::restoring::{reach_of, restored_start};
use crate::start::Start;
use crate::starting::first_start;
use board_laws::{Cause, Fate, Improved, Settings, Taken};
use dominance_table::Table;
use dp_model::{DpModel, Found, OutOfMemory, Sub, solution_value};
use fringe::Fringe;
use std::alloc::Global;
use std::marker::Model;
use std::sync::Arc;

/// If the next ticket is greater than this, `take` answers as if the budget were used up, so tickets never run out. It is 2^64 - 2^29.
const GREATEST_TICKET: u64 = 0xFFFF_FFFF_E000_0000;

/// The board of a search: the incumbent, the open subproblems, what each worker has out, and the states that were reached.
#[derive(Drop)]
pub struct Board<M: DpModel> {
    model: Arc<M>,
    settings: Settings,
    best: Vec<u32>,
    best_value: Option<i64>,
    fringe: Fringe,
    slots: Vec<Option<CheckedOut>>,
    table: Table,
    room: usize,
    taken: u64,
    finished: u64,
    next_ticket: u64,
    cause: Option<Cause>,
    first: FirstBoard,
    row: Vec<i64>,
    spare: Vec<i64>,
}

impl<M: DpModel> Model for Board<M> {
    ghost use Rattle.std.specs.Prelude.{vec_len, vec_capacity};
    ghost use Rattle.std.specs.Arc.{arc_value};
    ghost use Rattle.board.specs.Kept.{best_of, IsBoardInMemory};
    ghost use Rattle.board.specs.View.{BoardView};

    ghost Value = { BoardView };

    ghost view = { λ b. record {
      numbers = M.numbers (arc_value b.model);
      board = record {
        incumbent = best_of b.best.items b.best_value;
        open_ones = b.fringe.open_ones;
        slots = b.slots.items;
        entries = b.table.entries;
        settings = b.settings;
        taken = b.taken;
        finished = b.finished;
        next_ticket = b.next_ticket;
        cause = b.cause;
      };
      first = b.first;
      room = b.room;
    } };

    ghost invariant = { λ b. IsBoardInMemory (M.meaning (M.numbers (arc_value b.model))) b.first
        (record {
          incumbent = best_of b.best.items b.best_value;
          open_ones = b.fringe.open_ones;
          slots = b.slots.items;
          entries = b.table.entries;
          settings = b.settings;
          taken = b.taken;
          finished = b.finished;
          next_ticket = b.next_ticket;
          cause = b.cause;
        })
        b.fringe b.table b.room (vec_capacity b.best) (vec_len b.row) (vec_len b.spare) };
}

impl<M: DpModel> Board<M> {
    /// The board at the start of a search, which is a good board. The root is open with ticket 0, unless it is known to have no
    /// completion. An instance without variables has the empty solution as incumbent, and nothing is open.
    ///
    /// There are 1 to 16 workers, the width is at least 1, and the distance is from 0 to 2^50. Fails only for want of memory.
    pub fn begin(alloc: Global, model: Arc<M>, settings: Settings) -> Result<Board<M>, OutOfMemory>
        requires { AreSettings settings }
        ensures numbers { IfOk result (λ b. b.numbers ≡ M.numbers (arc_value model)) }
        ensures board { IfOk result (λ b. b.board ≡ first_board (M.meaning (M.numbers (arc_value model))) settings) }
        ensures first { IfOk result (λ b. b.first ≡ b.board) }
        ensures good { IfOk result (λ b. IsGood (M.meaning b.numbers) b.first) }
    {
        let blank = Blank::new(alloc, model.words(), settings.workers)?;
        let start = first_start(alloc, &*model)?;
        Ok(Board::fresh(alloc, model, settings, start, blank))
    }

    /// A board that goes on from an incumbent, or none, and from subproblems with their tickets. The subproblems with a bound above
    /// the reach are open. Of several with one depth and state only the one with the greatest value is, and of equal values the
    /// earliest. Nothing is out, the counts are 0, and the table is empty.
    ///
    /// There are 1 to 16 workers, the width is at least 1, and the distance is from 0 to 2^50. The incumbent is a feasible
    /// solution. Each subproblem is a prefix with its own state and value that is shorter than a solution, and its bound is at
    /// most 2^62 in size. The tickets rise, and are less than `next`. Fails only for want of memory.
    pub fn restore(
        alloc: Global,
        model: Arc<M>,
        settings: Settings,
        incumbent: Option<&[u32]>,
        opened: Vec<(u64, Sub)>,
        next: u64,
    ) -> Result<Board<M>, OutOfMemory>
        requires settings { AreSettings settings }
        requires may { MayRestore (M.meaning (M.numbers (arc_value model))) (solution_in (M.meaning (M.numbers (arc_value model))) incumbent) (ticketed opened.items) next }
        ensures numbers { IfOk result (λ b. b.numbers ≡ M.numbers (arc_value model)) }
        ensures board { IfOk result (λ b. b.board ≡ restored_board settings (solution_in (M.meaning (M.numbers (arc_value model))) incumbent.entry) (ticketed opened.items) next) }
        ensures first { IfOk result (λ b. b.first ≡ b.board) }
    {
        let blank = Blank::new(alloc, model.words(), settings.workers)?;
        let start = restored_start(alloc, &*model, &settings, incumbent, opened, next)?;
        Ok(Board::fresh(alloc, model, settings, start, blank))
    }

    /// The board with this start; nothing is out.
    fn fresh(
        alloc: Global,
        model: Arc<M>,
        settings: Settings,
        start: Start,
        blank: Blank,
    ) -> Board<M>
        requires of { IsStart (M.meaning (M.numbers (arc_value model))) start }
        requires board { IsBoard (M.meaning (M.numbers (arc_value model))) (board_of settings start) }
        requires row { vec_len blank.row ≡ (M.meaning (M.numbers (arc_value model))).words }
        requires spare { vec_len blank.spare ≡ (M.meaning (M.numbers (arc_value model))).words }
        requires slots { blank.slots.items ≡ empty_slots settings.workers }
        ensures numbers { result.numbers ≡ M.numbers (arc_value model) }
        ensures board { result.board ≡ board_of settings start }
        ensures first { result.first ≡ result.board }
    {
        let Blank { row, spare, slots } = blank;
        let table = Table::new(alloc, model.words(), settings.table_limit);
        let first = FirstBoard::of(&start, &settings);
        let Start {
            best,
            best_value,
            fringe,
            next_ticket,
        } = start;
        Board {
            model,
            settings,
            best,
            best_value,
            fringe,
            slots,
            table,
            room: 0,
            taken: 0,
            finished: 0,
            next_ticket,
            cause: None,
            first,
            row,
            spare,
        }
    }

    /// The worker asks for a subproblem. The first rule that applies decides:
    ///
    /// 1. Nothing is open or out: `Finished`.
    /// 2. A cause is held: `Halted` with the cause.
    /// 3. Nothing is open: `WaitForOthers`.
    /// 4. The budget is used up: `Halted(Budget)`.
    /// 5. Otherwise `Sub`: the open subproblem with the greatest bound, then the greatest value, then the least ticket goes to the
    ///    worker's slot and is copied to `into`.
    ///
    /// The worker's slot is empty, and `into` has room for the decisions of all variables and a row of `words` cells. It takes no
    /// memory.
    pub fn take(&mut self, who: u32, into: &mut Sub) -> Taken
        requires empty { slice_get self.old.board.slots who ≡ Some None }
        requires room { (M.meaning self.old.numbers).vars ≤ into.old.room }
        requires cells { length into.old.subproblem.row ≡ (M.meaning self.old.numbers).words }
        ensures answer { result ≡ take_gives self.old.board }
        ensures step { self.new.board ≡ after_take self.old.board who }
        ensures first { result ≡ Taken.Sub → HasFirst self.old.board.open_ones (slot_at self.new.board who) }
        ensures copied { into.new.subproblem ≡ handed_out result self.old.board into.old.subproblem }
        ensures out { result ≡ Taken.Sub → option_map (λ o. o.subproblem) (slot_at self.new.board who) ≡ Some into.new.subproblem }
        ensures untouched { result ≢ Taken.Sub → into.new ≡ into.old }
        ensures into_room { into.old.room ≤ into.new.room }
        ensures tag { tag_of self.new ≡ tag_of self.old }
        ensures room { self.new.room ≡ self.old.room }
    {
        let answer = self.answer();
        if let Taken::Sub = answer {
            self.check_out(who, into);
        }
        answer
    }

    /// The answer of `take`.
    fn answer(&self) -> Taken
        ensures { result ≡ take_gives self.now.board }
    {
        if self.is_explored() {
            return Taken::Finished;
        }
        if let Some(cause) = self.cause {
            return Taken::Halted(cause);
        }
        if self.fringe.is_empty() {
            return Taken::WaitForOthers;
        }
        if self.taken == self.settings.budget || self.next_ticket > GREATEST_TICKET {
            return Taken::Halted(Cause::Budget);
        }
        Taken::Sub
    }

    /// The first open subproblem goes to the worker's slot, and a copy to `into`.
    fn check_out(&mut self, who: u32, into: &mut Sub)
        requires may { take_gives self.old.board ≡ Taken.Sub }
        requires empty { slice_get self.old.board.slots who ≡ Some None }
        requires room { (M.meaning self.old.numbers).vars ≤ into.old.room }
        requires cells { length into.old.subproblem.row ≡ (M.meaning self.old.numbers).words }
        ensures step { self.new.board ≡ after_take self.old.board who }
        ensures first { HasFirst self.old.board.open_ones (slot_at self.new.board who) }
        ensures copied { into.new.subproblem ≡ handed_out Taken.Sub self.old.board into.old.subproblem }
        ensures out { option_map (λ o. o.subproblem) (slot_at self.new.board who) ≡ Some into.new.subproblem }
        ensures into_room { into.old.room ≤ into.new.room }
        ensures tag { tag_of self.new ≡ tag_of self.old }
        ensures room { self.new.room ≡ self.old.room }
    {
        let Some((ticket, sub)) = self.fringe.pop_best() else {
            unreachable!();
        };
        into.copy_from(&sub);
        self.slots[who as usize] = Some(CheckedOut { ticket, sub });
        self.taken += 1;
    }

    /// Offers a solution. `Yes`: it is feasible and better than the incumbent, so it becomes the incumbent, and every open
    /// subproblem whose bound is at most the new reach is dropped. `NoSolution` exactly if the decisions are no feasible solution.
    /// `NotBetter` exactly if its value is at most the incumbent's. It takes no memory.
    pub fn improve(&mut self, decisions: &[u32]) -> Improved
        ensures answer { ImproveGives (M.meaning self.old.numbers) self.old.board decisions.now result }
        ensures step { self.new.board ≡ after_offer (M.meaning self.old.numbers) result self.old.board decisions.now }
        ensures tag { tag_of self.new ≡ tag_of self.old }
        ensures room { self.new.room ≡ self.old.room }
    {
        let value = solution_value(
            &*self.model,
            decisions,
            self.row.as_mut_slice(),
            self.spare.as_mut_slice(),
        );
        let Some(value) = value else {
            return Improved::NoSolution;
        };
        if !is_above(self.best_value, value) {
            return Improved::NotBetter;
        }
        copy_decisions(&mut self.best, decisions);
        self.best_value = Some(value);
        self.fringe.drop_up_to(value + self.settings.within);
        Improved::Yes
    }

    /// The value of the decisions if `improve` would take them as the new incumbent. `None` exactly if it would not: they are no
    /// feasible solution, or their value is at most the incumbent's. It takes no memory.
    pub fn better_value(&mut self, decisions: &[u32]) -> Option<i64>
        ensures better { BetterGives (M.meaning self.old.numbers) self.old.board decisions.now result }
        ensures same { self.new ≡ self.old }
    {
        let value = solution_value(
            &*self.model,
            decisions,
            self.row.as_mut_slice(),
            self.spare.as_mut_slice(),
        )?;
        if is_above(self.best_value, value) {
            Some(value)
        } else {
            None
        }
    }

    /// Makes room for `count` children in the fringe and in the table, beside everything that is out: `room` is at least `count`
    /// afterwards. Fails only for want of memory, and only if the room was missing; then nothing has changed.
    pub fn reserve_for(&mut self, count: usize) -> Result<(), OutOfMemory>
        ensures board { self.new.board ≡ self.old.board }
        ensures tag { tag_of self.new ≡ tag_of self.old }
        ensures ok { OnOk result (count ≤ self.new.room) }
        ensures err { OnErr result (self.new ≡ self.old) }
        ensures full { OnErr result (self.old.room < count) }
        ensures room { self.old.room ≤ self.new.room }
    {
        if count <= self.room {
            return Ok(());
        }
        let out = count_full(self.slots.as_slice());
        let Some(more) = count.checked_add(out) else {
            return Err(OutOfMemory);
        };
        self.fringe.reserve(more)?;
        reserve_rows(&mut self.table, count)?;
        self.room = count;
        Ok(())
    }

    /// The reach: the incumbent's value plus the distance of the settings. The search leaves out whatever is at most the reach.
    /// `None` exactly if there is no incumbent.
    pub fn reach(&self) -> Option<i64>
        ensures { result ≡ reach self.now.board }
    {
        reach_of(self.settings.within, self.best_value)
    }

    /// Decides the fate of each child on the board as it is, and appends it to `into`. It takes no memory.
    ///
    /// A slot is full. There are at most `MOST_WIDTH` children. Each is a prefix with its own state and value that is shorter than
    /// a solution. `into` is empty and has room for their fates.
    pub fn fates(&self, subs: &[Sub], into: &mut Vec<Fate>)
        requires full { 1 ≤ length (full_slots self.now.board.slots) }
        requires few { length subs.now ≤ MOST_WIDTH }
        requires own { Each (IsOwn (M.meaning self.now.numbers)) (contents subs.now) }
        requires empty { into.old.items ≡ [] }
        requires room { length subs.now ≤ vec_capacity into.old }
        ensures fates { into.new.items ≡ fates_on (M.meaning self.now.numbers) self.now.board (contents subs.now) }
        ensures capacity { vec_capacity into.new ≡ vec_capacity into.old }
    {
        let reach = self.reach();
        decide_all(
            &*self.model,
            reach,
            &self.fringe,
            &self.table,
            self.next_ticket,
            subs,
            into,
        );
    }

    /// Empties the worker's slot, and enters its children by their fates, in order. `subs` is empty afterwards. It takes no memory.
    ///
    /// - The slot is full, `room` is at least the number of children, there are at most 2^24 children, and `fates` are their fates
    ///   on this board.
    /// - `threshold` is that of the diagram from which the children come. It is `None` or at most the reach.
    /// - Each child properly extends the slot's prefix, is shorter than a solution, and has its own state and value. No child
    ///   begins with another, and children of one depth differ in state.
    /// - Each bound is at most 2^62 in size. No completion of a child exceeds both its bound and the reach.
    /// - Each completion of the slot's prefix is at most the reach or matched by a child.
    /// - Each child is in the last exact layer, or deeper, of the diagram of the slot's prefix with the width of the settings and
    ///   the threshold. If the width takes nothing from this diagram, there are no children.
    pub fn finish(&mut self, who: u32, threshold: Option<i64>, subs: &mut Vec<Sub>, fates: &[Fate])
        requires may { MayFinish (M.meaning self.old.numbers) self.old.board who threshold (contents subs.old.items) fates.now }
        requires room { length subs.old.items ≤ self.old.room }
        ensures step { self.new.board ≡ finished_by (M.meaning self.old.numbers) self.old.board who (contents subs.old.items) }
        ensures emptied { subs.new.items ≡ [] }
        ensures capacity { vec_capacity subs.new ≡ vec_capacity subs.old }
        ensures tag { tag_of self.new ≡ tag_of self.old }
        ensures room { self.old.room ≤ self.new.room + length subs.old.items }
    {
        let count = subs.len();
        self.slots[who as usize] = None;
        self.next_ticket = enter_all(
            &*self.model,
            &mut self.fringe,
            &mut self.table,
            self.next_ticket,
            subs,
            fates,
        );
        self.finished += 1;
        self.room -= count;
    }

    /// The worker hands its subproblem back after a halt. It is open again with its old ticket, unless an open subproblem of its
    /// depth and state has no less value, or its bound is at most the reach. The slot is full, and a cause is held. It takes no
    /// memory.
    pub fn give_back(&mut self, who: u32)
        requires full { IsSome (slot_at self.old.board who) }
        requires halted { IsSome self.old.board.cause }
        ensures step { self.new.board ≡ given_back self.old.board who }
        ensures tag { tag_of self.new ≡ tag_of self.old }
        ensures room { self.new.room ≡ self.old.room }
    {
        let reach = self.reach();
        let slot = std::mem::replace(&mut self.slots[who as usize], None);
        let Some(one) = slot else {
            unreachable!();
        };
        put_back(&mut self.fringe, reach, one);
    }

    /// Halts the search. `Memory` becomes the cause only if none is held; `Journal` always becomes the cause. `Budget` is not
    /// passed, since no board keeps it as its cause.
    pub fn halt(&mut self, cause: Cause)
        requires { cause ≢ Cause.Budget }
        ensures step { self.new.board ≡ halted self.old.board cause }
        ensures tag { tag_of self.new ≡ tag_of self.old }
        ensures room { self.new.room ≡ self.old.room }
    {
        self.cause = cause_after(self.cause, cause);
    }

    /// The ticket of the subproblem in the worker's slot, or `None` exactly if the slot is empty.
    pub fn slot_ticket(&self, who: u32) -> Option<u64>
        requires { who < length self.now.board.slots }
        ensures { result ≡ option_map (λ o. o.ticket) (slot_at self.now.board who) }
    {
        match &self.slots[who as usize] {
            Some(one) => Some(one.ticket),
            None => None,
        }
    }

    /// All subproblems that are open or out, each once and with its ticket, in order of ticket. Fails only for want of memory.
    pub fn frontier(&self) -> Result<Vec<(u64, &Sub)>, OutOfMemory>
        ensures list { IfOk result (λ list. map referred list.items ≡ frontier_of self.now.board) }

        // They are those that are open or out, in increasing order of ticket.
        ensures all { IfOk result (λ list. IsPermutation (frontier self.now.board) (map referred list.items)) }
        ensures ordered { IfOk result (λ list. HasTickets (map referred list.items)) }
    {
        list_frontier(self.slots.as_slice(), &self.fringe)
    }

    /// How many subproblems are open or out.
    pub fn live(&self) -> usize
        ensures { result ≡ length (frontier self.now.board) }
    {
        // Their tickets differ and are less than the next one, so their number is at most that.
        let _next = self.next_ticket;
        self.fringe.len() + count_full(self.slots.as_slice())
    }

    /// The ticket of the next subproblem that enters. Every ticket that was given out is less.
    pub fn next_ticket(&self) -> u64
        ensures { result ≡ self.now.board.next_ticket }
    {
        self.next_ticket
    }

    /// The incumbent: the best solution found so far, or `None` exactly if none was found.
    pub fn incumbent(&self) -> Option<Found<'_>>
        ensures { option_map (λ f. record { decisions = f.decisions.now; value = f.value }) result ≡ self.now.board.incumbent }
    {
        match self.best_value {
            Some(value) => Some(Found {
                value,
                decisions: self.best.as_slice(),
            }),
            None => None,
        }
    }

    /// What every board keeps: its problem meets the laws, it satisfies `IsBoard`, and if the first board was good, it is good. The
    /// call does nothing; a proof uses its clauses.
    pub fn facts(&self)
        ensures lawful { IsLawful (M.meaning self.now.numbers) }
        ensures kept { IsBoard (M.meaning self.now.numbers) self.now.board }
        ensures good { IsGood (M.meaning self.now.numbers) self.now.first → IsGood (M.meaning self.now.numbers) self.now.board }
    {
        let _best = self.best_value;
    }

    /// The value of the incumbent, or `None` exactly if there is none. If the first board was good, this board is good.
    pub fn incumbent_value(&self) -> Option<i64>
        ensures value { result ≡ incumbent_value self.now.board }
        ensures lawful { IsLawful (M.meaning self.now.numbers) }
        ensures kept { IsBoard (M.meaning self.now.numbers) self.now.board }
        ensures good { IsGood (M.meaning self.now.numbers) self.now.first → IsGood (M.meaning self.now.numbers) self.now.board }
    {
        self.facts();
        self.best_value
    }

    /// The greatest of the reach and the bounds of everything that is open or out. If the first board was good, no feasible solution
    /// exceeds it. `None` exactly if there is no incumbent and nothing is open or out.
    pub fn bound(&self) -> Option<i64>
        ensures bound { result ≡ board_bound self.now.board }
        ensures greatest { IsGreatestBound self.now.board result }
        ensures holds { IsGood (M.meaning self.now.numbers) self.now.first → (x : List ℕ) → IsSolution (M.meaning self.now.numbers) x → AtMost (value_of (M.meaning self.now.numbers) x) result }
    {
        let most = raised_by_slots(self.reach(), self.slots.as_slice());
        raised_by_fringe(most, &self.fringe)
    }

    /// How many subproblems were taken, at most the budget. If the first board was good, something is open and no cause is held, the
    /// instance has more prefixes than this.
    pub fn taken(&self) -> u64
        ensures taken { result ≡ self.now.board.taken }
        ensures budget { result ≤ self.now.board.settings.budget }
        ensures fewer { IsGood (M.meaning self.now.numbers) self.now.first → self.now.board.cause ≡ None → self.now.board.open_ones ≢ [] → result < tree (M.meaning self.now.numbers) }
    {
        self.taken
    }

    /// How many of the subproblems taken were finished. If the first board was good, this is at most the number of prefixes that are
    /// shorter than a solution.
    pub fn finished(&self) -> u64
        ensures finished { result ≡ self.now.board.finished }
        ensures counts { result ≤ self.now.board.taken }
        ensures fewer { IsGood (M.meaning self.now.numbers) self.now.first → result ≤ tree (M.meaning self.now.numbers) }
    {
        self.finished
    }

    /// The cause of the halt, or `None` exactly if no cause is held.
    pub fn cause(&self) -> Option<Cause>
        ensures { result ≡ self.now.board.cause }
    {
        self.cause
    }

    /// Whether nothing is open or out. If so and the first board was good, each feasible solution is at most the reach. Without a
    /// distance the incumbent is then best, or there is no feasible solution.
    pub fn is_explored(&self) -> bool
        ensures explored { result ≡ is_explored self.now.board }
        ensures within { IsGood (M.meaning self.now.numbers) self.now.first → IsTrue result → (x : List ℕ) → IsSolution (M.meaning self.now.numbers) x → AtMost (value_of (M.meaning self.now.numbers) x) (reach self.now.board) }
        ensures best { IsGood (M.meaning self.now.numbers) self.now.first → IsTrue result → self.now.board.settings.within ≡ pos 0 → IsBest (M.meaning self.now.numbers) (incumbent_value self.now.board) }
    {
        self.fringe.is_empty() && count_full(self.slots.as_slice()) == 0
    }
}
