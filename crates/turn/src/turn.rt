//! The turn, its seats and its guard.
ghost use Rattle.std.specs.Prelude.{◌≡◌, ◌≤◌};

use crate::rule::{JoinSeats, Leave, SplitSeat, Take, TurnRule};
use crate::turned::Turned;
use crate::view::{SeatView, TurnKey};
use atomic_table::{Refused, Table};
use std::alloc::{AllocError, Global};
use std::snapshot::Snapshot;
use std::sync::Wait;

/// The word of the table that says whether the turn is free.
const WORD: usize = 0;

/// The slot of the table that has the value while the turn is free.
const SLOT: usize = 0;

/// The word while the turn is free.
const FREE: u64 = 0;

/// The word while a seat holds the turn.
const HELD: u64 = 1;

/// A mutex that guards one value. `close` ends it and gives the value back.
pub struct Turn<V: Turned> {
    table: Table<Option<V>, SeatView<V>, TurnKey<V>, TurnRule<V>, Global>,
    ghost sized: { (table.shared.table_id.words ≡ 1) × (table.shared.table_id.slots ≡ 1) },
    ghost some_seat: { 1 ≤ table.shared.key.seats },
}

/// The handle by which one thread locks the turn.
pub struct Seat<V> {
    place: atomic_table::Seat<Option<V>, SeatView<V>>,
    number: u32,
    ghost number_is: { place.me.0.number ≡ number },
}

/// The turn is locked. A guard has no `Drop`: `leave` unlocks the turn.
pub struct Guard<'a, V: Turned> {
    turn: &'a Turn<V>,
    seat: &'a mut Seat<V>,
    value: V,
    found: Snapshot<V>,
}

/// The error of `Turn::new`: there was no memory.
pub struct NoTurn<V> {
    /// The value, as it was passed.
    pub value: V,
    /// The refusal of the allocator.
    pub cause: AllocError,
}

impl<V> Seat<V> {
    /// The number of the seat. The seats of a turn are numbered from 0 in the order in which `Turn::new` lists them.
    pub fn number(&self) -> u32
        ensures { result ≡ self.now.number }
    {
        self.number
    }
}

impl<V: Turned> Turn<V> {
    ghost use Rattle.std.specs.Prelude.{◌≡◌, ◌⊎◌, ℕ, ◌≤◌, [], None, Some, IfOk, IfErr, map, vec_len, vec_capacity};
    ghost use Rattle.std.specs.List.{All, range_with_len};
    ghost use Rattle.turn.specs.History.{HasMoved};
    ghost use Rattle.turn.specs.Order.{NoLess};
    ghost use Rattle.turn.specs.Seats.{first_of, seats_of, seen_of, out_of, left_by, number_of, IsSeatOf, IsFresh, IsHolding, IsMaker, IsWhole};

    /// A turn over the value, with this many seats, at least one. No number has decisions out at the value. Fails only for want of
    /// memory, and then gives the value back.
    pub fn new(alloc: Global, value: V, seats: u32) -> Result<(Turn<V>, Vec<Seat<V>>), NoTurn<V>>
        requires some { 1 ≤ seats }
        requires home { (number : ℕ) → V.out value number ≡ None }
        ensures first { IfOk result (λ r. first_of r.0 ≡ value) }
        ensures count { IfOk result (λ r. seats_of r.0 ≡ seats) }
        ensures numbers { IfOk result (λ r. map number_of r.1.items ≡ range_with_len 0 seats) }
        ensures seats { IfOk result (λ r. All (IsFresh r.0) r.1.items) }
        ensures err { IfErr result (λ n. n.value ≡ value) }
    {
        let Ok(made) = Vec::with_capacity(alloc, seats as usize) else {
            return Err(NoTurn {
                value,
                cause: AllocError,
            });
        };
        let Ok(mut slots) = Vec::with_capacity(alloc, 1) else {
            made.destroy_empty();
            return Err(NoTurn {
                value,
                cause: AllocError,
            });
        };
        let key = TurnKey {
            first: Snapshot::of(&value),
            seats: seats as u64,
        };
        slots.push_reserved(Some(value));
        match Table::new(alloc, &[FREE], slots, &key) {
            Ok((table, place)) => {
                let turn = Turn { table };
                let made = turn.make_seats(place, seats, made);
                Ok((turn, made))
            }
            Err(Refused { mut slots }) => {
                made.destroy_empty();
                let Some(slot) = slots.pop() else {
                    unreachable!()
                };
                let Some(value) = slot else { unreachable!() };
                slots.destroy_empty();
                Err(NoTurn {
                    value,
                    cause: AllocError,
                })
            }
        }
    }

    /// Splits the first place into one place for each seat.
    fn make_seats(
        &self,
        first: atomic_table::Seat<Option<V>, SeatView<V>>,
        seats: u32,
        mut made: Vec<Seat<V>>,
    ) -> Vec<Seat<V>>
        requires some { 1 ≤ seats }
        requires room { seats ≤ vec_capacity made }
        requires empty { made.items ≡ [] }
        requires maker { IsMaker self.now first 0 seats }
        ensures numbers { map number_of result.items ≡ range_with_len 0 seats }
        ensures seats { All (IsFresh self.now) result.items }
    {
        let mut place = first;
        let mut number = 0;
        while number + 1 < seats {
            let next = self.table.shared.split_seat::<SplitSeat>(&mut place);
            made.push_reserved(seat_at(place, number));
            place = next;
            number += 1;
        }
        made.push_reserved(seat_at(place, number));
        made
    }

    /// Locks the turn: waits until it is free and takes it.
    ///
    /// The seat is one of this turn's, and no guard of the seat is left.
    pub fn hold<'a, R: Wait>(&'a self, rt: &R, seat: &'a mut Seat<V>) -> Guard<'a, V>
        requires { IsSeatOf self.now seat.old }
        ensures turn { result.turn.now ≡ self.now }
        ensures seat { result.seat.ghost_name ≡ seat.entry.ghost_name }
        ensures number { result.seat.now.number ≡ seat.old.number }
        ensures holds { IsHolding result.turn.now result.seat.now result.found.value }
        ensures found { result.found.value ≡ result.value }
        ensures tag { V.tag result.value ≡ V.tag (first_of self.now) }
        ensures seen { NoLess (seen_of seat.old) (V.seen result.value) }
        ensures out { V.out result.value seat.old.number ≡ out_of seat.old }
    {
        let value = self.take(rt, seat);
        let found = Snapshot::of(&value);
        Guard {
            turn: self,
            seat,
            value,
            found,
        }
    }

    /// Waits until the turn is free, and takes the value out of it.
    fn take<R: Wait>(&self, rt: &R, seat: &mut Seat<V>) -> V
        requires { IsSeatOf self.now seat.old }
        ensures number { seat.new.number ≡ seat.old.number }
        ensures holds { IsHolding self.now seat.new result }
        ensures tag { V.tag result ≡ V.tag (first_of self.now) }
        ensures seen { NoLess (seen_of seat.old) (V.seen result) }
        ensures out { V.out result seat.old.number ≡ out_of seat.old }
    {
        let shared = &self.table.shared;
        for _ in rt.forever() {
            if shared.compare_exchange::<Take<V>>(&mut seat.place, WORD, FREE, HELD) == FREE {
                return shared.exchange(&mut seat.place, SLOT, None).unwrap();
            }
            shared.park(rt, WORD, HELD as u32);
        }
        unreachable!()
    }

    /// Puts the value back, frees the turn, and wakes one thread that waits for it.
    fn free(&self, seat: &mut Seat<V>, value: V, found: Snapshot<V>)
        requires holds { IsHolding self.now seat.old found.value }
        requires moves { (value ≡ found.value) ⊎ V.moves found.value value seat.old.number }
        ensures own { IsSeatOf self.now seat.new }
        ensures number { seat.new.number ≡ seat.old.number }
        ensures seen { seen_of seat.new ≡ V.seen value }
        ensures out { out_of seat.new ≡ V.out value seat.old.number }
        ensures left { left_by seat.new ≡ Some value }
    {
        let shared = &self.table.shared;
        let old = shared.exchange(&mut seat.place, SLOT, Some(value));
        let None = old else { unreachable!() };
        shared.store::<Leave<V>>(&mut seat.place, WORD, FREE);
        shared.wake_one(WORD);
    }

    /// Waits, and may return at any time. It sleeps only while the turn is locked. Each `leave` wakes one thread that sleeps.
    pub fn wait_turn<R: Wait>(&self, rt: &R, seat: &mut Seat<V>)
        requires { IsSeatOf self.now seat.old }
        ensures { seat.new ≡ seat.old }
    {
        self.table.shared.park(rt, WORD, HELD as u32);
    }

    /// Joins all seats into one place, which has seen what any of them has seen.
    fn join_seats(&self, mut seats: Vec<Seat<V>>) -> atomic_table::Seat<Option<V>, SeatView<V>>
        requires all { vec_len seats ≡ seats_of self.now }
        requires own { All (IsSeatOf self.now) seats.items }
        ensures { IsWhole self.now result seats.items }
    {
        let Some(seat) = seats.pop() else {
            unreachable!()
        };
        let Seat {
            place: mut one,
            number: _,
        } = seat;
        while let Some(seat) = seats.pop() {
            let Seat { place, number: _ } = seat;
            self.table.shared.join_seat::<JoinSeats>(&mut one, place);
        }
        seats.destroy_empty();
        one
    }

    /// Ends the turn and gives the value back. It takes no memory.
    ///
    /// `seats` are all seats of this turn.
    pub fn close(self, seats: Vec<Seat<V>>) -> V
        requires all { vec_len seats ≡ seats_of self }
        requires own { All (IsSeatOf self) seats.items }
        ensures tag { V.tag result ≡ V.tag (first_of self) }
        ensures seen { All (λ s. NoLess (seen_of s) (V.seen result)) seats.items }
        ensures out { All (λ s. V.out result s.number ≡ out_of s) seats.items }
        ensures rest { (number : ℕ) → seats_of self ≤ number → V.out result number ≡ None }
        ensures history { HasMoved V.moves (first_of self) result }
    {
        let place = self.join_seats(seats);
        let Turn { table } = self;
        let mut closed = table.close_with(place);
        let slot = closed.take(SLOT);
        closed.free();
        let Some(value) = slot else { unreachable!() };
        value
    }
}

impl<'a, V: Turned> Guard<'a, V> {
    ghost use Rattle.std.specs.Prelude.{◌≡◌, ◌⊎◌, Some};
    ghost use types.Logic.{sem};
    ghost use Rattle.turn.specs.Seats.{seen_of, out_of, left_by, IsSeatOf, IsHolding};
    ghost use Rattle.turn.specs.Lends.{LendsValue};

    /// The value that the turn guards.
    pub fn value(&mut self) -> &mut V
        ensures* lends { sem 𝓛 (LendsValue V.row V.Tag.row V.Turned self.entry result) }
        ensures now { result.now ≡ self.old.value }
    {
        &mut self.value
    }

    /// Unlocks the turn, and wakes one thread that waits for it.
    ///
    /// The value is as `hold` found it, or one move of this seat's number after that.
    pub fn leave(self)
        requires holds { IsHolding self.turn.now self.seat.now self.found.value }
        requires moves { (self.value ≡ self.found.value) ⊎ V.moves self.found.value self.value self.seat.now.number }
        ensures own { IsSeatOf self.entry.turn.now self.exit.1.0.now }
        ensures number { self.exit.1.0.now.number ≡ self.entry.seat.now.number }
        ensures seen { seen_of self.exit.1.0.now ≡ V.seen self.entry.value }
        ensures out { out_of self.exit.1.0.now ≡ V.out self.entry.value self.entry.seat.now.number }
        ensures left { left_by self.exit.1.0.now ≡ Some self.entry.value }
    {
        let Guard {
            turn,
            seat,
            value,
            found,
        } = self;
        turn.free(seat, value, found);
    }
}

/// The seat with this place and this number.
fn seat_at<V>(place: atomic_table::Seat<Option<V>, SeatView<V>>, number: u32) -> Seat<V>
    requires { place.me.0.number ≡ number }
    ensures { (result.place ≡ place) × (result.number ≡ number) }
{
    Seat { place, number }
}
