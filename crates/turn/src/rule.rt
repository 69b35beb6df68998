//! The rule of the table under a turn, and its steps.
use crate::turned::Turned;
use crate::view::{SeatView, TurnKey};
use atomic_table::{Join, Play, Split, TableRule};
use std::marker::PhantomData;

/// The rule of the table under a turn: the value is in its slot while the word is free, and one seat has it while the word is held.
pub struct TurnRule<V> {
    of: PhantomData<V>,
}

impl<V: Turned> TableRule<Option<V>, SeatView<V>, TurnKey<V>> for TurnRule<V> {
    ghost use Rattle.turn.specs.Rule.{first_view, IsTurn};

    ghost holds = { λ key. IsTurn V.tag V.seen V.out V.moves key };

    ghost first = { first_view };
}

/// The step that tries to take the turn.
pub struct Take<V> {
    of: PhantomData<V>,
}

impl<V: Turned> Play<Option<V>, SeatView<V>> for Take<V> {
    ghost use Rattle.turn.specs.Rule.{Takes};

    ghost then = { λ _ m n after. Takes V.tag V.seen V.out m n after };
}

/// The step that marks the turn as free.
pub struct Leave<V> {
    of: PhantomData<V>,
}

impl<V: Turned> Play<Option<V>, SeatView<V>> for Leave<V> {
    ghost use Rattle.turn.specs.Rule.{Leaves};

    ghost then = { λ _ m _ after. Leaves V.tag V.seen V.out m after };
}

/// The step that splits the next seat off the newest one.
pub struct SplitSeat;

impl<V> Split<SeatView<V>> for SplitSeat {
    ghost use Rattle.turn.specs.Rule.{lone_view, next_of};

    ghost left = { lone_view };

    ghost right = { next_of };
}

/// The step that joins two seats into one, when the turn is closed.
pub struct JoinSeats;

impl<V> Join<SeatView<V>> for JoinSeats {
    ghost use Rattle.turn.specs.Rule.{joined, spent_view};

    ghost both = { joined };

    ghost spent = { spent_view };
}
