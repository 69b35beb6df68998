//! Dropping the subproblems whose bound is too small.

ghost use Rattle.std.specs.Prelude.{◌≡◌};
ghost use Rattle.fringe.specs.Tickets.{above_value};
ghost use Rattle.fringe.specs.Slots.{opened};
ghost use Rattle.fringe.specs.Stored.{IsFringeStore, HasFewRanks};

use crate::slots::is_low;
use crate::store::{Store, take_out};

/// Drops the subproblems whose bound is at most the value.
pub fn drop_up_to(store: &mut Store, value: i64)
    requires stored { IsFringeStore store.old.words store.old.spare store.old.slots.items store.old.keys store.old.ranks store.old.index }
    requires few { HasFewRanks store.old.slots.items store.old.ranks }
    ensures stored { IsFringeStore store.new.words store.new.spare store.new.slots.items store.new.keys store.new.ranks store.new.index }
    ensures few { HasFewRanks store.new.slots.items store.new.ranks }
    ensures listed { opened store.new.slots.items ≡ above_value value (opened store.old.slots.items) }
    ensures words { store.new.words ≡ store.old.words }
    ensures spare { store.new.spare ≡ store.old.spare }
{
    for place in 0..store.keys.rows() {
        let slot = place as u32;
        if is_low(store.slots.as_slice(), slot, value) {
            let _low = take_out(store, slot);
        }
    }
}
