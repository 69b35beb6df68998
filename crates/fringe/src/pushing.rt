//! Pushing a subproblem.

ghost use Rattle.std.specs.Prelude.{◌≡◌, ◌≢◌, ◌+◌, ◌<◌, ◌≤◌, length, MatchOption};
ghost use Rattle.dp_model.specs.Folds.{fold_of};
ghost use Rattle.dp_model.specs.Lists.{Each};
ghost use Rattle.fringe.specs.Pushing.{push_gives, after_push};
ghost use Rattle.fringe.specs.Slots.{opened};
ghost use Rattle.fringe.specs.Stored.{IsFringeStore, HasFewRanks, HasSame, HasNone};

use crate::fate::FringeFate;
use crate::finding::slot_of_same;
use crate::listed::Listed;
use crate::reindexing::fold_of_one;
use crate::same::Same;
use crate::slots::in_slot;
use crate::store::{Store, put_in, take_out};

/// The ticket and the value of an open subproblem.
fn same_of(one: &Listed) -> Same
    ensures ticket { result.ticket ≡ one.now.ticket }
    ensures value { result.value ≡ one.now.subproblem.value }
{
    Same {
        ticket: one.ticket,
        value: one.sub.value,
    }
}

/// The slot of the subproblem with the depth and the state, with its ticket and value. `fold` is the fold of both.
pub fn find_same(store: &Store, fold: u64, depth: usize, row: &[i64]) -> Option<(u32, Same)>
    requires stored { IsFringeStore store.now.words store.now.spare store.now.slots.items store.now.keys store.now.ranks store.now.index }
    requires fold { fold ≡ fold_of depth row.now }
    ensures { MatchOption result (HasNone store.now.slots.items depth row.now) (λ r. HasSame store.now.slots.items depth row.now r.0 r.1.ticket r.1.value) }
{
    let slots = store.slots.as_slice();
    let slot = slot_of_same(slots, &store.index, fold, depth, row)?;
    let Some(one) = in_slot(slots, slot) else {
        unreachable!();
    };
    Some((slot, same_of(one)))
}

/// Pushes a subproblem.
pub fn push_in(store: &mut Store, one: Listed) -> FringeFate
    requires stored { IsFringeStore store.old.words store.old.spare store.old.slots.items store.old.keys store.old.ranks store.old.index }
    requires few { HasFewRanks store.old.slots.items store.old.ranks }
    requires room { 0 < store.old.spare }
    requires fresh { Each (λ o. o.ticket ≢ one.ticket) (opened store.old.slots.items) }
    requires cells { length one.subproblem.row ≡ store.old.words }
    ensures answer { result ≡ push_gives one (opened store.old.slots.items) }
    ensures step { opened store.new.slots.items ≡ after_push one (opened store.old.slots.items) }
    ensures stored { IsFringeStore store.new.words store.new.spare store.new.slots.items store.new.keys store.new.ranks store.new.index }
    ensures few { HasFewRanks store.new.slots.items store.new.ranks }
    ensures words { store.new.words ≡ store.old.words }
    ensures spare { store.old.spare ≤ store.new.spare + 1 }
{
    let fold = fold_of_one(&one);
    let found = find_same(store, fold, one.sub.decisions.len(), one.sub.row.as_slice());
    let Some((slot, same)) = found else {
        put_in(store, one, fold);
        return FringeFate::Entered;
    };
    if one.sub.value <= same.value {
        return FringeFate::Kept { by: same.ticket };
    }
    let old = take_out(store, slot).ticket;
    put_in(store, one, fold);
    FringeFate::Replaced { old }
}
