//! Rebuilding the index.

ghost use Rattle.std.specs.Prelude.{◌≡◌, ℕ, ◌+◌, ◌^◌, ◌<◌, ◌≤◌, length, map, Some, IfOk, IsSome};
ghost use Rattle.fringe.specs.Slots.{AreIndexed, IsIndexed, in_slot, key_of, own_fold};
ghost use Rattle.fringe.specs.Tickets.{Ticketed};

use crate::index::Index;
use crate::listed::Listed;
use crate::slots::in_slot;
use dp_model::fold;
use row_region::{Region, RowId};
use std::alloc::{AllocError, Global};

/// The fold of the depth and the state of a subproblem.
pub fn fold_of_one(one: &Listed) -> u64
    ensures { result ≡ own_fold one.now }
{
    fold(one.sub.decisions.len() as u64, one.sub.row.as_slice())
}

/// The fold of the subproblem in the slot, from its key.
fn fold_in(slots: &[Option<Listed>], keys: &Region, slot: u32) -> u64
    requires keyed { keys.now.rows ≡ map key_of slots.now }
    requires there { IsSome (in_slot slots.now slot) }
    ensures { (o : Ticketed) → in_slot slots.now slot ≡ Some o → result ≡ own_fold o }
{
    keys.row(RowId { place: slot })[0].cast_unsigned()
}

/// Enters the subproblem in the slot, if there is one. It takes no memory.
fn enter_slot(slots: &[Option<Listed>], keys: &Region, slot: u32, index: &mut Index)
    requires keyed { keys.now.rows ≡ map key_of slots.now }
    requires room { length index.old.nodes < index.old.room }
    ensures entered { (o : Ticketed) → in_slot slots.now slot ≡ Some o → IsIndexed index.new.nodes slot (own_fold o) }
    ensures kept { (s fold : ℕ) → IsIndexed index.old.nodes s fold → IsIndexed index.new.nodes s fold }
    ensures len { length index.new.nodes ≤ length index.old.nodes + 1 }
    ensures room { index.old.room ≤ index.new.room }
{
    if in_slot(slots, slot).is_some() {
        index.enter(fold_in(slots, keys, slot), slot);
    }
}

/// Drops all entries, and enters the open subproblems only. It takes no memory.
fn reindex(slots: &[Option<Listed>], keys: &Region, index: &mut Index)
    requires keyed { keys.now.rows ≡ map key_of slots.now }
    requires room { length slots.now ≤ index.old.room }
    requires most { length slots.now ≤ 2 ^ 32 }
    ensures entered { AreIndexed slots.now index.new.nodes }
    ensures len { length index.new.nodes ≤ length slots.now }
    ensures room { index.old.room ≤ index.new.room }
{
    index.clear();
    for slot in 0..slots.len() {
        enter_slot(slots, keys, slot as u32, index);
    }
}

/// Makes room for one more entry, by a rebuild if the index is full. It takes no memory.
pub fn ready_index(slots: &[Option<Listed>], keys: &Region, index: &mut Index)
    requires keyed { keys.now.rows ≡ map key_of slots.now }
    requires room { length slots.now < index.old.room }
    requires most { length slots.now ≤ 2 ^ 32 }
    requires entered { AreIndexed slots.now index.old.nodes }
    ensures entered { AreIndexed slots.now index.new.nodes }
    ensures free { length index.new.nodes < index.new.room }
    ensures room { index.old.room ≤ index.new.room }
{
    if !index.has_room() {
        reindex(slots, keys, index);
    }
}

/// An index of the open subproblems with room for this many entries.
pub fn index_for(
    alloc: Global,
    slots: &[Option<Listed>],
    keys: &Region,
    room: usize,
) -> Result<Index, AllocError>
    requires keyed { keys.now.rows ≡ map key_of slots.now }
    requires room { length slots.now ≤ room }
    requires most { length slots.now ≤ 2 ^ 32 }
    ensures entered { IfOk result (λ x. AreIndexed slots.now x.nodes) }
    ensures room { IfOk result (λ x. room ≤ x.room) }
{
    let mut index = Index::with_room(alloc, room)?;
    reindex(slots, keys, &mut index);
    Ok(index)
}
