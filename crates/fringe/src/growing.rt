//! Room for more subproblems.

ghost use Rattle.std.specs.Prelude.{◌≡◌, ℕ, ◌+◌, ◌≤◌, ◌++◌, length, map, replicate, None, OnOk, OnErr, vec_len, vec_capacity};
ghost use Rattle.fringe.specs.Slots.{in_slot, key_of, opened};
ghost use Rattle.fringe.specs.Stored.{IsFringeStore, HasFewRanks};

use crate::listed::Listed;
use crate::reindexing::index_for;
use crate::store::Store;
use std::alloc::{AllocError, Global};

/// Appends `count` empty slots. It takes no memory.
fn push_empty(slots: &mut Vec<Option<Listed>>, count: usize)
    requires { vec_len slots.old + count ≤ vec_capacity slots.old }
    ensures slots { (s : ℕ) → in_slot slots.new.items s ≡ in_slot slots.old.items s }
    ensures keys { map key_of slots.new.items ≡ map key_of slots.old.items ++ replicate count None }
    ensures opened { opened slots.new.items ≡ opened slots.old.items }
    ensures len { length slots.new.items ≡ length slots.old.items + count }
{
    'slots: for _ in 0..count {
        slots.push_reserved(None);
    }
}

/// Makes at least `count` more slots, and at least a fourth of the number of slots. So a fringe that grows step by step pays a constant cost
/// for each slot, and few slots stay empty. The index has room for half as many entries again as there are slots, so it is rebuilt only
/// after at least that many pushes.
fn more_slots(alloc: Global, store: &mut Store, count: usize) -> Result<(), AllocError>
    requires stored { IsFringeStore store.old.words store.old.spare store.old.slots.items store.old.keys store.old.ranks store.old.index }
    ensures stored { IsFringeStore store.new.words store.new.spare store.new.slots.items store.new.keys store.new.ranks store.new.index }
    ensures opened { opened store.new.slots.items ≡ opened store.old.slots.items }
    ensures words { store.new.words ≡ store.old.words }
    ensures spare { store.new.spare ≡ store.old.spare }
    ensures ranks { store.new.ranks ≡ store.old.ranks }
    ensures ok { OnOk result (count ≤ store.new.keys.spare) }
{
    let rows = store.keys.rows();
    let more = count.max(rows / 4);
    let slots = rows.saturating_add(more);
    let room = slots.saturating_add(slots / 2 + 1);
    store.slots.reserve(more)?;
    let index = index_for(alloc, store.slots.as_slice(), &store.keys, room)?;
    store.keys.grow(more)?;
    push_empty(&mut store.slots, more);
    store.index = index;
    Ok(())
}

/// Makes room for this many more. A refusal changes neither the open subproblems nor `spare`.
pub fn make_room(alloc: Global, store: &mut Store, count: usize) -> Result<(), AllocError>
    requires stored { IsFringeStore store.old.words store.old.spare store.old.slots.items store.old.keys store.old.ranks store.old.index }
    requires few { HasFewRanks store.old.slots.items store.old.ranks }
    ensures stored { IsFringeStore store.new.words store.new.spare store.new.slots.items store.new.keys store.new.ranks store.new.index }
    ensures few { HasFewRanks store.new.slots.items store.new.ranks }
    ensures opened { opened store.new.slots.items ≡ opened store.old.slots.items }
    ensures words { store.new.words ≡ store.old.words }
    ensures spare { store.old.spare ≤ store.new.spare }
    ensures ok { OnOk result (count ≤ store.new.spare) }
    ensures err { OnErr result (store.new.spare ≡ store.old.spare) }
{
    if count <= store.spare {
        return Ok(());
    }
    store.ranks.reserve(count)?;
    if store.keys.spare() < count {
        more_slots(alloc, store, count)?;
    }
    store.spare = count;
    Ok(())
}
