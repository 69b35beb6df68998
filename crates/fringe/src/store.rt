//! The slots, their keys, the ranks and the index of a fringe.

ghost use Rattle.std.specs.Prelude.{◌≡◌, ◌≢◌, ℕ, ◌+◌, ◌<◌, ◌≤◌, false, length, map, Some, None, OnSome, IsSome};
ghost use Rattle.fringe.specs.Firsts.{first_taken};
ghost use Rattle.fringe.specs.Popping.{after_pop};
ghost use Rattle.fringe.specs.Tickets.{Ticketed, by_ticket, without};
ghost use Rattle.fringe.specs.Slots.{in_slot, is_same_in, key_of, opened, own_fold, IsSlotSet};
ghost use Rattle.fringe.specs.Stored.{IsFringeStore, HasFewRanks};

use crate::index::Index;
use crate::listed::Listed;
use crate::popping::first_slot;
use crate::ranks::Ranks;
use crate::reindexing::ready_index;
use crate::reranking::{rank_of, rerank};
use row_region::{Region, RowId};

/// A heap keeps its stale ranks while it has at most `2 * (open + SLACK) + 1` ranks, so a small heap is never trimmed.
pub const SLACK: usize = 32;

/// What a fringe has in memory. Heap and index may also name subproblems that are gone.
#[derive(Debug, Drop)]
pub struct Store {
    /// How many cells a row has.
    pub words: usize,
    /// For how many more subproblems there is room.
    pub spare: usize,
    /// The open subproblems.
    pub slots: Vec<Option<Listed>>,
    /// The key of each open subproblem, at the place of its slot. A key is a row of one cell: the fold of depth and state.
    pub keys: Region,
    /// The heap, with the rank of each open subproblem.
    pub ranks: Ranks,
    /// The index, with the fold of each open subproblem.
    pub index: Index,
}

/// Adds a subproblem, which has this fold. It takes no memory.
pub fn put_in(store: &mut Store, one: Listed, fold: u64)
    requires stored { IsFringeStore store.old.words store.old.spare store.old.slots.items store.old.keys store.old.ranks store.old.index }
    requires few { HasFewRanks store.old.slots.items store.old.ranks }
    requires room { 0 < store.old.spare }
    requires fresh { (t : ℕ) (p : Ticketed) → in_slot store.old.slots.items t ≡ Some p → p.ticket ≢ one.ticket }
    requires alone { (t : ℕ) → is_same_in (length one.subproblem.decisions) one.subproblem.row (in_slot store.old.slots.items t) ≡ false }
    requires cells { length one.subproblem.row ≡ store.old.words }
    requires fold { fold ≡ own_fold one }
    ensures stored { IsFringeStore store.new.words store.new.spare store.new.slots.items store.new.keys store.new.ranks store.new.index }
    ensures few { HasFewRanks store.new.slots.items store.new.ranks }
    ensures listed { opened store.new.slots.items ≡ by_ticket one (opened store.old.slots.items) }
    ensures words { store.new.words ≡ store.old.words }
    ensures spare { store.new.spare + 1 ≡ store.old.spare }
{
    let _rows = store.keys.rows();
    let _free = store.keys.spare();
    ready_index(store.slots.as_slice(), &store.keys, &mut store.index);
    let Some(key) = store.keys.take() else {
        unreachable!();
    };
    store
        .keys
        .row_mut(key)
        .copy_from_slice(&[fold.cast_signed()]);
    store.index.enter(fold, key.place);
    store.ranks.push(rank_of(&one, key.place));
    store.slots[key.place as usize] = Some(one);
    store.spare -= 1;
}

/// Empties the slot, and answers the subproblem that it had.
fn clear_slot(store: &mut Store, slot: u32) -> Listed
    requires keyed { store.old.keys.rows ≡ map key_of store.old.slots.items }
    requires there { IsSome (in_slot store.old.slots.items slot) }
    ensures one { in_slot store.old.slots.items slot ≡ Some result }
    ensures slots { IsSlotSet store.old.slots.items store.new.slots.items slot None }
    ensures len { length store.new.slots.items ≡ length store.old.slots.items }
    ensures keyed { store.new.keys.rows ≡ map key_of store.new.slots.items }
    ensures keys { store.new.keys.spare ≡ store.old.keys.spare + 1 }
    ensures kept { store.new ≡ record store.old { slots = store.new.slots; keys = store.new.keys } }
    ensures width { store.new.keys.words ≡ store.old.keys.words }
{
    store.keys.give(RowId { place: slot });
    let Some(one) = store.slots[slot as usize].take() else {
        unreachable!();
    };
    one
}

/// How many are open.
pub fn count_open(slots: &[Option<Listed>], keys: &Region) -> usize
    requires keyed { keys.now.rows ≡ map key_of slots.now }
    ensures count { result ≡ length (opened slots.now) }
    ensures most { result ≤ length slots.now }
{
    slots.len() - keys.spare()
}

/// Drops the stale ranks if the heap has more than `2 * (open + SLACK) + 1` ranks. If equal ranks keep it too large, rebuilds the heap. So
/// the heap has at most that many ranks afterwards, and each rank is dropped once.
fn trim_ranks(store: &mut Store)
    requires stored { IsFringeStore store.old.words store.old.spare store.old.slots.items store.old.keys store.old.ranks store.old.index }
    ensures stored { IsFringeStore store.new.words store.new.spare store.new.slots.items store.new.keys store.new.ranks store.new.index }
    ensures kept { store.new ≡ record store.old { ranks = store.new.ranks } }
    ensures few { HasFewRanks store.new.slots.items store.new.ranks }
{
    let _rows = store.keys.rows();
    let most = count_open(store.slots.as_slice(), &store.keys) + SLACK;
    if most < store.ranks.len() / 2 {
        store.ranks.keep_fresh(store.slots.as_slice());
    }
    if most < store.ranks.len() / 2 {
        rerank(store.slots.as_slice(), &mut store.ranks);
    }
}

/// Takes out the subproblem in the slot.
pub fn take_out(store: &mut Store, slot: u32) -> Listed
    requires stored { IsFringeStore store.old.words store.old.spare store.old.slots.items store.old.keys store.old.ranks store.old.index }
    requires there { IsSome (in_slot store.old.slots.items slot) }
    ensures one { in_slot store.old.slots.items slot ≡ Some result }
    ensures stored { IsFringeStore store.new.words store.new.spare store.new.slots.items store.new.keys store.new.ranks store.new.index }
    ensures few { HasFewRanks store.new.slots.items store.new.ranks }
    ensures listed { opened store.new.slots.items ≡ without result.ticket (opened store.old.slots.items) }
    ensures slots { IsSlotSet store.old.slots.items store.new.slots.items slot None }
    ensures len { length store.new.slots.items ≡ length store.old.slots.items }
    ensures words { store.new.words ≡ store.old.words }
    ensures spare { store.new.spare ≡ store.old.spare }
{
    let one = clear_slot(store, slot);
    trim_ranks(store);
    one
}

/// Takes out the first subproblem in the order in which they are taken, or answers `None` exactly if there is none.
pub fn take_first(store: &mut Store) -> Option<Listed>
    requires stored { IsFringeStore store.old.words store.old.spare store.old.slots.items store.old.keys store.old.ranks store.old.index }
    requires few { HasFewRanks store.old.slots.items store.old.ranks }
    ensures first { result ≡ first_taken (opened store.old.slots.items) }
    ensures stored { IsFringeStore store.new.words store.new.spare store.new.slots.items store.new.keys store.new.ranks store.new.index }
    ensures few { HasFewRanks store.new.slots.items store.new.ranks }
    ensures listed { opened store.new.slots.items ≡ after_pop (opened store.old.slots.items) }
    ensures words { store.new.words ≡ store.old.words }
    ensures spare { store.old.spare ≤ store.new.spare }
    ensures more { OnSome result (store.old.spare + 1 ≤ store.new.spare) }
{
    let _free = store.keys.spare();
    let slot = first_slot(store.slots.as_slice(), &mut store.ranks)?;
    let one = clear_slot(store, slot);
    store.spare += 1;
    trim_ranks(store);
    Some(one)
}
