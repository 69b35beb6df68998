//! The index from folds to slots: a chain of entries for each fold.
//!
//! The number of an entry is its place plus 1, and 0 is the number of no entry. So a link has 32 bits and needs no tag.

ghost use Rattle.std.specs.Prelude.{◌≡◌, ◌≢◌, ◌↔◌, ℕ, ◌+◌, ◌<◌, ◌≤◌, [], length, nat_eq, None, IfOk, IsTrue};
ghost use Rattle.indexmap.specs.IndexMap.{get, index_map_len, spare};
ghost use Rattle.fringe.specs.Index.{entry_fold, head_at, indexed_at, HasEntered};

use indexmap::IndexMap;
use std::alloc::{AllocError, Global};
use std::marker::Model;

/// The most entries: the number of an entry has 32 bits.
const MOST_ENTRIES: usize = 0xFFFF_FFFF;

/// An entry.
#[derive(Clone, Copy, Debug)]
pub struct Node {
    /// The fold of the entry.
    pub fold: u64,
    /// The slot of the entry.
    pub slot: u32,
    /// The next link of the chain: the number of the last earlier entry with that fold, or 0.
    pub next: u32,
}

/// Entries of slots under folds, in the order in which they came.
#[derive(Debug, Drop)]
pub struct Index {
    // the number of the last entry of each fold
    heads: IndexMap<u64, u32>,
    nodes: Vec<Node>,
}

impl Model for Index {
    ghost use Rattle.std.specs.Prelude.{vec_capacity};
    ghost use Rattle.fringe.specs.Index.{IndexView, IsIndex, HasHeadRoom};

    ghost Value = { IndexView };

    ghost view = { λ x. record { nodes = x.nodes.items; room = vec_capacity x.nodes } };

    ghost invariant = { λ x. IsIndex x.heads x.nodes.items × HasHeadRoom x.heads x.nodes.items (vec_capacity x.nodes) };
}

impl Index {
    /// An index without entries. It takes no memory.
    pub fn new(alloc: Global) -> Index
        ensures { result ≡ record { nodes = []; room = 0 } }
    {
        Index {
            heads: IndexMap::new(alloc),
            nodes: Vec::new(alloc),
        }
    }

    /// An index without entries, with room for this many. Fails for want of memory, and if `room` exceeds `MOST_ENTRIES`.
    pub fn with_room(alloc: Global, room: usize) -> Result<Index, AllocError>
        ensures nodes { IfOk result (λ x. x.nodes ≡ []) }
        ensures room { IfOk result (λ x. room ≤ x.room) }
    {
        if room > MOST_ENTRIES {
            return Err(AllocError);
        }
        let nodes = Vec::with_capacity(alloc, room)?;
        let heads = IndexMap::with_capacity(alloc, nodes.capacity())?;
        Ok(Index { heads, nodes })
    }

    /// For how many entries there is room, those that are in the index included.
    pub fn room(&self) -> usize
        ensures { result ≡ self.now.room }
    {
        self.nodes.capacity()
    }

    /// Whether there is room for one more entry.
    pub fn has_room(&self) -> bool
        ensures { IsTrue result ↔ (length self.now.nodes < self.now.room) }
    {
        self.nodes.len() < self.nodes.capacity()
    }

    /// The number of the last entry of the fold, or 0 exactly if the fold has none.
    pub fn last(&self, fold: u64) -> usize
        ensures within { result ≤ length self.now.nodes }
        ensures at { (i : ℕ) → result ≡ i + 1 → entry_fold self.now.nodes i ≡ fold }
        ensures later { (j : ℕ) → result ≤ j → j < length self.now.nodes → entry_fold self.now.nodes j ≢ fold }
    {
        self.heads.get(&fold).copied().unwrap_or(0) as usize
    }

    /// The entry at a place.
    pub fn node(&self, place: usize) -> Node
        requires { place < length self.now.nodes }
        ensures node { result ≡ indexed_at self.now.nodes place }
        ensures within { result.next ≤ place }
        ensures at { (i : ℕ) → result.next ≡ i + 1 → entry_fold self.now.nodes i ≡ result.fold }
        ensures between { (j : ℕ) → result.next ≤ j → j < place → entry_fold self.now.nodes j ≢ result.fold }
    {
        self.nodes[place]
    }

    /// Adds an entry. It takes no memory.
    pub fn enter(&mut self, fold: u64, slot: u32)
        requires { length self.old.nodes < self.old.room }
        ensures entered { HasEntered self.old.nodes self.new.nodes fold slot }
        ensures room { self.old.room ≤ self.new.room }
    {
        let place = self.nodes.len() as u32 + 1;
        let next = set_head(&mut self.heads, fold, place);
        self.nodes.push_reserved(Node { fold, slot, next });
    }

    /// Drops all entries and keeps the memory.
    pub fn clear(&mut self)
        ensures nodes { self.new.nodes ≡ [] }
        ensures room { self.old.room ≤ self.new.room }
    {
        self.nodes.clear();
        self.heads.clear();
    }
}

/// Makes the entry with this number the last one of the fold, and answers the number of the last one before, or 0. It takes no memory.
fn set_head(heads: &mut IndexMap<u64, u32>, fold: u64, place: u32) -> u32
    requires { get nat_eq heads.old fold ≡ None → 0 < spare heads.old }
    ensures was { result ≡ head_at heads.old fold }
    ensures head { head_at heads.new fold ≡ place }
    ensures others { (f : ℕ) → f ≢ fold → head_at heads.new f ≡ head_at heads.old f }
    ensures few { index_map_len heads.new ≤ index_map_len heads.old + 1 }
    ensures enough { index_map_len heads.old + spare heads.old ≤ index_map_len heads.new + spare heads.new }
{
    if let Some(head) = heads.get_mut(&fold) {
        let next = *head;
        *head = place;
        return next;
    }
    let Ok(_) = heads.insert(fold, place) else {
        unreachable!();
    };
    0
}
