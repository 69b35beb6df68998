//! The heap: the ranks of the open subproblems and stale ranks of those that are gone, the greatest first.

ghost use Rattle.std.specs.Prelude.{◌≡◌, ◌+◌, ◌<◌, ◌≤◌, ◌∷◌, [], IfSome, IfNone, OnOk, OnSome, IsPermutation, Contains, true};
ghost use Rattle.std.specs.BinaryHeap.{IsUpperBound};
ghost use Rattle.fringe.specs.Ranks.{rank_cmp};
ghost use Rattle.fringe.specs.Slots.{has_rank, in_slot};
ghost use Rattle.fringe.specs.declared.rank.Rank.{Rank};

use crate::listed::Listed;
use crate::rank::Rank;
use crate::slots::has_rank;
use std::alloc::{AllocError, Global};
use std::collections::BinaryHeap;
use std::marker::Model;

/// A heap of ranks.
#[derive(Debug, Drop)]
pub struct Ranks {
    heap: BinaryHeap<Rank>,
}

impl Model for Ranks {
    ghost use Rattle.std.specs.BinaryHeap.{heap_items, heap_len, heap_capacity, IsHeap};
    ghost use Rattle.fringe.specs.Ranks.{RanksView, rank_cmp};

    ghost Value = { RanksView };

    ghost view = { λ r. record { ranks = heap_items r.heap; len = heap_len r.heap; room = heap_capacity r.heap } };

    ghost invariant = { λ r. IsHeap rank_cmp (heap_items r.heap) };
}

impl Ranks {
    /// No ranks. It takes no memory.
    pub fn new(alloc: Global) -> Ranks
        ensures ranks { result.ranks ≡ [] }
        ensures len { result.len ≡ 0 }
    {
        Ranks {
            heap: BinaryHeap::new(alloc),
        }
    }

    /// How many ranks there are.
    pub fn len(&self) -> usize
        ensures { result ≡ self.now.len }
    {
        self.heap.len()
    }

    /// Makes room for this many more.
    pub fn reserve(&mut self, count: usize) -> Result<(), AllocError>
        ensures ranks { self.new.ranks ≡ self.old.ranks }
        ensures len { self.new.len ≡ self.old.len }
        ensures room { self.old.room ≤ self.new.room }
        ensures ok { OnOk result (self.old.len + count ≤ self.new.room) }
    {
        self.heap.reserve(count)
    }

    /// Adds a rank. It takes no memory.
    pub fn push(&mut self, rank: Rank)
        requires { self.old.len < self.old.room }
        ensures ranks { IsPermutation (rank ∷ self.old.ranks) self.new.ranks }
        ensures len { self.new.len ≡ self.old.len + 1 }
        ensures room { self.old.room ≤ self.new.room }
    {
        let Ok(()) = self.heap.push(rank) else {
            unreachable!();
        };
    }

    /// Takes out the greatest rank.
    pub fn pop(&mut self) -> Option<Rank>
        ensures none { IfNone result (self.old.ranks ≡ []) }
        ensures unchanged { IfNone result (self.new ≡ self.old) }
        ensures rest { IfSome result (λ rank. IsPermutation self.old.ranks (rank ∷ self.new.ranks)) }
        ensures greatest { IfSome result (λ rank. IsUpperBound rank_cmp rank self.old.ranks) }
        ensures len { OnSome result (self.new.len + 1 ≡ self.old.len) }
        ensures room { self.new.room ≡ self.old.room }
    {
        self.heap.pop()
    }

    /// Drops all ranks and keeps the memory.
    pub fn clear(&mut self)
        ensures ranks { self.new.ranks ≡ [] }
        ensures len { self.new.len ≡ 0 }
        ensures room { self.new.room ≡ self.old.room }
    {
        self.heap.clear();
    }

    /// Drops the stale ranks.
    pub fn keep_fresh(&mut self, slots: &[Option<Listed>])
        ensures kept { (rank : Rank) → Contains self.old.ranks rank → has_rank rank (in_slot slots.now rank.slot) ≡ true → Contains self.new.ranks rank }
        ensures len { self.new.len ≤ self.old.len }
        ensures room { self.new.room ≡ self.old.room }
    {
        self.heap.retain(|rank| has_rank(slots, rank));
    }
}
