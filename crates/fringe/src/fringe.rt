ghost use Rattle.std.specs.Prelude.{◌≡◌, ◌≢◌, ◌+◌, ◌*◌, ◌<◌, ◌≤◌, [], map, length, nat_eq, Some, option_map, IfOk, IfSome, OnOk, OnErr, OnSome};
ghost use Rattle.dp_model.specs.Lists.{Each};
ghost use Rattle.dp_model.specs.Numbers.{greatest};
ghost use Rattle.fringe.specs.declared.store.TheConstants.{SLACK};
ghost use Rattle.fringe.specs.Firsts.{first_taken, IsFirstTaken};
ghost use Rattle.fringe.specs.Fringe.{IsFringe, same_at};
ghost use Rattle.fringe.specs.Listing.{referred};
ghost use Rattle.fringe.specs.Popping.{after_pop};
ghost use Rattle.fringe.specs.Pushing.{push_gives, after_push};
ghost use Rattle.fringe.specs.Tickets.{above_value};

use crate::bounding::best_of;
use crate::dropping::drop_up_to;
use crate::fate::FringeFate;
use crate::growing::make_room;
use crate::index::Index;
use crate::listed::Listed;
use crate::listing::list_by_ticket;
use crate::pushing::{find_same, push_in};
use crate::ranks::Ranks;
use crate::same::Same;
use crate::store::{Store, count_open, take_first};
use dp_model::{OutOfMemory, Sub, fold};
use row_region::Region;
use std::alloc::Global;
use std::marker::Model;

/// Open subproblems with tickets, no two of one depth and state, and room for `spare` more.
#[derive(Debug, Drop)]
pub struct Fringe {
    alloc: Global,
    store: Store,
}

impl Model for Fringe {
    ghost use Rattle.fringe.specs.Fringe.{FringeView};
    ghost use Rattle.fringe.specs.Slots.{opened};
    ghost use Rattle.fringe.specs.Stored.{IsFringeStore, HasFewRanks};

    ghost Value = { FringeView };

    ghost view = { λ f. record {
      open_ones = opened f.store.slots.items;
      words = f.store.words;
      spare = f.store.spare;
    } };

    ghost invariant = { λ f. IsFringeStore f.store.words f.store.spare f.store.slots.items f.store.keys f.store.ranks f.store.index
        × HasFewRanks f.store.slots.items f.store.ranks };
}

impl Fringe {
    /// An empty fringe for rows of `words` cells, at least one, with `spare` 0. It takes no memory.
    pub fn new(alloc: Global, words: usize) -> Fringe
        requires { 1 ≤ words }
        ensures { result ≡ record { open_ones = []; words = words; spare = 0 } }
    {
        let store = Store {
            words,
            spare: 0,
            slots: Vec::new(alloc),
            keys: Region::empty(alloc, 1),
            ranks: Ranks::new(alloc),
            index: Index::new(alloc),
        };
        Fringe { alloc, store }
    }

    /// Makes `spare` at least `count`, so that there is room for this many more. Fails only for want of memory, and then changes nothing.
    pub fn reserve(&mut self, count: usize) -> Result<(), OutOfMemory>
        ensures kept { self.new ≡ record self.old { spare = self.new.spare } }
        ensures spare { self.old.spare ≤ self.new.spare }
        ensures ok { OnOk result (count ≤ self.new.spare) }
        ensures err { OnErr result (self.new ≡ self.old) }
    {
        make_room(self.alloc, &mut self.store, count)
    }

    /// Pushes a subproblem under a ticket. The open subproblem of its depth and state decides:
    ///
    /// - If its value is no less, the new subproblem is dropped: `Kept`.
    /// - If its value is less, it is dropped and the new one is open: `Replaced`.
    /// - If there is none, the new one is open: `Entered`.
    ///
    /// `spare` is above zero, the row has `words` cells, and no open subproblem has the ticket. The push lowers `spare` by one at most,
    /// and takes no memory.
    pub fn push(&mut self, ticket: u64, sub: Sub) -> FringeFate
        requires room { 0 < self.old.spare }
        requires cells { length sub.subproblem.row ≡ self.old.words }
        requires new { Each (λ o. o.ticket ≢ ticket) self.old.open_ones }
        ensures answer { result ≡ push_gives (record { ticket = ticket; subproblem = sub.subproblem }) self.old.open_ones }
        ensures step { self.new.open_ones ≡ after_push (record { ticket = ticket; subproblem = sub.subproblem }) self.old.open_ones }
        ensures words { self.new.words ≡ self.old.words }
        ensures spare { self.old.spare ≤ self.new.spare + 1 }
    {
        push_in(&mut self.store, Listed { ticket, sub })
    }

    /// The ticket and the value of the open subproblem with the depth and the state, or `None` exactly if there is none.
    ///
    /// The row has `words` cells.
    pub fn same(&self, depth: usize, row: &[i64]) -> Option<Same>
        requires { length row.now ≡ self.now.words }
        ensures { result ≡ option_map (λ o. record { ticket = o.ticket; value = o.subproblem.value }) (same_at depth row.now self.now.open_ones) }
    {
        let (_slot, same) = find_same(&self.store, fold(depth as u64, row), depth, row)?;
        Some(same)
    }

    /// Takes out the open subproblem with the greatest bound, then the greatest value, then the least ticket, and raises `spare` by one at
    /// least. `None` exactly if nothing is open.
    pub fn pop_best(&mut self) -> Option<(u64, Sub)>
        ensures first { IfSome result (λ p. IsFirstTaken self.old.open_ones (record { ticket = p.0; subproblem = p.1.subproblem })) }
        ensures best { option_map (λ p. record { ticket = p.0; subproblem = p.1.subproblem }) result ≡ first_taken self.old.open_ones }
        ensures step { self.new.open_ones ≡ after_pop self.old.open_ones }
        ensures words { self.new.words ≡ self.old.words }
        ensures spare { self.old.spare ≤ self.new.spare }
        ensures more { OnSome result (self.old.spare + 1 ≤ self.new.spare) }
    {
        let Listed { ticket, sub } = take_first(&mut self.store)?;
        Some((ticket, sub))
    }

    /// Drops the open subproblems whose bound is at most the value.
    pub fn drop_up_to(&mut self, value: i64)
        ensures step { self.new.open_ones ≡ above_value value self.old.open_ones }
        ensures words { self.new.words ≡ self.old.words }
        ensures spare { self.old.spare ≤ self.new.spare }
    {
        drop_up_to(&mut self.store, value);
    }

    /// The greatest bound of an open subproblem, or `None` exactly if nothing is open.
    pub fn best_bound(&self) -> Option<i64>
        ensures { result ≡ greatest (map (λ o. o.subproblem.bound) self.now.open_ones) }
    {
        best_of(self.store.slots.as_slice())
    }

    /// The open subproblems with their tickets, in order of ticket. Fails only for want of memory.
    pub fn by_ticket(&self) -> Result<Vec<(u64, &Sub)>, OutOfMemory>
        ensures { IfOk result (λ list. map referred list.items ≡ self.now.open_ones) }
    {
        list_by_ticket(self.alloc, self.store.slots.as_slice(), self.len())
    }

    /// How many subproblems are open.
    pub fn len(&self) -> usize
        ensures { result ≡ length self.now.open_ones }
    {
        count_open(self.store.slots.as_slice(), &self.store.keys)
    }

    /// How many ranks the heap has, with the stale ones of subproblems that are gone. They are at most `2 * (len + SLACK) + 1`.
    pub fn ranks(&self) -> usize
        ensures { result ≤ 2 * (length self.now.open_ones + SLACK) + 1 }
    {
        self.store.ranks.len()
    }

    /// Whether nothing is open.
    pub fn is_empty(&self) -> bool
        ensures { result ≡ nat_eq (length self.now.open_ones) 0 }
    {
        self.len() == 0
    }

    /// For how many more subproblems there is room.
    pub fn spare(&self) -> usize
        ensures spare { result ≡ self.now.spare }
        ensures kept { IsFringe self.now.words self.now.open_ones }
    {
        self.store.spare
    }

    /// How many cells a row has.
    pub fn words(&self) -> usize
        ensures { result ≡ self.now.words }
    {
        self.store.words
    }
}
