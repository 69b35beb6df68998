//! What records have made of a search, in memory.

ghost use Rattle.std.specs.Prelude.{◌≡◌, ◌∷◌, ◌++◌, [], ◌+◌, IfOk, OnOk, length, option_map};
ghost use Rattle.dp_laws.specs.Children.{is_at};
ghost use Rattle.dp_model.specs.Subproblem.{SubView};
ghost use Rattle.board.specs.Opened.{ticketed};
ghost use Rattle.journal_replay.specs.Accepting.{is_like};
ghost use Rattle.journal_replay.specs.Places.{AreInOrder, PlaceIs, listed_in};
ghost use Rattle.journal_replay.specs.Replay.{listed_at, taken_off};

use dp_model::{OutOfMemory, Sub, row_same};
use std::alloc::Global;
use std::marker::Model;

/// Whether a subproblem has the depth and state of another.
fn is_same(one: &Sub, other: &Sub) -> bool
    ensures { result ≡ is_at (length other.now.subproblem.decisions) other.now.subproblem.row one.now.subproblem }
{
    one.decisions.len() == other.decisions.len()
        && row_same(one.row.as_slice(), other.row.as_slice())
}

/// The best solution so far.
#[derive(Debug, Drop)]
pub struct Best {
    pub value: i64,
    pub decisions: Vec<u32>,
}

impl Model for Best {
    ghost use Rattle.dp_model.specs.Solution.{Solution};

    ghost Value = { Solution };

    ghost view = { λ b. record { decisions = b.decisions.items; value = b.value } };
}

/// A ticket, and the subproblem that is listed under it, or none.
#[derive(Debug, Drop)]
pub struct Place {
    pub ticket: u64,
    pub sub: Option<Sub>,
}

/// What records have made of a search: the best solution, the subproblems that are listed, each at a place with its ticket, in order
/// of ticket, and the next ticket.
#[derive(Debug, Drop)]
pub struct State {
    pub best: Option<Best>,
    places: Vec<Place>,
    next_ticket: u64,
}

impl Model for State {
    ghost use Rattle.journal_replay.specs.Places.{AreInOrder, listed_in};
    ghost use Rattle.journal_replay.specs.Replay.{Replayed};

    ghost Value = { Replayed };

    ghost view = { λ s. record { incumbent = s.best; listed = listed_in s.places.items; next_ticket = s.next_ticket } };

    ghost invariant = { λ s. AreInOrder s.next_ticket s.places.items };
}

/// Where the place with the ticket is, or `None` exactly where there is none.
fn place_with(places: &[Place], next: u64, ticket: u64) -> Option<usize>
    requires { AreInOrder next places.now }
    ensures { PlaceIs ticket places.now result }
{
    match places.binary_search_by_key(&ticket, |place| place.ticket) {
        Ok(at) => Some(at),
        Err(_) => None,
    }
}

/// The subproblems at places, each with its ticket.
fn opened(alloc: Global, places: Vec<Place>) -> Result<Vec<(u64, Sub)>, OutOfMemory>
    ensures { IfOk result (λ opened. ticketed opened.items ≡ listed_in places.items) }
{
    let mut opened = Vec::new(alloc);
    for place in places {
        let Place { ticket, sub } = place;
        if let Some(sub) = sub {
            opened.push((ticket, sub))?;
        }
    }
    Ok(opened)
}

impl State {
    /// Nothing is listed, and no ticket was given out.
    pub fn new(alloc: Global, best: Option<Best>) -> State
        ensures { result ≡ record { incumbent = best; listed = []; next_ticket = 0 } }
    {
        State {
            best,
            places: Vec::new(alloc),
            next_ticket: 0,
        }
    }

    /// What is at the places is listed. Their tickets rise, and are less than the next one.
    pub fn restored(best: Option<Best>, places: Vec<Place>, next: u64) -> State
        requires { AreInOrder next places.items }
        ensures { result ≡ record { incumbent = best; listed = listed_in places.items; next_ticket = next } }
    {
        State {
            best,
            places,
            next_ticket: next,
        }
    }

    /// The next ticket.
    pub fn next_ticket(&self) -> u64
        ensures { result ≡ self.now.next_ticket }
    {
        self.next_ticket
    }

    /// The best solution, and the subproblems with their tickets.
    pub fn into_opened(self, alloc: Global) -> Result<(Option<Best>, Vec<(u64, Sub)>), OutOfMemory>
        ensures best { IfOk result (λ parts. parts.0 ≡ self.incumbent) }
        ensures opened { IfOk result (λ parts. ticketed parts.1.items ≡ self.listed) }
    {
        let State { best, places, .. } = self;
        let opened = opened(alloc, places)?;
        Ok((best, opened))
    }

    /// Takes out the subproblem with the ticket, where it is listed.
    pub fn take_out(&mut self, ticket: u64) -> Option<Sub>
        ensures one { option_map (λ (c : SubView). record { ticket = ticket; subproblem = c.subproblem }) result ≡ listed_at ticket self.old.listed }
        ensures left { self.new ≡ taken_off ticket self.old }
    {
        match place_with(self.places.as_slice(), self.next_ticket, ticket) {
            Some(at) => self.places[at].sub.take(),
            None => None,
        }
    }

    /// Whether the subproblem with the ticket is listed, and has the depth and state of another.
    pub fn has_like(&self, ticket: u64, sub: &Sub) -> bool
        ensures { result ≡ is_like sub.now.subproblem (listed_at ticket self.now.listed) }
    {
        match place_with(self.places.as_slice(), self.next_ticket, ticket) {
            Some(at) => match &self.places[at].sub {
                Some(one) => is_same(one, sub),
                None => false,
            },
            None => false,
        }
    }

    /// Lists a subproblem under the next ticket. Fails also where that is the greatest number, which is no ticket.
    pub fn add(&mut self, sub: Sub) -> Result<(), OutOfMemory>
        ensures { OnOk result (self.new ≡ record self.old {
          listed = self.old.listed ++ record { ticket = self.old.next_ticket; subproblem = sub.subproblem } ∷ [];
          next_ticket = self.old.next_ticket + 1;
        }) }
    {
        let ticket = self.next_ticket;
        let Some(next) = ticket.checked_add(1) else {
            return Err(OutOfMemory);
        };
        self.places.push(Place {
            ticket,
            sub: Some(sub),
        })?;
        self.next_ticket = next;
        Ok(())
    }
}
