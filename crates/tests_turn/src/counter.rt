//! The counter and its two steps.
ghost use Rattle.std.specs.Prelude.{◌≡◌, ℕ, ◌+◌, ◌<◌, ◌≤◌, Option, Some, None, length, slice_get, replicate, IfOk, MatchOption};
ghost use Rattle.tests_turn.specs.Counter.{CounterView, with_taken, with_finished, slot_of, IsStep};

use std::alloc::{AllocError, Global};
use std::marker::Model;
use turn::Turned;

/// Hands out numbers below a limit, one to a worker at a time, and keeps the greatest number that came back.
#[derive(Drop)]
pub struct Counter {
    limit: u32,
    next: u32,
    best: Option<i64>,
    slots: Vec<Option<u32>>,
}

impl Model for Counter {
    ghost Value = { CounterView };

    ghost view = { λ c. record { limit = c.limit; next = c.next; best = c.best; slots = c.slots.items } };

    ghost invariant = { λ c. c.next ≤ c.limit };
}

/// What no step changes. Only proofs use it: no value of it is made.
pub struct Terms {
    pub limit: u32,
    pub workers: u64,
}

impl Turned for Counter {
    ghost use Rattle.tests_turn.specs.Law.{keeps_step};

    type Tag = Terms;

    ghost tag = { λ c. record { limit = c.limit; workers = length c.slots } };

    ghost seen = { λ c. c.best };

    ghost out = { slot_of };

    ghost moves = { IsStep };

    ghost keeps = { keeps_step };
}

impl Counter {
    pub fn new(alloc: Global, limit: u32, workers: u32) -> Result<Counter, AllocError>
        ensures made { IfOk result (λ c. c ≡ record { limit = limit; next = 0; best = None; slots = replicate workers None }) }
        ensures nothing_out { IfOk result (λ c. (who : ℕ) → slot_of c who ≡ None) }
    {
        let slots = vec![in alloc; None; workers as usize]?;
        Ok(Counter {
            limit,
            next: 0,
            best: None,
            slots,
        })
    }

    /// Hands out the next number, if one is left.
    pub fn take(&mut self, who: u32) -> Option<u32>
        requires { slice_get self.old.slots who ≡ Some None }
        ensures { MatchOption result (self.new ≡ self.old) (λ d. self.new ≡ with_taken self.old who d) }
    {
        if self.next == self.limit {
            return None;
        }
        let number = self.next;
        self.slots[who as usize] = Some(number);
        self.next += 1;
        Some(number)
    }

    /// Takes a worker's number back.
    pub fn finish(&mut self, who: u32, value: i64)
        requires { who < length self.old.slots }
        ensures { self.new ≡ with_finished self.old who value }
    {
        self.slots[who as usize] = None;
        self.best = match self.best {
            None => Some(value),
            Some(best) => Some(best.max(value)),
        };
    }

    /// The greatest number that came back.
    pub fn best(&self) -> Option<i64>
        ensures { result ≡ self.now.best }
    {
        self.best
    }
}
