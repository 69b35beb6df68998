ghost use Rattle.std.specs.Prelude.{◌≡◌, ◌+◌, ◌<◌, ◌⊎◌, ◌++◌, [], length, Contains, IsErr, is_err, IfOk, OnOk, OnErr, Some};
ghost use Rattle.streams.specs.Counts.{next_count, Counts};

use super::{Failed, Sink};
use crate::listed_calls::ListedCalls;
use std::alloc::Global;
use std::marker::Model;

/// A sink that keeps in memory what it takes, of which the listed calls fail. It takes each piece whole.
#[derive(Debug, Drop)]
pub struct MemSink {
    taken: Vec<u8>,
    calls: ListedCalls,
}

impl Model for MemSink {
    ghost use Rattle.std.specs.Prelude.{vec_capacity};
    ghost use Rattle.streams.specs.MemorySink.{SinkData};

    ghost Value = { SinkData };

    ghost view = { λ s. record {
      taken = s.taken.items;
      room = vec_capacity s.taken;
      calls = s.calls.made;
      failing = s.calls.failing.items;
      faults = s.calls.faults;
    } };
}

impl MemSink {
    /// An empty sink. The calls whose numbers are listed fail, and those for whose piece there is no memory, and no
    /// others: the first call of `write` is number 0.
    pub fn new(alloc: Global, failing: Vec<u64>) -> MemSink
        ensures taken { result.taken ≡ [] }
        ensures calls { result.calls ≡ 0 }
        ensures failing { result.failing ≡ failing.items }
        ensures faults { result.faults ≡ 0 }
    {
        MemSink {
            taken: Vec::new(alloc),
            calls: ListedCalls::new(failing),
        }
    }

    /// The bytes that were taken.
    pub fn taken(&self) -> &[u8]
        ensures { result.now ≡ self.now.taken }
    {
        &self.taken
    }

    /// How many calls of `write` were made. The count stops at `u64::MAX`, which is then the number of each later call.
    pub fn calls(&self) -> u64
        ensures { result ≡ self.now.calls }
    {
        self.calls.made()
    }

    /// How many calls have failed, at most `u64::MAX`.
    pub fn faults(&self) -> u64
        ensures { result ≡ self.now.faults }
    {
        self.calls.faults()
    }
}

impl Sink for MemSink {
    ghost taken = { λ s. Some s.taken };

    ghost faults = { λ s. s.faults };

    ghost idle = { λ _. 0 };

    fn write(&mut self, piece: &[u8]) -> Result<usize, Failed>
        ensures listed { Contains self.old.failing self.old.calls → IsErr result }
        ensures fails { OnErr result (Contains self.old.failing self.old.calls
            ⊎ (self.old.room < length self.old.taken + length piece.now)) }
        ensures count { IfOk result (λ n. n ≡ length piece.now) }
        ensures ok { OnOk result (self.new ≡ record self.old {
          taken = self.old.taken ++ piece.now;
          room = self.new.room;
          calls = next_count self.old.calls;
        }) }
        ensures err { OnErr result (self.new ≡ record self.old {
          room = self.new.room;
          calls = next_count self.old.calls;
          faults = next_count self.old.faults;
        }) }
        ensures faults { Counts (is_err result) self.old.faults self.new.faults }
    {
        self.calls.begin()?;
        if self.taken.extend_from_slice(piece).is_err() {
            return Err(self.calls.fail());
        }
        Ok(piece.len())
    }
}
