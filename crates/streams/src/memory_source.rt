ghost use Rattle.std.specs.Prelude.{◌≡◌, ◌↔◌, length, take, drop, min, Contains, IsErr, is_err, IfOk, OnErr, Some};
ghost use Rattle.streams.specs.Counts.{next_count, Counts};

use super::{Failed, Source};
use crate::listed_calls::ListedCalls;
use std::marker::Model;

/// Bytes in memory that are read as a source, of which the listed calls fail.
#[derive(Debug, Drop)]
pub struct MemSource {
    bytes: Vec<u8>,
    // How many bytes have been read.
    at: usize,
    calls: ListedCalls,
}

impl Model for MemSource {
    ghost use Rattle.std.specs.Prelude.{◌≤◌, drop, vec_len};
    ghost use Rattle.streams.specs.MemorySource.{SourceData};

    ghost Value = { SourceData };

    ghost view = { λ s. record {
      left = drop s.at s.bytes.items;
      calls = s.calls.made;
      failing = s.calls.failing.items;
      faults = s.calls.faults;
    } };

    ghost invariant = { λ s. s.at ≤ vec_len s.bytes };
}

impl MemSource {
    /// A source of these bytes. The calls whose numbers are listed fail, and no others: the first call of `read` is
    /// number 0.
    pub fn new(bytes: Vec<u8>, failing: Vec<u64>) -> MemSource
        ensures left { result.left ≡ bytes.items }
        ensures calls { result.calls ≡ 0 }
        ensures failing { result.failing ≡ failing.items }
        ensures faults { result.faults ≡ 0 }
    {
        MemSource {
            bytes,
            at: 0,
            calls: ListedCalls::new(failing),
        }
    }

    /// The bytes that are left.
    pub fn left(&self) -> &[u8]
        ensures { result.now ≡ self.now.left }
    {
        &self.bytes[self.at..]
    }

    /// How many calls of `read` were made. The count stops at `u64::MAX`, which is then the number of each later call.
    pub fn calls(&self) -> u64
        ensures { result ≡ self.now.calls }
    {
        self.calls.made()
    }

    /// How many calls have failed, at most `u64::MAX`.
    pub fn faults(&self) -> u64
        ensures { result ≡ self.now.faults }
    {
        self.calls.faults()
    }
}

impl Source for MemSource {
    ghost left = { λ s. Some s.left };

    ghost faults = { λ s. s.faults };

    fn read(&mut self, into: &mut [u8]) -> Result<usize, Failed>
        ensures fails { IsErr result ↔ Contains self.old.failing self.old.calls }
        ensures count { IfOk result (λ n. n ≡ min (length into.new) (length self.old.left)) }
        ensures bytes { IfOk result (λ n. take n into.new ≡ take n self.old.left) }
        ensures ok { IfOk result (λ n. self.new ≡
            record self.old { left = drop n self.old.left; calls = next_count self.old.calls }) }
        ensures err { OnErr result (self.new ≡
            record self.old { calls = next_count self.old.calls; faults = next_count self.old.faults }) }
        ensures faults { Counts (is_err result) self.old.faults self.new.faults }
    {
        self.calls.begin()?;
        let rest = &self.bytes[self.at..];
        let n = into.len().min(rest.len());
        into[..n].copy_from_slice(&rest[..n]);
        self.at += n;
        Ok(n)
    }
}
