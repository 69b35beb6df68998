ghost use Rattle.std.specs.Prelude.{◌≡◌, ◌↔◌, ◌+◌, ◌≤◌, ◌++◌, ◌∷◌, true, false, [], length, take, drop, is_err, IsErr, IfOk, OnOk, OnErr, Some, None};
ghost use Rattle.std.proofs.Common.{inl};
ghost use Rattle.disk.specs.Counts.{Counts};
ghost use Rattle.disk.specs.Content.{Leaves, LeftSince, only_now};
ghost use Rattle.disk.specs.Disk.{Holds, Torn, Follows, Only, SameOutcomes, Elapses, first_sync};
ghost use Rattle.disk.specs.Memory.{IsToFail, called, failed};

use super::{Disk, DiskFailed};
use crate::content::Content;
use crate::first_sync::{Noted, note};
use crate::listed_calls::ListedCalls;
use crate::named::add_name;
use std::alloc::AllocError;
use std::marker::Model;
use std::snapshot::Snapshot;

/// A disk in memory with one file, which stands under every name. It is honest, and some of its calls fail.
///
/// A crash may leave whatever the contract of `Disk` allows: each write that no sync followed may be torn, whatever came
/// after it.
#[derive(Drop)]
pub struct MemDisk {
    content: Content,
    // What the content was before each change. It holds nothing that costs memory.
    past: Vec<Snapshot<Content>>,
    start: Option<Noted>,
    // What the content was at the last try to attach the file.
    found: Snapshot<Content>,
    names: Vec<String>,
    attached: bool,
    calls: ListedCalls,
    faults: u64,
}

impl Model for MemDisk {
    ghost use Rattle.disk.specs.Memory.{MemDiskView};
    ghost use Rattle.disk.specs.FirstSyncs.{noted};
    ghost use Rattle.std.specs.Prelude.{map, string_bytes};

    ghost Value = { MemDiskView };

    ghost view = { λ d. record {
      content = d.content;
      past = d.past.items;
      start = noted d.start;
      found = d.found.value.bytes;
      names = map string_bytes d.names.items;
      is_attached = d.attached;
      failing = d.calls.failing.items;
      calls = d.calls.made;
      fuse = d.calls.fuse;
      faults = d.faults;
    } };
}

impl MemDisk {
    /// A disk whose file has these bytes, and that is not attached. The calls whose numbers are listed fail: the first call
    /// of `Disk` is number 0. An attach, a write or a sync for which memory is refused is a failed
    /// call too; no other call fails.
    pub fn new(bytes: Vec<u8>, failing: Vec<u64>) -> MemDisk
        ensures { result ≡ record {
          content = record { bytes = bytes.items; synced = bytes.items; pending = [] };
          past = [];
          start = None;
          found = bytes.items;
          names = [];
          is_attached = false;
          failing = failing.items;
          calls = 0;
          fuse = None;
          faults = 0;
        } }
    {
        let alloc = *bytes.allocator();
        let content = Content::new(bytes);
        let found = Snapshot::of(&content);
        MemDisk {
            content,
            past: Vec::new(alloc),
            start: None,
            found,
            names: Vec::new(alloc),
            attached: false,
            calls: ListedCalls::new(failing),
            faults: 0,
        }
    }

    /// A disk that passes this many calls and then fails every one.
    pub fn fused(bytes: Vec<u8>, calls: u64) -> MemDisk
        ensures { result ≡ record {
          content = record { bytes = bytes.items; synced = bytes.items; pending = [] };
          past = [];
          start = None;
          found = bytes.items;
          names = [];
          is_attached = false;
          failing = [];
          calls = 0;
          fuse = Some calls;
          faults = 0;
        } }
    {
        let failing = Vec::new(*bytes.allocator());
        let mut disk = MemDisk::new(bytes, failing);
        disk.calls.fuse = Some(calls);
        disk
    }

    /// What a read gives.
    pub fn bytes(&self) -> &[u8]
        ensures { result.now ≡ self.now.content.bytes }
    {
        self.content.bytes()
    }

    /// How many calls have failed, at most `u64::MAX`.
    pub fn faults(&self) -> u64
        ensures { result ≡ self.now.faults }
    {
        self.faults
    }

    /// What a crash leaves. With an empty `fill`, writes that no sync followed are lost; else the file has its new length,
    /// and byte `i` of it, where a sync is wanting, is `fill[i % fill.len()]`. The image is not attached, and none of its
    /// calls is to fail.
    pub fn crash(self, fill: &[u8]) -> Result<MemDisk, AllocError>
        ensures image { IfOk result (λ disk. Leaves self.content disk.content.bytes) }
        ensures lost { IfOk result (λ disk. length fill.now ≡ 0 → disk.content.bytes ≡ self.content.synced) }
        ensures fresh { IfOk result (λ disk. disk ≡ record {
          content = record { bytes = disk.content.bytes; synced = disk.content.bytes; pending = [] };
          past = [];
          start = None;
          found = disk.content.bytes;
          names = [];
          is_attached = false;
          failing = [];
          calls = 0;
          fuse = None;
          faults = 0;
        }) }
    {
        let MemDisk {
            content,
            past,
            start: _,
            found: _,
            names: _,
            attached: _,
            calls: _,
            faults: _,
        } = self;
        let failing = Vec::new(*past.allocator());
        Ok(MemDisk::new(content.image(fill)?, failing))
    }
}

impl Disk for MemDisk {
    ghost attached = { λ d. d.is_attached };

    ghost tells = { λ _. true };

    ghost seen = { λ d. d.content.bytes };

    ghost may_leave = { λ d c. Leaves d.content c };

    ghost moment = { λ d. length d.past };

    ghost left_since = { λ d t c. LeftSince d.past d.content t c };

    ghost start = { λ d. d.start };

    ghost names = { λ d. d.names };

    ghost found = { λ d. d.found };

    ghost faults = { λ d. d.faults };

    ghost counts_now = { λ d t c le now. inl now };

    ghost only_now = { λ d c left. only_now d.past d.content c left };

    fn attach(&mut self, name: &str) -> Result<(), DiskFailed>
        ensures fails { IsToFail self.old → IsErr result }
        ensures ok { OnOk result (self.new ≡ record (called self.old) {
          start = None;
          found = self.old.content.bytes;
          names = self.old.names ++ name.now ∷ [];
          is_attached = true;
        }) }
        ensures err { OnErr result (self.new ≡ record (failed self.old) { start = None; found = self.old.content.bytes }) }
        ensures faults { Counts (is_err result) self.old.faults self.new.faults }
    {
        let fails = self.calls.next_fails();
        self.start = None;
        self.found = Snapshot::of(&self.content);
        if fails || add_name(&mut self.names, name).is_err() {
            return Err(DiskFailed::counted(&mut self.faults));
        }
        self.attached = true;
        Ok(())
    }

    fn len(&mut self) -> Result<u64, DiskFailed>
        ensures fails { IsErr result ↔ IsToFail self.old }
        ensures len { IfOk result (λ n. n ≡ length self.old.content.bytes) }
        ensures ok { OnOk result (self.new ≡ called self.old) }
        ensures err { OnErr result (self.new ≡ failed self.old) }
        ensures faults { Counts (is_err result) self.old.faults self.new.faults }
    {
        if self.calls.next_fails() {
            return Err(DiskFailed::counted(&mut self.faults));
        }
        Ok(self.content.bytes().len() as u64)
    }

    fn read_at(&mut self, at: u64, into: &mut [u8]) -> Result<(), DiskFailed>
        requires range { at + length into.old ≤ length self.old.content.bytes }
        ensures fails { IsErr result ↔ IsToFail self.old }
        ensures read { OnOk result (into.new ≡ take (length into.old) (drop at self.old.content.bytes)) }
        ensures ok { OnOk result (self.new ≡ called self.old) }
        ensures err { OnErr result (self.new ≡ failed self.old) }
        ensures faults { Counts (is_err result) self.old.faults self.new.faults }
    {
        if self.calls.next_fails() {
            return Err(DiskFailed::counted(&mut self.faults));
        }
        let from = at as usize;
        into.copy_from_slice(&self.content.bytes()[from..from + into.len()]);
        Ok(())
    }

    fn write_at(&mut self, at: u64, bytes: &[u8]) -> Result<(), DiskFailed>
        requires range { at ≤ length self.old.content.bytes }
        ensures fails { IsToFail self.old → IsErr result }
        ensures written { OnOk result (Holds self.old.content.bytes at bytes.now self.new.content.bytes) }
        ensures unwritten { OnErr result (self.new.content.bytes ≡ self.old.content.bytes) }
        ensures crash { Follows (Torn at (length bytes.now)) (Leaves self.old.content) (Leaves self.new.content) }
        ensures time { Elapses (length self.old.past) (length self.new.past)
            (LeftSince self.old.past self.old.content) (LeftSince self.new.past self.new.content)
            (Leaves self.new.content) }
        ensures ok { OnOk result (self.new ≡
            record (called self.old) { content = self.new.content; past = self.new.past }) }
        ensures err { OnErr result (self.new ≡
            record (failed self.old) { content = self.new.content; past = self.new.past }) }
        ensures faults { Counts (is_err result) self.old.faults self.new.faults }
    {
        let fails = self.calls.next_fails();
        let written = self
            .content
            .write(&mut self.past, at as usize, bytes, fails);
        if written.is_err() {
            return Err(DiskFailed::counted(&mut self.faults));
        }
        Ok(())
    }

    fn sync(&mut self) -> Result<(), DiskFailed>
        ensures fails { IsToFail self.old → IsErr result }
        ensures seen { self.new.content.bytes ≡ self.old.content.bytes }
        ensures durable { OnOk result (Only self.old.content.bytes (Leaves self.new.content)) }
        ensures crash_err { OnErr result (SameOutcomes (Leaves self.old.content) (Leaves self.new.content)) }
        ensures time { Elapses (length self.old.past) (length self.new.past)
            (LeftSince self.old.past self.old.content) (LeftSince self.new.past self.new.content)
            (Leaves self.new.content) }
        ensures ok { OnOk result (self.new ≡ record (called self.old) {
          content = self.new.content;
          past = self.new.past;
          start = first_sync self.old.start (length self.new.past) self.old.content.bytes self.old.faults;
        }) }
        ensures err { OnErr result (self.new ≡
            record (failed self.old) { content = self.new.content; past = self.new.past }) }
        ensures faults { Counts (is_err result) self.old.faults self.new.faults }
    {
        if self.calls.next_fails() {
            return Err(DiskFailed::counted(&mut self.faults));
        }
        if self.content.settle(&mut self.past).is_err() {
            return Err(DiskFailed::counted(&mut self.faults));
        }
        note(
            &mut self.start,
            self.past.len(),
            self.content.bytes(),
            self.faults,
        );
        Ok(())
    }
}
