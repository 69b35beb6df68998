ghost use Rattle.std.specs.Prelude.{◌≡◌, ◌↔◌, ℕ, List, ◌+◌, ◌<◌, ◌≤◌, [], length, IsSome, IsTrue, IsErr, IfOk, OnOk, OnErr};
ghost use Rattle.disk.specs.Disk.{Holds, Torn, Follows, Only};
ghost use Rattle.disk.specs.Content.{Leaves, Remembers};
ghost use Rattle.disk.specs.Synced.{synced_or};

use std::alloc::AllocError;
use std::marker::Model;
use std::snapshot::Snapshot;

/// A write that no sync followed yet: where it began, and how many bytes it has.
#[derive(Clone, Copy, Debug)]
pub(crate) struct Write {
    pub(crate) at: usize,
    pub(crate) count: usize,
}

/// The file of a disk in memory.
#[derive(Debug, Drop)]
pub(crate) struct Content {
    bytes: Vec<u8>,
    // What the last sync has put on the disk, where a write came since.
    synced: Option<Vec<u8>>,
    // The writes since the last sync, the oldest first.
    pending: Vec<Write>,
}

impl Model for Content {
    ghost use Rattle.disk.specs.Content.{ContentView};
    ghost use Rattle.disk.specs.Synced.{synced_or};

    ghost Value = { ContentView };

    ghost view = { λ c. record {
      bytes = c.bytes.items;
      synced = synced_or c.synced c.bytes.items;
      pending = c.pending.items;
    } };
}

impl Content {
    /// A file of these bytes, all of them on the disk.
    pub(crate) fn new(bytes: Vec<u8>) -> Content
        ensures { result ≡ record { bytes = bytes.items; synced = bytes.items; pending = [] } }
    {
        let pending = Vec::new(*bytes.allocator());
        Content {
            bytes,
            synced: None,
            pending,
        }
    }

    /// What a read gives.
    pub(crate) fn bytes(&self) -> &Vec<u8>
        ensures { result.now.items ≡ self.now.bytes }
    {
        &self.bytes
    }

    /// Writes, or begins a write that fails: what a read gives is then as before, and a crash may leave any bytes in the
    /// range.
    pub(crate) fn write(
        &mut self,
        past: &mut Vec<Snapshot<Content>>,
        at: usize,
        piece: &[u8],
        fails: bool,
    ) -> Result<(), AllocError>
        requires { at ≤ length self.old.bytes }
        ensures written { OnOk result (Holds self.old.bytes at piece.now self.new.bytes) }
        ensures err { OnErr result (self.new.bytes ≡ self.old.bytes) }
        ensures fails { IsTrue fails → IsErr result }
        ensures past { Remembers past.old.items self.old past.new.items self.new }
        ensures leaves { Follows (Torn at (length piece.now)) (Leaves self.old) (Leaves self.new) }
    {
        let count = piece.len();
        past.push(Snapshot::of(self))?;
        keep_synced(&self.bytes, &mut self.synced)?;
        self.pending.push(Write { at, count })?;
        if fails {
            return Err(AllocError);
        }
        overwrite(&mut self.bytes, at, piece)
    }

    /// Puts all that was written on the disk.
    pub(crate) fn settle(&mut self, past: &mut Vec<Snapshot<Content>>) -> Result<(), AllocError>
        ensures bytes { self.new.bytes ≡ self.old.bytes }
        ensures past { Remembers past.old.items self.old past.new.items self.new }
        ensures durable { OnOk result (Only self.new.bytes (Leaves self.new)) }
        ensures err { OnErr result ((c : List ℕ) → Leaves self.new c ↔ Leaves self.old c) }
    {
        past.push(Snapshot::of(self))?;
        self.synced = None;
        self.pending.clear();
        Ok(())
    }

    /// What a crash leaves: what was synced, or with some bytes to fill the ranges that were not.
    pub(crate) fn image(self, fill: &[u8]) -> Result<Vec<u8>, AllocError>
        ensures image { IfOk result (λ v. Leaves self v.items) }
        ensures lost { IfOk result (λ v. length fill.now ≡ 0 → v.items ≡ self.synced) }
    {
        let Content {
            bytes,
            synced,
            pending,
        } = self;
        let Some(mut image) = synced else {
            return Ok(bytes);
        };
        if fill.is_empty() {
            return Ok(image);
        }
        for write in &pending {
            tear(&mut image, *write, fill)?;
        }
        Ok(image)
    }
}

/// Keeps what the last sync has put on the disk, before a first write.
fn keep_synced(bytes: &Vec<u8>, synced: &mut Option<Vec<u8>>) -> Result<(), AllocError>
    ensures synced { synced_or synced.new bytes.now.items ≡ synced_or synced.old bytes.now.items }
    ensures kept { OnOk result (IsSome synced.new) }
{
    if synced.is_none() {
        *synced = Some(bytes.clone()?);
    }
    Ok(())
}

/// Writes over what is there, and past the end.
fn overwrite(bytes: &mut Vec<u8>, at: usize, piece: &[u8]) -> Result<(), AllocError>
    requires { at ≤ length bytes.old.items }
    ensures written { OnOk result (Holds bytes.old.items at piece.now bytes.new.items) }
    ensures err { OnErr result (bytes.new.items ≡ bytes.old.items) }
{
    if piece.len() <= bytes.len() - at {
        bytes[at..at + piece.len()].copy_from_slice(piece);
        return Ok(());
    }
    bytes.reserve(piece.len())?;
    bytes.truncate(at);
    bytes.extend_from_slice(piece)
}

/// What a crash makes of a write.
fn tear(image: &mut Vec<u8>, write: Write, fill: &[u8]) -> Result<(), AllocError>
    requires { 0 < length fill.now }
    ensures { OnOk result (Torn write.at write.count image.old.items image.new.items) }
{
    let Write { at, count } = write;
    if at > image.len() {
        return Ok(());
    }
    let end = at.checked_add(count).ok_or(AllocError)?;
    if end > image.len() {
        image.resize(end, 0)?;
    }
    for i in at..end {
        image[i] = fill[i % fill.len()];
    }
    Ok(())
}
