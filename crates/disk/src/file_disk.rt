ghost use Rattle.std.specs.Prelude.{◌≡◌, ◌≤ℤ◌, pos, None, false, is_err, is_some, [], option_map, IfOk};
ghost use Rattle.std.specs.Fd.{file_raw_fd};
ghost use Rattle.disk.specs.Counts.{Counts};

use super::{Disk, DiskFailed};
use crate::named::add_name;
use std::alloc::{Alloc, Global};
use std::fs::{File, Files, OpenOptions};
use std::io;
use std::io::ErrorKind;
use std::marker::Model;
use std::os::fd::AsRawFd;
use std::os::unix::fs::FileExt;
use std::path::Path;

/// The least descriptor that is none of a standard stream.
const LEAST_DESCRIPTOR: i32 = 3;

/// A disk over a file of the operating system. It tells no content, and counts each error, up to `u64::MAX`. A short read is
/// an error.
///
/// The file is locked while it is attached. `attach` fails, before it reads or writes a byte, where another open file, of
/// this program or of another, has the lock, and where the system has no locks. An attached file never has the descriptor of a
/// standard stream, even where one of these is closed. `attach` also puts the folder on the disk, so that a crash keeps the
/// name of a file that was made.
///
/// That such a file behaves as the contract of `Disk` says is trusted, and so is that a sync that succeeds has put its bytes
/// and its length on the disk.
#[derive(Drop)]
pub struct FileDisk<R> {
    rt: R,
    // The names of the files that were attached.
    names: Vec<String>,
    file: Option<File>,
    // Where a sync has succeeded since the attaching, how many calls had failed by the first one.
    synced: Option<u64>,
    faults: u64,
}

impl<R> Model for FileDisk<R> {
    ghost use Rattle.std.specs.Prelude.{is_some, map, string_bytes};
    ghost use Rattle.disk.specs.Outside.{FileDiskView};

    ghost Value = { FileDiskView R };

    ghost view = { λ d. record { runtime = d.rt; names = map string_bytes d.names.items; is_attached = is_some d.file; synced = d.synced; faults = d.faults } };
}

impl<R: Alloc<A = Global>> FileDisk<R> {
    /// A disk with no file yet.
    pub fn detached(rt: R) -> FileDisk<R>
        ensures { result ≡ record { runtime = rt; names = []; is_attached = false; synced = None; faults = 0 } }
    {
        let names = Vec::new(rt.alloc());
        FileDisk {
            rt,
            names,
            file: None,
            synced: None,
            faults: 0,
        }
    }

    /// How many calls have failed, at most `u64::MAX`.
    pub fn faults(&self) -> u64
        ensures { result ≡ self.now.faults }
    {
        self.faults
    }
}

/// Opens the named file, makes it where there is none, and locks it. It has no descriptor of a standard stream.
fn open_alone<R: Files<File = File>>(rt: &R, name: &str) -> io::Result<File>
    ensures { IfOk result (λ file. pos 3 ≤ℤ file_raw_fd file) }
{
    let opened = OpenOptions::new()
        .read(true)
        .write(true)
        .create(true)
        .open(rt, name)?;
    // The first handle may have the descriptor of a closed standard stream. Its clone gets one of 3 or above, and the first handle is
    // closed on return.
    let file = opened.try_clone()?;
    if file.as_raw_fd() < LEAST_DESCRIPTOR {
        return Err(io::Error::from(ErrorKind::Other));
    }
    file.try_lock()?;
    Ok(file)
}

/// Puts the folder of the named file on the disk.
fn sync_folder<R: Files<File = File>>(rt: &R, name: &str) -> io::Result<()> {
    let folder = match Path::new(name).parent() {
        Some(folder) if folder.to_string_lossy() != "" => File::open(rt, folder)?,
        _ => File::open(rt, ".")?,
    };
    folder.sync_all()
}

/// The outcome of a call, whose error is counted.
fn counted<T>(outcome: io::Result<T>, faults: &mut u64) -> Result<T, DiskFailed>
    ensures { Counts (is_err result) faults.old faults.new }
{
    match outcome {
        Ok(x) => Ok(x),
        Err(_) => Err(DiskFailed::counted(faults)),
    }
}

impl<R: Files<File = File>> Disk for FileDisk<R> {
    ghost attached = { λ d. d.is_attached };

    ghost tells = { λ _. false };

    ghost seen = { λ _. [] };

    ghost may_leave = { λ _ _. Unit {0} };

    ghost moment = { λ _. 0 };

    ghost left_since = { λ _ _ _. Unit {0} };

    ghost start = { λ d. option_map (λ faults. record { moment = 0; content = []; faults = faults }) d.synced };

    ghost names = { λ d. d.names };

    ghost found = { λ _. [] };

    ghost faults = { λ d. d.faults };

    ghost counts_now = { λ _ _ _ _ _. tt };

    ghost only_now = { λ _ _ _. tt };

    fn attach(&mut self, name: &str) -> Result<(), DiskFailed> {
        self.synced = None;
        let file = counted(open_alone(&self.rt, name), &mut self.faults)?;
        counted(sync_folder(&self.rt, name), &mut self.faults)?;
        if add_name(&mut self.names, name).is_err() {
            return Err(DiskFailed::counted(&mut self.faults));
        }
        self.file = Some(file);
        Ok(())
    }

    fn len(&mut self) -> Result<u64, DiskFailed> {
        let Some(file) = &self.file else {
            unreachable!();
        };
        let metadata = counted(file.metadata(), &mut self.faults)?;
        Ok(metadata.len())
    }

    fn read_at(&mut self, at: u64, into: &mut [u8]) -> Result<(), DiskFailed> {
        let Some(file) = &self.file else {
            unreachable!();
        };
        counted(file.read_exact_at(into, at), &mut self.faults)
    }

    fn write_at(&mut self, at: u64, bytes: &[u8]) -> Result<(), DiskFailed> {
        let Some(file) = &self.file else {
            unreachable!();
        };
        counted(file.write_all_at(bytes, at), &mut self.faults)
    }

    fn sync(&mut self) -> Result<(), DiskFailed> {
        let Some(file) = &self.file else {
            unreachable!();
        };
        counted(file.sync_data(), &mut self.faults)?;
        if self.synced.is_none() {
            self.synced = Some(self.faults);
        }
        Ok(())
    }
}
