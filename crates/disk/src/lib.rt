//! A file as a journal sees it: what a read gives, and what a crash at each moment may leave of it.
//!
//! A program that is generic over `Disk` runs over a real file (`FileDisk`), which tells nothing of its content, and over
//! memory (`MemDisk`), where a test lists the calls that fail, stops a run after any number of calls, and takes an image of
//! what a crash then leaves. The crate stands on `streams`, for what a count of faults is, and on std.
//!
//! ```
//! let mut disk = FileDisk::detached(rt);
//! disk.attach("search.journal")?;
//! ```
#![tactic(auto)]

mod content;
mod disk;
mod disk_failed;
mod file_disk;
mod first_sync;
mod listed_calls;
mod mem_disk;
mod named;
#[cfg(test)]
mod tests;

pub use disk::Disk;
pub use disk_failed::DiskFailed;
pub use file_disk::FileDisk;
pub use mem_disk::MemDisk;
