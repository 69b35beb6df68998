//! Sources that are read and sinks that are written, each of which counts its faults.
//!
//! A program that is generic over `Source` and `Sink` runs over the host's readers and writers (`StdSource`, `StdSink`) and over memory
//! (`MemSource`, `MemSink`), where a test lists the calls that fail. `read_all` reads a source to its end and `write_all`
//! writes all of some bytes. Each says a fault exactly where one was counted, and what was read or written, where the source
//! or the sink tells its bytes. The crate stands on std alone.
//!
//! ```
//! let mut input = StdSource::new(rt.stdin());
//! let bytes = read_all(alloc, &mut input, 1 << 26)?;
//! ```
#![tactic(auto)]

mod failed;
mod listed_calls;
mod memory_sink;
mod memory_source;
mod reading;
mod sink;
mod source;
mod std_sink;
mod std_source;
mod writing;

pub use failed::Failed;
pub use memory_sink::MemSink;
pub use memory_source::MemSource;
pub use reading::{ReadError, read_all};
pub use sink::Sink;
pub use source::Source;
pub use std_sink::StdSink;
pub use std_source::StdSource;
pub use writing::{WriteError, write_all};
