//! Runs a command of the program: it does what the command's words ask for with its input, and writes the answer.
//!
//! `run` is the top call, over any source, sink and disk. Its contract says how a run ends. The answer is right for the words and the
//! bytes that were read. Its text was written whole, and the status is its own; or a part was written because the sink failed or took
//! nothing, and the status is 7. If a journal is kept, the contract also says what a crash at any moment of the run leaves of it.
//!
//! It stands on `answers` for answers and their texts, and on `search_workers` for the search, which it starts. A width is refused
//! exactly if it is 0 or above the greatest width of the instance. If a cover is asked for, each worker has a book of `cover_pages`, and the
//! cover is made from the books. The program is `solver_cli`, whose `main` calls `run` with standard input, standard output and a file.
//!
//! ```
//! // The words leave out the program's name. Here they are `solve` and `knapsack`, and nothing touches the disk.
//! let ended = run(&rt, rt.alloc(), words, &mut input, &mut out, FileDisk::detached(&rt), &NoGate);
//! let status = ended.status;
//! ```
#![tactic(auto)]

mod answering;
mod books;
mod drawing;
mod ending;
mod keeping;
mod limits;
mod offering;
mod resuming;
mod runner;
mod running;
mod searching;
mod solving;
mod starting;

pub use running::{Ended, run};
