//! The program: `main` and the edge to the outside.
//!
//! `main` calls `run` of `commands` with the command's words, standard input, standard output and a file. What a run does, and how it ends,
//! is said there. Here the words are read, and the status becomes the exit status. It stands on `commands`, and on `answers`,
//! `solver_report`, `search_workers`, `streams` and `disk` for what it gives to `run`.
//!
//! ```text
//! solver_cli solve knapsack < INSTANCE
//! ```
#![tactic(auto)]

use answers::say;
use commands::run;
use disk::FileDisk;
use search_workers::NoGate;
use solver_report::Answer;
use std::alloc::AllocError;
use std::env;
use std::io::ErrorKind;
use std::process::ExitCode;
use streams::{StdSink, StdSource};

/// Calls `run` with the command's words, standard input, standard output and a file of the operating system. Writes `out of memory` if
/// there is no memory for the words.
fn main(rt: HostRuntime) -> ExitCode {
    let mut out = StdSink::new(rt.stdout());
    let Ok(words) = words_of(&rt) else {
        return ExitCode::from(say(rt.alloc(), &mut out, &Answer::OutOfMemory));
    };
    let mut input = StdSource::new(rt.stdin());
    let ended = run(
        &rt,
        rt.alloc(),
        words.as_slice(),
        &mut input,
        &mut out,
        FileDisk::detached(&rt),
        &NoGate,
    );
    ExitCode::from(ended.status)
}

/// The command's words, without the program's name. If a word is not UTF-8, there are no words, which the grammar refuses.
fn words_of(rt: &HostRuntime) -> Result<Vec<String>, AllocError> {
    let mut words = Vec::new(rt.alloc());
    match env::args(rt) {
        Ok(args) => {
            for word in args.skip(1) {
                words.push(word)?;
            }
        }
        Err(error) if error.kind() == ErrorKind::OutOfMemory => return Err(AllocError),
        Err(_) => {}
    }
    Ok(words)
}
