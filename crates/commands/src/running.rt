ghost use Rattle.std.specs.Prelude.{map, string_bytes};
ghost use Rattle.answers.specs.Ended.{HasEnded, readings, writings};

use crate::answering::answer;
use crate::runner::Runner;
use answers::say;
use disk::Disk;
use search_workers::Gate;
use std::alloc::Global;
use std::sync::Wait;
use std::thread::Threads;
use streams::{Sink, Source};

/// How a run ended.
#[derive(Drop)]
pub struct Ended<D> {
    /// The exit status.
    pub status: u8,
    /// The disk as the run left it.
    pub disk: D,
}

/// Does what the words ask for with the input and the disk, writes the answer, and gives the exit status and the disk.
///
/// `words` leave out the program's name. A search takes these steps in order: words, input, instance, width, attaching, journal, search,
/// report, cover. A search that goes on from a journal takes these: words, attaching, reopening, instance, width, replay, search, report.
/// With `--incumbent` the input is read after the words, and the solutions of its reports are tested and offered after the replay. `split`
/// and `join --journal` read the journal as `resume` does, the latter after its input. The first step that fails decides the answer. The
/// disk is touched only if a journal is asked for. Each worker passes the gate after each of its steps. `run` may wait for its workers, and
/// they may wait for one another.
///
/// `solver_report::exit_status` has a constant for each status.
///
/// | Status | Meaning |
/// |---|---|
/// | 0 | proved, or done |
/// | 1 | infeasible |
/// | 2 | the search stopped early |
/// | 3 | refused input |
/// | 4 | refused words or width |
/// | 5 | refused journal |
/// | 6 | the input failed |
/// | 7 | the output failed; this goes before every other status but 6 |
/// | 8 | no memory before the search or in printing |
/// | 9 | refused cover, or a reported solution that does not have its value |
/// | 10 | the disk failed before the search |
pub fn run<S: Source, K: Sink, D: Disk + Send, G: Gate + Sync, R: Threads + Wait + Sync>(
    rt: &R,
    alloc: Global,
    words: &[String],
    input: &mut S,
    out: &mut K,
    disk: D,
    gate: &G,
) -> Ended<D>
    ensures { HasEnded D.Disk (map string_bytes words.now) (readings S.left S.faults input.old input.new) (writings K.taken K.faults K.idle out.old out.new) disk result.disk result.status }
{
    let (answer, disk) = answer(&Runner { rt, alloc, gate }, words, input, disk);
    let status = say(alloc, out, &answer);
    Ended { status, disk }
}
