ghost use Rattle.std.specs.Prelude.{◌≡◌, ◌⊎◌};
ghost use Rattle.answers.specs.Ended.{Says, IsSaid, writings};

use solver_report::exit_status::{OUT_OF_MEMORY, UNREAD, UNWRITTEN};
use solver_report::{Answer, report_text, status};
use std::alloc::Global;
use streams::{Sink, write_all};

/// Writes the text of the answer and gives the exit status. Writes `out of memory` if there is no memory for the text. The status is
/// `UNWRITTEN` if the output failed and the input did not.
pub fn say<K: Sink>(alloc: Global, out: &mut K, answer: &Answer) -> u8
    ensures { IsSaid (writings K.taken K.faults K.idle out.old out.new) answer.now result }
{
    match report_text(alloc, answer) {
        Ok(text) => write(out, text.as_slice(), status(answer)),
        Err(_) => write(out, b"out of memory\n", OUT_OF_MEMORY),
    }
}

/// Writes the text, and gives its own status, or that of an output that failed. The status of an input that failed goes before that of
/// an output.
fn write<K: Sink>(out: &mut K, text: &[u8], own: u8) -> u8
    ensures { Says (writings K.taken K.faults K.idle out.old out.new) text.now own result }
{
    match write_all(out, text) {
        Ok(()) => own,
        Err(_) if own == UNREAD => UNREAD,
        Err(_) => UNWRITTEN,
    }
}
