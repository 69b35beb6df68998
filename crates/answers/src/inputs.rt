//! Answers to an input.

ghost use Rattle.std.specs.Prelude.{◌≡◌};
ghost use Rattle.answers.specs.Checks.{IsChecked};
ghost use Rattle.answers.specs.Covers.{cover_limit};
ghost use Rattle.answers.specs.Ended.{IsInputAnswer, readings, unread};
ghost use Rattle.answers.specs.Joins.{IsJoined};

use crate::checking::check;
use crate::joining::join_texts;
use solver_report::Answer;
use std::alloc::Global;
use streams::{ReadError, Source, read_all};

/// The greatest number of bytes of a whole output with its cover, of the outputs of all parts, and of their reports.
pub(crate) const COVER_LIMIT: usize = 1 << 28;

/// The answer to an input that is a whole output with its cover: the verdict, or why the input is refused.
pub fn answer_cover<S: Source>(alloc: Global, input: &mut S) -> Answer
    ensures { IsInputAnswer cover_limit IsChecked (readings S.left S.faults input.old input.new) result }
{
    match read_all(alloc, input, COVER_LIMIT) {
        Ok(text) => check(alloc, text.as_slice()),
        Err(error) => unread(error),
    }
}

/// The answer to an input that is the outputs of the parts of a problem, one after another: the output of the whole problem, or why the input
/// is refused.
pub fn answer_parts<S: Source>(alloc: Global, input: &mut S) -> Answer
    ensures { IsInputAnswer cover_limit IsJoined (readings S.left S.faults input.old input.new) result }
{
    match read_all(alloc, input, COVER_LIMIT) {
        Ok(text) => join_texts(alloc, text.as_slice()),
        Err(error) => unread(error),
    }
}

/// The answer to an input that was not read whole.
pub fn unread(error: ReadError) -> Answer
    ensures { result ≡ unread error }
{
    match error {
        ReadError::Fault => Answer::ReadFault,
        ReadError::TooLong => Answer::TooLong,
        ReadError::OutOfMemory => Answer::OutOfMemory,
    }
}
