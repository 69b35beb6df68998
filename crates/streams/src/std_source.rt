ghost use Rattle.std.specs.Prelude.{◌≡◌, ◌≤◌, length, None, IfOk, is_err};
ghost use Rattle.std.specs.Io.KnownBytes.{ReadConsumes};
ghost use Rattle.streams.specs.Counts.{Counts};

use super::{Failed, Source};
use std::io;
use std::io::{ErrorKind, Read};
use std::marker::Model;

/// A source over a reader, such as standard input. Its `left` is `None`: contracts do not know the bytes.
///
/// It counts each error of the reader, up to `u64::MAX`. A read that a signal interrupts is tried again, as std's
/// `read_to_end` does, and is no error; one that would block is an error.
#[derive(Debug, Drop)]
pub struct StdSource<R> {
    reader: R,
    faults: u64,
}

impl<R> Model for StdSource<R> {
    ghost use Rattle.streams.specs.Adapters.{Reading};

    ghost Value = { Reading R };

    ghost view = { λ s. record { reader = s.reader; faults = s.faults } };
}

impl<R> StdSource<R> {
    /// A source that reads from `reader`, of which no call has failed.
    pub fn new(reader: R) -> StdSource<R>
        ensures reader { result.reader ≡ reader }
        ensures faults { result.faults ≡ 0 }
    {
        StdSource { reader, faults: 0 }
    }

    /// How many calls have failed, at most `u64::MAX`.
    pub fn faults(&self) -> u64
        ensures { result ≡ self.now.faults }
    {
        self.faults
    }
}

impl<R: Read> Source for StdSource<R> {
    ghost left = { λ _. None };

    ghost faults = { λ s. s.faults };

    fn read(&mut self, into: &mut [u8]) -> Result<usize, Failed>
        ensures bound { IfOk result (λ n. n ≤ length into.new) }
        ensures faults { Counts (is_err result) self.old.faults self.new.faults }

        // The bytes are the reader's, where it tells them.
        ensures bytes { ReadConsumes (R.remaining self.old.reader) (R.remaining self.new.reader)
            result into.new }
    {
        match read_again(&mut self.reader, into) {
            Ok(n) => Ok(n),
            Err(_) => Err(Failed::counted(&mut self.faults)),
        }
    }
}

/// One read, tried again where a signal interrupts it.
fn read_again<R: Read>(reader: &mut R, into: &mut [u8]) -> io::Result<usize>
    ensures bound { IfOk result (λ n. n ≤ length into.new) }
    ensures bytes { ReadConsumes (R.remaining reader.old) (R.remaining reader.new) result into.new }
{
    for _ in 0..u64::MAX {
        match reader.read(into) {
            Err(error) if error.kind() == ErrorKind::Interrupted => {}
            answer => return answer,
        }
    }
    reader.read(into)
}
