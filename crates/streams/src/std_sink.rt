ghost use Rattle.std.specs.Prelude.{◌≡◌, ◌≤◌, length, None, IfOk, is_err};
ghost use Rattle.std.specs.Io.KnownBytes.{WriteAppends};
ghost use Rattle.streams.specs.Counts.{Counts};
ghost use Rattle.streams.specs.WriteErrors.{is_idle};

use super::{Failed, Sink};
use std::io;
use std::io::{ErrorKind, Write};
use std::marker::Model;

/// A sink over a writer, such as standard output. Its `taken` is `None`: contracts do not know the bytes.
///
/// It counts each error of the writer, and each write that takes nothing of a nonempty piece, both up to `u64::MAX`.
/// A write that a signal interrupts is tried again, as std's `write_all` does, and is no error; one that would block
/// is an error. It never flushes the writer.
#[derive(Debug, Drop)]
pub struct StdSink<W> {
    writer: W,
    faults: u64,
    idle: u64,
}

impl<W> Model for StdSink<W> {
    ghost use Rattle.streams.specs.Adapters.{Writing};

    ghost Value = { Writing W };

    ghost view = { λ s. record { writer = s.writer; faults = s.faults; idle = s.idle } };
}

impl<W> StdSink<W> {
    /// A sink that writes to `writer`, of which no call has failed or taken nothing.
    pub fn new(writer: W) -> StdSink<W>
        ensures writer { result.writer ≡ writer }
        ensures faults { result.faults ≡ 0 }
        ensures idle { result.idle ≡ 0 }
    {
        StdSink {
            writer,
            faults: 0,
            idle: 0,
        }
    }

    /// How many calls have failed, at most `u64::MAX`.
    pub fn faults(&self) -> u64
        ensures { result ≡ self.now.faults }
    {
        self.faults
    }

    /// How many calls took nothing of a nonempty piece, at most `u64::MAX`.
    pub fn idle(&self) -> u64
        ensures { result ≡ self.now.idle }
    {
        self.idle
    }
}

impl<W: Write> Sink for StdSink<W> {
    ghost taken = { λ _. None };

    ghost faults = { λ s. s.faults };

    ghost idle = { λ s. s.idle };

    fn write(&mut self, piece: &[u8]) -> Result<usize, Failed>
        ensures bound { IfOk result (λ n. n ≤ length piece.now) }
        ensures faults { Counts (is_err result) self.old.faults self.new.faults }
        ensures idle { Counts (is_idle result piece.now) self.old.idle self.new.idle }

        // The writer took the bytes, where it tells them.
        ensures bytes { WriteAppends (W.contents self.old.writer) (W.contents self.new.writer)
            result piece.now }
    {
        match write_again(&mut self.writer, piece) {
            Ok(n) => {
                if n == 0 && !piece.is_empty() {
                    self.idle = self.idle.saturating_add(1);
                }
                Ok(n)
            }
            Err(_) => Err(Failed::counted(&mut self.faults)),
        }
    }
}

/// One write, tried again where a signal interrupts it.
fn write_again<W: Write>(writer: &mut W, piece: &[u8]) -> io::Result<usize>
    ensures bound { IfOk result (λ n. n ≤ length piece.now) }
    ensures bytes { WriteAppends (W.contents writer.old) (W.contents writer.new) result piece.now }
{
    for _ in 0..u64::MAX {
        match writer.write(piece) {
            Err(error) if error.kind() == ErrorKind::Interrupted => {}
            answer => return answer,
        }
    }
    writer.write(piece)
}
