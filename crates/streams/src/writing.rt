ghost use Rattle.std.specs.Prelude.{◌≡◌, OnOk, OnErr};
ghost use Rattle.std.specs.Io.KnownBytes.{append_known};
ghost use Rattle.streams.specs.Counts.{Counts};
ghost use Rattle.streams.specs.Told.{TakesSome};
ghost use Rattle.streams.specs.WriteErrors.{is_fault, is_stuck};

use super::{Failed, Sink};

/// Why a sink did not take all the bytes.
#[derive(Clone, Copy, Debug, PartialEq, Eq)]
pub enum WriteError {
    /// The sink failed.
    Fault,
    /// The sink took nothing of a nonempty piece.
    Stuck,
}

/// Writes all of `bytes`. It takes no memory.
///
/// # Errors
///
/// Some of the bytes were written then, from the first on, and not all.
///
/// - `Fault` exactly where the sink failed in this call.
/// - `Stuck` exactly where it took nothing of what was left.
pub fn write_all<K: Sink>(sink: &mut K, bytes: &[u8]) -> Result<(), WriteError>
    ensures ok { OnOk result (K.taken sink.new ≡ append_known (K.taken sink.old) bytes.now) }
    ensures err { OnErr result (TakesSome (K.taken sink.old) (K.taken sink.new) bytes.now) }
    ensures faults { Counts (is_fault result) (K.faults sink.old) (K.faults sink.new) }
    ensures idle { Counts (is_stuck result) (K.idle sink.old) (K.idle sink.new) }
{
    let mut written = 0;
    while written < bytes.len() {
        match sink.write(&bytes[written..]) {
            Ok(0) => return Err(WriteError::Stuck),
            Ok(n) => written += n,
            Err(Failed) => return Err(WriteError::Fault),
        }
    }
    Ok(())
}
