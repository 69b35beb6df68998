ghost use Rattle.std.specs.Prelude.{◌≡◌, ℕ, ◌+◌, ◌-◌, ◌<◌, ◌≤◌, ◌++◌, length, take, IfOk, IfErr, OnOk, vec_len};
ghost use Rattle.std.specs.Io.KnownBytes.{prepend_known, IsAtEnd};
ghost use Rattle.streams.specs.Counts.{Counts};
ghost use Rattle.streams.specs.Told.{IsAllOf, Ends, Skips};
ghost use Rattle.streams.specs.ReadErrors.{is_fault, IsReadCount};
ghost use Rattle.streams.specs.declared.reading.ReadError.TheVariants.{Fault, OutOfMemory};

use super::{Failed, Source};
use std::alloc::{AllocError, Global};

/// How many bytes a source is asked for at a time, at most.
const PIECE: usize = 1 << 16;

/// Why a source was not read to its end.
#[derive(Clone, Copy, Debug, PartialEq, Eq)]
pub enum ReadError {
    /// The source failed.
    Fault,
    /// More bytes came than the limit allows.
    TooLong,
    /// Memory ran out.
    OutOfMemory,
}

impl From<AllocError> for ReadError {
    ghost from_gives = { λ _ e. e ≡ OutOfMemory };

    fn from(_: AllocError) -> Self {
        ReadError::OutOfMemory
    }
}

impl From<Failed> for ReadError {
    ghost from_gives = { λ _ e. e ≡ Fault };

    fn from(_: Failed) -> Self {
        ReadError::Fault
    }
}

/// Reads a source to its end, for as long as that is at most `limit` bytes.
///
/// # Errors
///
/// The bytes that were read are gone then.
///
/// - `Fault` exactly where the source failed in this call.
/// - `TooLong` exactly where `limit + 1` bytes were read.
/// - `OutOfMemory` where there is no memory for the bytes.
pub fn read_all<S: Source>(
    alloc: Global,
    source: &mut S,
    limit: usize,
) -> Result<Vec<u8>, ReadError>
    // The bytes are all that was left, and nothing is left.
    ensures bytes { IfOk result (λ v. IsAllOf (S.left source.old) v.items) }
    ensures end { OnOk result (Ends (S.left source.old) (S.left source.new)) }
    ensures short { IfOk result (λ v. vec_len v ≤ limit) }

    // How many bytes were read before an error, and that they are gone.
    ensures err { IfErr result (λ e. (n : ℕ) × IsReadCount e limit n
        × Skips (S.left source.old) (S.left source.new) n) }
    ensures faults { Counts (is_fault result) (S.faults source.old) (S.faults source.new) }
{
    let mut piece = new_piece(alloc)?;
    let mut bytes = Vec::new(alloc);
    loop {
        if read_piece(source, &mut piece, &mut bytes, limit)? == 0 {
            return Ok(bytes);
        }
    }
}

/// A buffer for a piece.
fn new_piece(alloc: Global) -> Result<Vec<u8>, AllocError>
    ensures { IfOk result (λ v. 0 < vec_len v) }
{
    vec![in alloc; 0u8; PIECE]
}

/// Reads a piece after `bytes`, and returns how long it is. It is empty only at the end.
fn read_piece<S: Source>(
    source: &mut S,
    piece: &mut [u8],
    bytes: &mut Vec<u8>,
    limit: usize,
) -> Result<usize, ReadError>
    requires nonempty { 0 < length piece.old }
    requires short { vec_len bytes.old ≤ limit }
    ensures items { IfOk result (λ n. bytes.new.items ≡ bytes.old.items ++ take n piece.new) }
    ensures len { IfOk result (λ n. vec_len bytes.new ≡ vec_len bytes.old + n) }
    ensures short { IfOk result (λ n. vec_len bytes.new ≤ limit) }
    ensures bytes { IfOk result (λ n. S.left source.old ≡ prepend_known (take n piece.new) (S.left source.new)) }
    ensures end { IfOk result (λ n. n ≡ 0 → IsAtEnd (S.left source.new)) }
    ensures err { IfErr result (λ e. (n : ℕ) × IsReadCount e (limit - vec_len bytes.old) n
        × Skips (S.left source.old) (S.left source.new) n) }
    ensures faults { Counts (is_fault result) (S.faults source.old) (S.faults source.new) }
{
    let room = limit - bytes.len();
    let asked = piece.len().min(room.saturating_add(1));
    let n = source.read(&mut piece[..asked])?;
    if n > room {
        return Err(ReadError::TooLong);
    }
    bytes.extend_from_slice(&piece[..n])?;
    Ok(n)
}
