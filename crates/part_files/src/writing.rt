ghost use Rattle.std.specs.Prelude.{◌≡◌, ◌<◌, ◌↔◌, ◌^◌, ◌++◌, [], ◌∷◌, false, length, IsTrue, IfOk, IfSome, OnOk, IsErrOf};
ghost use Rattle.journal_bytes.specs.Frames.{digest_of, sealed};
ghost use Rattle.journal_bytes.specs.Journal.{HasRecords, is_distance, new_head};
ghost use Rattle.journal_bytes.specs.Spelling.{HasTickets};
ghost use Rattle.journal_bytes.specs.Views.{record_view};
ghost use Rattle.part_files.specs.Fitting.{are_short};

use crate::error::PartError;
use crate::sizes::are_short;
use journal_bytes::{
    CLOSED_GATE, HEAD_KIND, Head, OPEN_GATE, Record, head_body, record_body, seal,
};
use std::alloc::{AllocError, Global};

/// Adds an open gate and what stands after it of a record of a kind and a body, and gives the digest.
fn push_frame(
    alloc: Global,
    file: &mut Vec<u8>,
    before: &[u8; 32],
    kind: u8,
    body: &[u8],
) -> Result<[u8; 32], AllocError>
    requires { length body.now < 2 ^ 32 }
    ensures bytes { OnOk result (file.new.items ≡ file.old.items ++ 1 ∷ sealed before.now (record { kind = kind; body = body.now })) }
    ensures digest { IfOk result (λ digest. digest ≡ digest_of before.now (record { kind = kind; body = body.now })) }
{
    let (mut bytes, digest) = seal(alloc, before, kind, body)?;
    let _gate = bytes.pop();
    file.push(OPEN_GATE)?;
    file.extend_from_slice(&bytes)?;
    Ok(digest)
}

/// The bytes of a journal with a head and one record, whose bodies have lengths of 32 bits.
fn journal_of_one(alloc: Global, head: &Head, entry: &Record) -> Result<Vec<u8>, AllocError>
    requires short { IsTrue (are_short (new_head head.now) (record_view entry.now)) }
    requires within { IsTrue (is_distance head.now.within) }
    requires part { IfSome head.now.part (λ p. p.index < p.of) }
    requires tickets { HasTickets (record_view entry.now) }
    ensures { IfOk result (λ bytes. HasRecords (new_head head.now) (record_view entry.now ∷ []) bytes.items) }
{
    let start = head_body(alloc, head)?;
    let body = record_body(alloc, entry)?;
    let mut file = Vec::new(alloc);
    let digest = push_frame(alloc, &mut file, &[0; 32], HEAD_KIND, &start)?;
    let _last = push_frame(alloc, &mut file, &digest, entry.kind(), &body)?;
    file.push(CLOSED_GATE)?;
    Ok(file)
}

/// The bytes of a journal with this head and this one record, the snapshot with which the search of a part begins. The journal has the
/// mark of a part where the head has one, and else is of version 2. The distance is from 0 to 2^50, and the number of a part is less than that of the parts.
///
/// # Errors
///
/// `TooLarge` exactly where the body of the head or that of the record has `2^32` bytes or more. No other but `OutOfMemory`.
pub fn part_bytes(alloc: Global, head: &Head, snapshot: &Record) -> Result<Vec<u8>, PartError>
    requires within { IsTrue (is_distance head.now.within) }
    requires part { IfSome head.now.part (λ p. p.index < p.of) }
    requires tickets { HasTickets (record_view snapshot.now) }

    // The bytes read as a journal with exactly this head and exactly this record.
    ensures reads { IfOk result (λ bytes. HasRecords (new_head head.now) (record_view snapshot.now ∷ []) bytes.items) }
    ensures too_large { IsErrOf result PartError.TooLarge ↔ (are_short (new_head head.now) (record_view snapshot.now) ≡ false) }
{
    if !are_short(head, snapshot) {
        return Err(PartError::TooLarge);
    }
    let bytes = journal_of_one(alloc, head, snapshot)?;
    Ok(bytes)
}
