ghost use Rattle.std.specs.Prelude.{◌≡◌, ◌<◌, ◌^◌, ◌++◌, [], ◌∷◌, length, IfOk};
ghost use Rattle.journal_bytes.specs.Frames.{digest_of, sealed};

use crate::frames::CLOSED_GATE;
use sha2::{Digest, Sha256};
use std::alloc::{AllocError, Global};

/// The digest of a record, over that of the record before it.
#[tactic(auto, unfolding(crate::specs::Frames::digest_of))]
pub(crate) fn digest_over(before: &[u8; 32], kind: u8, body: &[u8]) -> [u8; 32]
    requires { length body.now < 2 ^ 32 }
    ensures { result ≡ digest_of before.now (record { kind = kind; body = body.now }) }
{
    let count = (body.len() as u32).to_be_bytes();
    let mut hasher = Sha256::new();
    hasher.update(before.as_slice());
    hasher.update([kind].as_slice());
    hasher.update(count.as_slice());
    hasher.update(body);
    hasher.finalize()
}

/// What stands after the gate of a record, and after it a closed gate; and the digest.
pub fn seal(
    alloc: Global,
    before: &[u8; 32],
    kind: u8,
    body: &[u8],
) -> Result<(Vec<u8>, [u8; 32]), AllocError>
    requires { length body.now < 2 ^ 32 }
    ensures bytes { IfOk result (λ r. r.0.items ≡ sealed before.now (record { kind = kind; body = body.now }) ++ 0 ∷ []) }
    ensures digest { IfOk result (λ r. r.1 ≡ digest_of before.now (record { kind = kind; body = body.now })) }
{
    let digest = digest_over(before, kind, body);
    let count = (body.len() as u32).to_be_bytes();
    let mut bytes = Vec::new(alloc);
    bytes.push(kind)?;
    bytes.extend_from_slice(&count)?;
    bytes.extend_from_slice(body)?;
    bytes.extend_from_slice(&digest)?;
    bytes.push(CLOSED_GATE)?;
    Ok((bytes, digest))
}
