ghost use Rattle.std.specs.Prelude.{◌≡◌, ◌+◌, ◌≤◌, ◌<◌, ◌^◌, true, false, length, drop, take, get_or, IfOk, IfSome, IfNone, MatchOption};
ghost use Rattle.journal_bytes.specs.Frames.{digest_of, body_length, frame_at, is_sound, reading_of, IsBytes};
ghost use Rattle.journal_bytes.specs.Found.{found};

use crate::sealing::digest_over;
use std::alloc::{AllocError, Global};

/// The gate before a record that is whole.
pub const OPEN_GATE: u8 = 1;

/// The gate after the last whole record.
pub const CLOSED_GATE: u8 = 0;

/// The kind of the first record, the head.
pub const HEAD_KIND: u8 = 1;

/// The length of a body has 32 bits, so a body has fewer bytes than this.
pub const BODY_LIMIT: u64 = 1 << 32;

/// How many bytes a record takes in the file beside its body: its gate, its kind, the length of the body and the digest.
pub const FRAME_OVERHEAD: usize = 38;

/// A record as the file has it.
#[derive(Debug, Drop)]
pub(crate) struct Frame {
    pub(crate) kind: u8,
    pub(crate) body: Vec<u8>,
}

/// What was read of a file, up to a closed gate or to what is damaged.
#[derive(Debug, Drop)]
pub(crate) struct Found {
    pub(crate) frames: Vec<Frame>,
    pub(crate) digest: [u8; 32],
    /// The offset of the last gate.
    pub(crate) end: usize,
    /// That gate is closed.
    pub(crate) is_whole: bool,
}

/// The length of the body after an open gate, and the digest, where the record is whole and its digest right.
#[tactic(auto, unfolding(crate::specs::Frames::body_length, crate::specs::Frames::frame_at, crate::specs::Frames::is_sound))]
pub(crate) fn sound_frame(before: &[u8; 32], bytes: &[u8]) -> Option<(usize, [u8; 32])>
    ensures sound { IfSome result (λ r. is_sound before.now bytes.now ≡ true) }
    ensures size { IfSome result (λ r. r.0 ≡ body_length bytes.now) }
    ensures within { IfSome result (λ r. FRAME_OVERHEAD + r.0 < length bytes.now) }
    ensures digest { IfSome result (λ r. r.1 ≡ digest_of before.now (frame_at bytes.now)) }
    ensures damaged { IfNone result (is_sound before.now bytes.now ≡ false) }
{
    if bytes.len() <= FRAME_OVERHEAD {
        return None;
    }
    let size = u32::from_be_bytes([bytes[2], bytes[3], bytes[4], bytes[5]]) as usize;
    if bytes.len() <= FRAME_OVERHEAD + size {
        return None;
    }
    let digest = digest_over(before, bytes[1], &bytes[6..6 + size]);
    if bytes[6 + size..FRAME_OVERHEAD + size] == digest[..] {
        Some((size, digest))
    } else {
        None
    }
}

/// The records of a file, up to a closed gate or to what is damaged.
pub(crate) fn read_frames(alloc: Global, file: &[u8]) -> Result<Found, AllocError>
    ensures read { IfOk result (λ r. found r ≡ reading_of file.now) }
    ensures bytes { IsBytes file.now }
{
    let mut frames = Vec::new(alloc);
    let mut digest = [0u8; 32];
    let mut at: usize = 0;
    for _turn in 0..file.len() {
        let rest = &file[at..];
        if rest.is_empty() || rest[0] != OPEN_GATE {
            return Ok(Found {
                frames,
                digest,
                end: at,
                is_whole: true,
            });
        }
        let Some(sound) = sound_frame(&digest, rest) else {
            return Ok(Found {
                frames,
                digest,
                end: at,
                is_whole: false,
            });
        };
        let (size, next) = sound;
        frames.push(Frame {
            kind: rest[1],
            body: rest[6..6 + size].to_vec(alloc)?,
        })?;
        digest = next;
        at += FRAME_OVERHEAD + size;
    }
    Ok(Found {
        frames,
        digest,
        end: at,
        is_whole: false,
    })
}
