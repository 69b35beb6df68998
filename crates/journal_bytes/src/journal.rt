ghost use Rattle.std.specs.Prelude.{◌≡◌, ◌≤◌, ◌<◌, ◌+◌, List, map, length, IsTrue, IfOk};
ghost use Rattle.journal_bytes.specs.Frames.{frames_of};
ghost use Rattle.journal_bytes.specs.Found.{found, frame};
ghost use Rattle.journal_bytes.specs.Ends.{EndsAt};
ghost use Rattle.journal_bytes.specs.Views.{record_view};
ghost use Rattle.journal_bytes.specs.Journal.{after_head, placed_at, head_of, head_view, model_at, is_distance, is_version, version_of_records, distance_at, within_at, mark_at, text_of, or_malformed, records_from, since_all, journal_in, journal_of, journal_view, Gives};

use crate::body::{BodyError, part_in, record_of, u32_at, u64_at};
use crate::frames::{FRAME_OVERHEAD, Found, Frame, HEAD_KIND, read_frames};
use crate::head::{FIRST_VERSION, MOST_WITHIN, PART_VERSION, VERSION};
use crate::{Head, Part, Record, Records, Refusal, Tail};
use problem_names::ModelName;
use std::alloc::Global;

/// The refusal of a body at an offset.
fn placed(error: BodyError, offset: u64) -> Refusal
    ensures { result ≡ placed_at error offset }
{
    match error {
        BodyError::Malformed => Refusal::Malformed { offset },
        BodyError::OutOfMemory => Refusal::OutOfMemory,
    }
}

/// The problem of a head, and what stands after it.
#[tactic(auto, unfolding(crate::specs::Journal::model_at))]
fn model_in(bytes: &[u8]) -> Result<(ModelName, &[u8]), Refusal>
    ensures { Gives (λ x. (x.0, x.1.now)) result (or_malformed 0 (model_at bytes.now)) }
{
    let malformed = Refusal::Malformed { offset: 0 };
    let [first, rest @ ..] = bytes else {
        return Err(malformed);
    };
    match ModelName::of_byte(*first) {
        Some(model) => Ok((model, rest)),
        None => Err(malformed),
    }
}

/// Whether a head may have the distance.
fn is_distance(within: i64) -> bool
    ensures { result ≡ is_distance within }
{
    0 <= within && within <= MOST_WITHIN
}

/// A distance, and what stands after it.
#[tactic(auto, unfolding(crate::specs::Journal::distance_at))]
fn distance_in(bytes: &[u8]) -> Result<(i64, &[u8]), Refusal>
    ensures { Gives (λ x. (x.0, x.1.now)) result (or_malformed 0 (distance_at bytes.now)) }
{
    let (number, rest) = match u64_at(bytes) {
        Ok(x) => x,
        Err(e) => return Err(placed(e, 0)),
    };
    let within = number.cast_signed();
    if !is_distance(within) {
        return Err(Refusal::Malformed { offset: 0 });
    }
    Ok((within, rest))
}

/// The distance of a head of a version, and what stands after it.
#[tactic(auto, unfolding(crate::specs::Journal::within_at))]
fn within_in(version: u32, bytes: &[u8]) -> Result<(i64, &[u8]), Refusal>
    ensures { Gives (λ x. (x.0, x.1.now)) result (or_malformed 0 (within_at version bytes.now)) }
{
    if version == FIRST_VERSION {
        return Ok((0, bytes));
    }
    distance_in(bytes)
}

/// The part of a head of a version, and what stands after it.
#[tactic(auto, unfolding(crate::specs::Journal::mark_at))]
fn mark_in(version: u32, bytes: &[u8]) -> Result<(Option<Part>, &[u8]), Refusal>
    ensures { Gives (λ x. (x.0, x.1.now)) result (or_malformed 0 (mark_at version bytes.now)) }
{
    if version != PART_VERSION {
        return Ok((None, bytes));
    }
    match part_in(bytes) {
        Ok((part, rest)) => Ok((Some(part), rest)),
        Err(e) => Err(placed(e, 0)),
    }
}

/// Whether journals of the version are read.
fn is_version(version: u32) -> bool
    ensures { result ≡ is_version version }
{
    version == FIRST_VERSION || version == VERSION || version == PART_VERSION
}

/// The version of the records in a journal of a version.
fn version_of_records(version: u32) -> u32
    ensures { result ≡ version_of_records version }
{
    if version == FIRST_VERSION {
        FIRST_VERSION
    } else {
        VERSION
    }
}

/// The text of a head, which ends its body.
#[tactic(auto, unfolding(crate::specs::Journal::text_of))]
fn text_in(alloc: Global, bytes: &[u8]) -> Result<Vec<u8>, Refusal>
    ensures { Gives (λ v. v.items) result (or_malformed 0 (text_of bytes.now)) }
{
    let (count, rest) = match u32_at(bytes) {
        Ok(x) => x,
        Err(e) => return Err(placed(e, 0)),
    };
    if rest.len() != count as usize {
        return Err(Refusal::Malformed { offset: 0 });
    }
    Ok(Vec::from_slice(alloc, rest)?)
}

/// The head of a first record, and the version of the records.
#[tactic(auto, unfolding(crate::specs::Journal::head_of))]
fn head_in(alloc: Global, first: &Frame) -> Result<(Head, u32), Refusal>
    ensures { Gives (λ r. head_view r.1 r.0) result (head_of (frame first.now)) }
{
    if first.kind != HEAD_KIND {
        return Err(Refusal::Malformed { offset: 0 });
    }
    let (version, rest) = match u32_at(&first.body) {
        Ok(x) => x,
        Err(e) => return Err(placed(e, 0)),
    };
    if !is_version(version) {
        return Err(Refusal::Version { found: version });
    }
    let (model, rest) = model_in(rest)?;
    let (within, rest) = within_in(version, rest)?;
    let (part, rest) = mark_in(version, rest)?;
    let text = text_in(alloc, rest)?;
    Ok((
        Head {
            model,
            within,
            part,
            text,
        },
        version_of_records(version),
    ))
}

/// The records of the frames from an offset on, in a journal of a version.
fn records_in(
    alloc: Global,
    version: u32,
    start: u64,
    frames: &[Frame],
) -> Result<Vec<Record>, Refusal>
    ensures { Gives (λ v. map record_view v.items) result (records_from version start (map frame frames.now)) }
{
    let mut records = Vec::new(alloc);
    let mut at = start;
    for one in frames {
        match record_of(alloc, version, one.kind, &one.body) {
            Ok(record) => records.push(record)?,
            Err(e) => return Err(placed(e, at)),
        }
        let Some(next) = at.checked_add((FRAME_OVERHEAD + one.body.len()) as u64) else {
            return Err(Refusal::OutOfMemory);
        };
        at = next;
    }
    Ok(records)
}

/// How many subproblems were finished since the last snapshot of these records, or in all of them where there is none.
fn since_all(records: &[Record]) -> u64
    ensures { result ≡ since_all 0 (map record_view records.now) }
{
    let mut since: u64 = 0;
    for entry in records {
        since = entry.since_after(since);
    }
    since
}

/// The journal of what was found in a file of at least two bytes.
#[tactic(auto, unfolding(crate::specs::Journal::journal_in))]
fn journal_from(alloc: Global, read: Found) -> Result<(Head, Records, Tail), Refusal>
    ensures exact { Gives journal_view result (journal_in (found read)) }
    ensures tail { IfOk result (λ r. (r.2.end ≡ read.end) × (r.2.digest ≡ read.digest) × IsTrue read.is_whole) }
    ensures first { IfOk result (λ r. r.1.first ≡ after_head (found read).frames) }
    ensures within { IfOk result (λ r. r.1.within ≡ r.0.within) }
{
    let Found {
        frames,
        digest,
        end,
        is_whole,
    } = read;
    let Some((first, rest)) = frames.split_first() else {
        if is_whole {
            return Err(Refusal::NotBegun);
        }
        return Err(Refusal::Damaged { offset: end as u64 });
    };
    let (head, version) = head_in(alloc, first)?;
    let start = (FRAME_OVERHEAD + first.body.len()) as u64;
    let records = records_in(alloc, version, start, rest)?;
    if !is_whole {
        return Err(Refusal::Damaged { offset: end as u64 });
    }
    let tail = Tail {
        end: end as u64,
        digest,
        version,
        since: since_all(records.as_slice()),
    };
    let within = head.within;
    Ok((head, Records::new(within, start, records), tail))
}

/// The journal that a file's bytes spell, up to the first closed gate, or the first cause for which they are refused.
///
/// # Errors
///
/// Each `Refusal` exactly where it says.
pub fn read_journal(alloc: Global, file: &[u8]) -> Result<(Head, Records, Tail), Refusal>
    ensures exact { Gives journal_view result (journal_of file.now) }

    // What was read is spelled so, and the tail is at its closed gate.
    ensures ends { IfOk result (λ r. EndsAt file.now r.2 (frames_of file.now)) }

    // The first record stands after the head, and the records are kept with the distance of the head.
    ensures first { IfOk result (λ r. r.1.first ≡ after_head (frames_of file.now)) }
    ensures within { IfOk result (λ r. r.1.within ≡ r.0.within) }
{
    if file.len() <= 1 {
        return Err(Refusal::NotBegun);
    }
    let read = read_frames(alloc, file)?;
    journal_from(alloc, read)
}
