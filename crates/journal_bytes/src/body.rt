ghost use Rattle.std.specs.Prelude.{◌≡◌, List, map, option_map};
ghost use Rattle.std.specs.Int.{w32, w64, cast_signed};
ghost use Rattle.journal_bytes.specs.Bodies.{number_at, part_at, many, decisions_at, child_at, incumbent_at, best_at, listed_at, improve_of, finish_of, snapshot_of, record_of};
ghost use Rattle.journal_bytes.specs.Views.{child_view, incumbent_view, listed_view, record_view, Gives};
ghost use Rattle.journal_bytes.specs.declared.body.BodyError.TheVariants.{OutOfMemory};

use crate::head::{Part, VERSION};
use crate::record::{Child, FINISH_KIND, IMPROVE_KIND, Incumbent, Listed, Record, SNAPSHOT_KIND};
use std::alloc::{AllocError, AllocFailed, Global};

/// Why a body could not be read.
#[derive(Clone, Copy, Debug, PartialEq, Eq)]
pub(crate) enum BodyError {
    Malformed,
    OutOfMemory,
}

impl From<AllocError> for BodyError {
    ghost from_gives = { λ _ e. e ≡ OutOfMemory };

    fn from(_: AllocError) -> Self {
        BodyError::OutOfMemory
    }
}

impl<T: Drop> From<AllocFailed<T>> for BodyError {
    ghost from_gives = { λ _ e. e ≡ OutOfMemory };

    fn from(_: AllocFailed<T>) -> Self {
        BodyError::OutOfMemory
    }
}

pub(crate) fn u32_at(bytes: &[u8]) -> Result<(u32, &[u8]), BodyError>
    ensures { Gives (λ x. (x.0, x.1.now)) result (number_at w32 bytes.now) }
{
    if bytes.len() < 4 {
        return Err(BodyError::Malformed);
    }
    let (front, rest) = bytes.split_at(4);
    let number = u32::from_be_bytes([front[0], front[1], front[2], front[3]]);
    Ok((number, rest))
}

pub(crate) fn u64_at(bytes: &[u8]) -> Result<(u64, &[u8]), BodyError>
    ensures { Gives (λ x. (x.0, x.1.now)) result (number_at w64 bytes.now) }
{
    if bytes.len() < 8 {
        return Err(BodyError::Malformed);
    }
    let (front, rest) = bytes.split_at(8);
    let number = u64::from_be_bytes([
        front[0], front[1], front[2], front[3], front[4], front[5], front[6], front[7],
    ]);
    Ok((number, rest))
}

/// The part of a head: its number, less than that of the parts, how many parts there are, and a digest.
#[tactic(auto, unfolding(crate::specs::Bodies::part_at))]
pub(crate) fn part_in(bytes: &[u8]) -> Result<(Part, &[u8]), BodyError>
    ensures { Gives (λ x. (x.0, x.1.now)) result (part_at bytes.now) }
{
    let (index, rest) = u32_at(bytes)?;
    let (of, rest) = u32_at(rest)?;
    if rest.len() < 32 || of <= index {
        return Err(BodyError::Malformed);
    }
    let (front, rest) = rest.split_at(32);
    let mut digest = [0; 32];
    digest.copy_from_slice(front);
    Ok((Part { index, of, digest }, rest))
}

/// Reads `count` decisions.
fn decisions_in(alloc: Global, count: u32, bytes: &[u8]) -> Result<(Vec<u32>, &[u8]), BodyError>
    ensures { Gives (λ x. (x.0.items, x.1.now)) result (many (number_at w32) count bytes.now) }
{
    let mut decisions = Vec::new(alloc);
    let mut rest = bytes;
    for _ in 0..count {
        let (decision, after) = u32_at(rest)?;
        decisions.push(decision)?;
        rest = after;
    }
    Ok((decisions, rest))
}

#[tactic(auto, unfolding(crate::specs::Bodies::decisions_at))]
fn decisions_of(alloc: Global, bytes: &[u8]) -> Result<(Vec<u32>, &[u8]), BodyError>
    ensures { Gives (λ x. (x.0.items, x.1.now)) result (decisions_at bytes.now) }
{
    let (count, rest) = u32_at(bytes)?;
    decisions_in(alloc, count, rest)
}

#[tactic(auto, unfolding(crate::specs::Bodies::child_at))]
fn child_of(alloc: Global, bytes: &[u8]) -> Result<(Child, &[u8]), BodyError>
    ensures { Gives (λ x. (child_view x.0, x.1.now)) result (child_at bytes.now) }
{
    let (ticket, rest) = u64_at(bytes)?;
    let (bound, rest) = u64_at(rest)?;
    let (decisions, rest) = decisions_of(alloc, rest)?;
    let replaced = if ticket == u64::MAX {
        None
    } else {
        Some(ticket)
    };
    Ok((
        Child {
            replaced,
            bound: bound.cast_signed(),
            decisions,
        },
        rest,
    ))
}

/// Reads `count` children.
fn children_in(alloc: Global, count: u32, bytes: &[u8]) -> Result<(Vec<Child>, &[u8]), BodyError>
    ensures { Gives (λ x. (map child_view x.0.items, x.1.now)) result (many child_at count bytes.now) }
{
    let mut children = Vec::new(alloc);
    let mut rest = bytes;
    for _ in 0..count {
        let (one, after) = child_of(alloc, rest)?;
        children.push(one)?;
        rest = after;
    }
    Ok((children, rest))
}

#[tactic(auto, unfolding(crate::specs::Bodies::improve_of))]
fn improve_in(alloc: Global, body: &[u8]) -> Result<Record, BodyError>
    ensures { Gives record_view result (improve_of body.now) }
{
    let (value, rest) = u64_at(body)?;
    let (decisions, rest) = decisions_of(alloc, rest)?;
    if !rest.is_empty() {
        return Err(BodyError::Malformed);
    }
    Ok(Record::Improve {
        value: value.cast_signed(),
        decisions,
    })
}

#[tactic(auto, unfolding(crate::specs::Bodies::finish_of))]
fn finish_in(alloc: Global, body: &[u8]) -> Result<Record, BodyError>
    ensures { Gives record_view result (finish_of body.now) }
{
    let (ticket, rest) = u64_at(body)?;
    let (count, rest) = u32_at(rest)?;
    let (children, rest) = children_in(alloc, count, rest)?;
    if !rest.is_empty() {
        return Err(BodyError::Malformed);
    }
    Ok(Record::Finish { ticket, children })
}

#[tactic(auto, unfolding(crate::specs::Bodies::incumbent_at))]
fn incumbent_of(alloc: Global, bytes: &[u8]) -> Result<(Incumbent, &[u8]), BodyError>
    ensures { Gives (λ x. (incumbent_view x.0, x.1.now)) result (incumbent_at bytes.now) }
{
    let (value, rest) = u64_at(bytes)?;
    let (decisions, rest) = decisions_of(alloc, rest)?;
    let value = value.cast_signed();
    Ok((Incumbent { value, decisions }, rest))
}

/// The best solution of a snapshot, or none.
#[tactic(auto, unfolding(crate::specs::Bodies::best_at))]
fn best_of(alloc: Global, bytes: &[u8]) -> Result<(Option<Incumbent>, &[u8]), BodyError>
    ensures { Gives (λ x. (option_map incumbent_view x.0, x.1.now)) result (best_at bytes.now) }
{
    let [has_one, rest @ ..] = bytes else {
        return Err(BodyError::Malformed);
    };
    match *has_one {
        0 => Ok((None, rest)),
        1 => {
            let (incumbent, rest) = incumbent_of(alloc, rest)?;
            Ok((Some(incumbent), rest))
        }
        _ => Err(BodyError::Malformed),
    }
}

#[tactic(auto, unfolding(crate::specs::Bodies::listed_at))]
fn listed_of(alloc: Global, bytes: &[u8]) -> Result<(Listed, &[u8]), BodyError>
    ensures { Gives (λ x. (listed_view x.0, x.1.now)) result (listed_at bytes.now) }
{
    let (ticket, rest) = u64_at(bytes)?;
    let (bound, rest) = u64_at(rest)?;
    let (decisions, rest) = decisions_of(alloc, rest)?;
    Ok((
        Listed {
            ticket,
            bound: bound.cast_signed(),
            decisions,
        },
        rest,
    ))
}

/// Reads `count` subproblems of a snapshot.
fn listed_in(alloc: Global, count: u32, bytes: &[u8]) -> Result<(Vec<Listed>, &[u8]), BodyError>
    ensures { Gives (λ x. (map listed_view x.0.items, x.1.now)) result (many listed_at count bytes.now) }
{
    let mut listed = Vec::new(alloc);
    let mut rest = bytes;
    for _ in 0..count {
        let (one, after) = listed_of(alloc, rest)?;
        listed.push(one)?;
        rest = after;
    }
    Ok((listed, rest))
}

#[tactic(auto, unfolding(crate::specs::Bodies::snapshot_of))]
fn snapshot_in(alloc: Global, body: &[u8]) -> Result<Record, BodyError>
    ensures { Gives record_view result (snapshot_of body.now) }
{
    let (incumbent, rest) = best_of(alloc, body)?;
    let (next_ticket, rest) = u64_at(rest)?;
    let (count, rest) = u32_at(rest)?;
    let (listed, rest) = listed_in(alloc, count, rest)?;
    if !rest.is_empty() {
        return Err(BodyError::Malformed);
    }
    Ok(Record::Snapshot {
        incumbent,
        next_ticket,
        listed,
    })
}

/// The record of a kind and a body, in a journal of a version. The first version has no snapshots.
#[tactic(auto, unfolding(crate::specs::Bodies::record_of))]
pub(crate) fn record_of(
    alloc: Global,
    version: u32,
    kind: u8,
    body: &[u8],
) -> Result<Record, BodyError>
    ensures { Gives record_view result (record_of version (record { kind = kind; body = body.now })) }
{
    match kind {
        IMPROVE_KIND => improve_in(alloc, body),
        FINISH_KIND => finish_in(alloc, body),
        SNAPSHOT_KIND if version == VERSION => snapshot_in(alloc, body),
        _ => Err(BodyError::Malformed),
    }
}
