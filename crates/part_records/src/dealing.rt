//! The part of a snapshot.

ghost use Rattle.std.specs.Prelude.{◌≡◌, ◌<◌, length, map, IfOk};
ghost use Rattle.board_laws.specs.Starts.{chosen};
ghost use Rattle.frontier_parts.specs.Dealing.{is_dealt};
ghost use Rattle.journal_bytes.specs.Bodies.{ListedView};
ghost use Rattle.journal_bytes.specs.Views.{listed_view, record_view};
ghost use Rattle.part_records.specs.Parts.{bounds_in, dealt_record};

use dp_model::OutOfMemory;
use frontier_parts::is_dealt;
use journal_bytes::{Listed, Record};
use std::alloc::Global;

/// The bounds of subproblems, in order.
fn bounds_in(alloc: Global, listed: &[Listed]) -> Result<Vec<i64>, OutOfMemory>
    ensures { IfOk result (λ bounds. bounds.items ≡ bounds_in (map listed_view listed.now)) }
{
    let mut bounds = Vec::with_capacity(alloc, listed.len())?;
    for one in listed {
        bounds.push(one.bound)?;
    }
    Ok(bounds)
}

/// Those of the subproblems that are dealt to the part.
fn dealt(
    alloc: Global,
    listed: Vec<Listed>,
    bounds: &[i64],
    of: usize,
    index: usize,
) -> Result<Vec<Listed>, OutOfMemory>
    requires some { 0 < of }
    requires lengths { length bounds.now ≡ length listed.items }
    ensures { IfOk result (λ part. map listed_view part.items ≡ chosen (is_dealt bounds.now of index) 0 (map listed_view listed.items)) }
{
    let mut part = Vec::new(alloc);
    let mut place = 0;
    for one in listed {
        if is_dealt(bounds, of, index, place) {
            part.push(one)?;
        }
        place += 1;
    }
    Ok(part)
}

/// The part with the number `index`, of `of` parts, of a snapshot: its incumbent, its next ticket, and those of its subproblems that are
/// dealt to the part, each with its own ticket and bound. The subproblem with the greatest bound is dealt to part 0, the next one to part
/// 1, and so on in turn; of equal bounds the first one goes first. Another record is its own part.
///
/// It compares each two bounds, and fails only for want of memory.
pub fn part_of(
    alloc: Global,
    snapshot: Record,
    of: usize,
    index: usize,
) -> Result<Record, OutOfMemory>
    requires { 0 < of }
    ensures { IfOk result (λ part. record_view part ≡ dealt_record of index (record_view snapshot)) }
{
    match snapshot {
        Record::Snapshot {
            incumbent,
            next_ticket,
            listed,
        } => {
            let bounds = bounds_in(alloc, listed.as_slice())?;
            let listed = dealt(alloc, listed, bounds.as_slice(), of, index)?;
            Ok(Record::Snapshot {
                incumbent,
                next_ticket,
                listed,
            })
        }
        Record::Improve { value, decisions } => Ok(Record::Improve { value, decisions }),
        Record::Finish { ticket, children } => Ok(Record::Finish { ticket, children }),
    }
}
