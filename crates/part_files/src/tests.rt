//! Journals of parts, read again.

ghost use Rattle.std.specs.Prelude.{IfOk};
ghost use Rattle.journal_bytes.specs.Spelling.{HasTickets};
ghost use Rattle.journal_bytes.specs.Views.{record_view};

use crate::part_bytes;
use journal_bytes::{Head, Incumbent, Listed, Part, Record, Records, read_journal};
use problem_names::ModelName;
use std::alloc::{AllocError, Global};
use std::test::Fail;

/// A part and the bytes of which its digest is made, the text of the instance, and the tickets of the snapshot.
struct Case {
    index: u32,
    of: u32,
    byte: u8,
    text: &'static [u8],
    tickets: &'static [u64],
}

const CASES: [Case; 4] = [
    Case {
        index: 0,
        of: 1,
        byte: 0,
        text: b"",
        tickets: &[],
    },
    Case {
        index: 1,
        of: 3,
        byte: 7,
        text: b"0 5\n",
        tickets: &[4],
    },
    Case {
        index: 2,
        of: 3,
        byte: 255,
        text: b"3 10\n60 5\n50 4\n70 6\n",
        tickets: &[0, 3, 9],
    },
    Case {
        index: 0xffff_fffe,
        of: 0xffff_ffff,
        byte: 1,
        text: b"0 0\n",
        tickets: &[17, 18],
    },
];

/// A snapshot with the best value 9, the next ticket 40, and subproblems with these tickets.
fn snapshot(alloc: Global, tickets: &[u64]) -> Result<Record, AllocError>
    ensures { IfOk result (λ r. HasTickets (record_view r)) }
{
    let mut listed = Vec::new(alloc);
    for ticket in tickets {
        listed.push(Listed {
            ticket: *ticket,
            bound: -5,
            decisions: Vec::from_slice(alloc, &[1, 0])?,
        })?;
    }
    Ok(Record::Snapshot {
        incumbent: Some(Incumbent {
            value: 9,
            decisions: Vec::from_slice(alloc, &[7])?,
        }),
        next_ticket: 40,
        listed,
    })
}

/// Whether these are one snapshot with the best value 9, the next ticket 40, and subproblems with these tickets.
fn is_snapshot(records: &Records, tickets: &[u64]) -> bool {
    match records.as_slice() {
        [
            Record::Snapshot {
                incumbent: Some(best),
                next_ticket: 40,
                listed,
            },
        ] => {
            let mut same = best.value == 9 && listed.len() == tickets.len();
            for (one, ticket) in listed.iter().zip(tickets) {
                same = same && one.ticket == *ticket && one.bound == -5;
            }
            same
        }
        _ => false,
    }
}

/// Whether the bytes of the part read as its head and its snapshot.
fn reads(alloc: Global, case: &Case) -> Result<bool, Fail> {
    if case.index >= case.of {
        return Ok(false);
    }
    let part = Part {
        index: case.index,
        of: case.of,
        digest: [case.byte; 32],
    };
    let head = Head {
        model: ModelName::Knapsack,
        within: 3,
        part: Some(part),
        text: Vec::from_slice(alloc, case.text)?,
    };
    let bytes = part_bytes(alloc, &head, &snapshot(alloc, case.tickets)?)?;
    let (found, records, tail) = read_journal(alloc, &bytes)?;
    let same_head = found.part == Some(part)
        && found.within == 3
        && found.model == ModelName::Knapsack
        && found.text.as_slice() == case.text;
    let at_end = tail.end + 1 == bytes.len() as u64;
    Ok(same_head && at_end && is_snapshot(&records, case.tickets))
}

#[test]
fn the_bytes_of_a_part_read_as_its_journal(rt: HostRuntime) -> Result<(), Fail> {
    for case in &CASES {
        let same = reads(rt.alloc(), case)?;
        assert!(rt; same, "part {} of {}", case.index, case.of);
    }
    Ok(())
}
