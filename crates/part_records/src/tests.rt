//! Worked snapshots.

use crate::part_of;
use journal_bytes::{Incumbent, Listed, Record};
use std::alloc::{AllocError, Global};
use std::test::Fail;

/// A snapshot with the best value 9, the next ticket 40, and subproblems of these bounds under the tickets 10, 11 and so on.
fn snapshot(alloc: Global, bounds: &[i64]) -> Result<Record, AllocError> {
    let mut listed = Vec::new(alloc);
    let mut ticket = 10u64;
    for bound in bounds {
        listed.push(Listed {
            ticket,
            bound: *bound,
            decisions: Vec::new(alloc),
        })?;
        ticket = ticket.saturating_add(1);
    }
    Ok(Record::Snapshot {
        incumbent: Some(Incumbent {
            value: 9,
            decisions: Vec::new(alloc),
        }),
        next_ticket: 40,
        listed,
    })
}

/// The tickets that a snapshot lists.
fn tickets(alloc: Global, record: &Record) -> Result<Vec<u64>, AllocError> {
    let mut tickets = Vec::new(alloc);
    if let Record::Snapshot { listed, .. } = record {
        for one in listed.as_slice() {
            tickets.push(one.ticket)?;
        }
    }
    Ok(tickets)
}

/// Whether a record is a snapshot with the best value 9 and the next ticket 40.
fn carries_the_rest(record: &Record) -> bool {
    match record {
        Record::Snapshot {
            incumbent: Some(best),
            next_ticket,
            ..
        } => best.value == 9 && *next_ticket == 40,
        _ => false,
    }
}

/// The bounds of a snapshot, how many parts there are, the number of one, and the tickets that it lists.
const DEALT: [(&[i64], usize, usize, &[u64]); 10] = [
    (&[20, 5, 12, 7], 2, 0, &[10, 13]),
    (&[20, 5, 12, 7], 2, 1, &[11, 12]),
    (&[20, 5, 12, 7], 1, 0, &[10, 11, 12, 13]),
    (&[20, 5, 12, 7], 3, 0, &[10, 11]),
    (&[20, 5, 12, 7], 3, 2, &[13]),
    (&[3, 3, 3], 2, 0, &[10, 12]),
    (&[3, 3, 3], 2, 1, &[11]),
    (&[3], 4, 3, &[]),
    (&[], 4, 0, &[]),
    (&[-5, i64::MAX, 0, i64::MIN], 2, 0, &[10, 11]),
];

/// Whether the part of the snapshot lists these tickets, and has the rest of the snapshot.
fn is_dealt(
    alloc: Global,
    bounds: &[i64],
    of: usize,
    index: usize,
    want: &[u64],
) -> Result<bool, Fail> {
    if of == 0 {
        return Ok(false);
    }
    let part = part_of(alloc, snapshot(alloc, bounds)?, of, index)?;
    let got = tickets(alloc, &part)?;
    Ok(got.as_slice() == want && carries_the_rest(&part))
}

#[test]
fn subproblems_are_dealt_in_turn(rt: HostRuntime) -> Result<(), Fail> {
    for (bounds, of, index, want) in DEALT {
        let dealt = is_dealt(rt.alloc(), bounds, of, index, want)?;
        assert!(rt; dealt, "part {index} of {of}");
    }
    Ok(())
}

#[test]
fn another_record_is_its_own_part(rt: HostRuntime) -> Result<(), Fail> {
    let alloc = rt.alloc();
    let finish = Record::Finish {
        ticket: 7,
        children: Vec::new(alloc),
    };
    let same = match part_of(alloc, finish, 3, 1)? {
        Record::Finish { ticket, children } => ticket == 7 && children.is_empty(),
        _ => false,
    };
    assert!(rt; same);
    Ok(())
}
