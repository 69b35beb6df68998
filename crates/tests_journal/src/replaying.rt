//! Journals that are replayed, and such as are refused.

use board::{Board, Cause, Settings};
use dp_model::{DpModel, OutOfMemory};
use journal_bytes::{Records, Refusal, read_journal, seal};
use journal_file::JournalError;
use journal_replay::replay;
use knapsack::Knapsack;
use std::alloc::Global;
use std::process::Abort;
use std::sync::Arc;

/// Three items in a room of 10, the root of which has the bound 121.
pub(crate) const ITEMS: &[u8] = b"3 10\n60 5\n50 4\n70 6\n";

/// A search by one worker.
pub(crate) const SETTINGS: Settings = Settings {
    workers: 1,
    budget: 100,
    table_limit: 4,
    width: 1,
    within: 0,
};

/// The kinds of records.
const HEAD: u8 = 1;

const IMPROVE: u8 = 2;

const FINISH: u8 = 3;

const SNAPSHOT: u8 = 4;

/// The head's body: version 2, the knapsack, the distance 0, and the text of 20 bytes.
const HEAD_BODY: &[u8] =
    b"\x00\x00\x00\x02\x01\x00\x00\x00\x00\x00\x00\x00\x00\x00\x00\x00\x143 10\n60 5\n50 4\n70 6\n";

/// The solution 1 1 0, which is worth 110.
const IMPROVE_110: (u8, &[u8]) = (
    IMPROVE,
    b"\x00\x00\x00\x00\x00\x00\x00\x6e\x00\x00\x00\x03\x00\x00\x00\x01\x00\x00\x00\x01\x00\x00\x00\x00",
);

/// The solution 0 1 1, which is worth 120.
const IMPROVE_120: (u8, &[u8]) = (
    IMPROVE,
    b"\x00\x00\x00\x00\x00\x00\x00\x78\x00\x00\x00\x03\x00\x00\x00\x00\x00\x00\x00\x01\x00\x00\x00\x01",
);

/// The solution 1 1 0 with the value 111.
const IMPROVE_111: (u8, &[u8]) = (
    IMPROVE,
    b"\x00\x00\x00\x00\x00\x00\x00\x6f\x00\x00\x00\x03\x00\x00\x00\x01\x00\x00\x00\x01\x00\x00\x00\x00",
);

/// The decisions 1 1 1, which weigh more than the room.
const ALL_ITEMS: (u8, &[u8]) = (
    IMPROVE,
    b"\x00\x00\x00\x00\x00\x00\x00\xb4\x00\x00\x00\x03\x00\x00\x00\x01\x00\x00\x00\x01\x00\x00\x00\x01",
);

/// The decisions 1 1, which leave the last item open.
const SHORT: (u8, &[u8]) = (
    IMPROVE,
    b"\x00\x00\x00\x00\x00\x00\x00\x6e\x00\x00\x00\x02\x00\x00\x00\x01\x00\x00\x00\x01",
);

/// The root is finished, with the children 1 of bound 121 and 0 of bound 120.
const ROOT: (u8, &[u8]) = (
    FINISH,
    b"\x00\x00\x00\x00\x00\x00\x00\x00\x00\x00\x00\x02\xff\xff\xff\xff\xff\xff\xff\xff\x00\x00\x00\x00\x00\x00\x00\x79\x00\x00\x00\x01\x00\x00\x00\x01\xff\xff\xff\xff\xff\xff\xff\xff\x00\x00\x00\x00\x00\x00\x00\x78\x00\x00\x00\x01\x00\x00\x00\x00",
);

/// The root is finished, with the child 0 of bound 120.
const ROOT_LOW: (u8, &[u8]) = (
    FINISH,
    b"\x00\x00\x00\x00\x00\x00\x00\x00\x00\x00\x00\x01\xff\xff\xff\xff\xff\xff\xff\xff\x00\x00\x00\x00\x00\x00\x00\x78\x00\x00\x00\x01\x00\x00\x00\x00",
);

/// The root is finished, without children.
const ROOT_ALONE: (u8, &[u8]) = (FINISH, b"\x00\x00\x00\x00\x00\x00\x00\x00\x00\x00\x00\x00");

/// The root is finished, with the child 1 and the child 1 again, which replaces the first.
const ROOT_TWICE: (u8, &[u8]) = (
    FINISH,
    b"\x00\x00\x00\x00\x00\x00\x00\x00\x00\x00\x00\x02\xff\xff\xff\xff\xff\xff\xff\xff\x00\x00\x00\x00\x00\x00\x00\x79\x00\x00\x00\x01\x00\x00\x00\x01\x00\x00\x00\x00\x00\x00\x00\x01\x00\x00\x00\x00\x00\x00\x00\x79\x00\x00\x00\x01\x00\x00\x00\x01",
);

/// The root is finished, with a child that decides all items.
const ROOT_WHOLE: (u8, &[u8]) = (
    FINISH,
    b"\x00\x00\x00\x00\x00\x00\x00\x00\x00\x00\x00\x01\xff\xff\xff\xff\xff\xff\xff\xff\x00\x00\x00\x00\x00\x00\x00\x79\x00\x00\x00\x03\x00\x00\x00\x01\x00\x00\x00\x01\x00\x00\x00\x00",
);

/// The root is finished, with a child that takes two copies of an item.
const ROOT_NO_PREFIX: (u8, &[u8]) = (
    FINISH,
    b"\x00\x00\x00\x00\x00\x00\x00\x00\x00\x00\x00\x01\xff\xff\xff\xff\xff\xff\xff\xff\x00\x00\x00\x00\x00\x00\x00\x79\x00\x00\x00\x01\x00\x00\x00\x02",
);

/// The root is finished, with a child whose bound is 2^62 + 1.
const ROOT_FAR: (u8, &[u8]) = (
    FINISH,
    b"\x00\x00\x00\x00\x00\x00\x00\x00\x00\x00\x00\x01\xff\xff\xff\xff\xff\xff\xff\xff\x40\x00\x00\x00\x00\x00\x00\x01\x00\x00\x00\x01\x00\x00\x00\x01",
);

/// The root is finished, with a child whose bound is -2^62 - 1.
const ROOT_FAR_BELOW: (u8, &[u8]) = (
    FINISH,
    b"\x00\x00\x00\x00\x00\x00\x00\x00\x00\x00\x00\x01\xff\xff\xff\xff\xff\xff\xff\xff\xbf\xff\xff\xff\xff\xff\xff\xff\x00\x00\x00\x01\x00\x00\x00\x01",
);

/// The root is finished, with a child whose bound is 2^62.
const ROOT_FARTHEST: (u8, &[u8]) = (
    FINISH,
    b"\x00\x00\x00\x00\x00\x00\x00\x00\x00\x00\x00\x01\xff\xff\xff\xff\xff\xff\xff\xff\x40\x00\x00\x00\x00\x00\x00\x00\x00\x00\x00\x01\x00\x00\x00\x01",
);

/// The root is finished, with a child that replaces the root.
const ROOT_REPLACES_ITSELF: (u8, &[u8]) = (
    FINISH,
    b"\x00\x00\x00\x00\x00\x00\x00\x00\x00\x00\x00\x01\x00\x00\x00\x00\x00\x00\x00\x00\x00\x00\x00\x00\x00\x00\x00\x79\x00\x00\x00\x01\x00\x00\x00\x01",
);

/// Ticket 1 is finished.
const FIRST: (u8, &[u8]) = (FINISH, b"\x00\x00\x00\x00\x00\x00\x00\x01\x00\x00\x00\x00");

/// Ticket 2 is finished.
const SECOND: (u8, &[u8]) = (FINISH, b"\x00\x00\x00\x00\x00\x00\x00\x02\x00\x00\x00\x00");

/// Ticket 1 is finished, with its own prefix as a child.
const FIRST_SAME: (u8, &[u8]) = (
    FINISH,
    b"\x00\x00\x00\x00\x00\x00\x00\x01\x00\x00\x00\x01\xff\xff\xff\xff\xff\xff\xff\xff\x00\x00\x00\x00\x00\x00\x00\x79\x00\x00\x00\x01\x00\x00\x00\x01",
);

/// Ticket 1 is finished, with a child of another prefix.
const FIRST_OTHER: (u8, &[u8]) = (
    FINISH,
    b"\x00\x00\x00\x00\x00\x00\x00\x01\x00\x00\x00\x01\xff\xff\xff\xff\xff\xff\xff\xff\x00\x00\x00\x00\x00\x00\x00\x78\x00\x00\x00\x02\x00\x00\x00\x00\x00\x00\x00\x01",
);

/// Ticket 1 is finished, with a child that replaces ticket 2, which stands higher.
const FIRST_REPLACES_OTHER: (u8, &[u8]) = (
    FINISH,
    b"\x00\x00\x00\x00\x00\x00\x00\x01\x00\x00\x00\x01\x00\x00\x00\x00\x00\x00\x00\x02\x00\x00\x00\x00\x00\x00\x00\x79\x00\x00\x00\x02\x00\x00\x00\x01\x00\x00\x00\x00",
);

/// The solution 1 1 0, the next ticket 3, and both children of the root.
const BOTH: (u8, &[u8]) = (
    SNAPSHOT,
    b"\x01\x00\x00\x00\x00\x00\x00\x00\x6e\x00\x00\x00\x03\x00\x00\x00\x01\x00\x00\x00\x01\x00\x00\x00\x00\x00\x00\x00\x00\x00\x00\x00\x03\x00\x00\x00\x02\x00\x00\x00\x00\x00\x00\x00\x01\x00\x00\x00\x00\x00\x00\x00\x79\x00\x00\x00\x01\x00\x00\x00\x01\x00\x00\x00\x00\x00\x00\x00\x02\x00\x00\x00\x00\x00\x00\x00\x78\x00\x00\x00\x01\x00\x00\x00\x00",
);

/// The solution 0 1 1, and nothing is open.
const NOTHING: (u8, &[u8]) = (
    SNAPSHOT,
    b"\x01\x00\x00\x00\x00\x00\x00\x00\x78\x00\x00\x00\x03\x00\x00\x00\x00\x00\x00\x00\x01\x00\x00\x00\x01\x00\x00\x00\x00\x00\x00\x00\x03\x00\x00\x00\x00",
);

/// No solution, and the first child of the root.
const WITHOUT_SOLUTION: (u8, &[u8]) = (
    SNAPSHOT,
    b"\x00\x00\x00\x00\x00\x00\x00\x00\x02\x00\x00\x00\x01\x00\x00\x00\x00\x00\x00\x00\x01\x00\x00\x00\x00\x00\x00\x00\x79\x00\x00\x00\x01\x00\x00\x00\x01",
);

/// The solution 1 1 0 with the value 111.
const WRONG_VALUE: (u8, &[u8]) = (
    SNAPSHOT,
    b"\x01\x00\x00\x00\x00\x00\x00\x00\x6f\x00\x00\x00\x03\x00\x00\x00\x01\x00\x00\x00\x01\x00\x00\x00\x00\x00\x00\x00\x00\x00\x00\x00\x03\x00\x00\x00\x01\x00\x00\x00\x00\x00\x00\x00\x02\x00\x00\x00\x00\x00\x00\x00\x78\x00\x00\x00\x01\x00\x00\x00\x00",
);

/// The decisions 1 1 1, which weigh more than the room.
const NO_SOLUTION: (u8, &[u8]) = (
    SNAPSHOT,
    b"\x01\x00\x00\x00\x00\x00\x00\x00\xb4\x00\x00\x00\x03\x00\x00\x00\x01\x00\x00\x00\x01\x00\x00\x00\x01\x00\x00\x00\x00\x00\x00\x00\x03\x00\x00\x00\x01\x00\x00\x00\x00\x00\x00\x00\x02\x00\x00\x00\x00\x00\x00\x00\x78\x00\x00\x00\x01\x00\x00\x00\x00",
);

/// The children of the root, the second one first.
const FALLING: (u8, &[u8]) = (
    SNAPSHOT,
    b"\x01\x00\x00\x00\x00\x00\x00\x00\x6e\x00\x00\x00\x03\x00\x00\x00\x01\x00\x00\x00\x01\x00\x00\x00\x00\x00\x00\x00\x00\x00\x00\x00\x03\x00\x00\x00\x02\x00\x00\x00\x00\x00\x00\x00\x02\x00\x00\x00\x00\x00\x00\x00\x78\x00\x00\x00\x01\x00\x00\x00\x00\x00\x00\x00\x00\x00\x00\x00\x01\x00\x00\x00\x00\x00\x00\x00\x79\x00\x00\x00\x01\x00\x00\x00\x01",
);

/// A ticket that was not given out yet.
const NOT_GIVEN: (u8, &[u8]) = (
    SNAPSHOT,
    b"\x01\x00\x00\x00\x00\x00\x00\x00\x6e\x00\x00\x00\x03\x00\x00\x00\x01\x00\x00\x00\x01\x00\x00\x00\x00\x00\x00\x00\x00\x00\x00\x00\x02\x00\x00\x00\x01\x00\x00\x00\x00\x00\x00\x00\x02\x00\x00\x00\x00\x00\x00\x00\x78\x00\x00\x00\x01\x00\x00\x00\x00",
);

/// A subproblem that decides all items.
const WHOLE: (u8, &[u8]) = (
    SNAPSHOT,
    b"\x01\x00\x00\x00\x00\x00\x00\x00\x6e\x00\x00\x00\x03\x00\x00\x00\x01\x00\x00\x00\x01\x00\x00\x00\x00\x00\x00\x00\x00\x00\x00\x00\x03\x00\x00\x00\x01\x00\x00\x00\x00\x00\x00\x00\x01\x00\x00\x00\x00\x00\x00\x00\x79\x00\x00\x00\x03\x00\x00\x00\x01\x00\x00\x00\x01\x00\x00\x00\x00",
);

/// A subproblem that takes two copies of an item.
const NO_PREFIX: (u8, &[u8]) = (
    SNAPSHOT,
    b"\x01\x00\x00\x00\x00\x00\x00\x00\x6e\x00\x00\x00\x03\x00\x00\x00\x01\x00\x00\x00\x01\x00\x00\x00\x00\x00\x00\x00\x00\x00\x00\x00\x03\x00\x00\x00\x01\x00\x00\x00\x00\x00\x00\x00\x01\x00\x00\x00\x00\x00\x00\x00\x79\x00\x00\x00\x01\x00\x00\x00\x02",
);

/// A subproblem whose bound is 2^62 + 1.
const FAR: (u8, &[u8]) = (
    SNAPSHOT,
    b"\x01\x00\x00\x00\x00\x00\x00\x00\x6e\x00\x00\x00\x03\x00\x00\x00\x01\x00\x00\x00\x01\x00\x00\x00\x00\x00\x00\x00\x00\x00\x00\x00\x03\x00\x00\x00\x01\x00\x00\x00\x00\x00\x00\x00\x01\x40\x00\x00\x00\x00\x00\x00\x01\x00\x00\x00\x01\x00\x00\x00\x01",
);

/// No ticket is left.
const LAST_TICKET: (u8, &[u8]) = (
    SNAPSHOT,
    b"\x01\x00\x00\x00\x00\x00\x00\x00\x6e\x00\x00\x00\x03\x00\x00\x00\x01\x00\x00\x00\x01\x00\x00\x00\x00\xff\xff\xff\xff\xff\xff\xff\xff\x00\x00\x00\x01\x00\x00\x00\x00\x00\x00\x00\x01\x00\x00\x00\x00\x00\x00\x00\x79\x00\x00\x00\x01\x00\x00\x00\x01",
);

/// Ticket 1 is finished, with a child.
const FIRST_CHILD: (u8, &[u8]) = (
    FINISH,
    b"\x00\x00\x00\x00\x00\x00\x00\x01\x00\x00\x00\x01\xff\xff\xff\xff\xff\xff\xff\xff\x00\x00\x00\x00\x00\x00\x00\x78\x00\x00\x00\x02\x00\x00\x00\x01\x00\x00\x00\x01",
);

/// What is known of a board: the incumbent's value, the bound, and whether nothing is open.
type Known = (Option<i64>, Option<i64>, bool);

/// The items as a problem.
pub(crate) fn items(rt: &impl Abort, alloc: Global) -> Knapsack {
    let model = knapsack::read(alloc, ITEMS);
    assert!(rt; model.is_ok(), "the items");
    model.expect(rt, "the items")
}

/// Adds a record with its right digest after those of the file, and gives the digest.
fn add(
    rt: &impl Abort,
    alloc: Global,
    file: &mut Vec<u8>,
    digest: &[u8; 32],
    kind: u8,
    body: &[u8],
) -> [u8; 32] {
    assert!(rt; body.len() < 100, "a short body");
    let (bytes, next) = seal(alloc, digest, kind, body).expect(rt, "memory");
    // The gate that is closed so far.
    let _ = file.pop();
    file.push(1).expect(rt, "memory");
    file.extend_from_slice(&bytes).expect(rt, "memory");
    next
}

/// A file of a head and of these records, with right digests.
fn file_of(rt: &impl Abort, alloc: Global, records: &[(u8, &[u8])]) -> Vec<u8> {
    let mut file = Vec::new(alloc);
    let mut digest = add(rt, alloc, &mut file, &[0; 32], HEAD, HEAD_BODY);
    for (kind, body) in records.iter().copied() {
        digest = add(rt, alloc, &mut file, &digest, kind, body);
    }
    file
}

/// The problem, to be shared.
pub(crate) fn shared<M: DpModel>(alloc: Global, model: M) -> Result<Arc<M>, OutOfMemory> {
    Ok(Arc::new(alloc, model)?)
}

/// What is known of a board at its end, and its cause.
pub(crate) fn last_known<M: DpModel>(board: Board<M>) -> (Known, Option<Cause>) {
    let known = (board.incumbent_value(), board.bound(), board.is_explored());
    let cause = board.cause();
    // The call is proved in half the time that a drop at the end of the block takes.
    drop(board);
    (known, cause)
}

/// The board of records, or why they are refused.
fn restored<M: DpModel>(
    rt: &impl Abort,
    alloc: Global,
    model: M,
    records: &Records,
) -> Result<Known, JournalError> {
    assert!(rt; records.within() == 0, "the distance of the head");
    let model = shared(alloc, model).expect(rt, "memory");
    let board = replay(alloc, records, model, SETTINGS)?;
    Ok(last_known(board).0)
}

/// The records of a file.
fn records_of(alloc: Global, file: &[u8]) -> Result<Records, Refusal> {
    let (_, records, _) = read_journal(alloc, file)?;
    Ok(records)
}

/// The board of a file's records over the items, or why they are refused.
fn answer(rt: &impl Abort, alloc: Global, records: &[(u8, &[u8])]) -> Result<Known, JournalError> {
    let file = file_of(rt, alloc, records);
    let records = records_of(alloc, &file)?;
    restored(rt, alloc, items(rt, alloc), &records)
}

/// The records of a journal, and the board of them or why they are refused.
const REPLAYS: &[(&[(u8, &[u8])], Result<Known, JournalError>)] = &[
    (&[], Ok((None, Some(121), false))),
    (&[IMPROVE_110], Ok((Some(110), Some(121), false))),
    (&[IMPROVE_110, ROOT], Ok((Some(110), Some(121), false))),
    (
        &[IMPROVE_110, ROOT, FIRST],
        Ok((Some(110), Some(120), false)),
    ),
    (
        &[IMPROVE_110, ROOT, FIRST, IMPROVE_120, SECOND],
        Ok((Some(120), Some(120), true)),
    ),
    (&[IMPROVE_120, ROOT_LOW], Ok((Some(120), Some(120), true))),
    (&[ROOT_ALONE], Ok((None, None, true))),
    (&[ROOT_TWICE], Ok((None, Some(121), false))),
    (&[ROOT_TWICE, SECOND], Ok((None, None, true))),
    (
        &[ROOT_FARTHEST],
        Ok((None, Some(0x4000_0000_0000_0000), false)),
    ),
    (&[ALL_ITEMS], Err(JournalError::NoSolution { offset: 75 })),
    (&[SHORT], Err(JournalError::NoSolution { offset: 75 })),
    (
        &[ROOT, SHORT],
        Err(JournalError::NoSolution { offset: 173 }),
    ),
    (&[IMPROVE_111], Err(JournalError::Malformed { offset: 75 })),
    (
        &[IMPROVE_110, IMPROVE_110],
        Err(JournalError::Malformed { offset: 137 }),
    ),
    (
        &[IMPROVE_120, IMPROVE_110],
        Err(JournalError::Malformed { offset: 137 }),
    ),
    (&[FIRST], Err(JournalError::Malformed { offset: 75 })),
    (
        &[ROOT_ALONE, ROOT_ALONE],
        Err(JournalError::Malformed { offset: 125 }),
    ),
    (
        &[ROOT_TWICE, FIRST],
        Err(JournalError::Malformed { offset: 173 }),
    ),
    (&[ROOT_WHOLE], Err(JournalError::Malformed { offset: 75 })),
    (
        &[ROOT_NO_PREFIX],
        Err(JournalError::Malformed { offset: 75 }),
    ),
    (&[ROOT_FAR], Err(JournalError::Malformed { offset: 75 })),
    (
        &[ROOT_FAR_BELOW],
        Err(JournalError::Malformed { offset: 75 }),
    ),
    (
        &[ROOT_REPLACES_ITSELF],
        Err(JournalError::Malformed { offset: 75 }),
    ),
    (
        &[ROOT, FIRST_SAME],
        Err(JournalError::Malformed { offset: 173 }),
    ),
    (
        &[ROOT, FIRST_OTHER],
        Err(JournalError::Malformed { offset: 173 }),
    ),
    (
        &[ROOT, FIRST_REPLACES_OTHER],
        Err(JournalError::Malformed { offset: 173 }),
    ),
    (&[BOTH], Ok((Some(110), Some(121), false))),
    (&[BOTH, FIRST], Ok((Some(110), Some(120), false))),
    (&[FIRST, ALL_ITEMS, BOTH], Ok((Some(110), Some(121), false))),
    (
        &[ROOT, BOTH, FIRST, NOTHING],
        Ok((Some(120), Some(120), true)),
    ),
    (&[WITHOUT_SOLUTION], Ok((None, Some(121), false))),
    (&[BOTH, ROOT], Err(JournalError::Malformed { offset: 198 })),
    (&[WRONG_VALUE], Err(JournalError::Malformed { offset: 75 })),
    (&[NO_SOLUTION], Err(JournalError::NoSolution { offset: 75 })),
    (&[FALLING], Err(JournalError::Malformed { offset: 75 })),
    (&[NOT_GIVEN], Err(JournalError::Malformed { offset: 75 })),
    (&[WHOLE], Err(JournalError::Malformed { offset: 75 })),
    (&[NO_PREFIX], Err(JournalError::Malformed { offset: 75 })),
    (&[FAR], Err(JournalError::Malformed { offset: 75 })),
    (
        &[ROOT_ALONE, FAR],
        Err(JournalError::Malformed { offset: 125 }),
    ),
    (&[FAR, NOTHING], Ok((Some(120), Some(120), true))),
    (&[LAST_TICKET, FIRST], Ok((Some(110), Some(110), true))),
    (
        &[LAST_TICKET, FIRST_CHILD],
        Err(JournalError::Malformed { offset: 174 }),
    ),
];

/// The records are replayed or refused so.
fn replays(
    rt: &impl Abort,
    alloc: Global,
    records: &[(u8, &[u8])],
    wanted: Result<Known, JournalError>,
) {
    assert_eq!(rt;
        answer(rt, alloc, records),
        wanted,
        "of {} records",
        records.len()
    );
}

#[test]
fn records_are_replayed_or_refused(rt: HostRuntime) {
    for (records, wanted) in REPLAYS.iter().copied() {
        replays(&rt, rt.alloc(), records, wanted);
    }
}
