//! Texts of two parts of a knapsack, joined to one.

use crate::checking::{has_layers, is_verdict, items, verdict_on};
use bound_cover::{Verdict, Why};
use cover_join::{JoinError, join};
use cover_text::{CoverError, CoverText, push_cover, read_covers};
use problem_names::PartNumber;
use std::alloc::Global;
use std::process::Abort;
use std::sync::Arc;
use tokens::{Place, TextError};

/// One item of profit 4 and of weight 1 in a room of 1.
const INSTANCE: &[u8] = b"1 1\n4 1\n";

/// The item is left out in part 0, and taken in part 1.
const BOTH: &[u8] =
    b"proved\nvalue 0\nassignment 0\ncover knapsack\npart 0 2\ninstance 8\n1 1\n4 1\nlayer 0 1\n0 ; 1 ; 0 0\nlayer 1 1\n0 ; 1\nend\nproved\nvalue 4\nassignment 1\ncover knapsack\npart 1 2\ninstance 8\n1 1\n4 1\nlayer 0 1\n4 ; 1 ; 1 0\nlayer 1 1\n0 ; 0\nend\n";

/// The rows of the whole: those of part 1 stand after that of part 0.
const WHOLE: &[u8] = b"layer 0 1\n4 ; 1 ; 0 0 1 1\nlayer 1 2\n0 ; 1\n0 ; 0\nend\n";

/// The texts.
fn texts(rt: &impl Abort, alloc: Global, bytes: &[u8]) -> Vec<CoverText> {
    assert!(rt; bytes.len() < 1_000);
    read_covers(alloc, bytes).expect(rt, "texts")
}

/// What the texts are joined to.
fn joined(rt: &impl Abort, alloc: Global, bytes: &[u8]) -> Result<CoverText, JoinError> {
    let texts = texts(rt, alloc, bytes);
    let model = Arc::new(alloc, items(rt, alloc, INSTANCE)).expect(rt, "a model");
    join(alloc, &model, texts.as_slice())
}

#[test]
fn two_parts_are_joined(rt: HostRuntime) {
    let whole = joined(&rt, rt.alloc(), BOTH).expect(&rt, "a text");
    let taken: &[u32] = &[1];
    assert_eq!(&rt; (whole.part, whole.best, whole.within), (None, Some(4), 0));
    assert_eq!(&rt; whole.assignment.as_slice(), taken);
    assert_eq!(&rt; whole.instance.as_slice(), INSTANCE);
    let model = items(&rt, rt.alloc(), INSTANCE);
    let found = verdict_on(&rt, rt.alloc(), &model, &whole.cover, Some(4), 0, taken);
    is_verdict(&rt, found, Verdict::Accepted);
    let mut out = Vec::new(rt.alloc());
    push_cover(&mut out, &model, &whole.cover).expect(&rt, "a text");
    assert_eq!(&rt; out.as_slice(), WHOLE);
}

/// What is wrong with the texts, the texts, and why they are not joined.
type Refused = (&'static str, &'static [u8], JoinError);

const REFUSED: &[Refused] = &[
    (
        "part 1 stands first",
        b"proved\nvalue 4\nassignment 1\ncover knapsack\npart 1 2\ninstance 8\n1 1\n4 1\nlayer 0 1\n4 ; 1 ; 1 0\nlayer 1 1\n0 ; 0\nend\nproved\nvalue 0\nassignment 0\ncover knapsack\npart 0 2\ninstance 8\n1 1\n4 1\nlayer 0 1\n0 ; 1 ; 0 0\nlayer 1 1\n0 ; 1\nend\n",
        JoinError::Order { index: 0 },
    ),
    (
        "part 0 stands alone",
        b"proved\nvalue 0\nassignment 0\ncover knapsack\npart 0 2\ninstance 8\n1 1\n4 1\nlayer 0 1\n0 ; 1 ; 0 0\nlayer 1 1\n0 ; 1\nend\n",
        JoinError::Order { index: 1 },
    ),
    (
        "a further text",
        b"infeasible\ncover knapsack\npart 0 1\ninstance 8\n1 1\n4 1\nend infeasible\ncover knapsack\npart 1 2\ninstance 8\n1 1\n4 1\nend",
        JoinError::Order { index: 1 },
    ),
    (
        "another instance",
        b"infeasible\ncover knapsack\npart 0 2\ninstance 8\n1 1\n4 1\nend\ninfeasible\ncover knapsack\npart 1 2\ninstance 8\n1 1\n5 1\nend\n",
        JoinError::Instance { index: 1 },
    ),
    (
        "a bound of part 0 that is too great",
        b"proved\nvalue 0\nassignment 0\ncover knapsack\npart 0 2\ninstance 8\n1 1\n4 1\nlayer 0 1\n1 ; 1 ; 0 0\nlayer 1 1\n0 ; 1\nend\nproved\nvalue 4\nassignment 1\ncover knapsack\npart 1 2\ninstance 8\n1 1\n4 1\nlayer 0 1\n4 ; 1 ; 1 0\nlayer 1 1\n0 ; 0\nend\n",
        JoinError::Refused {
            index: 0,
            why: Why::Root,
        },
    ),
];

/// Why the texts are not joined.
fn is_refused(rt: &impl Abort, alloc: Global, refused: &Refused) {
    let (what, bytes, wanted) = *refused;
    let found = joined(rt, alloc, bytes).err();
    assert_eq!(rt; found, Some(wanted), "at {what}");
}

#[test]
fn the_first_fault_of_the_parts_is_answered(rt: HostRuntime) {
    for refused in REFUSED {
        is_refused(&rt, rt.alloc(), refused);
    }
}

#[test]
fn texts_are_read_one_after_another(rt: HostRuntime) {
    let found = texts(&rt, rt.alloc(), BOTH);
    assert_eq!(&rt; found.len(), 2);
    let Some(last) = found.get(1) else { return };
    assert_eq!(&rt; last.part, Some(PartNumber { index: 1, of: 2 }));
    has_layers(&rt, &last.cover, &[1, 1]);
}

/// Texts, and their first fault.
type Faulty = (&'static [u8], CoverError);

const FAULTS: &[Faulty] = &[
    (
        b"",
        CoverError::Text(TextError::EndOfText(Place { line: 1, column: 1 })),
    ),
    (
        b"infeasible\ncover knapsack\ninstance 4\n0 5\nend\ninfeasible\ncover knapsack\nparts",
        CoverError::Word(Place { line: 8, column: 1 }),
    ),
    (
        b"infeasible\ncover knapsack\npart 1 1",
        CoverError::Text(TextError::OutOfRange(Place { line: 3, column: 8 })),
    ),
];

/// The first fault of the texts.
fn has_fault(rt: &impl Abort, alloc: Global, faulty: &Faulty) {
    let (bytes, wanted) = *faulty;
    assert!(rt; bytes.len() < 1_000);
    assert_eq!(rt; read_covers(alloc, bytes).err(), Some(wanted));
}

#[test]
fn the_first_fault_of_several_texts_is_answered(rt: HostRuntime) {
    for faulty in FAULTS {
        has_fault(&rt, rt.alloc(), faulty);
    }
}
