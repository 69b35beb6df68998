use crate::checking::{items, verdict_on};
use crate::texts::{joined, read};
use bound_cover::{Verdict, Why};
use cover_text::{CoverError, open_cover};
use dp_model::DpModel;
use std::alloc::Global;
use std::process::Abort;
use tokens::Place;

/// Two items of profits 4 and 3 and of weight 1 in a room of 1, and a true report.
const HEAD: &[u8] =
    b"proved\nvalue 4\nassignment 1 0\ncover knapsack\ninstance 12\n2 1\n4 1\n3 1\n";

/// One item of profit 4 and of weight 1 in a room of 1, and a true report within 2 of the best.
const NEAR_HEAD: &[u8] =
    b"proved within 2\nvalue 4\nassignment 1\ncover knapsack\ninstance 8\n1 1\n4 1\n";

/// What the sections are, and the verdict on them.
type Case = (&'static str, &'static [u8], Verdict);

const CASES: &[Case] = &[
    (
        "all right",
        b"layer 0 1\n4 ; 1 ; 0 0 1 1\nlayer 1 2\n3 ; 1 ; 0 0 1 1\n0 ; 0 ; 0 1\nlayer 2 2\n0 ; 1\n0 ; 0\nend\n",
        Verdict::Accepted,
    ),
    (
        "bounds that are too low on two layers",
        b"layer 0 1\n3 ; 1 ; 0 0 1 1\nlayer 1 2\n2 ; 1 ; 0 0 1 1\n0 ; 0 ; 0 1\nlayer 2 2\n0 ; 1\n0 ; 0\nend\n",
        Verdict::Refused(Why::Arc {
            layer: 0,
            row: 0,
            decision: 1,
        }),
    ),
    (
        "a bound that is too low on the second layer",
        b"layer 0 1\n4 ; 1 ; 0 0 1 1\nlayer 1 2\n2 ; 1 ; 0 0 1 1\n0 ; 0 ; 0 1\nlayer 2 2\n0 ; 1\n0 ; 0\nend\n",
        Verdict::Refused(Why::Arc {
            layer: 1,
            row: 0,
            decision: 1,
        }),
    ),
    (
        "a decision that is listed twice after a row that fails",
        b"layer 0 1\n4 ; 1 ; 0 0 1 1\nlayer 1 2\n2 ; 1 ; 0 0 1 1 0 0\n0 ; 0 ; 0 1\nlayer 2 2\n0 ; 1\n0 ; 0\nend\n",
        Verdict::Refused(Why::Target {
            layer: 1,
            row: 0,
            decision: 0,
        }),
    ),
    (
        "a row of the last layer that is no state",
        b"layer 0 1\n4 ; 1 ; 0 0 1 1\nlayer 1 2\n3 ; 1 ; 0 0 1 1\n0 ; 0 ; 0 1\nlayer 2 2\n0 ; 5\n0 ; 0\nend\n",
        Verdict::Refused(Why::Target {
            layer: 1,
            row: 0,
            decision: 0,
        }),
    ),
    (
        "a row of the last layer without a bound",
        b"layer 0 1\n4 ; 1 ; 0 0 1 1\nlayer 1 2\n3 ; 1 ; 0 0 1 1\n0 ; 0 ; 0 1\nlayer 2 2\n0 ; 1\nnone ; 0\nend\n",
        Verdict::Refused(Why::Terminal { row: 1 }),
    ),
    (
        "a first layer that does not cover the root, and a second that fails",
        b"layer 0 1\n5 ; 1 ; 0 0 1 1\nlayer 1 2\n2 ; 1 ; 0 0 1 1\n0 ; 0 ; 0 1\nlayer 2 2\n0 ; 1\n0 ; 0\nend\n",
        Verdict::Refused(Why::Root),
    ),
    (
        "a layer too many, after one that fails",
        b"layer 0 1\n3 ; 1 ; 0 0 1 1\nlayer 1 2\n3 ; 1 ; 0 0 1 1\n0 ; 0 ; 0 1\nlayer 2 2\n0 ; 1\n0 ; 0\nlayer 3 1\n0 ; 0\nend\n",
        Verdict::Refused(Why::Layers),
    ),
    (
        "a layer too few",
        b"layer 0 1\n4 ; 1 ; 0 0 1 1\nlayer 1 2\n3 ; 1 ; 0 0 1 1\n0 ; 0 ; 0 1\nend\n",
        Verdict::Refused(Why::Layers),
    ),
    ("no layer", b"end\n", Verdict::Refused(Why::Layers)),
];

const NEAR_CASES: &[Case] = &[
    (
        "a bound at the value and the distance",
        b"layer 0 1\n6 ; 1 ; 0 0 1 0\nlayer 1 1\n0 ; 1\nend\n",
        Verdict::Accepted,
    ),
    (
        "a bound above them",
        b"layer 0 1\n7 ; 1 ; 0 0 1 0\nlayer 1 1\n0 ; 1\nend\n",
        Verdict::Refused(Why::Root),
    ),
];

/// The verdict on the layers in turn, as they are read.
fn verdict_in_turn<M: DpModel>(
    rt: &impl Abort,
    alloc: Global,
    model: &M,
    text: &[u8],
) -> Result<Verdict, CoverError> {
    assert!(rt; text.len() < 1_000);
    let opened = open_cover(alloc, text).expect(rt, "a head");
    opened.check(alloc, model)
}

/// The verdict on the cover that is read first.
fn verdict_after<M: DpModel>(rt: &impl Abort, alloc: Global, model: &M, text: &[u8]) -> Verdict {
    let held = read(rt, alloc, text);
    let within = u32::try_from(held.within).expect(rt, "a distance of 32 bits");
    let assignment = held.assignment.as_slice();
    verdict_on(rt, alloc, model, &held.cover, held.best, within, assignment)
}

/// Both verdicts after the head are that of the case.
fn has_verdicts<M: DpModel>(rt: &impl Abort, alloc: Global, model: &M, head: &[u8], case: &Case) {
    let (what, sections, verdict) = *case;
    let text = joined(rt, alloc, head, sections);
    let in_turn = verdict_in_turn(rt, alloc, model, text.as_slice());
    let following = verdict_after(rt, alloc, model, text.as_slice());
    assert_eq!(rt; (in_turn, following), (Ok(verdict), verdict), "at {what}");
}

#[test]
fn layers_in_turn_have_the_verdict_of_the_cover(rt: HostRuntime) {
    let model = items(&rt, rt.alloc(), b"2 1\n4 1\n3 1\n");
    for case in CASES {
        has_verdicts(&rt, rt.alloc(), &model, HEAD, case);
    }
}

#[test]
fn a_reported_distance_is_added_to_the_value(rt: HostRuntime) {
    let model = items(&rt, rt.alloc(), b"1 1\n4 1\n");
    for case in NEAR_CASES {
        has_verdicts(&rt, rt.alloc(), &model, NEAR_HEAD, case);
    }
}

#[test]
fn a_fault_of_the_text_comes_before_a_row_that_fails(rt: HostRuntime) {
    let model = items(&rt, rt.alloc(), b"2 1\n4 1\n3 1\n");
    let sections = b"layer 0 1\n3 ; 1 ; 0 0 1 1\nlayer 1 1\n2 ; 1\nlayer 3 1\n";
    let text = joined(&rt, rt.alloc(), HEAD, sections);
    let found = verdict_in_turn(&rt, rt.alloc(), &model, text.as_slice());
    let place = Place {
        line: 13,
        column: 7,
    };
    assert_eq!(rt; found, Err(CoverError::Word(place)));
}
