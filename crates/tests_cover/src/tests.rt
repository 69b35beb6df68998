use crate::checking::{has_layers, has_row, is_verdict, items, verdict_on};
use bound_cover::{Checker, Cover, CoverArc, Verdict, Why};
use dp_model::DpModel;
use std::alloc::Global;
use std::process::Abort;

/// A row of one word: its bound, its word, and its arcs where it has an arc part.
type Row = (Option<i64>, i64, Option<&'static [CoverArc]>);

/// A row of the first layer and one of the last, the reported value with its assignment, and the verdict.
type Case = (Row, Row, Option<i64>, &'static [u32], Verdict);

pub const BOTH: &[CoverArc] = &[
    CoverArc {
        decision: 0,
        target: Some(0),
    },
    CoverArc {
        decision: 1,
        target: Some(0),
    },
];

const FIRST_ALONE: &[CoverArc] = &[CoverArc {
    decision: 0,
    target: Some(0),
}];

const OUT_OF_ORDER: &[CoverArc] = &[
    CoverArc {
        decision: 1,
        target: Some(0),
    },
    CoverArc {
        decision: 0,
        target: Some(0),
    },
];

const NO_SUCH_ROW: &[CoverArc] = &[
    CoverArc {
        decision: 0,
        target: Some(0),
    },
    CoverArc {
        decision: 1,
        target: Some(1),
    },
];

const BY_ROUGH_BOUNDS: &[CoverArc] = &[
    CoverArc {
        decision: 0,
        target: None,
    },
    CoverArc {
        decision: 1,
        target: None,
    },
];

/// One item of profit 4 and weight 1 in a room of 1. A state is the room that is left.
const ONE_ITEM: &[u8] = b"1 1\n4 1\n";

const TOP: Row = (Some(4), 1, Some(BOTH));

const END: Row = (Some(0), 1, None);

const BEST: Option<i64> = Some(4);

const TAKEN: &[u32] = &[1];

const ARC: Why = Why::Arc {
    layer: 0,
    row: 0,
    decision: 1,
};

const CASES: &[Case] = &[
    (TOP, END, BEST, TAKEN, Verdict::Accepted),
    (
        (Some(4), 1, Some(BY_ROUGH_BOUNDS)),
        END,
        BEST,
        TAKEN,
        Verdict::Accepted,
    ),
    ((Some(4), 1, None), END, BEST, TAKEN, Verdict::Accepted),
    (
        (Some(3), 1, Some(BOTH)),
        END,
        BEST,
        TAKEN,
        Verdict::Refused(ARC),
    ),
    (
        (Some(3), 1, Some(BY_ROUGH_BOUNDS)),
        END,
        BEST,
        TAKEN,
        Verdict::Refused(ARC),
    ),
    (
        (Some(3), 1, None),
        END,
        BEST,
        TAKEN,
        Verdict::Refused(Why::Rough { layer: 0, row: 0 }),
    ),
    (
        (Some(4), 2, Some(BOTH)),
        END,
        BEST,
        TAKEN,
        Verdict::Refused(Why::Root),
    ),
    (
        (Some(5), 1, Some(BOTH)),
        END,
        BEST,
        TAKEN,
        Verdict::Refused(Why::Root),
    ),
    (TOP, END, None, &[], Verdict::Refused(Why::Root)),
    (TOP, END, BEST, &[0], Verdict::Refused(Why::Value)),
    (TOP, END, BEST, &[2], Verdict::Refused(Why::Assignment)),
    (TOP, END, BEST, &[], Verdict::Refused(Why::Assignment)),
    (
        (Some(4), 1, Some(FIRST_ALONE)),
        END,
        BEST,
        TAKEN,
        Verdict::Refused(Why::Target {
            layer: 0,
            row: 0,
            decision: 1,
        }),
    ),
    (
        (Some(4), 1, Some(OUT_OF_ORDER)),
        END,
        BEST,
        TAKEN,
        Verdict::Refused(Why::Target {
            layer: 0,
            row: 0,
            decision: 0,
        }),
    ),
    (
        (Some(4), 1, Some(NO_SUCH_ROW)),
        END,
        BEST,
        TAKEN,
        Verdict::Refused(Why::Target {
            layer: 0,
            row: 0,
            decision: 1,
        }),
    ),
    (
        TOP,
        (Some(0), 0, None),
        BEST,
        TAKEN,
        Verdict::Refused(Why::Target {
            layer: 0,
            row: 0,
            decision: 0,
        }),
    ),
    (
        TOP,
        (Some(0), 5, None),
        BEST,
        TAKEN,
        Verdict::Refused(Why::Target {
            layer: 0,
            row: 0,
            decision: 0,
        }),
    ),
    (
        TOP,
        (None, 1, None),
        BEST,
        TAKEN,
        Verdict::Refused(Why::Terminal { row: 0 }),
    ),
    (
        TOP,
        (Some(0), 1, Some(&[])),
        BEST,
        TAKEN,
        Verdict::Refused(Why::Terminal { row: 0 }),
    ),
];

/// A cover of two layers with one row each.
fn cover_of(rt: &impl Abort, alloc: Global, above: Row, below: Row) -> Cover {
    let mut cover = Cover::new(alloc);
    cover.add_layer().expect(rt, "a layer");
    let added = cover.add_row(above.0, &[above.1], above.2);
    added.expect(rt, "a row");
    cover.add_layer().expect(rt, "a layer");
    let added = cover.add_row(below.0, &[below.1], below.2);
    added.expect(rt, "a row");
    cover
}

/// What a new checker says of the case.
fn has_case<M: DpModel>(rt: &impl Abort, alloc: Global, model: &M, case: &Case) {
    let (above, below, best, assignment, wanted) = *case;
    let cover = cover_of(rt, alloc, above, below);
    let found = verdict_on(rt, alloc, model, &cover, best, 0, assignment);
    is_verdict(rt, found, wanted);
}

#[test]
fn the_first_failing_test_is_answered(rt: HostRuntime) {
    let model = items(&rt, rt.alloc(), ONE_ITEM);
    for case in CASES {
        has_case(&rt, rt.alloc(), &model, case);
    }
}

#[test]
fn a_cover_without_layers_is_refused(rt: HostRuntime) {
    let model = items(&rt, rt.alloc(), ONE_ITEM);
    let cover = Cover::new(rt.alloc());
    let found = verdict_on(&rt, rt.alloc(), &model, &cover, BEST, 0, TAKEN);
    is_verdict(&rt, found, Verdict::Refused(Why::Layers));
}

#[test]
fn a_distance_is_added_to_the_value(rt: HostRuntime) {
    let model = items(&rt, rt.alloc(), ONE_ITEM);
    let by_two = cover_of(&rt, rt.alloc(), (Some(6), 1, Some(BOTH)), END);
    let found = verdict_on(&rt, rt.alloc(), &model, &by_two, BEST, 2, TAKEN);
    is_verdict(&rt, found, Verdict::Accepted);
    let found = verdict_on(&rt, rt.alloc(), &model, &by_two, Some(0), 4, &[0]);
    is_verdict(&rt, found, Verdict::Refused(Why::Root));
    let by_three = cover_of(&rt, rt.alloc(), (Some(7), 1, Some(BOTH)), END);
    let found = verdict_on(&rt, rt.alloc(), &model, &by_three, BEST, 2, TAKEN);
    is_verdict(&rt, found, Verdict::Refused(Why::Root));
}

/// What a new checker says of the rows of a right cover, for the claim.
fn has_rows_checked<M: DpModel>(
    rt: &impl Abort,
    alloc: Global,
    model: &M,
    claim: i64,
    wanted: Option<Why>,
) {
    let cover = cover_of(rt, alloc, TOP, END);
    let mut checker = Checker::prepare(alloc, model).expect(rt, "a checker");
    assert_eq!(rt; checker.check_rows(model, Some(claim), &cover), wanted);
}

#[test]
fn rows_are_checked_alone(rt: HostRuntime) {
    let model = items(&rt, rt.alloc(), ONE_ITEM);
    has_rows_checked(&rt, rt.alloc(), &model, 4, None);
    has_rows_checked(&rt, rt.alloc(), &model, 9, None);
    has_rows_checked(&rt, rt.alloc(), &model, 3, Some(Why::Root));
}

#[test]
fn a_cover_is_read_back(rt: HostRuntime) {
    let cover = cover_of(&rt, rt.alloc(), TOP, END);
    has_layers(&rt, &cover, &[1, 1]);
    has_row(&rt, &cover, 0, 0, (Some(4), &[1], Some(BOTH)));
    has_row(&rt, &cover, 1, 0, (Some(0), &[1], None));
}
