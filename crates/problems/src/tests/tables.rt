use super::{Pair, Program, Sample, is_no_instance, is_program, spells};
use problem_theory::InstanceRefusal;
use std::alloc::Global;
use std::process::Abort;
use table_model::{Failure, Law, TableError, TableModel};

/// Two decisions in a row, with two states between them. The merge of the states 0 and 1 is the second one.
const TWO_STEPS: &[u8] =
    b"{\"root_value\": 0, \"layers\": [\n{\"states\": 1, \"choices\": 2, \"next\": [[0, 1]], \"gain\": [[4, 1]], \"gap\": [[0]], \"merge\": [[0]], \"rough\": [7]},\n{\"states\": 2, \"choices\": 2, \"next\": [[0, null], [0, 0]], \"gain\": [[2, null], [3, 6]], \"gap\": [[0, 4], [0, 0]], \"merge\": [[0, 1], [0, 1]], \"rough\": [2, 6]},\n{\"states\": 1, \"gap\": [[0]], \"merge\": [[0]], \"rough\": [0]}\n]}\n";

const SAMPLES: &[Sample] = &[
    Sample {
        text: TWO_STEPS,
        canonical: b"{\"layers\":[{\"choices\":2,\"gain\":[[4,1]],\"gap\":[[0]],\"merge\":[[0]],\"next\":[[0,1]],\"rough\":[7],\"states\":1},{\"choices\":2,\"gain\":[[2,null],[3,6]],\"gap\":[[0,4],[0,0]],\"merge\":[[0,1],[0,1]],\"next\":[[0,null],[0,0]],\"rough\":[2,6],\"states\":2},{\"gap\":[[0]],\"merge\":[[0]],\"rough\":[0],\"states\":1}],\"root_value\":0}\n",
        bound: Some(7),
        best: Some(7),
        values: &[
            (&[1, 1], Some(7)),
            (&[0, 0], Some(6)),
            (&[1, 0], Some(4)),
            (&[0, 1], None),
            (&[1], None),
            (&[2, 0], None),
        ],
    },
    // The root value stands twice.
    Sample {
        text: b"{\"root_value\":7,\"layers\":[{\"states\":1,\"gap\":[[0]],\"merge\":[[0]],\"rough\":[0]}],\"root_value\":-3}",
        canonical: b"{\"layers\":[{\"gap\":[[0]],\"merge\":[[0]],\"rough\":[0],\"states\":1}],\"root_value\":-3}\n",
        bound: Some(-3),
        best: Some(-3),
        values: &[(&[], Some(-3)), (&[0], None)],
    },
    // No decision is allowed.
    Sample {
        text: b"{\"root_value\":-3,\"layers\":[{\"states\":1,\"choices\":1,\"next\":[[null]],\"gain\":[[null]],\"gap\":[[0]],\"merge\":[[0]],\"rough\":[null]},{\"states\":1,\"gap\":[[0]],\"merge\":[[0]],\"rough\":[0]}]}",
        canonical: b"{\"layers\":[{\"choices\":1,\"gain\":[[null]],\"gap\":[[0]],\"merge\":[[0]],\"next\":[[null]],\"rough\":[null],\"states\":1},{\"gap\":[[0]],\"merge\":[[0]],\"rough\":[0],\"states\":1}],\"root_value\":-3}\n",
        bound: None,
        best: None,
        values: &[(&[], None), (&[0], None)],
    },
];

/// Documents that are no tables, and why.
const REFUSALS: &[(&[u8], TableError)] = &[
    (b"", TableError::Json),
    (b"{", TableError::Json),
    (b"\xff", TableError::Json),
    (b"[]", TableError::Shape { layer: None }),
    (
        b"{\"layers\":[],\"root_value\":0}",
        TableError::Shape { layer: None },
    ),
    (
        b"{\"root_value\":-0,\"layers\":[{\"states\":1,\"gap\":[[0]],\"merge\":[[0]],\"rough\":[0]}]}",
        TableError::Shape { layer: None },
    ),
    (
        b"{\"root_value\":0,\"layers\":[7]}",
        TableError::Shape { layer: Some(0) },
    ),
    (
        b"{\"root_value\":0,\"layers\":[{\"states\":1,\"gap\":[[1]],\"merge\":[[0]],\"rough\":[1]}]}",
        TableError::Law(Failure {
            law: Law::OwnGapIsZero,
            layer: 0,
            first: 0,
            second: 0,
        }),
    ),
    (
        b"{\"root_value\":0,\"layers\":[{\"states\":1,\"gap\":[[0]],\"merge\":[[0]],\"rough\":[1]}]}",
        TableError::Law(Failure {
            law: Law::RoughBounds,
            layer: 0,
            first: 0,
            second: 0,
        }),
    ),
];

const PROGRAM: Program = Program {
    text: TWO_STEPS,
    vars: 2,
    words: 1,
    paths: &[
        (&[], Some((0, &[0]))),
        (&[1], Some((1, &[1]))),
        (&[1, 1], Some((7, &[0]))),
        (&[0, 1], None),
    ],
    no_states: &[(0, &[1]), (1, &[2]), (1, &[-1]), (2, &[1])],
    pairs: &[
        Pair {
            layer: 1,
            first: &[0],
            second: &[1],
            merged: &[1],
            gaps: [Some(4), Some(0)],
            rough: Some(2),
            rank: 0,
            bucket: 0,
        },
        Pair {
            layer: 1,
            first: &[1],
            second: &[0],
            merged: &[0],
            gaps: [Some(0), Some(4)],
            rough: Some(6),
            rank: 0,
            bucket: 0,
        },
    ],
};

/// Each document is refused for its reason.
fn are_no_tables(rt: &impl Abort, alloc: Global, refusals: &[(&[u8], TableError)]) {
    for (text, error) in refusals.iter().copied() {
        is_no_instance::<TableModel>(rt, alloc, text, InstanceRefusal::Table(error));
    }
}

#[test]
fn worked_documents(rt: HostRuntime) {
    spells::<TableModel>(&rt, rt.alloc(), SAMPLES);
    are_no_tables(&rt, rt.alloc(), REFUSALS);
    is_program::<TableModel>(&rt, rt.alloc(), &PROGRAM);
}
