use super::{Pair, Program, Refusal, Sample, is_program, refuses, spells};
use max_cut::MaxCut;
use pair_problem::PairModel;
use tokens::InstanceFault;

const SAMPLES: &[Sample] = &[
    Sample {
        text: b"3 3\n1 2 3\n2 3 1\n1 3 2\n",
        canonical: b"3 3\n1 2 3\n1 3 2\n2 3 1\n",
        bound: Some(6),
        best: Some(5),
        values: &[(&[0, 1, 1], Some(5))],
    },
    Sample {
        text: b"2 1\n1 2 -4\n",
        canonical: b"2 1\n1 2 -4\n",
        bound: Some(0),
        best: Some(0),
        values: &[(&[0, 0], Some(0))],
    },
    Sample {
        text: b"0 0\n",
        canonical: b"0 0\n",
        bound: Some(0),
        best: Some(0),
        values: &[(&[], Some(0))],
    },
    Sample {
        text: b"2 1\n1 2 7",
        canonical: b"2 1\n1 2 7\n",
        bound: Some(7),
        best: Some(7),
        values: &[
            (&[0, 1], Some(7)),
            (&[1, 0], None),
            (&[0, 2], None),
            (&[0], None),
            (&[0, 1, 0], None),
        ],
    },
    Sample {
        text: b"4 7\n1 2 3\n2 1 -5\n3 3 9\n4 1 7\n2\n3 4 3 4 -4\n4 2 0\n",
        canonical: b"4 4\n1 2 -2\n1 4 7\n2 3 4\n3 4 -4\n",
        bound: Some(11),
        best: Some(11),
        values: &[(&[0, 0, 1, 1], Some(11))],
    },
    Sample {
        text: b"2 3\n1 2 500000000\n1 2 -1\n1 2 1\n",
        canonical: b"2 1\n1 2 500000000\n",
        bound: Some(500000000),
        best: Some(500000000),
        values: &[],
    },
    Sample {
        text: b"0 0",
        canonical: b"0 0\n",
        bound: Some(0),
        best: Some(0),
        values: &[],
    },
];

const REFUSALS: &[Refusal] = &[
    (b"2 1\n1 3 5\n", InstanceFault::Vertex, 2, 3),
    (b"", InstanceFault::EndOfText, 1, 1),
    (b"1025 0", InstanceFault::OutOfRange, 1, 1),
    (b"2 1048577", InstanceFault::OutOfRange, 1, 3),
    (b"2 1\n1 2 x", InstanceFault::NotNumber, 2, 5),
    (
        b"2 1\n1 99999999999999999999 5",
        InstanceFault::Vertex,
        2,
        3,
    ),
    (b"2 1\n1 1 500000001", InstanceFault::OutOfRange, 2, 5),
    (b"2 2\n1 2 500000000\n2 1 1\n", InstanceFault::Limit, 3, 5),
    (b"2 2\n1 2 -500000000\n1 2 -1", InstanceFault::Limit, 3, 5),
    (b"2 1 1 2 3 4", InstanceFault::Trailing, 1, 11),
    (b"0 0\n\xc3", InstanceFault::NotAscii, 2, 1),
    (b"0 1\n1 1 1", InstanceFault::Vertex, 2, 1),
];

const PROGRAM: Program = Program {
    text: b"4 6\n1 2 3\n1 3 -4\n1 4 5\n2 3 -6\n2 4 7\n3 4 8\n",
    vars: 4,
    words: 4,
    paths: &[
        (&[0, 0], Some((-10, &[0, 0, -10, 12]))),
        (&[0, 1], Some((2, &[0, 0, 2, -2]))),
        (&[0, 1, 0, 1], Some((10, &[0, 0, 0, 0]))),
        (&[0, 0, 1, 1], Some((2, &[0, 0, 0, 0]))),
        (&[1], None),
    ],
    no_states: &[(2, &[0, 0, 11, 0]), (2, &[0, 1, 0, 0])],
    pairs: &[Pair {
        layer: 2,
        first: &[0, 0, -10, 12],
        second: &[0, 0, 2, -2],
        merged: &[0, 0, 0, 0],
        gaps: [Some(4), Some(22)],
        rough: Some(30),
        rank: 22,
        bucket: 0,
    }],
};

#[test]
fn worked_texts(rt: HostRuntime) {
    spells::<PairModel<MaxCut>>(&rt, rt.alloc(), SAMPLES);
    refuses::<PairModel<MaxCut>>(&rt, rt.alloc(), REFUSALS);
    is_program::<PairModel<MaxCut>>(&rt, rt.alloc(), &PROGRAM);
}
