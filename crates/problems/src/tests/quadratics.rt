use super::{Pair, Program, Refusal, Sample, is_program, refuses, spells};
use pair_problem::PairModel;
use qubo::Qubo;
use tokens::InstanceFault;

const SAMPLES: &[Sample] = &[
    Sample {
        text: b"4 5\n1 1 5\n1 2 -4\n2 2 3\n3 4 7\n4 4 -2\n",
        canonical: b"4 5\n1 1 5\n1 2 -4\n2 2 3\n3 4 7\n4 4 -2\n",
        bound: Some(15),
        best: Some(10),
        values: &[(&[1, 0, 1, 1], Some(10)), (&[1, 1, 0, 1], Some(2))],
    },
    Sample {
        text: b"2\t4 2 2 3\n1 2 -5\n\n1 2 1\n1 1 -2",
        canonical: b"2 4\n2 2 3\n1 2 -5\n1 2 1\n1 1 -2\n",
        bound: Some(4),
        best: Some(3),
        values: &[
            (&[0, 1], Some(3)),
            (&[1, 1], Some(-3)),
            (&[1, 0], Some(-2)),
            (&[0, 0], Some(0)),
            (&[2, 0], None),
            (&[0], None),
            (&[0, 1, 0], None),
        ],
    },
    Sample {
        text: b"0 0\n",
        canonical: b"0 0\n",
        bound: Some(0),
        best: Some(0),
        values: &[(&[], Some(0)), (&[0], None)],
    },
    Sample {
        text: b"1 1\n1 1 250000000",
        canonical: b"1 1\n1 1 250000000\n",
        bound: Some(250000000),
        best: Some(250000000),
        values: &[],
    },
    Sample {
        text: b"2 1\n1 2 7",
        canonical: b"2 1\n1 2 7\n",
        bound: Some(7),
        best: Some(7),
        values: &[(&[1, 1], Some(7)), (&[1, 0], Some(0))],
    },
];

const REFUSALS: &[Refusal] = &[
    (b"2 1\n2 1 5\n", InstanceFault::OutOfRange, 2, 3),
    (b"2 1\n1 3 5\n", InstanceFault::OutOfRange, 2, 3),
    (b"2 1\n0 1 5\n", InstanceFault::OutOfRange, 2, 1),
    (b"", InstanceFault::EndOfText, 1, 1),
    (b"1025 0", InstanceFault::OutOfRange, 1, 1),
    (b"2 1048577", InstanceFault::OutOfRange, 1, 3),
    (b"2 1\n1 2 x", InstanceFault::NotNumber, 2, 5),
    (b"2 1\n1 1 250000001", InstanceFault::OutOfRange, 2, 5),
    (b"2 1\n1 1 -250000001", InstanceFault::OutOfRange, 2, 5),
    (b"2 1 1 2 3 4", InstanceFault::Trailing, 1, 11),
    (b"0 0\n\xc3", InstanceFault::NotAscii, 2, 1),
    (b"0 1\n1 1 1", InstanceFault::OutOfRange, 2, 1),
];

const PROGRAM: Program = Program {
    text: b"3 5\n1 1 5\n1 2 -4\n2 2 3\n1 3 6\n3 3 -2\n",
    vars: 3,
    words: 3,
    paths: &[
        (&[], Some((-6, &[5, 3, -2]))),
        (&[0], Some((-2, &[0, 3, -2]))),
        (&[1], Some((4, &[0, -1, 4]))),
        (&[1, 0], Some((5, &[0, 0, 4]))),
        (&[1, 0, 1], Some((9, &[0, 0, 0]))),
        (&[2], None),
    ],
    no_states: &[(1, &[0, 8, 0]), (1, &[1, 0, 0])],
    pairs: &[Pair {
        layer: 1,
        first: &[0, -1, 4],
        second: &[0, 3, 1],
        merged: &[0, 0, 1],
        gaps: [Some(3), Some(4)],
        rough: Some(5),
        rank: 5,
        bucket: 0,
    }],
};

#[test]
fn worked_texts(rt: HostRuntime) {
    spells::<PairModel<Qubo>>(&rt, rt.alloc(), SAMPLES);
    refuses::<PairModel<Qubo>>(&rt, rt.alloc(), REFUSALS);
    is_program::<PairModel<Qubo>>(&rt, rt.alloc(), &PROGRAM);
}
