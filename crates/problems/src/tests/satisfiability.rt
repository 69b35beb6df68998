use super::{Pair, Program, Refusal, Sample, is_program, refuses, spells};
use max_two_sat::MaxTwoSat;
use pair_problem::PairModel;
use tokens::InstanceFault;

const THREE_VARIABLES: &[u8] = b"p wcnf 3 6 99\n4 -3 1 0\n0 2 0\n7 0\n2 -2 -2 0\n5 3 0\n1 2 -1 0\n";

const SAMPLES: &[Sample] = &[
    Sample {
        text: b"p wcnf 2 4\n3 1 2 0\n2 -1 2 0\n4 1 -2 0\n1 -1 -2 0\n",
        canonical: b"p wcnf 2 4\n3 1 2 0\n4 1 -2 0\n2 -1 2 0\n1 -1 -2 0\n",
        bound: Some(10),
        best: Some(9),
        values: &[(&[1, 1], Some(9)), (&[2, 0], None)],
    },
    Sample {
        text: b"p wcnf 1 3\n5 1 -1 0\n2 -1 0\n1 1 1 0\n",
        canonical: b"p wcnf 1 3\n5 1 -1 0\n1 1 0\n2 -1 0\n",
        bound: Some(7),
        best: Some(7),
        values: &[(&[0], Some(7)), (&[2, 0], None)],
    },
    Sample {
        text: b"c a comment\np cnf 2 3\n1 2 0\n-1 2 0\n1 -2 0\n%\n0\n",
        canonical: b"p wcnf 2 3\n1 1 2 0\n1 1 -2 0\n1 -1 2 0\n",
        bound: Some(3),
        best: Some(3),
        values: &[(&[1, 1], Some(3)), (&[2, 0], None)],
    },
    Sample {
        text: b"p wcnf 1 1 10\n9 1 0\n",
        canonical: b"p wcnf 1 1\n9 1 0\n",
        bound: Some(9),
        best: Some(9),
        values: &[(&[1], Some(9)), (&[2, 0], None)],
    },
    Sample {
        text: THREE_VARIABLES,
        canonical: b"p wcnf 3 4\n2 -2 0\n5 3 0\n1 -1 2 0\n4 1 -3 0\n",
        bound: Some(12),
        best: Some(11),
        values: &[
            (&[0, 0, 1], Some(8)),
            (&[0, 1, 1], Some(6)),
            (&[1, 0, 1], Some(11)),
            (&[1, 1, 1], Some(10)),
        ],
    },
];

const REFUSALS: &[Refusal] = &[
    (
        b"p wcnf 3 1\n1 1 2 3 0\n",
        InstanceFault::ThreeLiterals,
        2,
        7,
    ),
    (b"p cnf 1 2\n1 0\n", InstanceFault::Count, 3, 1),
    (b"p cnf 1 1\n1 0\n1 0\n", InstanceFault::Count, 3, 1),
    (b"p wcnf 1 1 10\n10 1 0\n", InstanceFault::Hard, 2, 1),
    (
        b"p wcnf 1 2\n281474976710656 1 0\n1 -1 0\n",
        InstanceFault::Limit,
        3,
        1,
    ),
    (b"h 1 0\n", InstanceFault::Word, 1, 1),
    (b"p xcnf 1 1", InstanceFault::Word, 1, 3),
    (
        b"p wcnf 1 1 5\n281474976710657 1 0\n",
        InstanceFault::OutOfRange,
        2,
        1,
    ),
    (b"p cnf 1 1\n2 0\n", InstanceFault::OutOfRange, 2, 1),
    (b"p wcnf 1 1 0\n", InstanceFault::OutOfRange, 1, 12),
    (b"p cnf 1 1\n1 % 0\n", InstanceFault::NotNumber, 2, 3),
    (b"p cnf 1 1\n1", InstanceFault::EndOfText, 2, 2),
];

const PROGRAM: Program = Program {
    text: THREE_VARIABLES,
    vars: 3,
    words: 3,
    paths: &[
        (&[], Some((0, &[0, -2, 5]))),
        (&[1], Some((5, &[0, -1, 5]))),
        (&[0, 0, 1], Some((8, &[0, 0, 0]))),
        (&[0, 1, 1], Some((6, &[0, 0, 0]))),
        (&[1, 0, 1], Some((11, &[0, 0, 0]))),
        (&[1, 1, 1], Some((10, &[0, 0, 0]))),
        (&[0, 2], None),
    ],
    no_states: &[(1, &[0, 0, 10]), (1, &[1, 0, 0])],
    pairs: &[Pair {
        layer: 1,
        first: &[0, -2, 1],
        second: &[0, -1, 5],
        merged: &[0, -1, 1],
        gaps: [Some(4), Some(1)],
        rough: Some(3),
        rank: 3,
        bucket: 0,
    }],
};

#[test]
fn worked_texts(rt: HostRuntime) {
    spells::<PairModel<MaxTwoSat>>(&rt, rt.alloc(), SAMPLES);
    refuses::<PairModel<MaxTwoSat>>(&rt, rt.alloc(), REFUSALS);
    is_program::<PairModel<MaxTwoSat>>(&rt, rt.alloc(), &PROGRAM);
}
