use super::{Pair, Program, Refusal, Sample, is_program, refuses, spells};
use knapsack::Knapsack;
use tokens::InstanceFault;

const SAMPLES: &[Sample] = &[
    Sample {
        text: b"3  10\n60  5  1\n50 4 1\n70\n6 1\n",
        canonical: b"3 10\n60 5\n50 4\n70 6\n",
        bound: Some(121),
        best: Some(120),
        values: &[
            (&[0, 1, 1], Some(120)),
            (&[1, 1, 1], None),
            (&[0, 2, 0], None),
            (&[0, 1], None),
        ],
    },
    Sample {
        text: b"2 7 10 3 2\n7 2 3",
        canonical: b"2 7\n10 3 2\n7 2 3\n",
        bound: Some(24),
        best: Some(24),
        values: &[(&[1, 2], Some(24))],
    },
    Sample {
        text: b"\t0 5\r\n",
        canonical: b"0 5\n",
        bound: Some(0),
        best: Some(0),
        values: &[(&[], Some(0))],
    },
    Sample {
        text: b"2 0\n5 0\n9 1\n",
        canonical: b"2 0\n5 0\n9 1\n",
        bound: Some(5),
        best: Some(5),
        values: &[(&[1, 0], Some(5))],
    },
];

const REFUSALS: &[Refusal] = &[
    (b"", InstanceFault::EndOfText, 1, 1),
    (b"x", InstanceFault::NotNumber, 1, 1),
    (b"1001 5", InstanceFault::OutOfRange, 1, 1),
    (b"3 10\n60 5\n", InstanceFault::EndOfText, 3, 1),
    (b"0 5\n7\n", InstanceFault::Trailing, 2, 1),
    (b"\xc3", InstanceFault::NotAscii, 1, 1),
    (b"1 5\n3 2 1 9\n", InstanceFault::Trailing, 2, 7),
    (b"1 5\n3 2 1 \xc3\n", InstanceFault::Trailing, 2, 7),
    (b"1 5\n3 2\n\xc3\n", InstanceFault::NotAscii, 3, 1),
];

const PROGRAM: Program = Program {
    text: b"2 7\n10 3 2\n7 2 3\n",
    vars: 2,
    words: 1,
    paths: &[
        (&[], Some((0, &[7]))),
        (&[2], Some((20, &[1]))),
        (&[1, 2], Some((24, &[0]))),
        (&[3], None),
        (&[2, 1], None),
    ],
    no_states: &[(0, &[8]), (1, &[-1])],
    pairs: &[Pair {
        layer: 1,
        first: &[4],
        second: &[1],
        merged: &[4],
        gaps: [Some(0), None],
        rough: Some(14),
        rank: 4,
        bucket: 0,
    }],
};

#[test]
fn worked_texts(rt: HostRuntime) {
    spells::<Knapsack>(&rt, rt.alloc(), SAMPLES);
    refuses::<Knapsack>(&rt, rt.alloc(), REFUSALS);
    is_program::<Knapsack>(&rt, rt.alloc(), &PROGRAM);
}
