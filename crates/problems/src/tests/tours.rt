use super::{Pair, Program, Refusal, Sample, is_program, refuses, spells};
use tokens::InstanceFault;
use tsp_windows::TspWindows;

const WAITS: &[u8] = b"3\n0 2 9\n2 0 3\n4 3 0\n0 100\n5 20\n0 30\n";

const SAMPLES: &[Sample] = &[
    Sample {
        text: WAITS,
        canonical: WAITS,
        bound: Some(-7),
        best: Some(-12),
        values: &[
            (&[1, 2, 0], Some(-12)),
            (&[2, 1, 0], Some(-14)),
            (&[0, 1, 2], None),
            (&[1, 1, 0], None),
        ],
    },
    Sample {
        text: b"3\n0 2 9\n2 0 3\n4 3 0\n0 100\n5 20\n0 1\n",
        canonical: b"3\n0 2 9\n2 0 3\n4 3 0\n0 100\n5 20\n0 1\n",
        bound: None,
        best: None,
        values: &[(&[1, 2, 0], None), (&[2, 1, 0], None)],
    },
    Sample {
        text: b"3\n0 2 9\n2 0 3\n4 3 0\n0 100\n5 20\n0 8\n",
        canonical: b"3\n0 2 9\n2 0 3\n4 3 0\n0 100\n5 20\n0 8\n",
        bound: Some(-7),
        best: Some(-12),
        values: &[(&[1, 2, 0], Some(-12)), (&[2, 1, 0], None)],
    },
    Sample {
        text: b"1\n0\n0 10\n",
        canonical: b"1\n0\n0 10\n",
        bound: Some(0),
        best: Some(0),
        values: &[(&[0], Some(0)), (&[], None)],
    },
    Sample {
        text: b"# two nodes\n2\n7 1\n\t2 0\r\n0 10\n  # none\n1 5",
        canonical: b"2\n0 1\n2 0\n0 10\n1 5\n",
        bound: Some(-3),
        best: Some(-3),
        values: &[(&[1, 0], Some(-3))],
    },
    Sample {
        text: b"3 0 2 9 2 0 3 4 3 0 0 100 5 20 0 30",
        canonical: WAITS,
        bound: Some(-7),
        best: Some(-12),
        values: &[],
    },
    Sample {
        text: b"1\n8\n0 10\n",
        canonical: b"1\n0\n0 10\n",
        bound: Some(0),
        best: Some(0),
        values: &[],
    },
];

const REFUSALS: &[Refusal] = &[
    (b"1\n0\n5 4", InstanceFault::Window, 3, 3),
    (b"", InstanceFault::EndOfText, 1, 1),
    (b"0", InstanceFault::OutOfRange, 1, 1),
    (b"x", InstanceFault::NotNumber, 1, 1),
    (b"1\n0", InstanceFault::EndOfText, 2, 2),
    (b"1\n1000000001\n0 10", InstanceFault::OutOfRange, 2, 1),
    (b"1\n0\n0 10 7", InstanceFault::Trailing, 3, 6),
    (b"1\n0\n0 10\n\xc3", InstanceFault::NotAscii, 4, 1),
    (b"1\n0\n0 1000000000001", InstanceFault::OutOfRange, 3, 3),
    (b"1 # 0", InstanceFault::NotNumber, 1, 3),
];

const PROGRAM: Program = Program {
    text: WAITS,
    vars: 3,
    words: 4,
    paths: &[
        (&[], Some((0, &[1, 6, 0, 0]))),
        (&[1, 2], Some((-8, &[4, 0, 0, 8]))),
        (&[1, 2, 0], Some((-12, &[1, 0, 0, 12]))),
        (&[1, 0], None),
    ],
    no_states: &[(0, &[0, 6, 0, 0]), (1, &[4, 1, 0, 8])],
    pairs: &[
        Pair {
            layer: 1,
            first: &[2, 4, 0, 5],
            second: &[4, 2, 0, 9],
            merged: &[6, 0, 6, 5],
            gaps: [None, None],
            rough: Some(-5),
            rank: 1,
            bucket: 1,
        },
        Pair {
            layer: 1,
            first: &[6, 0, 6, 5],
            second: &[4, 2, 0, 9],
            merged: &[6, 0, 6, 5],
            gaps: [Some(4), None],
            rough: Some(-2),
            rank: 0,
            bucket: 1,
        },
    ],
};

#[test]
fn worked_texts(rt: HostRuntime) {
    spells::<TspWindows>(&rt, rt.alloc(), SAMPLES);
    refuses::<TspWindows>(&rt, rt.alloc(), REFUSALS);
    is_program::<TspWindows>(&rt, rt.alloc(), &PROGRAM);
}
