use super::{Pair, Program, Refusal, Sample, is_program, refuses, spells};
use one_machine::OneMachine;
use tokens::InstanceFault;

const JOBS: &[u8] = b"3\n3 1 4\n2 3 2\n4 2 9\n";

const SAMPLES: &[Sample] = &[
    Sample {
        text: b"3 3 1\n4 2 3 2\t4 2\r\n9",
        canonical: JOBS,
        bound: Some(0),
        best: Some(-1),
        values: &[
            (&[1, 0, 2], Some(-1)),
            (&[0, 1, 2], Some(-9)),
            (&[1, 1, 0], None),
            (&[0, 1], None),
            (&[0, 1, 3], None),
        ],
    },
    Sample {
        text: b"2 05 1 0 5 2 -0",
        canonical: b"2\n5 1 0\n5 2 0\n",
        bound: Some(-15),
        best: Some(-20),
        values: &[(&[0, 1], Some(-25)), (&[1, 0], Some(-20))],
    },
    Sample {
        text: b"1\n100000 100000 0\n",
        canonical: b"1\n100000 100000 0\n",
        bound: Some(-10_000_000_000),
        best: Some(-10_000_000_000),
        values: &[(&[0], Some(-10_000_000_000)), (&[], None)],
    },
    Sample {
        text: b"0",
        canonical: b"0\n",
        bound: Some(0),
        best: Some(0),
        values: &[(&[], Some(0))],
    },
];

const REFUSALS: &[Refusal] = &[
    (b"", InstanceFault::EndOfText, 1, 1),
    (b"x", InstanceFault::NotNumber, 1, 1),
    (b"101", InstanceFault::OutOfRange, 1, 1),
    (b"1\n3 1", InstanceFault::EndOfText, 2, 4),
    (b"1 100001 1 1", InstanceFault::OutOfRange, 1, 3),
    (b"1 1 100001 1", InstanceFault::OutOfRange, 1, 5),
    (b"1 1 1 1000000001", InstanceFault::OutOfRange, 1, 7),
    (b"1 1 1 1 7", InstanceFault::Trailing, 1, 9),
    (b"1 1 1 1\n\xc3", InstanceFault::NotAscii, 2, 1),
    (b"1 # 0", InstanceFault::NotNumber, 1, 3),
];

const PROGRAM: Program = Program {
    text: JOBS,
    vars: 3,
    words: 3,
    paths: &[
        (&[], Some((0, &[7, 0, 0]))),
        (&[1], Some((0, &[5, 0, 2]))),
        (&[1, 0], Some((-1, &[4, 0, 5]))),
        (&[1, 0, 2], Some((-1, &[0, 0, 9]))),
        (&[1, 1], None),
    ],
    no_states: &[
        (0, &[8, 0, 0]),
        (1, &[7, 0, 2]),
        (1, &[5, 1, 2]),
        (1, &[5, 0, 100_001]),
        (1, &[5, 0, -1]),
    ],
    pairs: &[
        Pair {
            layer: 1,
            first: &[5, 0, 2],
            second: &[6, 0, 3],
            merged: &[4, 3, 2],
            gaps: [None, None],
            rough: Some(-1),
            rank: 2,
            bucket: 5,
        },
        Pair {
            layer: 1,
            first: &[4, 3, 2],
            second: &[6, 0, 3],
            merged: &[4, 3, 2],
            gaps: [Some(0), None],
            rough: Some(0),
            rank: 1,
            bucket: 4,
        },
    ],
};

#[test]
fn worked_texts(rt: HostRuntime) {
    spells::<OneMachine>(&rt, rt.alloc(), SAMPLES);
    refuses::<OneMachine>(&rt, rt.alloc(), REFUSALS);
    is_program::<OneMachine>(&rt, rt.alloc(), &PROGRAM);
}
