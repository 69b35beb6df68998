use super::{Case, DRAWN_CLAUSES, TEN_ITEMS, THREE_ITEMS, prints, prints_accepted, run_line, says};
use std::alloc::Global;
use std::process::Abort;
use std::sync::Wait;
use std::thread::Threads;

/// A report with its cover: one item of profit 4 and weight 1 in a room of 1.
const COVER: &str =
    "proved\nvalue 4\nassignment 1\ncover knapsack\ninstance 8\n1 1\n4 1\nlayer 0 1\n4 ; 1 ; 0 0 1 0\nlayer 1 1\n0 ; 1\nend\n";

/// Covers and what a check of each says.
const CHECKED: &[Case] = &[
    ("check", COVER, "accepted\n", 0),
    (
        "check",
        "proved\nvalue 4\nassignment 1\ncover knapsack\ninstance 8\n1 1\n4 1\nlayer 0 1\n3 ; 1 ; 0 0 1 0\nlayer 1 1\n0 ; 1\nend\n",
        "refused arc 0 0 1\n",
        9,
    ),
    (
        "check",
        "proved\nvalue 4\nassignment 1\ncover knapsack\ninstance 8\n1 1\n4 1\nlayer 0 1\n4 ; 1 ; 0 0 1 0\nlayer 1 1\n0 ; 1\n",
        "cover end-of-text 12 1\n",
        3,
    ),
    ("check", "", "cover end-of-text 1 1\n", 3),
    ("check", "prooved", "cover word 1 1\n", 3),
    (
        "check",
        "proved\nvalue 4\nassignment 2\ncover knapsack\ninstance 8\n1 1\n4 1\nlayer 0 1\n4 ; 1 ; 0 0 1 0\nlayer 1 1\n0 ; 1\nend\n",
        "refused assignment\n",
        9,
    ),
    (
        "check",
        "proved\nvalue 4\nassignment 0\ncover knapsack\ninstance 8\n1 1\n4 1\nlayer 0 1\n4 ; 1 ; 0 0 1 0\nlayer 1 1\n0 ; 1\nend\n",
        "refused value\n",
        9,
    ),
    (
        "check",
        "proved\nvalue 4\nassignment 1\ncover knapsack\ninstance 8\n1 1\n4 1\nlayer 0 1\n4 ; 1 ; 0 0 1 0\nend\n",
        "refused layers\n",
        9,
    ),
    (
        "check",
        "proved\nvalue 4\nassignment 1\ncover knapsack\ninstance 8\n1 1\n4 1\nlayer 0 1\n4 ; 2 ; 0 0 1 0\nlayer 1 1\n0 ; 1\nend\n",
        "refused root\n",
        9,
    ),
    (
        "check",
        "proved\nvalue 4\nassignment 1\ncover knapsack\ninstance 8\n1 1\n4 1\nlayer 0 2\n4 ; 1 ; 0 0 1 0\n0 ; 2\nlayer 1 1\n0 ; 1\nend\n",
        "refused row 0 1\n",
        9,
    ),
    (
        "check",
        "proved\nvalue 4\nassignment 1\ncover knapsack\ninstance 8\n1 1\n4 1\nlayer 0 1\n3 ; 1\nlayer 1 1\n0 ; 1\nend\n",
        "refused rough 0 0\n",
        9,
    ),
    (
        "check",
        "proved\nvalue 4\nassignment 1\ncover knapsack\ninstance 8\n1 1\n4 1\nlayer 0 1\n4 ; 1\nlayer 1 1\n0 ; 1\nend\n",
        "accepted\n",
        0,
    ),
    (
        "check",
        "proved\nvalue 4\nassignment 1\ncover knapsack\ninstance 8\n1 1\n4 1\nlayer 0 1\n4 ; 1 ; 0 r 1 r\nlayer 1 1\n0 ; 1\nend\n",
        "accepted\n",
        0,
    ),
    (
        "check",
        "proved\nvalue 4\nassignment 1\ncover knapsack\ninstance 8\n1 1\n4 1\nlayer 0 1\n4 ; 1 ; 0 0 1 0\nlayer 1 1\n0 ; 0\nend\n",
        "refused target 0 0 0\n",
        9,
    ),
    (
        "check",
        "proved\nvalue 4\nassignment 1\ncover knapsack\ninstance 8\n1 1\n4 1\nlayer 0 1\n4 ; 1 ; 0 0 1 0\nlayer 1 1\n0 ; 2\nend\n",
        "refused target 0 0 0\n",
        9,
    ),
    (
        "check",
        "proved\nvalue 4\nassignment 1\ncover knapsack\ninstance 8\n1 1\n4 1\nlayer 0 1\n4 ; 1 ; 1 0\nlayer 1 1\n0 ; 1\nend\n",
        "refused target 0 0 0\n",
        9,
    ),
    (
        "check",
        "proved\nvalue 4\nassignment 1\ncover knapsack\ninstance 8\n1 1\n4 1\nlayer 0 1\n4 ; 1 ; 0 0 1 0\nlayer 1 1\n-1 ; 1\nend\n",
        "refused terminal 0\n",
        9,
    ),
    (
        "check",
        "proved\nvalue 4\nassignment 1\ncover knapsack\ninstance 8\n1 1\n4 x\nlayer 0 1\n4 ; 1 ; 0 0 1 0\nlayer 1 1\n0 ; 1\nend\n",
        "instance not-number 2 3\n",
        3,
    ),
    (
        "check",
        "proved\nvalue 4\nassignment 1\ncover knapsack\ninstance 8\n1 1\n4 x\nlayer 0 1\n4 ; 1 ; 0 0 1 0\nlayer 1 1\n0 ; 1\n",
        "cover end-of-text 12 1\n",
        3,
    ),
    (
        "check",
        "proved\nvalue 4\nassignment 1\ntaken 3\nfinished 2\ncover knapsack\ninstance 8\n1 1\n4 1\nlayer 0 1\n4 ; 1 ; 0 0 1 0\nlayer 1 1\n0 ; 1\nend\n",
        "accepted\n",
        0,
    ),
    (
        "check",
        "proved within 2\nvalue 4\nassignment 1\ncover knapsack\ninstance 8\n1 1\n4 1\nlayer 0 1\n6 ; 1 ; 0 0 1 0\nlayer 1 1\n0 ; 1\nend\n",
        "accepted\n",
        0,
    ),
    (
        "check",
        "proved within 2\nvalue 4\nassignment 1\ncover knapsack\ninstance 8\n1 1\n4 1\nlayer 0 1\n7 ; 1 ; 0 0 1 0\nlayer 1 1\n0 ; 1\nend\n",
        "refused root\n",
        9,
    ),
    (
        "check",
        "infeasible\ncover tsptw\ninstance 35\n3\n0 2 9\n2 0 3\n4 3 0\n0 100\n5 20\n0 1\nlayer 0 1\nnone ; 1 6 0 0\nlayer 1 0\nlayer 2 0\nlayer 3 0\nend\n",
        "accepted\n",
        0,
    ),
    (
        "check",
        "proved\nvalue 0\nassignment 0 0\ncover maxcut\ninstance 11\n2 1\n1 2 -4\nlayer 0 1\n4 ; 0 0\nlayer 1 0\nlayer 2 0\nend\n",
        "accepted\n",
        0,
    ),
    (
        "check",
        "proved\nvalue 5\nassignment 1\ncover max2sat\ninstance 17\np wcnf 1 1\n5 1 0\nlayer 0 1\n5 ; 5\nlayer 1 0\nend\n",
        "accepted\n",
        0,
    ),
];

#[test]
fn checks_covers(rt: HostRuntime) {
    prints(&rt, rt.alloc(), CHECKED);
}

/// From a byte of the cover on and up to another: what is printed where the lowest bit of one of them is flipped, and the status.
type Flips = (usize, usize, &'static str, u8);

const FLIPS: &[Flips] = &[
    (0, 7, "cover word 1 1\n", 3),
    (7, 13, "cover word 2 1\n", 3),
    (13, 14, "refused value\n", 9),
    (14, 15, "cover not-number 2 7\n", 3),
    (15, 26, "cover word 3 1\n", 3),
    (26, 27, "refused value\n", 9),
    (27, 28, "cover not-number 3 12\n", 3),
    (28, 34, "cover word 4 1\n", 3),
    (34, 43, "cover word 4 7\n", 3),
    (43, 52, "cover word 5 1\n", 3),
    (52, 53, "cover word 8 2\n", 3),
    (53, 54, "cover not-number 5 10\n", 3),
    (54, 55, "instance trailing 2 1\n", 3),
    (55, 56, "instance not-number 1 1\n", 3),
    (56, 57, "refused assignment\n", 9),
    (57, 58, "instance not-number 1 3\n", 3),
    (58, 59, "refused value\n", 9),
    (59, 60, "instance not-number 2 1\n", 3),
    (60, 61, "accepted\n", 0),
    (61, 62, "instance not-number 2 3\n", 3),
    (62, 68, "cover word 8 1\n", 3),
    (68, 70, "cover word 8 7\n", 3),
    (70, 71, "cover word 9 1\n", 3),
    (71, 72, "cover not-number 8 9\n", 3),
    (72, 73, "refused root\n", 9),
    (73, 74, "cover not-number 9 1\n", 3),
    (74, 76, "cover word 9 3\n", 3),
    (76, 77, "refused root\n", 9),
    (77, 78, "cover not-number 9 5\n", 3),
    (78, 80, "cover not-number 9 7\n", 3),
    (80, 81, "refused target 0 0 0\n", 9),
    (81, 82, "cover not-number 9 9\n", 3),
    (82, 83, "refused target 0 0 0\n", 9),
    (83, 84, "cover not-number 9 11\n", 3),
    (84, 85, "refused target 0 0 0\n", 9),
    (85, 86, "cover not-number 9 13\n", 3),
    (86, 87, "refused target 0 0 1\n", 9),
    (87, 88, "cover not-number 9 15\n", 3),
    (88, 94, "cover word 10 1\n", 3),
    (94, 96, "cover word 10 7\n", 3),
    (96, 97, "cover word 11 1\n", 3),
    (97, 98, "cover not-number 10 9\n", 3),
    (98, 99, "refused arc 0 0 1\n", 9),
    (99, 100, "cover not-number 11 1\n", 3),
    (100, 102, "cover word 11 3\n", 3),
    (102, 103, "refused target 0 0 0\n", 9),
    (103, 104, "cover not-number 11 5\n", 3),
    (104, 108, "cover word 12 1\n", 3),
];

/// The cover with the lowest bit of a byte flipped.
fn flipped(rt: &impl Abort, alloc: Global, at: usize) -> Vec<u8> {
    let mut bytes = COVER.as_bytes().to_vec(alloc).expect(rt, "the cover");
    if let Some(byte) = bytes.get_mut(at) {
        *byte ^= 1;
    }
    bytes
}

/// Whether a check of the cover with this byte flipped prints this, with this status.
fn tells_flip<R: Abort + Threads + Wait + Sync>(
    rt: &R,
    alloc: Global,
    at: usize,
    text: &str,
    status: u8,
) -> bool {
    let told = run_line(rt, alloc, "check", flipped(rt, alloc, at).as_slice());
    says(&told, text, status)
}

/// Each flip is told as the cases say.
fn tells_flips<R: Abort + Threads + Wait + Sync>(rt: &R, alloc: Global, flips: Flips) {
    let (from, to, text, status) = flips;
    for at in from..to {
        let right = tells_flip(rt, alloc, at, text, status);
        assert!(rt; right, "byte {at}");
    }
}

#[test]
fn tells_each_flipped_byte(rt: HostRuntime) {
    for flips in FLIPS.iter().copied() {
        tells_flips(&rt, rt.alloc(), flips);
    }
}

/// Distances and windows of three nodes, of which the last one is due at 8.
const TOUR: &str = "3\n0 2 9\n2 0 3\n4 3 0\n0 100\n5 20\n0 8\n";

/// The same where it is due too early for every tour.
const NO_TOUR: &str = "3\n0 2 9\n2 0 3\n4 3 0\n0 100\n5 20\n0 1\n";

/// Words, an instance, how what is printed begins, and the status.
const COVERED: &[Case] = &[
    (
        "solve knapsack --cover",
        TEN_ITEMS,
        "proved\nvalue 709\nassignment 1 3 0 3 3 0 1 0 1 0\ncover knapsack\ninstance ",
        0,
    ),
    (
        "solve knapsack --cover --stats --width 1 --budget 50 --cover-words 0",
        THREE_ITEMS,
        "proved\nvalue 120\nassignment 0 1 1\ntaken ",
        0,
    ),
    (
        "solve knapsack --cover --within 10 --width 1",
        THREE_ITEMS,
        "proved within 10\nvalue 110\nassignment 1 1 0\ncover knapsack\ninstance ",
        0,
    ),
    (
        "solve knapsack --cover",
        "0 5\n",
        "proved\nvalue 0\nassignment\ncover knapsack\ninstance 4\n0 5\nlayer 0 1\n0 ; 5\nend\n",
        0,
    ),
    (
        "solve maxcut --cover --workers 2",
        "3 3\n1 2 3\n2 3 1\n1 3 2\n",
        "proved\nvalue 5\nassignment 0 1 1\ncover maxcut\ninstance ",
        0,
    ),
    (
        "solve knapsack --cover --journal j",
        TEN_ITEMS,
        "proved\nvalue 709\nassignment 1 3 0 3 3 0 1 0 1 0\ncover knapsack\ninstance ",
        0,
    ),
    (
        "solve knapsack --cover --part 1/2",
        THREE_ITEMS,
        "proved\nvalue 110\nassignment 1 1 0\ncover knapsack\npart 1 2\ninstance 20\n3 10\n",
        0,
    ),
    (
        "solve tsptw --cover --part=0/3",
        TOUR,
        "infeasible\ncover tsptw\npart 0 3\ninstance ",
        1,
    ),
    ("solve max2sat --cover", DRAWN_CLAUSES, "proved\nvalue ", 0),
    (
        "solve tsptw --cover",
        TOUR,
        "proved\nvalue -12\nassignment 1 2 0\ncover tsptw\ninstance ",
        0,
    ),
    (
        "solve tsptw --cover",
        NO_TOUR,
        "infeasible\ncover tsptw\ninstance ",
        1,
    ),
    (
        "solve tsptw --cover --stats",
        NO_TOUR,
        "infeasible\ntaken ",
        1,
    ),
];

#[test]
fn printed_covers_are_accepted(rt: HostRuntime) {
    prints_accepted(&rt, rt.alloc(), COVERED);
}

/// Searches after which no cover is printed.
const COVERLESS: &[Case] = &[
    (
        "solve knapsack --cover --budget 0",
        THREE_ITEMS,
        "stopped budget\nvalue none\nbound 121\n",
        2,
    ),
    (
        "solve knapsack --cover-words 5",
        THREE_ITEMS,
        "proved\nvalue 120\nassignment 0 1 1\n",
        0,
    ),
];

#[test]
fn a_stopped_search_prints_no_cover(rt: HostRuntime) {
    prints(&rt, rt.alloc(), COVERLESS);
}
