//! Searches whose layers are made in parts.

use crate::tests::{Case, THREE_ITEMS, begins, prints, run_line};
use std::alloc::Global;
use std::process::Abort;
use std::sync::Wait;
use std::thread::Threads;

const CASES: &[Case] = &[
    (
        "solve knapsack --width 3 --parts 4",
        THREE_ITEMS,
        "proved\nvalue 120\nassignment 0 1 1\n",
        0,
    ),
    (
        "solve knapsack --parts 65",
        THREE_ITEMS,
        "words number parts\n",
        4,
    ),
    (
        "solve knapsack --parts 0 --budget x",
        THREE_ITEMS,
        "words number parts\n",
        4,
    ),
    (
        "solve knapsack --parts 0 --workers 0",
        THREE_ITEMS,
        "words number workers\n",
        4,
    ),
];

/// Instances that are drawn, and words that print the same on them. Layers of the second one are wide enough for pieces.
const ALIKE: &[(&str, &str, &str)] = &[
    (
        "generate maxcut 24 7",
        "solve maxcut --stats --parts 1",
        "solve maxcut --stats --parts 8",
    ),
    (
        "generate maxcut 16 7",
        "solve maxcut --stats --width 300",
        "solve maxcut --stats --width 300 --parts 3",
    ),
];

/// Both lines print the same on an instance that is drawn.
fn print_alike<R: Abort + Threads + Wait + Sync>(
    rt: &R,
    alloc: Global,
    drawn: &str,
    one: &str,
    other: &str,
) {
    let input = run_line(rt, alloc, drawn, &[]);
    let told = run_line(rt, alloc, one, input.text.taken());
    let again = run_line(rt, alloc, other, input.text.taken());
    assert!(rt; begins(&told, "proved\n", 0), "{one} on {drawn}");
    assert_eq!(rt; again.text.taken(), told.text.taken(), "{other} on {drawn}");
}

#[test]
fn parts_of_layers_are_read(rt: HostRuntime) {
    prints(&rt, rt.alloc(), CASES);
}

#[test]
fn layers_in_parts_are_searched_alike(rt: HostRuntime) {
    for (drawn, one, other) in ALIKE.iter().copied() {
        print_alike(&rt, rt.alloc(), drawn, one, other);
    }
}
