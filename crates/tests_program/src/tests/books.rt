//! Covers that are made from the books of a search, and bounds that come from its diagrams.

use crate::tests::{
    Case, TEN_ITEMS, THREE_ITEMS, begins, is_accepted, prints, prints_accepted, run_line, run_on,
    run_over,
};
use std::alloc::Global;
use std::process::Abort;
use std::sync::Wait;
use std::thread::Threads;

/// How a search of the three items ends, and how its cover begins.
const FIRST: &str = "proved\nvalue 120\nassignment 0 1 1\ncover knapsack\ninstance 20\n3 10\n";

/// How a search of the ten items ends.
const TEN: &str = "proved\nvalue 709\n";

/// Searches whose books hold none, some or all of their diagrams: words, an instance, how what is printed begins, and the status.
const COVERED: &[Case] = &[
    (
        "solve knapsack --cover --cover-words 1",
        THREE_ITEMS,
        FIRST,
        0,
    ),
    ("solve knapsack --cover --width 1", THREE_ITEMS, FIRST, 0),
    (
        "solve knapsack --cover --width 1 --cutset frontier --workers 2",
        THREE_ITEMS,
        FIRST,
        0,
    ),
    (
        "solve knapsack --cover --width 4 --cover-words 400",
        TEN_ITEMS,
        TEN,
        0,
    ),
    (
        "solve knapsack --cover --width 4 --cover-words 1000 --cutset frontier",
        TEN_ITEMS,
        TEN,
        0,
    ),
    (
        "solve knapsack --cover --width 4 --cover-words 1600 --workers 4",
        TEN_ITEMS,
        TEN,
        0,
    ),
    (
        "solve knapsack --cover --width 4 --workers 4 --cutset frontier",
        TEN_ITEMS,
        TEN,
        0,
    ),
    (
        "solve knapsack --cover --width 4 --within 5",
        TEN_ITEMS,
        "proved within 5\nvalue 709\n",
        0,
    ),
    (
        "solve knapsack --cover --width 4 --part 0/2 --cover-words 1000",
        TEN_ITEMS,
        "proved\nvalue 708\nassignment 0 3 0 3 3 0 2 0 1 0\ncover knapsack\npart 0 2\n",
        0,
    ),
    (
        "solve knapsack --cover --width 4 --part 1/2 --workers 2",
        TEN_ITEMS,
        TEN,
        0,
    ),
];

#[test]
fn covers_of_books_are_accepted(rt: HostRuntime) {
    prints_accepted(&rt, rt.alloc(), COVERED);
}

/// How many rows layer 1 has in the text of a cover.
fn rows_of_layer_one(text: &[u8]) -> u64 {
    let Ok(text) = str::from_utf8(text) else {
        return 0;
    };
    let Some((_, layer)) = text.split_once("\nlayer 1 ") else {
        return 0;
    };
    let Some((rows, _)) = layer.split_once('\n') else {
        return 0;
    };
    rows.parse::<u64>().unwrap_or(0)
}

/// The diagram of the root is compiled before the best solution is known, so it has both rows. One that is compiled afterwards has one.
#[test]
fn a_cover_has_the_rows_of_a_book(rt: HostRuntime) {
    let line = "solve knapsack --cover --width 1";
    let told = run_line(&rt, rt.alloc(), line, THREE_ITEMS.as_bytes());
    let rows = rows_of_layer_one(told.text.taken());
    assert!(rt; rows >= 2, "{rows} rows");
}

/// Words of searches of a tour with a cover and a journal.
const TOURS: &[&str] = &[
    "solve tsptw --workers 4 --cover --journal t",
    "solve tsptw --workers 4 --cover --journal t --cutset frontier",
];

/// How each of them ends, and a search that goes on from its journal.
const BEST_TOUR: &str = "proved\nvalue -1167\n";

/// Whether a search of the tour ends so, a check accepts its cover, and a search that goes on from its journal ends so too.
fn solves_tour<R: Abort + Threads + Wait + Sync>(
    rt: &R,
    alloc: Global,
    line: &str,
    tour: &[u8],
) -> bool {
    let told = run_over(rt, alloc, line, tour, Vec::new(alloc));
    let again = run_on(rt, alloc, "resume t", "", told.disk.bytes());
    begins(&told, BEST_TOUR, 0) && is_accepted(rt, alloc, &told) && begins(&again, BEST_TOUR, 0)
}

#[test]
fn a_tour_is_covered_and_gone_on_from(rt: HostRuntime) {
    let drawn = run_line(&rt, rt.alloc(), "generate tsptw 40 7", &[]);
    for line in TOURS.iter().copied() {
        let right = solves_tour(&rt, rt.alloc(), line, drawn.text.taken());
        assert!(rt; right, "{line}");
    }
}

#[test]
fn a_drawn_instance_is_solved_alike(rt: HostRuntime) {
    let line = "generate knapsack 100 7 --solve";
    let first = run_line(&rt, rt.alloc(), line, &[]);
    let second = run_line(&rt, rt.alloc(), line, &[]);
    assert_eq!(rt;
        (first.status, first.text.taken()),
        (0, second.text.taken())
    );
}

/// A merged node is too heavy for the last item. The rough bound of each child alone would leave it open.
const MERGED: &[Case] = &[(
    "solve knapsack --width 1 --budget 1",
    "3 10\n60 5\n50 4\n220 11\n",
    "proved\nvalue 110\nassignment 1 1 0\n",
    0,
)];

#[test]
fn a_bound_comes_from_a_merged_node(rt: HostRuntime) {
    prints(&rt, rt.alloc(), MERGED);
}
