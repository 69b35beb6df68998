use crate::checking::{is_verdict, items, verdict_on};
use bound_cover::Verdict;
use cover_book::explore_whole;
use dp_model::DpModel;
use std::alloc::Global;
use std::process::Abort;
use tsp_windows::TspWindows;

/// Ten items, on which the search branches.
const TEN_ITEMS: &[u8] =
    b"10 229\n39 9\n16 2 3\n11 20\n87 50 3\n85 11 3\n44 40\n38 17 3\n79 46\n68 5\n46 33 3\n";

/// The verdict on the cover of an exploration for the value, with the assignment.
fn verdict_of<M: DpModel>(
    rt: &impl Abort,
    alloc: Global,
    model: &M,
    value: Option<i64>,
    assignment: &[u32],
) -> Verdict {
    let cover = explore_whole(alloc, model, value).expect(rt, "a cover");
    verdict_on(rt, alloc, model, &cover, value, 0, assignment)
}

/// The cover of an exploration for a value that is not best is refused.
fn is_refused<M: DpModel>(
    rt: &impl Abort,
    alloc: Global,
    model: &M,
    value: Option<i64>,
    assignment: &[u32],
) {
    assert!(rt; verdict_of(rt, alloc, model, value, assignment) != Verdict::Accepted);
}

/// A tour of three nodes as an instance.
fn tour(rt: &impl Abort, alloc: Global, text: &[u8]) -> TspWindows {
    assert!(rt; text.len() < 100);
    tsp_windows::read(alloc, text).expect(rt, "a tour")
}

#[test]
fn the_cover_of_a_knapsack_is_accepted(rt: HostRuntime) {
    let model = items(&rt, rt.alloc(), TEN_ITEMS);
    let best = &[1, 3, 0, 3, 3, 0, 1, 0, 1, 0];
    let found = verdict_of(&rt, rt.alloc(), &model, Some(709), best);
    is_verdict(&rt, found, Verdict::Accepted);
}

#[test]
fn a_value_that_is_not_best_is_refused(rt: HostRuntime) {
    let model = items(&rt, rt.alloc(), TEN_ITEMS);
    is_refused(&rt, rt.alloc(), &model, Some(0), &[0; 10]);
    is_refused(&rt, rt.alloc(), &model, None, &[]);
}

/// The last node is due at a time, from 8 on in time.
#[test]
fn the_covers_of_tours_are_accepted(rt: HostRuntime) {
    let text = b"3\n0 2 9\n2 0 3\n4 3 0\n0 100\n5 20\n0 8\n";
    let open = tour(&rt, rt.alloc(), text);
    let found = verdict_of(&rt, rt.alloc(), &open, Some(-12), &[1, 2, 0]);
    is_verdict(&rt, found, Verdict::Accepted);
    is_refused(&rt, rt.alloc(), &open, None, &[]);
    let text = b"3\n0 2 9\n2 0 3\n4 3 0\n0 100\n5 20\n0 1\n";
    let closed = tour(&rt, rt.alloc(), text);
    let found = verdict_of(&rt, rt.alloc(), &closed, None, &[]);
    is_verdict(&rt, found, Verdict::Accepted);
}
