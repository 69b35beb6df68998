//! What a checker says of a cover, and what stands in one.

use bound_cover::{Checker, Cover, CoverArc, Reported, Verdict};
use dp_model::DpModel;
use knapsack::Knapsack;
use std::alloc::Global;
use std::process::Abort;

/// The items as an instance.
pub fn items(rt: &impl Abort, alloc: Global, text: &[u8]) -> Knapsack {
    assert!(rt; text.len() < 1_000);
    knapsack::read(alloc, text).expect(rt, "the items")
}

/// What a new checker says of a cover, for a reported value with a distance and an assignment.
pub fn verdict_on<M: DpModel>(
    rt: &impl Abort,
    alloc: Global,
    model: &M,
    cover: &Cover,
    best: Option<i64>,
    within: u32,
    assignment: &[u32],
) -> Verdict {
    let mut checker = Checker::prepare(alloc, model).expect(rt, "a checker");
    let reported = Reported {
        best,
        within: i64::from(within),
        assignment,
    };
    checker.check(model, reported, cover)
}

/// Stops the test where the verdict is another one.
pub fn is_verdict(rt: &impl Abort, found: Verdict, wanted: Verdict) {
    assert_eq!(rt; found, wanted);
}

/// How many rows each of the layers has.
pub fn has_layers(rt: &impl Abort, cover: &Cover, wanted: &[usize]) {
    assert_eq!(rt; cover.layers(), wanted.len());
    for layer in 0..cover.layers() {
        assert_eq!(rt; wanted.get(layer), Some(&cover.rows(layer)), "at {layer}");
    }
}

/// A row: its bound, its words, and its arcs where it has an arc part.
pub type Row = (Option<i64>, &'static [i64], Option<&'static [CoverArc]>);

/// The row at a place of a layer.
pub fn has_row(rt: &impl Abort, cover: &Cover, layer: usize, place: usize, wanted: Row) {
    assert!(rt; layer < cover.layers() && place < cover.rows(layer));
    let words = cover.words(layer, place);
    let found = (cover.bound(layer, place), words, cover.arcs(layer, place));
    assert_eq!(rt; found, wanted);
}
