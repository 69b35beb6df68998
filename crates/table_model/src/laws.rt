//! The tests of the laws.

ghost use Rattle.std.specs.Prelude.{◌≡◌, ℕ, ◌+◌, ◌<◌, ◌≤◌, length, Some};
ghost use Rattle.table_model.specs.Places.{holds_at_all};
ghost use Rattle.table_model.specs.Tests.{is_enough, is_match, is_matched, is_matched_at, is_sound_gap, is_zero, is_own_gap, covers_as, covers_both, bounds_next, is_bounded, is_within_sum, adds_up_by, adds_up, holds, seconds, failure_from, failure_of, layer_failure, first_failure, failure_in};
ghost use Rattle.table_model.specs.Table.{gap_at, merge_at};

use crate::layer::Layer;
use crate::sums::{are_sums_ordered, is_at_most_sum, is_sum_at_most};
use crate::transition::Transition;
use table_refusal::{Failure, Law};

// ---- a gap is sound

/// Whether `v` and the gap gain at least what `w` gains, with the gap between the next states.
fn is_enough(w: i64, v: i64, gap: i64, following: Option<i64>) -> bool
    ensures { result ≡ is_enough w v gap following }
{
    match following {
        Some(following) => are_sums_ordered(w, following, v, gap),
        None => false,
    }
}

/// Whether the decision `e` of `a` matches the decision `w` of a state to which `a` has the gap.
fn is_match(layer: &Layer, after: &Layer, a: u32, w: Transition, gap: i64, e: u32) -> bool
    ensures { result ≡ is_match layer.now after.now a w gap e }
{
    match layer.transition(a as usize, e as usize) {
        Some(v) => {
            let following = after.gap(v.next as usize, w.next as usize);
            is_enough(w.gain, v.gain, gap, following)
        }
        None => false,
    }
}

/// Whether some decision of `a` matches the decision of a state to which `a` has the gap.
#[tactic(auto, using(crate::proofs::Firsts::one_next, crate::proofs::Firsts::one_here))]
fn has_match(layer: &Layer, after: &Layer, a: u32, w: Transition, gap: i64) -> bool
    ensures { result ≡ is_matched layer.now after.now a gap (Some w) }
{
    let choices = layer.choices;
    'choices: for e in 0..choices {
        if is_match(layer, after, a, w, gap, e) {
            return true;
        }
    }
    false
}

/// Whether the decision `d` of `s` is matched by one of `a`, where it is allowed.
fn is_matched(layer: &Layer, after: &Layer, a: u32, s: u32, gap: i64, d: u32) -> bool
    ensures { result ≡ is_matched_at layer.now after.now a s gap d }
{
    match layer.transition(s as usize, d as usize) {
        Some(w) => has_match(layer, after, a, w, gap),
        None => true,
    }
}

/// Whether each decision of `s` is matched by one of `a`.
#[tactic(auto, using(crate::proofs::Firsts::holds_next, crate::proofs::Firsts::holds_not))]
fn are_matched(layer: &Layer, after: &Layer, a: u32, s: u32, gap: i64) -> bool
    ensures { result ≡ is_sound_gap layer.now after.now a s (Some gap) }
{
    let choices = layer.choices;
    'choices: for d in 0..choices {
        if !is_matched(layer, after, a, s, gap, d) {
            return false;
        }
    }
    true
}

/// Whether the gap of `a` to `s`, where it is there, is sound.
fn is_sound(layer: &Layer, after: &Layer, a: u32, s: u32) -> bool
    ensures { result ≡ is_sound_gap layer.now after.now a s (gap_at layer.now a s) }
{
    match layer.gap(a as usize, s as usize) {
        Some(gap) => are_matched(layer, after, a, s, gap),
        None => true,
    }
}

// ---- the own gap is zero

/// Whether the number is there and zero.
fn is_zero(number: Option<i64>) -> bool
    ensures { result ≡ is_zero number }
{
    match number {
        Some(number) => number == 0,
        None => false,
    }
}

/// Whether the gap is zero, where it is that of a state to itself.
fn is_own_gap(layer: &Layer, a: u32, s: u32) -> bool
    ensures { result ≡ is_own_gap layer.now a s }
{
    a != s || is_zero(layer.gap(a as usize, s as usize))
}

// ---- merge covers

/// Whether `z` has a gap to `y`, where `x` has one.
fn covers_as(layer: &Layer, z: u32, x: u32, y: u32) -> bool
    ensures { result ≡ covers_as layer.now z x y }
{
    layer.gap(x as usize, y as usize).is_none() || layer.gap(z as usize, y as usize).is_some()
}

/// Whether `z` has a gap to each state to which `x` has one.
#[tactic(auto, using(crate::proofs::Firsts::holds_next, crate::proofs::Firsts::holds_not))]
fn covers_all_of(layer: &Layer, z: u32, x: u32) -> bool
    ensures { result ≡ holds_at_all (covers_as layer.now z x) 0 layer.now.states }
{
    let states = layer.states;
    'states: for y in 0..states {
        if !covers_as(layer, z, x, y) {
            return false;
        }
    }
    true
}

/// Whether the state that stands for `x` and `s` covers both.
fn merge_covers(layer: &Layer, x: u32, s: u32) -> bool
    ensures { result ≡ covers_both layer.now (merge_at layer.now x s) x s }
{
    let z = layer.merged(x as usize, s as usize);
    layer.gap(z as usize, s as usize).is_some() && covers_all_of(layer, z, x)
}

// ---- rough bounds

/// Whether the rough bound is at least the gain with the rough bound after it, where that is there.
fn bounds_next(rough: Option<i64>, gain: i64, following: Option<i64>) -> bool
    ensures { result ≡ bounds_next rough gain following }
{
    match (rough, following) {
        (_, None) => true,
        (None, Some(_)) => false,
        (Some(bound), Some(following)) => is_sum_at_most(gain, following, bound),
    }
}

/// Whether the rough bound of `s` bounds what its decision `d` leads to, and is zero at the last layer.
fn is_bounded(layer: &Layer, after: &Layer, s: u32, d: u32) -> bool
    ensures { result ≡ is_bounded layer.now after.now s d }
{
    let rough = layer.rough(s as usize);
    if layer.choices == 0 {
        return is_zero(rough);
    }
    match layer.transition(s as usize, d as usize) {
        Some(w) => bounds_next(rough, w.gain, after.rough(w.next as usize)),
        None => true,
    }
}

// ---- gaps add up

/// Whether the gap is there and at most the sum of two, where both are there.
fn is_within_sum(first: Option<i64>, second: Option<i64>, whole: Option<i64>) -> bool
    ensures { result ≡ is_within_sum first second whole }
{
    match (first, second, whole) {
        (Some(x), Some(y), Some(z)) => is_at_most_sum(z, x, y),
        (Some(_), Some(_), None) => false,
        _ => true,
    }
}

/// Whether the gap of `a` to `c` is at most the sum over each third state.
#[tactic(auto, using(crate::proofs::Firsts::holds_next, crate::proofs::Firsts::holds_not))]
fn adds_up(layer: &Layer, a: u32, c: u32) -> bool
    ensures { result ≡ adds_up layer.now a c }
{
    let states = layer.states;
    let whole = layer.gap(a as usize, c as usize);
    'between: for b in 0..states {
        let first = layer.gap(a as usize, b as usize);
        let second = layer.gap(b as usize, c as usize);
        if !is_within_sum(first, second, whole) {
            return false;
        }
    }
    true
}

// ---- all of them

/// Whether its test holds at two states of a layer, or at a state and a decision.
fn holds(law: Law, layer: &Layer, after: &Layer, first: u32, second: u32) -> bool
    ensures { result ≡ holds law layer.now after.now first second }
{
    match law {
        Law::GapIsSound => is_sound(layer, after, first, second),
        Law::OwnGapIsZero => is_own_gap(layer, first, second),
        Law::MergeCovers => merge_covers(layer, first, second),
        Law::RoughBounds => is_bounded(layer, after, first, second),
        Law::GapsAddUp => adds_up(layer, first, second),
    }
}

/// How many numbers the second place of its test takes: a decision where rough bounds are tested, else a state.
fn seconds(law: Law, layer: &Layer) -> u32
    ensures { result ≡ seconds law layer.now }
{
    match law {
        Law::RoughBounds => layer.choices.max(1),
        _ => layer.states,
    }
}

/// The first failure of its test at a state.
#[tactic(auto, using(crate::proofs::Firsts::first_next, crate::proofs::Firsts::first_here))]
fn failure_from(law: Law, layer: &Layer, after: &Layer, k: u32, first: u32) -> Option<Failure>
    ensures { result ≡ failure_from layer.now after.now k law first }
{
    let seconds = seconds(law, layer);
    'seconds: for second in 0..seconds {
        if !holds(law, layer, after, first, second) {
            return Some(Failure {
                law,
                layer: k,
                first,
                second,
            });
        }
    }
    None
}

/// The first failure of its test.
#[tactic(auto, using(crate::proofs::Firsts::first_next, crate::proofs::Firsts::first_here))]
fn failure_of(law: Law, layer: &Layer, after: &Layer, k: u32) -> Option<Failure>
    ensures { result ≡ failure_of layer.now after.now k law }
{
    let states = layer.states;
    'firsts: for first in 0..states {
        let failure = failure_from(law, layer, after, k, first);
        if failure.is_some() {
            return failure;
        }
    }
    None
}

/// The first failure at a layer, in order of the laws.
fn layer_failure(layer: &Layer, after: &Layer, k: u32) -> Option<Failure>
    ensures { result ≡ layer_failure layer.now after.now k }
{
    let states = failure_of(Law::GapIsSound, layer, after, k);
    states
        .or_else(|| failure_of(Law::OwnGapIsZero, layer, after, k))
        .or_else(|| failure_of(Law::MergeCovers, layer, after, k))
        .or_else(|| failure_of(Law::RoughBounds, layer, after, k))
        .or_else(|| failure_of(Law::GapsAddUp, layer, after, k))
}

/// The first failure at the layer `k`.
fn failure_in(layers: &[Layer], k: u32) -> Option<Failure>
    requires { k < length layers.now }
    ensures { result ≡ failure_in layers.now k }
{
    let layer = &layers[k as usize];
    let after = layers.get(k as usize + 1).unwrap_or(layer);
    layer_failure(layer, after, k)
}

/// The first test that fails, in order of layer, law, first and second number.
#[tactic(auto, using(crate::proofs::Firsts::first_next, crate::proofs::Firsts::first_here))]
pub(crate) fn first_failure(layers: &[Layer]) -> Option<Failure>
    requires { length layers.now ≤ 65 }
    ensures { result ≡ first_failure layers.now }
{
    let count = layers.len() as u32;
    'layers: for k in 0..count {
        let failure = failure_in(layers, k);
        if failure.is_some() {
            return failure;
        }
    }
    None
}
