//! The tests of a cover, each by a function of its own.

ghost use Rattle.std.specs.Prelude.{◌≡◌, ℕ, ◌<◌, ◌≤◌, ◌+◌, ◌^◌, ℤ, pos, ◌+ℤ◌, ◌≤ℤ◌, List, length, true, slice_get, Option, Some, None, option_map, IsTrue, IfSome, int_le};
ghost use Rattle.dp_model.specs.Distances.{IsDistance};
ghost use Rattle.dp_model.specs.Dp.{Dp};
ghost use Rattle.dp_model.specs.Gaps.{IsStateOf};
ghost use Rattle.dp_model.specs.Numbers.{add_some};
ghost use Rattle.bound_cover.specs.Covers.{CoverRow};
ghost use Rattle.bound_cover.specs.Walking.{least_after, lesser, at_hand, decision_of, step_fault};
ghost use Rattle.bound_cover.specs.Tests.{is_at_most, is_state_row, are_states, arc_fault, tested, decisions_fault, last_fault, row_fault};
ghost use Rattle.bound_cover.specs.Placed.{AreStatesIf, IsInner, IsTransition};
ghost use Rattle.bound_cover.specs.Stored.{shown_row, to_row_fault};
ghost use Rattle.bound_cover.specs.Verdicts.{rows_fault, layers_fault, has_root, root_test, checked_rows, worth, solution_fault, claim_of, verdict};
ghost use Rattle.bound_cover.specs.Clamping.{IsWritable};
ghost use Rattle.bound_cover.specs.Proved.{IsReportedBest, IsReportedWithin};
ghost use Rattle.bound_cover.specs.declared.cover.Verdict.TheVariants.{Accepted};
ghost use Rattle.bound_cover.specs.Exploring.{layer_of};

use crate::cover::{CoverArc, Verdict, Why};
use crate::numbers::{is_at_most, is_sum_within, is_triple_within};
use crate::placed::{PlacedRow, Transition};
use crate::storing::{Cover, LayerRows, RowRef};
use dp_model::{DpModel, walk};

/// The rows of a layer.
pub trait Rows {
    ghost rows: { Self → List CoverRow };

    /// The row at a place, or `None` where there is none.
    fn row(&self, place: u32) -> Option<RowRef<'_>>
        ensures { option_map shown_row result ≡ slice_get (rows self.now) place };
}

/// The rows of the layer that arcs lead to.
#[derive(Drop)]
pub struct NextLayer<'n, N: Rows> {
    pub rows: &'n N,
    /// Whether all of them are known to be states; it may be `false` where they are.
    pub known: bool,
}

/// Whether the words are a state of the layer.
pub fn is_state_row<M: DpModel>(model: &M, k: usize, words: &[i64]) -> bool
    requires { k ≤ (M.meaning (M.numbers model.now)).vars }
    ensures { result ≡ is_state_row (M.meaning (M.numbers model.now)) k words.now }
{
    if words.len() != model.words() {
        return false;
    }
    model.is_state(k, words)
}

/// Whether the bound and the two numbers are at most another bound.
fn is_within(gain: i64, gap: i64, bound: Option<i64>, most: Option<i64>) -> bool
    ensures { result ≡ is_at_most (add_some (gain +ℤ gap) bound) most }
{
    let Some(bound) = bound else {
        return true;
    };
    let Some(most) = most else {
        return false;
    };
    is_triple_within(gain, gap, bound, most)
}

/// The first failure of an arc to a row: it is there, is a state, and covers the next state within the bounds. Where it is `known` that
/// all rows of the next layer are states, this is not tested again.
#[inline(always)]
fn row_arc_fault<M: DpModel>(
    model: &M,
    at: PlacedRow<'_>,
    transition: Transition<'_>,
    next: Option<RowRef<'_>>,
    known: bool,
) -> Option<Why>
    requires layer { at.layer < (M.meaning (M.numbers model.now)).vars }
    requires states { IfSome next (λ r. known ≡ true → is_state_row (M.meaning (M.numbers model.now)) (at.layer + 1) r.words.now ≡ true) }
    requires step { IsStateOf (M.meaning (M.numbers model.now)) (at.layer + 1) transition.state.now }
    ensures { result ≡ to_row_fault (M.meaning (M.numbers model.now)) at.entry.layer at.entry.number transition.entry.gain transition.entry.state.now at.entry.row.bound transition.entry.decision (option_map shown_row next.entry) }
{
    let k = at.layer as usize + 1;
    let Some(next) = next else {
        return Some(at.why_target(transition.decision));
    };
    if !known && !is_state_row(model, k, next.words) {
        return Some(at.why_target(transition.decision));
    }
    let Some(gap) = model.gap(k, next.words, transition.state) else {
        return Some(at.why_target(transition.decision));
    };
    let within = is_within(transition.gain, gap, next.bound, at.row.bound);
    at.bound_fault(transition.decision, within)
}

/// Whether the rough bound and the gain are at most a bound.
fn is_rough_within(gain: i64, rough: Option<i64>, most: Option<i64>) -> bool
    ensures { result ≡ is_at_most (add_some gain rough) most }
{
    let Some(rough) = rough else {
        return true;
    };
    let Some(most) = most else {
        return false;
    };
    is_sum_within(gain, rough, most)
}

/// The first failure of an arc of a decision that is allowed.
#[inline(always)]
fn arc_fault<M: DpModel, N: Rows>(
    model: &M,
    next: &NextLayer<'_, N>,
    at: PlacedRow<'_>,
    transition: Transition<'_>,
    target: Option<u32>,
) -> Option<Why>
    requires states { AreStatesIf next.now.known (M.meaning (M.numbers model.now)) (at.layer + 1) (N.rows next.now.rows.now) }
    requires layer { at.layer < (M.meaning (M.numbers model.now)).vars }
    requires state { IsStateOf (M.meaning (M.numbers model.now)) (at.layer + 1) transition.state.now }
    requires transition { IsTransition (M.meaning (M.numbers model.now)) at.layer at.row.words.now transition }
    ensures { result ≡ arc_fault (M.meaning (M.numbers model.now)) at.entry.layer at.entry.number (N.rows next.now.rows.now) (shown_row at.entry.row) transition.entry.decision target }
{
    match target {
        None => {
            let rough = model.rough_by_rank(
                at.layer as usize + 1,
                transition.state,
                transition.rank,
            );
            let within = is_rough_within(transition.gain, rough, at.row.bound);
            at.bound_fault(transition.decision, within)
        }
        Some(place) => row_arc_fault(model, at, transition, next.rows.row(place), next.known),
    }
}

/// The least decision that stands after one as great.
fn least_after(arcs: &[CoverArc]) -> Option<u32>
    ensures { result ≡ least_after 0 arcs.now }
{
    let mut least = None;
    let mut low = 0u64;
    'arcs: for arc in arcs {
        if u64::from(arc.decision) < low {
            least = lesser(least, arc.decision);
        } else {
            low = u64::from(arc.decision) + 1;
        }
    }
    least
}

/// The lesser of an option and a number, where none is greater than every number.
fn lesser(least: Option<u32>, decision: u32) -> Option<u32>
    ensures { result ≡ lesser least (Some decision) }
{
    match least {
        Some(least) if least <= decision => Some(least),
        _ => Some(decision),
    }
}

/// The arc at the place, where it is that of the decision.
fn arc_at(arcs: &[CoverArc], place: usize, decision: u32) -> Option<CoverArc>
    ensures { result ≡ at_hand decision (slice_get arcs.now place) }
{
    match arcs.get(place) {
        Some(arc) if arc.decision == decision => Some(*arc),
        _ => None,
    }
}

/// The failure of a decision with its arc or none; none where it is neither allowed nor listed. `step` is written over.
#[inline(always)]
fn step_fault<M: DpModel, N: Rows>(
    model: &M,
    next: &NextLayer<'_, N>,
    at: PlacedRow<'_>,
    decision: u32,
    arc: Option<CoverArc>,
    step: &mut [i64],
) -> Option<Why>
    requires states { AreStatesIf next.now.known (M.meaning (M.numbers model.now)) (at.layer + 1) (N.rows next.now.rows.now) }
    requires inner { IsInner (M.meaning (M.numbers model.now)) at }
    requires choice { decision < (M.meaning (M.numbers model.now)).choices at.layer }
    requires own { IfSome arc (λ a. a.decision ≡ decision) }
    requires cells { length step.old ≡ (M.meaning (M.numbers model.now)).words }
    ensures { result ≡ step_fault (M.meaning (M.numbers model.now)) at.entry.layer at.entry.number (N.rows next.now.rows.now) (shown_row at.entry.row) decision ((M.meaning (M.numbers model.now)).allowed at.entry.layer at.entry.row.words.now decision) arc }
{
    let Some(extended) = model.extend(at.layer as usize, at.row.words, at.rank, decision, 0, step)
    else {
        return match arc {
            None => None,
            Some(_) => Some(at.why_target(decision)),
        };
    };
    match arc {
        None => Some(at.why_target(decision)),
        Some(arc) => {
            let transition = Transition {
                decision,
                gain: extended.gain,
                state: step,
                rank: extended.rank,
            };
            arc_fault(model, next, at, transition, arc.target)
        }
    }
}

/// The least decision that is listed after all others, at the place or after one as great.
fn least_left(arcs: &[CoverArc], place: usize, following: Option<u32>) -> Option<u32>
    ensures { result ≡ lesser following (decision_of (slice_get arcs.now place)) }
{
    match arcs.get(place) {
        Some(arc) => lesser(following, arc.decision),
        None => following,
    }
}

/// Whether each decision of a row passes with its arc, where all arcs stand in order. `step` is written over.
fn all_pass<M: DpModel, N: Rows>(
    model: &M,
    next: &NextLayer<'_, N>,
    at: PlacedRow<'_>,
    step: &mut [i64],
) -> bool
    requires states { AreStatesIf next.now.known (M.meaning (M.numbers model.now)) (at.layer + 1) (N.rows next.now.rows.now) }
    requires inner { IsInner (M.meaning (M.numbers model.now)) at }
    requires cells { length step.old ≡ (M.meaning (M.numbers model.now)).words }
    ensures { result ≡ true → decisions_fault (M.meaning (M.numbers model.now)) at.entry.layer at.entry.number (N.rows next.now.rows.now) (shown_row at.entry.row) at.entry.row.arcs.now (tested (M.meaning (M.numbers model.now)) at.entry.layer at.entry.row.words.now at.entry.row.arcs.now) ≡ None }
{
    let mut place = 0;
    'decisions: for decision in 0..model.choices(at.layer as usize) {
        let arc = arc_at(at.row.arcs, place, decision);
        let why = step_fault(model, next, at, decision, arc, step);
        if why.is_some() {
            return false;
        }
        if arc.is_some() {
            place += 1;
        }
    }
    place == at.row.arcs.len()
}

/// The first failure of the decisions of a row with arcs, by a walk that knows which one stands out of order. `step` is written over.
#[cold]
#[inline(never)]
fn first_decision_fault<M: DpModel, N: Rows>(
    model: &M,
    next: &NextLayer<'_, N>,
    at: PlacedRow<'_>,
    step: &mut [i64],
) -> Option<Why>
    requires states { AreStatesIf next.now.known (M.meaning (M.numbers model.now)) (at.layer + 1) (N.rows next.now.rows.now) }
    requires inner { IsInner (M.meaning (M.numbers model.now)) at }
    requires cells { length step.old ≡ (M.meaning (M.numbers model.now)).words }
    ensures { result ≡ decisions_fault (M.meaning (M.numbers model.now)) at.entry.layer at.entry.number (N.rows next.now.rows.now) (shown_row at.entry.row) at.entry.row.arcs.now (tested (M.meaning (M.numbers model.now)) at.entry.layer at.entry.row.words.now at.entry.row.arcs.now) }
{
    let following = least_after(at.row.arcs);
    let mut place = 0;
    'decisions: for decision in 0..model.choices(at.layer as usize) {
        if following == Some(decision) {
            return Some(at.why_target(decision));
        }
        let arc = arc_at(at.row.arcs, place, decision);
        let why = step_fault(model, next, at, decision, arc, step);
        if why.is_some() {
            return why;
        }
        if arc.is_some() {
            place += 1;
        }
    }
    match least_left(at.row.arcs, place, following) {
        Some(decision) => Some(at.why_target(decision)),
        None => None,
    }
}

/// The first failure of the decisions of a row with arcs. Most rows have none, which takes one walk to see. `step` is written over.
fn decisions_fault<M: DpModel, N: Rows>(
    model: &M,
    next: &NextLayer<'_, N>,
    at: PlacedRow<'_>,
    step: &mut [i64],
) -> Option<Why>
    requires states { AreStatesIf next.now.known (M.meaning (M.numbers model.now)) (at.layer + 1) (N.rows next.now.rows.now) }
    requires inner { IsInner (M.meaning (M.numbers model.now)) at }
    requires cells { length step.old ≡ (M.meaning (M.numbers model.now)).words }
    ensures { result ≡ decisions_fault (M.meaning (M.numbers model.now)) at.entry.layer at.entry.number (N.rows next.now.rows.now) (shown_row at.entry.row) at.entry.row.arcs.now (tested (M.meaning (M.numbers model.now)) at.entry.layer at.entry.row.words.now at.entry.row.arcs.now) }
{
    if all_pass(model, next, at, step) {
        return None;
    }
    first_decision_fault(model, next, at, step)
}

/// The failure of a row of the last layer: it has no arcs, and a bound of at least 0.
fn terminal_fault(i: u32, row: RowRef<'_>) -> Option<Why>
    ensures { result ≡ last_fault i (shown_row row.entry) (shown_row row.entry).arcs }
{
    if !row.has_arcs && is_at_most(Some(0), row.bound) {
        None
    } else {
        Some(Why::Terminal { row: i })
    }
}

/// The first failure of a row: its words, and then its arcs, its rough bound or, at the last layer, its bound. `step` is
/// written over.
pub fn row_fault<M: DpModel, N: Rows>(
    model: &M,
    next: &NextLayer<'_, N>,
    k: usize,
    i: u32,
    row: RowRef<'_>,
    step: &mut [i64],
) -> Option<Why>
    requires states { AreStatesIf next.now.known (M.meaning (M.numbers model.now)) (k + 1) (N.rows next.now.rows.now) }
    requires layer { k ≤ (M.meaning (M.numbers model.now)).vars }
    requires cells { length step.old ≡ (M.meaning (M.numbers model.now)).words }
    ensures { result ≡ row_fault (M.meaning (M.numbers model.now)) k i (N.rows next.now.rows.now) (shown_row row.entry) }
{
    let layer = k as u32;
    if !is_state_row(model, k, row.words) {
        return Some(Why::Row { layer, row: i });
    }
    if k == model.vars() {
        return terminal_fault(i, row);
    }
    if row.has_arcs {
        let at = PlacedRow {
            layer,
            number: i,
            row,
            rank: model.rank(k, row.words),
        };
        return decisions_fault(model, next, at, step);
    }
    if is_at_most(model.rough(k, row.words), row.bound) {
        None
    } else {
        Some(Why::Rough { layer, row: i })
    }
}

/// The first failure of the rows of a layer. `step` is written over.
pub fn rows_fault<M: DpModel, L: Rows, N: Rows>(
    model: &M,
    here: &L,
    count: u32,
    next: &NextLayer<'_, N>,
    k: usize,
    step: &mut [i64],
) -> Option<Why>
    requires states { AreStatesIf next.now.known (M.meaning (M.numbers model.now)) (k + 1) (N.rows next.now.rows.now) }
    requires layer { k ≤ (M.meaning (M.numbers model.now)).vars }
    requires count { count ≡ length (L.rows here.now) }
    requires cells { length step.old ≡ (M.meaning (M.numbers model.now)).words }
    ensures { result ≡ rows_fault (M.meaning (M.numbers model.now)) k (N.rows next.now.rows.now) 0 (L.rows here.now) }
{
    'rows: for i in 0..count {
        let Some(row) = here.row(i) else {
            return None;
        };
        let why = row_fault(model, next, k, i, row, step);
        if why.is_some() {
            return why;
        }
    }
    None
}

impl<'c> Rows for LayerRows<'c> {
    ghost rows = { λ l. l };

    fn row(&self, place: u32) -> Option<RowRef<'_>> {
        self.at(place as usize)
    }
}

/// Whether all rows are states of the layer.
pub(crate) fn are_states<M: DpModel, L: Rows>(model: &M, k: usize, rows: &L, count: u32) -> bool
    requires layer { k ≤ (M.meaning (M.numbers model.now)).vars }
    requires count { count ≡ length (L.rows rows.now) }
    ensures { result ≡ are_states (M.meaning (M.numbers model.now)) k (L.rows rows.now) }
{
    'rows: for i in 0..count {
        let Some(row) = rows.row(i) else {
            return false;
        };
        if !is_state_row(model, k, row.words) {
            return false;
        }
    }
    true
}

/// Whether there is a next layer whose rows are states. They are looked at in order here, so that the arcs that lead to them
/// out of order find them near.
fn next_are_states<M: DpModel>(model: &M, cover: &Cover, k: usize) -> bool
    requires long { length cover.now ≡ (M.meaning (M.numbers model.now)).vars + 1 }
    requires layer { k < length cover.now }
    ensures { result ≡ true → are_states (M.meaning (M.numbers model.now)) (k + 1) (layer_of cover.now (k + 1)) ≡ true }
{
    if k + 1 < cover.layers() {
        let rows = cover.layer(k + 1);
        are_states(model, k + 1, &rows, cover.rows(k + 1) as u32)
    } else {
        false
    }
}

/// The first failure of all rows, layer by layer. `step` is written over.
pub fn layers_fault<M: DpModel>(model: &M, cover: &Cover, step: &mut [i64]) -> Option<Why>
    requires long { length cover.now ≡ (M.meaning (M.numbers model.now)).vars + 1 }
    requires short { (k : ℕ) → length (layer_of cover.now k) < 2 ^ 32 }
    requires cells { length step.old ≡ (M.meaning (M.numbers model.now)).words }
    ensures { result ≡ layers_fault (M.meaning (M.numbers model.now)) 0 cover.now }
{
    'layers: for k in 0..cover.layers() {
        let here = cover.layer(k);
        let next = NextLayer {
            rows: &cover.layer(k + 1),
            known: next_are_states(model, cover, k),
        };
        let why = rows_fault(model, &here, cover.rows(k) as u32, &next, k, step);
        if why.is_some() {
            return why;
        }
    }
    None
}

/// Whether the row is a state that covers the root within the claim.
fn row_covers_root<M: DpModel>(model: &M, row: RowRef<'_>, root: &[i64], claim: Option<i64>) -> bool
    requires { root.now ≡ (M.meaning (M.numbers model.now)).root }
    ensures { result ≡ root_test (M.meaning (M.numbers model.now)) claim (shown_row row.entry) }
{
    if !is_state_row(model, 0, row.words) {
        return false;
    }
    match model.gap(0, row.words, root) {
        None => false,
        Some(gap) => is_within(model.root_value(), gap, row.bound, claim),
    }
}

/// Whether one of the rows is a state that covers the root within the claim.
pub(crate) fn has_root<M: DpModel, L: Rows>(
    model: &M,
    here: &L,
    count: u32,
    root: &[i64],
    claim: Option<i64>,
) -> bool
    requires root { root.now ≡ (M.meaning (M.numbers model.now)).root }
    requires count { count ≡ length (L.rows here.now) }
    ensures { result ≡ has_root (M.meaning (M.numbers model.now)) claim (L.rows here.now) }
{
    'rows: for i in 0..count {
        let Some(row) = here.row(i) else {
            return false;
        };
        if row_covers_root(model, row, root, claim) {
            return true;
        }
    }
    false
}

/// The first failing test, where Assignment and Value are left out and the claim stands for the best value. `root` and `step`
/// are written over; it takes no memory.
pub fn check_rows<M: DpModel>(
    model: &M,
    claim: Option<i64>,
    cover: &Cover,
    root: &mut [i64],
    step: &mut [i64],
) -> Option<Why>
    requires root_cells { length root.old ≡ (M.meaning (M.numbers model.now)).words }
    requires cells { length step.old ≡ (M.meaning (M.numbers model.now)).words }
    ensures { result ≡ checked_rows (M.meaning (M.numbers model.now)) claim cover.now }
{
    if cover.layers() != model.vars() + 1 {
        return Some(Why::Layers);
    }
    model.root(root);
    let first = cover.layer(0);
    if !has_root(model, &first, cover.rows(0) as u32, root, claim) {
        return Some(Why::Root);
    }
    layers_fault(model, cover, step)
}

/// The value of an assignment, or `None` where it is no feasible solution.
fn worth<M: DpModel>(
    model: &M,
    assignment: &[u32],
    out: &mut [i64],
    spare: &mut [i64],
) -> Option<i64>
    requires cells { length out.old ≡ (M.meaning (M.numbers model.now)).words }
    requires spare_cells { length spare.old ≡ (M.meaning (M.numbers model.now)).words }
    ensures { result ≡ worth (M.meaning (M.numbers model.now)) assignment.now }
{
    if assignment.len() != model.vars() {
        return None;
    }
    walk(model, assignment, out, spare)
}

/// The failure of the assignment or of its value, where a best value is reported.
pub(crate) fn solution_fault<M: DpModel>(
    model: &M,
    best: Option<i64>,
    assignment: &[u32],
    out: &mut [i64],
    spare: &mut [i64],
) -> Option<Why>
    requires cells { length out.old ≡ (M.meaning (M.numbers model.now)).words }
    requires spare_cells { length spare.old ≡ (M.meaning (M.numbers model.now)).words }
    ensures { result ≡ solution_fault (M.meaning (M.numbers model.now)) best assignment.now }
{
    let Some(best) = best else {
        return None;
    };
    let Some(value) = worth(model, assignment, out, spare) else {
        return Some(Why::Assignment);
    };
    if value <= best && best <= value {
        None
    } else {
        Some(Why::Value)
    }
}

/// What no feasible solution may exceed: the reported value and the distance, and `None` where no value is reported.
///
/// The value is from -2^62 to 2^62, and `within` is a distance.
pub fn claim_of(best: Option<i64>, within: i64) -> Option<i64>
    requires value { IsWritable best }
    requires distance { IsDistance within }
    ensures { result ≡ claim_of best within }
{
    match best {
        None => None,
        Some(best) => Some(best + within),
    }
}

/// What is reported of a problem: the value of a solution or none, how far below the best value it may lie, and the solution.
#[derive(Clone, Copy)]
pub struct Reported<'a> {
    /// The reported value; none where the report is `infeasible`.
    pub best: Option<i64>,
    /// How far the best value may be above the reported one, from 0 to 2^50; 0 where none is reported.
    pub within: i64,
    /// The reported assignment. It is not tested where no value is reported.
    pub assignment: &'a [u32],
}

/// The verdict on a cover with its reported value, distance and assignment; an accepted one proves that the best value lies
/// within the distance. `root` and `step` are written over; it takes no memory.
pub fn check<M: DpModel>(
    model: &M,
    reported: Reported<'_>,
    cover: &Cover,
    root: &mut [i64],
    step: &mut [i64],
) -> Verdict
    requires root_cells { length root.old ≡ (M.meaning (M.numbers model.now)).words }
    requires cells { length step.old ≡ (M.meaning (M.numbers model.now)).words }
    requires distance { IsDistance reported.within }
    ensures verdict { result ≡ verdict (M.meaning (M.numbers model.now)) reported.entry.best reported.entry.within reported.entry.assignment.now cover.now }
    ensures near { result ≡ Accepted → IsReportedWithin (M.meaning (M.numbers model.now)) reported.entry.assignment.now reported.entry.best reported.entry.within }
    ensures sound { result ≡ Accepted → reported.entry.within ≡ pos 0 → IsReportedBest (M.meaning (M.numbers model.now)) reported.entry.assignment.now reported.entry.best }
{
    if cover.layers() != model.vars() + 1 {
        return Verdict::Refused(Why::Layers);
    }
    if let Some(why) = solution_fault(model, reported.best, reported.assignment, root, step) {
        return Verdict::Refused(why);
    }
    let claim = claim_of(reported.best, reported.within);
    match check_rows(model, claim, cover, root, step) {
        None => Verdict::Accepted,
        Some(why) => Verdict::Refused(why),
    }
}
