//! The tests of a cover whose layers come one after another, of which two are in memory.

ghost use Rattle.std.specs.Prelude.{◌≡◌, ◌<◌, [], length};
ghost use Rattle.bound_cover.specs.Exploring.{layer_of};
ghost use Rattle.bound_cover.specs.InTurn.{root_fault, pair_fault, layer_fault, last_rows_fault};

use crate::checks::{NextLayer, Rows, are_states, has_root, rows_fault};
use crate::cover::Why;
use crate::storing::{Cover, RowRef};
use dp_model::DpModel;

/// What is kept after some layers of a cover: what no feasible solution may exceed, how many they are, the last one, and the first
/// failure so far.
#[derive(Debug, Drop)]
pub struct LayerTests {
    pub(crate) claim: Option<i64>,
    pub(crate) count: usize,
    // A cover of that layer alone; without layers before the first one.
    pub(crate) here: Cover,
    pub(crate) why: Option<Why>,
}

impl LayerTests {
    /// How many layers there were.
    pub fn count(&self) -> usize
        ensures { result ≡ self.now.count }
    {
        self.count
    }
}

/// The rows after the last layer.
pub(crate) struct NoRows;

impl Rows for NoRows {
    ghost rows = { λ _. [] };

    fn row(&self, _place: u32) -> Option<RowRef<'_>> {
        None
    }
}

/// How many rows the first layer has; 0 where there is no layer.
fn first_count(cover: &Cover) -> u32
    ensures { result ≡ length (layer_of cover.now 0) }
{
    if cover.layers() == 0 {
        return 0;
    }
    cover.rows(0) as u32
}

/// The failure of the first layer, which has to cover the root within the claim. `root` is written over.
fn root_fault<M: DpModel>(
    model: &M,
    claim: Option<i64>,
    first: &Cover,
    root: &mut [i64],
) -> Option<Why>
    requires cells { length root.old ≡ (M.meaning (M.numbers model.now)).words }
    ensures { result ≡ root_fault (M.meaning (M.numbers model.now)) claim (layer_of first.now 0) }
{
    model.root(root);
    if has_root(model, &first.layer(0), first_count(first), root, claim) {
        None
    } else {
        Some(Why::Root)
    }
}

/// The first failure of the rows of the layer `k`, whose arcs lead to the next one. The rows of that are looked at in order before,
/// so that the arcs that lead to them out of order find them near. `step` is written over.
fn pair_fault<M: DpModel>(
    model: &M,
    k: usize,
    here: &Cover,
    next: &Cover,
    step: &mut [i64],
) -> Option<Why>
    requires layer { k < (M.meaning (M.numbers model.now)).vars }
    requires cells { length step.old ≡ (M.meaning (M.numbers model.now)).words }
    ensures { result ≡ pair_fault (M.meaning (M.numbers model.now)) k (layer_of here.now 0) (layer_of next.now 0) }
{
    let rows = here.layer(0);
    let following = next.layer(0);
    let known = are_states(model, k + 1, &following, first_count(next));
    let following = NextLayer {
        rows: &following,
        known,
    };
    rows_fault(model, &rows, first_count(here), &following, k, step)
}

/// The first failure of what can be tested once a further layer is there. `root` and `step` are written over.
pub(crate) fn layer_fault<M: DpModel>(
    model: &M,
    tests: &LayerTests,
    next: &Cover,
    root: &mut [i64],
    step: &mut [i64],
) -> Option<Why>
    requires root_cells { length root.old ≡ (M.meaning (M.numbers model.now)).words }
    requires cells { length step.old ≡ (M.meaning (M.numbers model.now)).words }
    ensures { result ≡ layer_fault (M.meaning (M.numbers model.now)) tests.now.claim tests.now.count (layer_of tests.now.here 0) (layer_of next.now 0) }
{
    if tests.count == 0 {
        return root_fault(model, tests.claim, next, root);
    }
    let k = tests.count - 1;
    if k < model.vars() {
        pair_fault(model, k, &tests.here, next, step)
    } else {
        None
    }
}

/// The first failure of the rows of the last layer. `step` is written over.
pub(crate) fn last_fault<M: DpModel>(model: &M, here: &Cover, step: &mut [i64]) -> Option<Why>
    requires cells { length step.old ≡ (M.meaning (M.numbers model.now)).words }
    ensures { result ≡ last_rows_fault (M.meaning (M.numbers model.now)) (layer_of here.now 0) }
{
    let none = NextLayer {
        rows: &NoRows,
        known: false,
    };
    rows_fault(
        model,
        &here.layer(0),
        first_count(here),
        &none,
        model.vars(),
        step,
    )
}
