//! Each problem on worked texts: one shape for all of them, and a table of cases for each.

mod cuts;
mod knapsacks;
mod orders;
mod quadratics;
mod satisfiability;
mod tables;
mod tours;

ghost use Rattle.std.specs.Prelude.{◌≡◌, true};
ghost use Rattle.dp_model.specs.Gaps.{IsStateOf};

use dp_model::walk;
use problem_theory::{InstanceRefusal, Problem, ReadInstanceError};
use std::alloc::Global;
use std::process::Abort;
use tokens::{InstanceError, InstanceFault, Place};

/// A text of an instance, and what is known of it.
pub struct Sample {
    pub text: &'static [u8],
    pub canonical: &'static [u8],
    /// The root's value with its rough bound, or none where that says that there is no solution.
    pub bound: Option<i64>,
    /// The greatest value of a solution.
    pub best: Option<i64>,
    /// Lists of decisions with their values in the problem's own words.
    pub values: &'static [(&'static [u32], Option<i64>)],
}

/// A text with its first fault, and the line and the column of that.
pub type Refusal = (&'static [u8], InstanceFault, u32, u32);

/// Decisions with the value and the state that they lead to, or none where one of them is not allowed.
pub type Path = (&'static [u32], Option<(i64, &'static [i64])>);

/// An instance as a dynamic program.
pub struct Program {
    pub text: &'static [u8],
    pub vars: usize,
    pub words: usize,
    pub paths: &'static [Path],
    /// Layers with rows that are no states.
    pub no_states: &'static [(usize, &'static [i64])],
    pub pairs: &'static [Pair],
}

/// Two states of a layer.
pub struct Pair {
    pub layer: usize,
    pub first: &'static [i64],
    pub second: &'static [i64],
    pub merged: &'static [i64],
    /// The gap from the first to the second, and back.
    pub gaps: [Option<i64>; 2],
    /// What the first one's rough bound, rank and bucket are.
    pub rough: Option<i64>,
    pub rank: i64,
    pub bucket: u64,
}

/// The instance of a short text.
fn instance<P: Problem>(
    rt: &impl Abort,
    alloc: Global,
    text: &[u8],
) -> Result<P, ReadInstanceError> {
    assert!(rt; text.len() < 1000);
    P::read(alloc, text)
}

/// Each text spells an instance that is printed, bounded and valued as the sample says.
pub fn spells<P: Problem>(rt: &impl Abort, alloc: Global, samples: &[Sample]) {
    for sample in samples {
        is_spelled::<P>(rt, alloc, sample);
    }
}

/// The text spells an instance that is printed, bounded and valued as the sample says.
fn is_spelled<P: Problem>(rt: &impl Abort, alloc: Global, sample: &Sample) {
    let text = sample.text;
    let model = instance::<P>(rt, alloc, text).expect(rt, "an instance");
    let printed = P::print(alloc, &model).expect(rt, "a text");
    let bound = root_bound(rt, alloc, &model);
    let found = (text, printed.as_slice(), bound, greatest(&model));
    let wanted = (text, sample.canonical, sample.bound, sample.best);
    assert_eq!(rt; found, wanted);
    has_values(rt, &model, sample.values);
}

/// The value of the root with its rough bound.
fn root_bound<P: Problem>(rt: &impl Abort, alloc: Global, model: &P) -> Option<i64> {
    let mut root = vec![in alloc; 0i64; model.words()].expect(rt, "a state");
    model.root(root.as_mut_slice());
    assert!(rt; model.is_state(0, root.as_slice()));
    let rough = model.rough(0, root.as_slice());
    rough.and_then(|bound| model.root_value().checked_add(bound))
}

/// The greatest value of all lists with a number below 4 for each of at most 4 variables.
fn greatest<P: Problem>(model: &P) -> Option<i64> {
    let mut most = None;
    for code in 0u32..256 {
        let list = [code % 4, code / 4 % 4, code / 16 % 4, code / 64];
        let decisions = list.get(..model.vars());
        let value = decisions.and_then(|decisions| P::value_of(model, decisions));
        most = most.max(value);
    }
    most
}

/// Each list has its value.
fn has_values<P: Problem>(rt: &impl Abort, model: &P, values: &[(&[u32], Option<i64>)]) {
    for (decisions, value) in values.iter().copied() {
        has_value(rt, model, decisions, value);
    }
}

/// The list has this value.
fn has_value<P: Problem>(rt: &impl Abort, model: &P, decisions: &[u32], wanted: Option<i64>) {
    let found = P::value_of(model, decisions);
    assert_eq!(rt; (decisions, found), (decisions, wanted));
}

/// Each text is refused at its first fault.
pub fn refuses<P: Problem>(rt: &impl Abort, alloc: Global, refusals: &[Refusal]) {
    for refusal in refusals {
        is_refused::<P>(rt, alloc, refusal);
    }
}

/// The text is refused at its first fault.
fn is_refused<P: Problem>(rt: &impl Abort, alloc: Global, refusal: &Refusal) {
    let (text, fault, line, column) = *refusal;
    let place = Place { line, column };
    let error = InstanceError { fault, place };
    is_no_instance::<P>(rt, alloc, text, InstanceRefusal::Text(error));
}

/// The text is refused for this reason.
pub fn is_no_instance<P: Problem>(
    rt: &impl Abort,
    alloc: Global,
    text: &[u8],
    refusal: InstanceRefusal,
) {
    let error = ReadInstanceError::Refused(refusal);
    let found = instance::<P>(rt, alloc, text).err();
    assert_eq!(rt; (text, found), (text, Some(error)));
}

/// The interface answers as the program says.
pub fn is_program<P: Problem>(rt: &impl Abort, alloc: Global, program: &Program) {
    let model = instance::<P>(rt, alloc, program.text).expect(rt, "an instance");
    let wanted = (program.vars, program.words);
    assert_eq!(rt; (model.vars(), model.words()), wanted);
    has_no_states(rt, &model, program.no_states);
    goes_along(rt, alloc, &model, program.paths);
    has_pairs(rt, alloc, &model, program.pairs);
}

/// No row is a state of its layer.
fn has_no_states<P: Problem>(rt: &impl Abort, model: &P, no_states: &[(usize, &[i64])]) {
    for (layer, row) in no_states.iter().copied() {
        is_no_state(rt, model, layer, row);
    }
}

/// The row has the cells of a state, and is none of the layer.
fn is_no_state<P: Problem>(rt: &impl Abort, model: &P, layer: usize, row: &[i64]) {
    assert!(rt; layer <= model.vars() && row.len() == model.words());
    assert_eq!(rt; (row, model.is_state(layer, row)), (row, false));
}

/// Decisions lead to their values and states.
fn goes_along<P: Problem>(rt: &impl Abort, alloc: Global, model: &P, paths: &[Path]) {
    for path in paths {
        leads(rt, alloc, model, path);
    }
}

/// The decisions lead to their value and state.
fn leads<P: Problem>(rt: &impl Abort, alloc: Global, model: &P, path: &Path) {
    let (decisions, end) = *path;
    let words = model.words();
    let mut state = vec![in alloc; 0i64; words].expect(rt, "a state");
    let mut spare = vec![in alloc; 0i64; words].expect(rt, "a state");
    let value = walk(model, decisions, state.as_mut_slice(), spare.as_mut_slice());
    let found = value.map(|value| (value, state.as_slice()));
    assert_eq!(rt; (decisions, found), (decisions, end));
}

/// The interface answers for the two states of each pair as it says.
fn has_pairs<P: Problem>(rt: &impl Abort, alloc: Global, model: &P, pairs: &[Pair]) {
    for pair in pairs {
        is_pair(rt, alloc, model, pair);
    }
}

/// Whether the row is a state of the layer.
fn is_state<P: Problem>(model: &P, layer: usize, row: &[i64]) -> bool
    ensures { result ≡ true → IsStateOf (P.meaning (P.numbers model.now)) layer row.now }
{
    layer <= model.vars() && row.len() == model.words() && model.is_state(layer, row)
}

/// The gaps between two states, and the rough bound, the rank and the bucket of the first one.
fn has_answers<P: Problem>(
    rt: &impl Abort,
    model: &P,
    k: usize,
    first: &[i64],
    second: &[i64],
    wanted: ([Option<i64>; 2], Option<i64>, i64, u64),
)
    requires first { IsStateOf (P.meaning (P.numbers model.now)) k first.now }
    requires second { IsStateOf (P.meaning (P.numbers model.now)) k second.now }
{
    let gaps = [model.gap(k, first, second), model.gap(k, second, first)];
    let (rough, rank) = (model.rough(k, first), model.rank(k, first));
    let found = (gaps, rough, rank, model.bucket(k, first));
    assert_eq!(rt; found, wanted);
}

/// What the second state makes of the first one.
fn merges<P: Problem>(
    rt: &impl Abort,
    alloc: Global,
    model: &P,
    k: usize,
    first: &[i64],
    second: &[i64],
    wanted: &[i64],
)
    requires first { IsStateOf (P.meaning (P.numbers model.now)) k first.now }
    requires second { IsStateOf (P.meaning (P.numbers model.now)) k second.now }
{
    let mut merged = first.to_vec(alloc).expect(rt, "a state");
    model.merge_into(k, merged.as_mut_slice(), second);
    assert_eq!(rt; merged.as_slice(), wanted);
}

/// The interface answers for the two states as the pair says.
fn is_pair<P: Problem>(rt: &impl Abort, alloc: Global, model: &P, pair: &Pair) {
    let (k, first, second) = (pair.layer, pair.first, pair.second);
    assert!(rt; is_state(model, k, first) && is_state(model, k, second));
    let answers = (pair.gaps, pair.rough, pair.rank, pair.bucket);
    has_answers(rt, model, k, first, second, answers);
    merges(rt, alloc, model, k, first, second, pair.merged);
}
