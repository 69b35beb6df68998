ghost use Rattle.std.specs.Prelude.{◌≡◌, ◌<◌, length, IsTrue};
ghost use Rattle.dp_model.specs.Decided.{DecisionGives};
ghost use Rattle.dp_model.specs.Solution.{SolutionGives};
ghost use Rattle.dp_model.specs.Walked.{WalkGives};

use crate::model::DpModel;

/// Takes a decision in the state in `row`. Answers the gain and leaves the next state in `row`, or answers `None` exactly if
/// the decision is not allowed.
fn decide<M: DpModel>(
    model: &M,
    k: usize,
    d: u32,
    row: &mut [i64],
    spare: &mut [i64],
) -> Option<i64>
    requires layer { k < (M.meaning (M.numbers model.now)).vars }
    requires state { IsTrue ((M.meaning (M.numbers model.now)).is_state k row.old) }
    requires cells { length row.old ≡ (M.meaning (M.numbers model.now)).words }
    requires spare_cells { length spare.old ≡ (M.meaning (M.numbers model.now)).words }
    ensures { DecisionGives (M.meaning (M.numbers model.now)) k row.old d row.new result }
{
    if d >= model.choices(k) {
        return None;
    }
    if !model.allowed(k, row, d) {
        return None;
    }
    let gained = model.gain(k, row, d);
    model.step(k, row, d, spare);
    row.copy_from_slice(spare);
    Some(gained)
}

/// Follows the decisions from the root. Answers the value of the prefix and leaves the state that it reaches in `out`, or
/// answers `None` exactly if the decisions are no prefix. `out` and `spare` have `words` cells, and both are written over. It
/// takes no memory.
#[tactic(auto, using(crate::proofs::WholeWalks::walked_whole, crate::proofs::WholeWalks::too_many))]
pub fn walk<M: DpModel>(
    model: &M,
    decisions: &[u32],
    out: &mut [i64],
    spare: &mut [i64],
) -> Option<i64>
    requires cells { length out.old ≡ (M.meaning (M.numbers model.now)).words }
    requires spare_cells { length spare.old ≡ (M.meaning (M.numbers model.now)).words }
    ensures { WalkGives (M.meaning (M.numbers model.now)) decisions.now out.new result }
{
    if decisions.len() > model.vars() {
        return None;
    }
    model.root(out);
    let mut value = model.root_value();
    'steps: for (k, d) in decisions.iter().enumerate() {
        let gained = decide(model, k, *d, out, spare)?;
        value += gained;
    }
    Some(value)
}

/// The value of the decisions, or `None` exactly if they are no feasible solution. `out` and `spare` have `words` cells, and
/// both are written over. It takes no memory.
pub fn solution_value<M: DpModel>(
    model: &M,
    decisions: &[u32],
    out: &mut [i64],
    spare: &mut [i64],
) -> Option<i64>
    requires cells { length out.old ≡ (M.meaning (M.numbers model.now)).words }
    requires spare_cells { length spare.old ≡ (M.meaning (M.numbers model.now)).words }
    ensures { SolutionGives (M.meaning (M.numbers model.now)) decisions.now result }
{
    if decisions.len() != model.vars() {
        return None;
    }
    walk(model, decisions, out, spare)
}
