ghost use Rattle.std.specs.Prelude.{◌≡◌, ◌+◌, ◌<◌, ◌≤◌, length, IfSome};
ghost use Rattle.dp_model.specs.Numbers.{IsSmall};
ghost use Rattle.table_model.specs.Table.{layer_at, transition_at};
ghost use Rattle.dp_model.specs.Solution.{SolutionGives};
ghost use Rattle.table_model.specs.OwnWords.{own_value};
ghost use Rattle.table_model.specs.Shown.{table_shown, program_shown};

use crate::table::TableModel;
use crate::transition::Transition;

impl TableModel {
    /// What a decision makes of a state, where it is allowed: a state of the next layer, with a small gain.
    fn taken(&self, k: usize, s: u32, d: u32) -> Option<Transition>
        requires layer { k + 1 < length self.now.layers.items }
        requires state { s < (layer_at self.now.layers.items k).states }
        ensures is { result ≡ transition_at (layer_at self.now.layers.items k) s d }
        ensures next { IfSome result (λ w. w.next < (layer_at self.now.layers.items (k + 1)).states) }
        ensures small { IfSome result (λ w. IsSmall w.gain) }
    {
        self.layer(k).transition(s as usize, d as usize)
    }

    /// How many states the first layer has.
    fn first_states(&self) -> u32
        ensures is { result ≡ (layer_at self.now.layers.items 0).states }
        ensures some { 1 ≤ (layer_at self.now.layers.items 0).states }
    {
        self.layers[0].states
    }
}

/// The root value and the gains of the decisions.
#[tactic(auto, using(crate::proofs::Along::step_on, crate::proofs::Along::step_none, crate::proofs::Along::step_end))]
fn summed(model: &TableModel, decisions: &[u32]) -> Option<i64>
    ensures { result ≡ own_value (table_shown model.now) decisions.now }
{
    if decisions.len() + 1 != model.layers.len() {
        return None;
    }
    let _ = model.first_states();
    let mut value = model.root_value;
    let mut state = 0;
    'steps: for (k, d) in decisions.iter().enumerate() {
        let taken = model.taken(k, state, *d)?;
        value += taken.gain;
        state = taken.next;
    }
    Some(value)
}

/// The root value with the gains of the decisions, where there is one for each layer but the last and each leads from the
/// state before it to a state of the next layer. `None` exactly where they are no solution.
pub fn value_of(model: &TableModel, decisions: &[u32]) -> Option<i64>
    ensures own_words { result ≡ own_value (table_shown model.now) decisions.now }
    ensures solution { SolutionGives (program_shown model.now) decisions.now result }
{
    summed(model, decisions)
}
