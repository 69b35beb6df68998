//! The problem's own words: a side for each vertex, and the weight across.

ghost use Rattle.std.specs.Prelude.{◌≡◌};
ghost use Rattle.dp_model.specs.Solution.{SolutionGives};
ghost use Rattle.max_cut.specs.Cuts.{cut_value};
ghost use Rattle.pair_rows.specs.Program.{program_of};
ghost use Rattle.max_cut.specs.Program.{rows_in};
ghost use Rattle.max_cut.specs.Shown.{instance_in};

use crate::instance::MaxCut;
use crate::sides::{are_sides, weight_of_cut};

/// The weight of the pairs on different sides, where the decisions are a side for each vertex, 0 for S
/// and 1 for T, with vertex 0 on S. `None` exactly where they are not. The cuts are the feasible
/// solutions of the program, with this value.
pub fn value_of(model: &MaxCut, decisions: &[u32]) -> Option<i64>
    ensures own_words { result ≡ cut_value (instance_in model.now) decisions.now }
    ensures solution { SolutionGives (program_of (rows_in (instance_in model.now))) decisions.now result }
{
    cut_weight(model, decisions)
}

/// The weight across, where the sides are a cut.
fn cut_weight(model: &MaxCut, decisions: &[u32]) -> Option<i64>
    ensures { result ≡ cut_value (instance_in model.now) decisions.now }
{
    if are_sides(model.vertices, decisions) {
        Some(weight_of_cut(model.weights.as_slice(), decisions))
    } else {
        None
    }
}
