//! What the layers of a restricted diagram hold.

ghost use Rattle.dp_model.specs.Dp.{Dp};
ghost use Rattle.dp_laws.specs.Restricted.BeamGives.{BeamsAreFeasible, BeamsAreGreatest, MembersAreUnstruck};
ghost use Rattle.dp_laws.specs.Restricted.Members.{LayersHavePrefixes};
ghost use Rattle.dp_laws.specs.Restricted.Ordered.{LayersDiffer, LayersInOrder};

/// Each member of a layer is a prefix of its depth that begins with the given one, with its own row and value.
pub fn layers_have_prefixes()
    ensures { (dp : Dp) → LayersHavePrefixes dp }
{}

/// No layer repeats a state.
pub fn layers_differ()
    ensures { (dp : Dp) → LayersDiffer dp }
{}

/// A beam is a feasible solution that begins with the given prefix, with its value.
pub fn beams_are_feasible()
    ensures { (dp : Dp) → BeamsAreFeasible dp }
{}

/// Each layer stands in the reduction order.
pub fn layers_stand_in_order()
    ensures { (dp : Dp) → LayersInOrder dp }
{}

/// No member of a layer below the first is struck.
pub fn members_are_unstruck()
    ensures { (dp : Dp) → MembersAreUnstruck dp }
{}

/// No member of the last layer has a greater value than the beam.
pub fn beams_are_greatest()
    ensures { (dp : Dp) → BeamsAreGreatest dp }
{}
