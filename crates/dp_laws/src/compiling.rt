//! What diagrams that are compiled by the rules are, as functions whose contracts state it.

ghost use Rattle.std.specs.Prelude.{◌≡◌, ℕ, ◌+◌, ◌-◌, ◌<◌, ◌≤◌, ℤ, List, length, map, Option, Some, option_map};
ghost use Rattle.dp_model.specs.Dp.{Dp};
ghost use Rattle.dp_model.specs.Laws.{IsLawful, IsChained};
ghost use Rattle.dp_model.specs.Prefixes.{IsPrefix};
ghost use Rattle.dp_model.specs.Reached.{reached};
ghost use Rattle.dp_model.specs.declared.cut_kind.CutKind.{CutKind};
ghost use Rattle.dp_laws.specs.Restricted.Beam.{layer_below};
ghost use Rattle.dp_laws.specs.Restricted.Beams.{beam};
ghost use Rattle.dp_laws.specs.Diagrams.Nodes.{as_member};
ghost use Rattle.dp_laws.specs.Diagrams.Seen.{IsDiagram};
ghost use Rattle.dp_laws.specs.Children.{AreSound};
ghost use Rattle.dp_laws.specs.Diagrams.Cutsets.{children_of, first_exact, found_in};
ghost use Rattle.dp_laws.specs.Width.{WidthsFit};
ghost use Rattle.dp_laws.specs.Rules.Ranked.{RelaxedChildrenStand, ExactAreUnstruck};
ghost use Rattle.dp_laws.specs.Rules.Stems.{ExactStemFromExact};
ghost use Rattle.dp_laws.specs.Rules.Compiling.{start_layer, relaxed, restricted_below, LayersFit};

/// Each layer of a restricted diagram that is built by the rules has exact nodes alone, and they stand, in order, for the
/// prefixes of the layer as it is defined on plain lists.
pub fn restricted_layers_are_beams()
    ensures { (dp : Dp) (p : List ℕ) (w : ℕ) (t : Option ℤ) (m : ℕ)
        → map as_member (restricted_below dp (length p) w t (length p) m (start_layer (reached dp p))) ≡ map (λ r. Some r) (layer_below dp (reached dp p) w t m) }
{}

/// A relaxed diagram that is compiled by the rules is one as its readers show it.
pub fn relaxed_diagrams_are_as_seen()
    ensures { (dp : Dp) (p : List ℕ) (w : ℕ) (t : Option ℤ) → IsLawful dp → IsChained dp → IsPrefix dp p → length p < dp.vars → 1 ≤ w
        → IsDiagram dp p w t (relaxed dp (reached dp p) w t) }
{}

/// So the children that it leaves are sound, of either kind.
pub fn relaxed_children_are_sound()
    ensures { (dp : Dp) (p : List ℕ) (w : ℕ) (t : Option ℤ) (kind : CutKind) → IsLawful dp → IsChained dp → IsPrefix dp p → length p < dp.vars → 1 ≤ w
        → AreSound dp p t (found_in dp (relaxed dp (reached dp p) w t)) (children_of dp (relaxed dp (reached dp p) w t) kind) }
{}

/// The first exact node of the last layer of a restricted diagram that is built by the rules is the beam.
pub fn restricted_diagrams_find_the_beam()
    ensures { (dp : Dp) (p : List ℕ) (w : ℕ) (t : Option ℤ)
        → first_exact (restricted_below dp (length p) w t (length p) (dp.vars - length p) (start_layer (reached dp p))) ≡ option_map (λ r. record { decisions = r.decisions; value = r.value }) (beam dp p w t) }
{}

/// A layer that is expanded has no more nodes than there are decisions for the nodes above it.
pub fn layers_fit()
    ensures { (dp : Dp) → LayersFit dp }
{}

/// The greatest width that `MOST_WIDTH` and `MOST_COST` allow is at least 1.
pub fn widths_fit()
    ensures { (dp : Dp) → IsLawful dp → WidthsFit dp }
{}

/// The children of a compiled diagram stand by depth, and within a depth in the reduction order; none of them is struck.
pub fn relaxed_children_stand()
    ensures { (dp : Dp) → IsLawful dp → IsChained dp → RelaxedChildrenStand dp }
{}

/// No exact node of a compiled diagram below its first layer is struck.
pub fn exact_nodes_are_unstruck()
    ensures { (dp : Dp) → ExactAreUnstruck dp }
{}

/// The kept path of an exact node of a compiled diagram leads through exact nodes.
pub fn exact_nodes_stem_from_exact_ones()
    ensures { (dp : Dp) → ExactStemFromExact dp }
{}
