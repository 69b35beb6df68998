//! What the suffixes and the children of a diagram promise.

ghost use Rattle.std.specs.Prelude.{ℕ, ◌+◌, ◌-◌, ◌<◌, ◌≡◌, ℤ, List, ◌∷◌, length, slice_get, Option, Some, None, option_map, IsTrue};
ghost use Rattle.dp_model.specs.Dp.{Dp};
ghost use Rattle.dp_model.specs.Laws.{IsLawful};
ghost use Rattle.dp_model.specs.Lists.{Each};
ghost use Rattle.dp_model.specs.Numbers.{AtMost};
ghost use Rattle.dp_model.specs.Prefixes.{IsContinuation, gain_of};
ghost use Rattle.dp_model.specs.declared.cut_kind.CutKind.{CutKind};
ghost use Rattle.dp_model.specs.declared.cut_kind.CutKind.TheVariants.{LastExactLayer};
ghost use Rattle.dp_laws.specs.Children.{StandAt, StandDeep, AreSound, SoundChildrenFollow, found_value};
ghost use Rattle.dp_laws.specs.Restricted.Beams.{beam};
ghost use Rattle.dp_laws.specs.Diagrams.Nodes.{DdNode, DdLayers};
ghost use Rattle.dp_laws.specs.Diagrams.Seen.{AreLayers, IsBounded, IsDiagram};
ghost use Rattle.dp_laws.specs.Diagrams.Cutsets.{children_of, found_in};
ghost use Rattle.dp_laws.specs.Diagrams.Outer.{FrontierIsOuter};
ghost use Rattle.dp_laws.specs.Diagrams.Placed.{ChildrenArePlaced, ChildrenFit};

/// A continuation from a node gains no more than the node's suffix, or leads to no more than the threshold.
pub fn suffixes_bound()
    ensures { (dp : Dp) (p : List ℕ) (w : ℕ) (t : Option ℤ) (k : ℕ) (layer : List DdNode) (more : List (List DdNode)) → IsLawful dp → AreLayers dp p w t k (layer ∷ more) → k + length more ≡ dp.vars
        → Each (λ node. (c : List ℕ) → IsContinuation dp k node.row c → IsBounded t node (gain_of dp k node.row c)) layer }
{}

/// The children of a diagram are sound, of either kind: each completion of the prefix is at most the threshold, at most the
/// found solution, or matched by one of them, and the bound of each is held.
pub fn children_are_sound()
    ensures { (dp : Dp) (p : List ℕ) (w : ℕ) (t : Option ℤ) (d : DdLayers) (kind : CutKind) → IsLawful dp → length p < dp.vars → IsDiagram dp p w t d
        → AreSound dp p t (found_in dp d) (children_of dp d kind) }
{}

/// The children of the last exact layer stand just above the first reduced one, and those of the frontier there or deeper;
/// where no layer was reduced there are none.
pub fn children_stand_deep()
    ensures last_exact { (dp : Dp) (p : List ℕ) (w : ℕ) (t : Option ℤ) (d : DdLayers) → IsLawful dp → length p < dp.vars → IsDiagram dp p w t d
        → StandAt d.first_reduced (children_of dp d LastExactLayer) }
    ensures either { (dp : Dp) (p : List ℕ) (w : ℕ) (t : Option ℤ) (d : DdLayers) (kind : CutKind) → IsLawful dp → length p < dp.vars → IsDiagram dp p w t d
        → StandDeep d.first_reduced (children_of dp d kind) }
{}

/// Where no layer was reduced, the found solution is the beam.
pub fn without_reduction_the_beam_is_found()
    ensures { (dp : Dp) (p : List ℕ) (w : ℕ) (t : Option ℤ) (d : DdLayers) → length p < dp.vars → IsDiagram dp p w t d → d.first_reduced ≡ None
        → found_in dp d ≡ option_map (λ r. record { decisions = r.decisions; value = r.value }) (beam dp p w t) }
{}

/// No exact node of the last layer has a greater value than the found solution.
pub fn found_is_greatest()
    ensures { (dp : Dp) (p : List ℕ) (w : ℕ) (t : Option ℤ) (d : DdLayers) (layer : List DdNode) → length p < dp.vars → IsDiagram dp p w t d → slice_get d.layers (dp.vars - length p) ≡ Some layer
        → Each (λ node. IsTrue node.exact → AtMost node.value (found_value (found_in dp d))) layer }
{}

/// Sound children may take the place of their prefix on a board, where threshold and found solution are at most its reach.
pub fn sound_children_follow()
    ensures { (dp : Dp) → SoundChildrenFollow dp }
{}

/// Each child of a diagram is an exact node at its place, with its bound.
pub fn children_have_places()
    ensures { (dp : Dp) → ChildrenArePlaced dp }
{}

/// The bounds of a diagram's children are at most 2^62 in size. For a width that `MOST_WIDTH` and `MOST_COST` allow there are at
/// most 2^24 children of either kind, and a record of those of the last exact layer has at most 2^32 - 1 bytes.
pub fn children_fit()
    ensures { (dp : Dp) (p : List ℕ) (w : ℕ) (t : Option ℤ) (d : DdLayers) → IsLawful dp → length p < dp.vars → IsDiagram dp p w t d → ChildrenFit dp w d }
{}

/// The children of the frontier are the borders that no other border is a proper prefix of.
pub fn frontier_is_outer()
    ensures { (dp : Dp) → FrontierIsOuter dp }
{}
