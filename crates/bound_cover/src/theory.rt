//! What accepted covers prove, and which covers are accepted, as functions whose contracts state it.

ghost use Rattle.std.specs.Prelude.{◌≡◌, ℕ, ◌≤◌, ◌+◌, ℤ, pos, List, length, Option, None};
ghost use Rattle.dp_model.specs.Dp.{Dp};
ghost use Rattle.dp_model.specs.Best.{best};
ghost use Rattle.dp_model.specs.Laws.{IsLawful, IsChained};
ghost use Rattle.dp_laws.specs.Diagrams.Nodes.{DdLayers};
ghost use Rattle.bound_cover.specs.declared.cover.Verdict.TheVariants.{Accepted};
ghost use Rattle.bound_cover.specs.Covers.{CoverRow};
ghost use Rattle.bound_cover.specs.InTurn.{begun, all_taken, concluded};
ghost use Rattle.bound_cover.specs.Verdicts.{verdict, checked_rows};
ghost use Rattle.bound_cover.specs.Proved.{IsReportedBest, IsReportedWithin};
ghost use Rattle.bound_cover.specs.Clamping.{clamped_layers, AreWritable, IsReachable};
ghost use Rattle.bound_cover.specs.Exploring.{HoldsAll, Explores, IsExplored, start_cover, start_waiting};

/// The best value lies within the distance of an accepted one, and the assignment is a feasible solution of that value; without
/// a distance the accepted value is the best one. Where none is reported there is no feasible solution.
pub fn accepted_values_are_best()
    ensures near { (dp : Dp) (value : Option ℤ) (within : ℤ) (x : List ℕ) (cover : List (List CoverRow)) → IsLawful dp → verdict dp value within x cover ≡ Accepted → IsReportedWithin dp x value within }
    ensures best { (dp : Dp) (value : Option ℤ) (x : List ℕ) (cover : List (List CoverRow)) → IsLawful dp → verdict dp value (pos 0) x cover ≡ Accepted → IsReportedBest dp x value }
{}

/// Layers that are tested one after another, each with the one before it at hand, have the verdict of the cover that they make.
pub fn layers_in_turn_are_checked()
    ensures { (dp : Dp) (value : Option ℤ) (within : ℤ) (x : List ℕ) (layers : List (List CoverRow)) → concluded dp (all_taken dp (begun dp value within x) layers) ≡ verdict dp value within x layers }
{}

/// Rows that pass hold every feasible solution within the claim.
pub fn passing_rows_hold_all()
    ensures { (dp : Dp) (claim : Option ℤ) (cover : List (List CoverRow)) → IsLawful dp → checked_rows dp claim cover ≡ None → HoldsAll dp claim }
{}

/// The cover of an exploration passes, where no feasible solution has more than the claim, as with the best value.
pub fn explorations_pass()
    ensures claim { (dp : Dp) (claim : Option ℤ) (w : ℕ) (ds : List DdLayers) (cover : List (List CoverRow)) → IsLawful dp → HoldsAll dp claim → Explores dp claim w ds (start_cover dp claim) (start_waiting dp) cover → checked_rows dp claim cover ≡ None }
    ensures best { (dp : Dp) (w : ℕ) (ds : List DdLayers) (cover : List (List CoverRow)) → IsLawful dp → Explores dp (best dp) w ds (start_cover dp (best dp)) (start_waiting dp) cover → checked_rows dp (best dp) cover ≡ None }
{}

/// A lawful and chained problem has an exploration to the end, at every width.
pub fn explorations_end()
    ensures { (dp : Dp) (claim : Option ℤ) (w : ℕ) → IsLawful dp → IsChained dp → HoldsAll dp claim → 1 ≤ w → IsExplored dp claim w (start_cover dp claim) (start_waiting dp) }
{}

/// Bounds that are brought into range can be written, and rows that passed still pass.
pub fn clamped_rows_pass()
    ensures passes { (dp : Dp) (claim : Option ℤ) (cover : List (List CoverRow)) → IsLawful dp → IsReachable claim → checked_rows dp claim cover ≡ None → checked_rows dp claim (clamped_layers dp 0 cover) ≡ None }
    ensures reachable { (dp : Dp) → IsLawful dp → IsReachable (best dp) }
    ensures writable { (dp : Dp) (cover : List (List CoverRow)) → IsLawful dp → length cover ≤ dp.vars + 1 → AreWritable (clamped_layers dp 0 cover) }
{}
