//! What joined covers prove, as functions whose contracts state it.

ghost use Rattle.std.specs.Prelude.{List, ◌∷◌, length};
ghost use Rattle.dp_model.specs.Dp.{Dp};
ghost use Rattle.dp_model.specs.Laws.{IsLawful};
ghost use Rattle.bound_cover.specs.Proved.{IsReportedBest};
ghost use Rattle.cover_join.specs.Joined.{PartAnswer, AreAccepted, IsAccepted, joined, best_answer};

/// Where the answers of all parts are accepted, in order, what is joined of them is accepted on the whole problem.
pub fn joined_covers_are_accepted()
    ensures { (dp : Dp) (p : PartAnswer) (ps : List PartAnswer) → IsLawful dp → AreAccepted dp (length (p ∷ ps)) 0 (p ∷ ps) → IsAccepted dp (joined dp p ps) }
{}

/// Then the greatest value of the parts is the greatest value of the whole problem, and its assignment is a feasible solution of that value;
/// where no part has a value there is no feasible solution.
pub fn joined_values_are_best()
    ensures { (dp : Dp) (p : PartAnswer) (ps : List PartAnswer) → IsLawful dp → AreAccepted dp (length (p ∷ ps)) 0 (p ∷ ps) → IsReportedBest dp (best_answer p ps).assignment (best_answer p ps).best }
{}
