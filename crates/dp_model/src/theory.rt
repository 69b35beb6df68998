//! Laws about the definitions, as functions whose contracts state them.

ghost use Rattle.std.specs.Prelude.{◌≡◌, ℕ, ℤ, List, [], Option};
ghost use Rattle.dp_model.specs.Dp.{Dp};
ghost use Rattle.dp_model.specs.Best.{best, IsBest};
ghost use Rattle.dp_model.specs.Cover.{Covers};

/// `best` is the greatest value of a feasible solution, and `None` exactly if there is no feasible solution.
pub fn best_is_best()
    ensures { (dp : Dp) → IsBest dp (best dp) }
{}

/// There is only one such number: it is `best`.
pub fn best_is_unique()
    ensures { (dp : Dp) (v : Option ℤ) → IsBest dp v → v ≡ best dp }
{}
