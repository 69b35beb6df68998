//! What prefixes that gave way to longer ones keep, as a function whose contract states it.

ghost use Rattle.std.specs.Prelude.{ℕ, ℤ, List, Option};
ghost use Rattle.dp_model.specs.Dp.{Dp};
ghost use Rattle.frontier_parts.specs.Settled.{DealsOut};
ghost use Rattle.frontier_parts.specs.Splitting.{dealt};

/// However a problem is dealt out, each feasible solution begins with one of the prefixes.
pub fn dealt_parts_are_all()
    ensures { (dp : Dp) (inc : Option ℤ) (splits : List (List ℕ)) → DealsOut dp inc (dealt dp splits) }
{}
