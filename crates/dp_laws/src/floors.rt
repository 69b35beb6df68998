//! What a floor gives.

ghost use Rattle.dp_model.specs.Dp.{Dp};
ghost use Rattle.dp_model.specs.Laws.{IsLawful};
ghost use Rattle.dp_laws.specs.Floors.{FloorsMatch};

/// Where a state with a floor dominates a prefix, what matches its continuations matches the completions of the prefix.
pub fn floors_match()
    ensures { (dp : Dp) → IsLawful dp → FloorsMatch dp }
{}
