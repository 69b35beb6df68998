//! How large the numbers of a diagram get.

ghost use Rattle.dp_model.specs.Dp.{Dp};
ghost use Rattle.dp_model.specs.Laws.{IsLawful};
ghost use Rattle.dp_laws.specs.Rules.Within.{NumbersStaySmall, SuffixesStaySmall};

/// The rules keep the values of a layer and the lengthenings of its arcs within bounds that its depth gives.
pub fn numbers_stay_small()
    ensures { (dp : Dp) → IsLawful dp → NumbersStaySmall dp }
{}

/// So the suffixes are within bounds too.
pub fn suffixes_stay_small()
    ensures { (dp : Dp) → SuffixesStaySmall dp }
{}
