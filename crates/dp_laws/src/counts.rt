//! How many prefixes there are.

ghost use Rattle.dp_model.specs.Dp.{Dp};
ghost use Rattle.dp_laws.specs.Antichains.{PotsAreBelow, PotsArePositive};

/// A prefix that is shorter than the number of variables counts itself.
pub fn pots_are_positive()
    ensures { (dp : Dp) → PotsArePositive dp }
{}

/// Extensions of a prefix of which none begins with another count together for less than the prefix.
pub fn pots_are_below()
    ensures { (dp : Dp) → PotsAreBelow dp }
{}
