//! Pushing and putting children one after another, by fates that were decided before.

ghost use Rattle.dp_model.specs.Dp.{Dp};
ghost use Rattle.board_laws.specs.Pushes.{PushesAreFates, PutsAreEntries};

/// Children that are pushed one after another leave the open subproblems that Finish leaves.
pub fn pushes_are_fates()
    ensures { (dp : Dp) → PushesAreFates dp }
{}

/// Entries that are put one after another give the table that Finish gives.
pub fn puts_are_entries()
    ensures { PutsAreEntries }
{}
