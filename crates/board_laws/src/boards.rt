//! What a good board tells of the feasible solutions.

ghost use Rattle.dp_model.specs.Dp.{Dp};
ghost use Rattle.board_laws.specs.Laws.{ExploredIsBest, ExploredIsWithinReach, NoneExceedsTheBound};

/// If nothing is open or out on a good board, each feasible solution is at most the reach.
pub fn explored_is_within_reach()
    ensures { (dp : Dp) → ExploredIsWithinReach dp }
{}

/// If nothing is open or out on a good board and the settings allow no distance, the incumbent is best, or there is no feasible solution.
pub fn explored_is_best()
    ensures { (dp : Dp) → ExploredIsBest dp }
{}

/// No feasible solution exceeds the bound of a good board.
pub fn no_solution_exceeds_the_bound()
    ensures { (dp : Dp) → NoneExceedsTheBound dp }
{}
