//! What boards tell of start prefixes and of a frontier, as functions whose contracts state it.

ghost use Rattle.std.specs.Prelude.{ℕ, ℤ, List, Option, IsTrue};
ghost use Rattle.dp_model.specs.Dp.{Dp};
ghost use Rattle.board_laws.specs.Board.{BoardState, is_explored, reach_of};
ghost use Rattle.board_laws.specs.Bound.{board_bound};
ghost use Rattle.board_laws.specs.GoodBoard.{IsBoard, IsGood, IsGoodFrom};
ghost use Rattle.frontier_parts.specs.Searches.{AreAllOf, AreSettledBy, BoardsSettle, FrontierJoins, HoldsFrom};
ghost use Rattle.frontier_parts.specs.Settled.{Settled, IsShown};

/// A board that is good from start prefixes settles each of them with its incumbent, once nothing is open or out.
pub fn boards_settle()
    ensures { (dp : Dp) (starts : List (List ℕ)) (b : BoardState) → IsBoard dp b → IsGoodFrom dp starts b → IsTrue (is_explored b) → BoardsSettle dp starts b }
{}

/// No feasible solution that begins with a start prefix exceeds the bound of a board that is good from the start prefixes.
pub fn boards_bound()
    ensures { (dp : Dp) (starts : List (List ℕ)) (b : BoardState) → IsGoodFrom dp starts b → HoldsFrom dp starts (board_bound b) }
{}

/// A value that a feasible solution has settles start prefixes, where no solution that begins with one of them is further above it than the
/// distance.
pub fn values_settle()
    ensures { (dp : Dp) (starts : List (List ℕ)) (within : ℤ) (found : Option ℤ) → IsShown dp found → HoldsFrom dp starts (reach_of within found) → AreSettledBy dp starts within found }
{}

/// The greatest of the incumbent of a good board and of the values of parts is the best value, where each prefix of the board's frontier is one
/// of the parts and all of them are settled; within a distance no solution is further above it.
pub fn frontiers_join()
    ensures { (dp : Dp) (b : BoardState) (parts : List Settled) → IsBoard dp b → IsGood dp b → AreAllOf b parts → FrontierJoins dp b parts }
{}
