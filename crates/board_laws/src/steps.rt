//! What each step keeps.

ghost use Rattle.dp_model.specs.Dp.{Dp};
ghost use Rattle.dp_model.specs.Laws.{IsLawful};
ghost use Rattle.board_laws.specs.Laws.{FinishKeeps, FirstBoardsAreGood, GiveBackKeeps, HaltKeeps, ImproveKeeps, RestoredBoardsKeep, TakeKeeps};

/// The board at the start of a search keeps what every board keeps, and is good.
pub fn first_boards_are_good()
    ensures { (dp : Dp) → IsLawful dp → FirstBoardsAreGood dp }
{}

/// A restored board keeps what every board keeps, and is good if it is restored from a sound list.
pub fn restored_boards_keep()
    ensures { (dp : Dp) → IsLawful dp → RestoredBoardsKeep dp }
{}

/// Take keeps what every board keeps, and a good board.
pub fn take_keeps()
    ensures { (dp : Dp) → TakeKeeps dp }
{}

/// Improve keeps what every board keeps, and a good board.
pub fn improve_keeps()
    ensures { (dp : Dp) → ImproveKeeps dp }
{}

/// Finish keeps what every board keeps, and a good board.
pub fn finish_keeps()
    ensures { (dp : Dp) → IsLawful dp → FinishKeeps dp }
{}

/// GiveBack keeps what every board keeps, and a good board if a cause is held.
pub fn give_back_keeps()
    ensures { (dp : Dp) → IsLawful dp → GiveBackKeeps dp }
{}

/// Halt keeps what every board keeps, and a good board.
pub fn halt_keeps()
    ensures { (dp : Dp) → HaltKeeps dp }
{}
