//! What steps and runs keep.

ghost use Rattle.dp_model.specs.Dp.{Dp};
ghost use Rattle.dp_model.specs.Laws.{IsLawful};
ghost use Rattle.board_laws.specs.Laws.{RunsKeep, StepsKeep};

/// A step that is allowed keeps what every board keeps, a good board and the settings. It does not lower the incumbent, begins
/// no count and no ticket anew, and changes no slot but that of its worker.
pub fn steps_keep()
    ensures { (dp : Dp) → IsLawful dp → StepsKeep dp }
{}

/// A run keeps what its steps keep.
pub fn runs_keep()
    ensures { (dp : Dp) → IsLawful dp → RunsKeep dp }
{}
