ghost use Rattle.std.specs.Prelude.{◌≡◌};
ghost use Rattle.board.specs.Starting.{board_of};

use crate::start::Start;
use board_laws::Settings;
use std::marker::Model;
use std::snapshot::Snapshot;

/// The board as it was when it was made. Contracts alone use it: it takes no bytes.
#[derive(Drop)]
pub struct FirstBoard {
    start: Snapshot<Start>,
    settings: Snapshot<Settings>,
}

impl Model for FirstBoard {
    ghost use Rattle.board_laws.specs.Board.{BoardState};
    ghost use Rattle.board.specs.Starting.{board_of};

    ghost Value = { BoardState };

    ghost view = { λ f. board_of f.settings.value f.start.value };
}

impl FirstBoard {
    /// The board of these settings that has this start.
    pub(crate) fn of(start: &Start, settings: &Settings) -> FirstBoard
        ensures { result ≡ board_of settings.now start.now }
    {
        FirstBoard {
            start: Snapshot::of(start),
            settings: Snapshot::of(settings),
        }
    }
}
