//! What a history of moves leaves on the disk, and what a reader makes of that.

ghost use Rattle.dp_model.specs.Dp.{Dp};
ghost use Rattle.kept_board.specs.Histories.{HistoriesLeave};
ghost use Rattle.kept_board.specs.Records.{FrontsAreAdded};

use disk::Disk;
use dp_model::DpModel;

/// Whatever the workers did under a turn, their moves are a run. A crash at each moment since the first one has left the records
/// that the file had then and a front of those of the run, with one more at most at which the disk has failed; and at the end a
/// crash leaves all of those of the run.
pub fn histories_leave<M: DpModel, D: Disk>()
    ensures { HistoriesLeave D.Disk M.meaning }
{}

/// Old records with a front of those that a search has added after them are accepted, and sound where the old ones are; and what they
/// make of a search has an incumbent that is no worse than that of the old ones.
pub fn fronts_are_added()
    ensures { (dp : Dp) → FrontsAreAdded dp }
{}
