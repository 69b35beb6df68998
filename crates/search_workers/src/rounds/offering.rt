//! Solutions that diagrams find.

ghost use Rattle.std.specs.Prelude.{◌≡◌, None, OnOk, IfErr};
ghost use Rattle.dp_model.specs.Numbers.{OptionAtMost};
ghost use Rattle.dp_laws.specs.Children.{found_value};
ghost use Rattle.turn.specs.History.{HasMoved};
ghost use Rattle.board_laws.specs.Board.{reach};
ghost use Rattle.board_laws.specs.GoodBoard.{IncumbentHolds};
ghost use Rattle.kept_board.specs.Moves.{IsMove};
ghost use Rattle.kept_board.specs.View.{tag_of};
ghost use Rattle.search_workers.specs.Offered.{IsOffered, found_solution};
ghost use Rattle.search_workers.specs.Stopped.{IsRefused};

use disk::Disk;
use dp_model::{DpModel, Found};
use kept_board::{Kept, KeptError};
use std::alloc::Global;

/// Offers a feasible solution with its value, where there is one: it is not above the reach then, and the reach is no less than
/// before. No cause is held.
///
/// # Errors
///
/// The record of a better solution was not added: for want of memory nothing has changed, and where the disk failed the search is
/// halted for the journal.
pub fn offer<M: DpModel, D: Disk>(
    alloc: Global,
    kept: &mut Kept<M, D>,
    found: Option<Found<'_>>,
) -> Result<(), KeptError>
    requires held { IncumbentHolds (M.meaning kept.old.board.numbers) (found_solution found) }
    requires going { kept.old.board.board.cause ≡ None }
    ensures offered { OnOk result (IsOffered (M.meaning kept.old.board.numbers) kept.old.board.board kept.new.board.board) }
    ensures found { OnOk result (OptionAtMost (found_value (found_solution found.entry)) (reach kept.new.board.board)) }
    ensures before { OnOk result (OptionAtMost (reach kept.old.board.board) (reach kept.new.board.board)) }
    ensures refused { IfErr result (λ error. IsRefused (M.meaning kept.old.board.numbers) kept.old.board.board error kept.new.board.board) }
    ensures tag { tag_of kept.new ≡ tag_of kept.old }
    ensures moved { HasMoved (IsMove D.Disk M.meaning) kept.old kept.new }
{
    if let Some(found) = found {
        let _ = kept.improve(alloc, found.decisions)?;
    }
    // What every board keeps of its distance.
    kept.board().facts();
    Ok(())
}
