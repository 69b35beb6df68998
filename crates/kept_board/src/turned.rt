//! A kept board under a turn.

use crate::kept::Kept;
use crate::tag::KeptTag;
use disk::Disk;
use dp_model::DpModel;
use turn::Turned;

impl<M: DpModel, D: Disk + Send> Turned for Kept<M, D> {
    ghost use Rattle.board_laws.specs.Board.{incumbent_value};
    ghost use Rattle.board.specs.Moves.{out_at};
    ghost use Rattle.kept_board.specs.Laws.MoveLaw.{keeps-kept-move};
    ghost use Rattle.kept_board.specs.Moves.{IsMove};
    ghost use Rattle.kept_board.specs.View.{tag_of};

    type Tag = KeptTag<D>;

    ghost tag = { tag_of };

    ghost seen = { λ k. incumbent_value k.board.board };

    ghost out = { λ k. out_at k.board.board };

    ghost moves = { IsMove D.Disk M.meaning };

    ghost keeps = { keeps-kept-move D.Disk M.meaning };
}
