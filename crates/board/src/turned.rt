//! A board under a turn.

use crate::board::Board;
use crate::tag::BoardTag;
use dp_model::DpModel;
use turn::Turned;

impl<M: DpModel> Turned for Board<M> {
    ghost use Rattle.board_laws.specs.Board.{incumbent_value};
    ghost use Rattle.board.specs.Laws.MoveLaw.{keeps-move};
    ghost use Rattle.board.specs.Moves.{out_at, IsMove};
    ghost use Rattle.board.specs.View.{tag_of};

    type Tag = BoardTag;

    ghost tag = { tag_of };

    ghost seen = { λ b. incumbent_value b.board };

    ghost out = { λ b. out_at b.board };

    ghost moves = { IsMove M.meaning };

    ghost keeps = { keeps-move M.meaning };
}
