//! The candidates of a layer, or of some of its nodes.

ghost use Rattle.std.specs.Prelude.{◌≡◌, ◌+◌, ◌<◌, ◌≤◌, ◌++◌, [], ◌∷◌, length, IfOk, OnOk};
ghost use Rattle.dp_model.specs.Gaps.{IsStateOf};
ghost use Rattle.layer_build.specs.Layers.{last_depth, last_layer};
ghost use Rattle.layer_build.specs.UnderWay.{IsUnderWay};
ghost use Rattle.wide_layers.specs.Candidates.{state_at, candidates_by, candidates_of, candidates_between};
ghost use Rattle.wide_layers.specs.Pieces.{AreRight};

use crate::piece::Piece;
use dp_model::{DpModel, OutOfMemory};
use layer_build::Workspace;
use std::alloc::Global;

/// A node whose candidates are made: its place in the layer, its state and the rank of it.
#[derive(Clone, Copy)]
struct Parent<'s> {
    place: u32,
    state: &'s [i64],
    rank: i64,
}

/// Puts the candidate of a node by a decision after the others, where it is allowed.
fn push_by<M: DpModel>(
    model: &M,
    k: usize,
    parent: Parent,
    decision: u32,
    row: &mut [i64],
    piece: &mut Piece,
) -> Result<(), OutOfMemory>
    requires layer { k < (M.meaning (M.numbers model.now)).vars }
    requires state { IsStateOf (M.meaning (M.numbers model.now)) k parent.state.now }
    requires size { length parent.state.now ≡ (M.meaning (M.numbers model.now)).words }
    requires rank { parent.rank ≡ (M.meaning (M.numbers model.now)).rank k parent.state.now }
    requires choice { decision < (M.meaning (M.numbers model.now)).choices k }
    requires row { length row.old ≡ (M.meaning (M.numbers model.now)).words }
    requires words { piece.old.words ≡ (M.meaning (M.numbers model.now)).words }
    ensures ok { OnOk result (piece.new.candidates ≡ piece.old.candidates ++ candidates_by (M.meaning (M.numbers model.now)) k parent.entry.place parent.entry.state.now (decision ∷ [])) }
    ensures right { AreRight (M.meaning (M.numbers model.now)) k piece.old → AreRight (M.meaning (M.numbers model.now)) k piece.new }
    ensures words { piece.new.words ≡ piece.old.words }
{
    let Some(extended) = model.extend(k, parent.state, parent.rank, decision, 0, row) else {
        return Ok(());
    };
    piece.push(parent.place, parent.state, decision, extended, row)
}

/// Puts all candidates of a node after the others, the lesser decision first.
fn push_all<M: DpModel>(
    model: &M,
    k: usize,
    parent: Parent,
    row: &mut [i64],
    piece: &mut Piece,
) -> Result<(), OutOfMemory>
    requires layer { k < (M.meaning (M.numbers model.now)).vars }
    requires state { IsStateOf (M.meaning (M.numbers model.now)) k parent.state.now }
    requires size { length parent.state.now ≡ (M.meaning (M.numbers model.now)).words }
    requires rank { parent.rank ≡ (M.meaning (M.numbers model.now)).rank k parent.state.now }
    requires row { length row.old ≡ (M.meaning (M.numbers model.now)).words }
    requires words { piece.old.words ≡ (M.meaning (M.numbers model.now)).words }
    ensures ok { OnOk result (piece.new.candidates ≡ piece.old.candidates ++ candidates_of (M.meaning (M.numbers model.now)) k parent.entry.place parent.entry.state.now) }
    ensures right { AreRight (M.meaning (M.numbers model.now)) k piece.old → AreRight (M.meaning (M.numbers model.now)) k piece.new }
    ensures words { piece.new.words ≡ piece.old.words }
{
    let choices = model.choices(k);
    let mut decision = model.next_choice(k, parent.state, 0);
    'decisions: while decision < choices {
        push_by(model, k, parent, decision, row, piece)?;
        decision = model.next_choice(k, parent.state, decision + 1);
    }
    Ok(())
}

/// The node of the last layer at the place.
fn parent_at<'s, M: DpModel>(space: &'s Workspace, model: &M, i: usize) -> Parent<'s>
    requires under_way { IsUnderWay (M.meaning (M.numbers model.now)) space.now }
    requires within { i < length (last_layer space.now.layers) }
    ensures place { result.place ≡ i }
    ensures state { result.state.now ≡ state_at (last_layer space.now.layers) i }
    ensures rank { result.rank ≡ (M.meaning (M.numbers model.now)).rank (last_depth space.now) result.state.now }
{
    let k = space.last_depth();
    let state = space.last_row(i);
    Parent {
        place: i as u32,
        state,
        rank: model.rank(k, state),
    }
}

/// The piece gets the candidates of the nodes of the last layer from the place `from` to the one before `to`, by earlier parent and
/// then by lesser decision, in place of those that it had. For want of memory it gets the first ones alone.
pub(crate) fn make<M: DpModel>(
    alloc: Global,
    space: &Workspace,
    model: &M,
    from: usize,
    to: usize,
    piece: &mut Piece,
) -> Result<(), OutOfMemory>
    requires under_way { IsUnderWay (M.meaning (M.numbers model.now)) space.now }
    requires below { last_depth space.now < (M.meaning (M.numbers model.now)).vars }
    requires order { from ≤ to }
    requires within { to ≤ length (last_layer space.now.layers) }
    ensures ok { OnOk result (piece.new.candidates ≡ candidates_between (M.meaning (M.numbers model.now)) (last_depth space.now) (last_layer space.now.layers) from to) }
    ensures right { AreRight (M.meaning (M.numbers model.now)) (last_depth space.now) piece.new }
{
    let k = space.last_depth();
    piece.clear(model.words());
    let mut row = vec![in alloc; 0i64; model.words()]?;
    'parents: for i in from..to {
        let parent = parent_at(space, model, i);
        push_all(model, k, parent, row.as_mut_slice(), piece)?;
    }
    Ok(())
}

/// The candidates of the nodes of the last layer from the place `from` to the one before `to`, by earlier parent and then by lesser
/// decision. It fails only for want of memory.
pub fn candidates<M: DpModel>(
    alloc: Global,
    space: &Workspace,
    model: &M,
    from: usize,
    to: usize,
) -> Result<Piece, OutOfMemory>
    requires under_way { IsUnderWay (M.meaning (M.numbers model.now)) space.now }
    requires below { last_depth space.now < (M.meaning (M.numbers model.now)).vars }
    requires order { from ≤ to }
    requires within { to ≤ length (last_layer space.now.layers) }
    ensures { IfOk result (λ p. p.candidates ≡ candidates_between (M.meaning (M.numbers model.now)) (last_depth space.now) (last_layer space.now.layers) from to) }
{
    let mut piece = Piece::new(alloc);
    make(alloc, space, model, from, to, &mut piece)?;
    Ok(piece)
}
