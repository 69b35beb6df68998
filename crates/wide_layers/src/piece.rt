//! Candidates in flat memory.

ghost use Rattle.std.specs.Prelude.{◌≡◌, ◌+◌, ◌*◌, ◌<◌, ◌≤◌, ℤ, true, List, [], ◌∷◌, ◌++◌, length, take, drop, vec_capacity, IsNone, IfSome, OnOk, OnErr};
ghost use Rattle.wide_layers.specs.Pieces.{candidate_at, IsTold};

use dp_model::{Extended, OutOfMemory};
use std::alloc::Global;
use std::marker::Model;

/// A candidate but for its states.
#[derive(Clone, Copy, Debug)]
pub struct Made {
    /// The place of the first cell of its parent's state among those of the parents.
    pub state: usize,
    /// The place of its parent in the layer.
    pub parent: u32,
    /// The decision.
    pub decision: u32,
    /// What the decision gains.
    pub gain: i64,
    /// The rank of the state that it leads to.
    pub rank: i64,
}

/// Candidates of some nodes of a layer, one after another. Their rows lie in one block of cells, and the states of their parents in
/// another. Its memory is kept and used again.
#[derive(Debug, Drop)]
pub struct Piece {
    words: usize,
    parents: Vec<i64>,
    made: Vec<Made>,
    cells: Vec<i64>,
}

impl Model for Piece {
    ghost use Rattle.wide_layers.specs.Pieces.{PieceView, all_shown, IsSized};

    ghost Value = { PieceView };

    ghost view = { λ p. record { words = p.words; candidates = all_shown p.words p.parents.items p.made.items p.cells.items } };

    ghost invariant = { λ p. IsSized p.words p.parents.items p.made.items p.cells.items };
}

/// Whether two rows are equal.
#[inline(always)]
fn is_same(a: &[i64], b: &[i64]) -> bool
    ensures { result ≡ true → a.now ≡ b.now }
{
    a == b
}

/// The row that begins at the place.
#[inline(always)]
fn row_at(cells: &[i64], words: usize, place: usize) -> &[i64]
    requires { place + words ≤ length cells.now }
    ensures row { result.now ≡ take words (drop place cells.now) }
    ensures size { length result.now ≡ words }
{
    &cells[place..place + words]
}

/// The row at the place among rows of this many cells.
#[inline(always)]
fn row_of(cells: &[i64], words: usize, place: usize) -> &[i64]
    requires { place * words + words ≤ length cells.now }
    ensures row { result.now ≡ take words (drop (place * words) cells.now) }
    ensures size { length result.now ≡ words }
{
    let _ = cells.len();
    row_at(cells, words, place * words)
}

/// Whether the row that begins at the place is this one.
#[inline(always)]
fn is_row_at(cells: &[i64], words: usize, place: usize, row: &[i64]) -> bool
    requires { place + words ≤ length cells.now }
    ensures { result ≡ true → take words (drop place cells.now) ≡ row.now }
{
    is_same(row_at(cells, words, place), row)
}

/// Whether it is a candidate by this decision, whose parent's state is this one.
#[inline(always)]
fn is_from(made: Made, parents: &[i64], words: usize, state: &[i64], decision: u32) -> bool
    requires { made.state + words ≤ length parents.now }
    ensures decision { result ≡ true → made.decision ≡ decision }
    ensures state { result ≡ true → take words (drop made.state parents.now) ≡ state.now }
{
    made.decision == decision && is_row_at(parents, words, made.state, state)
}

/// What the candidate says of its decision.
fn extended_of(made: Made) -> Extended
    ensures gain { result.gain ≡ made.gain }
    ensures rank { result.rank ≡ made.rank }
{
    Extended {
        gain: made.gain,
        rank: made.rank,
    }
}

/// Puts a row after the others.
fn put(cells: &mut Vec<i64>, row: &[i64])
    requires { length cells.old.items + length row.now ≤ vec_capacity cells.old }
    ensures { cells.new.items ≡ cells.old.items ++ row.now }
{
    let _ = cells.extend_from_slice(row);
}

/// The place of the state among those of the parents, after which it is put where it is not the last one there.
fn enter(parents: &mut Vec<i64>, state: &[i64]) -> usize
    requires { length parents.old.items + length state.now ≤ vec_capacity parents.old }
    ensures kept { (more : List ℤ) × (parents.new.items ≡ parents.old.items ++ more) }
    ensures state { take (length state.now) (drop result parents.new.items) ≡ state.now }
    ensures within { result + length state.now ≤ length parents.new.items }
{
    let count = parents.len();
    let words = state.len();
    if words <= count && is_row_at(parents.as_slice(), words, count - words, state) {
        return count - words;
    }
    put(parents, state);
    count
}

impl Piece {
    /// No candidates. It takes no memory.
    pub fn new(alloc: Global) -> Piece
        ensures { result ≡ record { words = 0; candidates = [] } }
    {
        Piece {
            words: 0,
            parents: Vec::new(alloc),
            made: Vec::new(alloc),
            cells: Vec::new(alloc),
        }
    }

    /// How many candidates it has.
    pub fn len(&self) -> usize
        ensures { result ≡ length self.now.candidates }
    {
        self.made.len()
    }

    /// Takes all candidates out. The rows of the next ones are to have this many cells.
    pub fn clear(&mut self, words: usize)
        ensures { self.new ≡ record { words = words; candidates = [] } }
    {
        self.words = words;
        self.parents.clear();
        self.made.clear();
        self.cells.clear();
    }

    /// Puts a candidate after the others: the parent's place in the layer and its state, the decision with what it gains, and the
    /// state that it leads to with its rank. It fails only for want of memory.
    pub fn push(
        &mut self,
        parent: u32,
        state: &[i64],
        decision: u32,
        extended: Extended,
        row: &[i64],
    ) -> Result<(), OutOfMemory>
        requires state { length state.now ≡ self.old.words }
        requires row { length row.now ≡ self.old.words }
        ensures ok { OnOk result (self.new ≡ record self.old { candidates = self.old.candidates ++ record { parent = parent; state = state.now; decision = decision; gain = extended.gain; row = row.now; rank = extended.rank } ∷ [] }) }
        ensures err { OnErr result (self.new ≡ self.old) }
    {
        self.made.reserve(1)?;
        self.cells.reserve(row.len())?;
        self.parents.reserve(state.len())?;
        let place = enter(&mut self.parents, state);
        put(&mut self.cells, row);
        self.made.push_reserved(Made {
            state: place,
            parent,
            decision,
            gain: extended.gain,
            rank: extended.rank,
        });
        Ok(())
    }

    /// What the candidate at the place gains, and the rank of its state, where it is the one from this state by this decision; then
    /// its state is written to `out`, which has as many cells.
    #[inline(always)]
    pub fn tell(
        &self,
        place: usize,
        state: &[i64],
        decision: u32,
        out: &mut [i64],
    ) -> Option<Extended>
        requires { place < length self.now.candidates }
        ensures none { IsNone result → out.new ≡ out.old }
        ensures some { IfSome result (λ e. IsTold (candidate_at self.now.candidates place) state.now decision e.gain e.rank out.new) }
    {
        let made = self.made[place];
        if out.len() != self.words
            || !is_from(made, self.parents.as_slice(), self.words, state, decision)
        {
            return None;
        }
        out.copy_from_slice(row_of(self.cells.as_slice(), self.words, place));
        Some(extended_of(made))
    }
}
