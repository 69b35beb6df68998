//! Pieces whose candidates are copied in their order.

ghost use Rattle.std.specs.Prelude.{◌≡◌, ◌<◌, length, IsNone, IfSome};
ghost use Rattle.wide_layers.specs.Pieces.{AreTold};

use crate::piece::Piece;
use dp_model::Extended;
use std::sync::atomic::{AtomicUsize, Ordering};

/// Pieces and a position in them: the place of a piece, and that of a candidate in it. A candidate is compared before it is given,
/// so the position decides how fast the answer is, never what it is.
#[derive(Drop)]
pub struct Hand<'p> {
    pub(crate) pieces: &'p [Piece],
    piece: AtomicUsize,
    next: AtomicUsize,
}

/// A candidate by its piece and its place there.
#[derive(Clone, Copy)]
struct Place {
    piece: usize,
    candidate: usize,
}

impl<'p> Hand<'p> {
    /// The pieces, from their first candidate on.
    pub fn new(pieces: &'p [Piece]) -> Hand<'p>
        ensures { result.pieces.now ≡ pieces.now }
    {
        Hand {
            pieces,
            piece: AtomicUsize::new(0),
            next: AtomicUsize::new(0),
        }
    }

    /// The position of the next candidate. Pieces without a further candidate are passed over.
    #[inline(always)]
    fn next_place(&self) -> Place {
        let piece = self.piece.load(Ordering::SeqCst);
        let candidate = self.next.load(Ordering::SeqCst);
        if piece < self.pieces.len() && candidate >= self.pieces[piece].len() {
            return self.first_after(piece);
        }
        Place { piece, candidate }
    }

    /// The first candidate of the pieces after this one.
    fn first_after(&self, piece: usize) -> Place
        requires { piece < length self.now.pieces.now }
    {
        for later in piece + 1..self.pieces.len() {
            if self.pieces[later].len() > 0 {
                return Place {
                    piece: later,
                    candidate: 0,
                };
            }
        }
        Place {
            piece: self.pieces.len(),
            candidate: 0,
        }
    }

    /// The gain and the rank that the next candidate has, with its state in `out`; `None` if it is not the one of this state and
    /// this decision.
    #[inline(always)]
    pub fn recall(&self, s: &[i64], d: u32, out: &mut [i64]) -> Option<Extended>
        ensures none { IsNone result → out.new ≡ out.old }
        ensures some { IfSome result (λ e. AreTold self.now.pieces.now s.now d e.gain e.rank out.new) }
    {
        let place = self.next_place();
        if place.piece >= self.pieces.len() || place.candidate >= self.pieces[place.piece].len() {
            return None;
        }
        let told = self.pieces[place.piece].tell(place.candidate, s, d, out)?;
        self.piece.store(place.piece, Ordering::SeqCst);
        self.next.store(place.candidate + 1, Ordering::SeqCst);
        Some(told)
    }
}
