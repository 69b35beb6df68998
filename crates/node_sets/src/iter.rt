//! The members of a set, one after another.

ghost use Rattle.std.specs.Prelude.{◌≡◌, ℕ, ◌+◌, ◌*◌, ◌^◌, ◌<◌, ◌≤◌, false, length, IfSome, IfNone};
ghost use Rattle.node_sets.specs.Sets as sets;
ghost use Rattle.node_sets.specs.Sets.{AreWords, IsLeastFrom, has};
ghost use Rattle.node_sets.specs.Coming.{IsRest};

use crate::word::word;
use std::marker::Model;

// A number, the word in which it lies or which it has just passed, and that word with the bits from the number on alone.
#[derive(Clone, Copy)]
struct Spot {
    word: usize,
    from: usize,
    bits: u32,
}

/// The members of a set in increasing order, a bit of a word at a time.
#[derive(Drop)]
pub struct Members<'a> {
    row: &'a [i64],
    spot: Spot,
}

impl<'a> Model for Members<'a> {
    ghost use Rattle.node_sets.specs.Coming.{Coming, IsRest};

    ghost Value = { Coming };

    ghost view = { λ m. record { row = m.row.now; from = m.spot.from } };

    ghost invariant = { λ m. IsRest m.row.now m.spot.word m.spot.from m.spot.bits };
}

/// The first word, or 0 where there is none.
#[inline]
pub fn first_word(row: &[i64]) -> u32
    requires { AreWords row.now }
    ensures { result ≡ sets.row_word row.now 0 }
{
    if row.is_empty() { 0 } else { word(row, 0) }
}

// Where the next word is that has a bit left, or none where there is no such word.
#[inline]
fn next_spot(row: &[i64], spot: Spot) -> Option<Spot>
    requires { IsRest row.now spot.word spot.from spot.bits }
    ensures rest { IfSome result (λ s. IsRest row.now s.word s.from s.bits) }
    ensures some { IfSome result (λ s. 0 < s.bits) }
    ensures reached { IfSome result (λ s. spot.from ≤ s.from) }
    ensures skipped { IfSome result (λ s. (u : ℕ) → spot.from ≤ u → u < s.from → has row.now u ≡ false) }
    ensures none { IfNone result ((v : ℕ) → spot.from ≤ v → has row.now v ≡ false) }
{
    if spot.bits != 0 {
        return Some(spot);
    }
    'words: for i in spot.word + 1..row.len() {
        let bits = word(row, i);
        if bits != 0 {
            return Some(Spot {
                word: i,
                from: 32 * i,
                bits,
            });
        }
    }
    None
}

impl<'a> Members<'a> {
    /// The members of a set, from the least on.
    #[inline]
    pub fn of(row: &'a [i64]) -> Members<'a>
        requires cells { AreWords row.now }
        requires short { length row.now < 2 ^ 32 }
        ensures { result ≡ record { row = row.now; from = 0 } }
    {
        Members {
            row,
            spot: Spot {
                word: 0,
                from: 0,
                bits: first_word(row),
            },
        }
    }

    /// The next member, or none where no member is left.
    #[inline]
    pub fn next(&mut self) -> Option<usize>
        ensures row { self.new.row ≡ self.old.row }
        ensures some { IfSome result (λ v. v < 32 * length self.old.row) }
        ensures next { IfSome result (IsLeastFrom (has self.old.row) self.old.from) }
        ensures from { IfSome result (λ v. self.new.from ≡ v + 1) }
        ensures none { IfNone result ((v : ℕ) → self.old.from ≤ v → has self.old.row v ≡ false) }
        ensures unchanged { IfNone result (self.new ≡ self.old) }
    {
        let spot = next_spot(self.row, self.spot)?;
        let place = spot.bits.trailing_zeros();
        let member = 32 * spot.word + place as usize;
        self.spot = Spot {
            word: spot.word,
            from: member + 1,
            bits: spot.bits & !(1u32 << place),
        };
        Some(member)
    }
}
