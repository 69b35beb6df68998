ghost use Rattle.std.specs.Prelude.{◌≡◌, ◌+◌, ◌-◌, ◌^◌, ◌<◌, ◌≤◌, length, ◌≤ℤ◌, pos, OnOk, OnErr, IfOk, IfSome, is_some, MatchResult, false, true, Ok, Err, nat_eq};
ghost use Rattle.std.specs.Cmp.Lexicographic.{pointwise};
ghost use Rattle.tokens.specs.Scanned.{following_token, IsNextToken};
ghost use Rattle.tokens.specs.Zeros.{passed_over, ZerosFollow};
ghost use Rattle.tokens.specs.Text.{text_start, at_token, IsCountable, token, place_of, ends_line, is_at_end, number_at, word_at, after_token, finish_at};

use crate::comment::Comment;
use crate::place::Place;
use crate::scan::{
    NOT_ASCII, Spot, ZEROS, ZEROS_LEN, after_one_blank, after_zeros, following_word,
    leading_number, short_number, skip_blanks, skip_comments, token_len,
};
use crate::text_error::TextError;
use std::marker::Model;
use std::snapshot::Snapshot;

/// Where reading stands, right after the last token.
#[derive(Clone, Copy)]
struct Here<'a> {
    rest: &'a [u8],
    place: Place,
    fresh: bool,
}

/// The tokens of a text, one after another.
#[derive(Drop)]
pub struct Tokens<'a> {
    // Contracts alone speak of where reading stands.
    here: Snapshot<Here<'a>>,
    // Where the next token begins, or the end of the text.
    next: Spot<'a>,
    // Whether only blanks stand before the end of the line where reading stands.
    ends_line: bool,
    comment: Comment,
}

impl<'a> Model for Tokens<'a> {
    ghost use Rattle.std.specs.Prelude.{◌≡◌};
    ghost use Rattle.tokens.specs.Text.{TextState, IsCountable, is_blank_line};
    ghost use Rattle.tokens.specs.Scanned.{IsNextToken};

    ghost Value = { TextState };

    ghost view = { λ t. record { rest = t.here.value.rest.now; place = t.here.value.place; fresh = t.here.value.fresh; comment = t.comment } };

    ghost invariant = { λ t.
        IsNextToken (record { rest = t.here.value.rest.now; place = t.here.value.place; fresh = t.here.value.fresh; comment = t.comment }) t.next.rest.now t.next.place
        × (t.ends_line ≡ is_blank_line t.here.value.rest.now)
        × IsCountable t.next.place t.next.rest.now };
}

/// Tokens that stand at this place.
#[inline]
#[tactic(auto, unfolding(crate::specs::Text::at_token))]
fn tokens_from<'a>(comment: Comment, here: Here<'a>) -> Tokens<'a>
    requires { IsCountable here.place here.rest.now }
    ensures { result ≡ record { rest = here.entry.rest.now; place = here.entry.place; fresh = here.entry.fresh; comment = comment } }
{
    let blanks = skip_blanks(here.place, here.rest);
    let is_later = blanks.place.line != here.place.line;
    Tokens {
        here: Snapshot::of(&here),
        next: skip_comments(comment, here.fresh || is_later, blanks),
        ends_line: blanks.rest.is_empty() || is_later,
        comment,
    }
}

impl<'a> Tokens<'a> {
    /// The tokens of a text, in which the lines that `comment` names are passed over.
    pub fn new(bytes: &'a [u8], comment: Comment) -> Tokens<'a>
        requires { length bytes.now < 2 ^ 32 - 1 }
        ensures { result ≡ text_start comment bytes.now }
    {
        let here = Here {
            rest: bytes,
            place: Place { line: 1, column: 1 },
            fresh: true,
        };
        tokens_from(comment, here)
    }

    #[inline]
    fn spot(&self) -> &Spot<'a>
        ensures found { IsNextToken self.now result.now.rest.now result.now.place }
        ensures countable { IsCountable result.now.place result.now.rest.now }
    {
        &self.next
    }

    /// Where the next token begins, or the end of the text.
    #[tactic(auto, unfolding(crate::specs::Text::place_of))]
    pub fn place(&self) -> Place
        ensures { result ≡ place_of self.now }
    {
        self.spot().place
    }

    /// Whether only blanks stand before the line's end, or before the end of the text.
    #[tactic(auto, unfolding(crate::specs::Text::ends_line))]
    pub fn at_line_end(&self) -> bool
        ensures { result ≡ ends_line self.now }
    {
        self.ends_line
    }

    /// Whether no token is left.
    #[tactic(auto, unfolding(crate::specs::Text::is_at_end))]
    pub fn at_end(&self) -> bool
        ensures { result ≡ is_at_end self.now }
    {
        self.spot().rest.is_empty()
    }

    /// The next token, which stays; empty at the end of the text.
    #[tactic(auto, unfolding(crate::specs::Text::token))]
    pub fn peek_word(&self) -> &'a [u8]
        ensures { result.now ≡ token self.now }
    {
        let spot = self.spot();
        &spot.rest[..token_len(spot.rest)]
    }

    /// Whether the next token is this word.
    #[inline]
    #[tactic(auto, unfolding(crate::specs::Text::token))]
    pub fn next_is(&self, word: &[u8]) -> bool
        ensures { result ≡ pointwise nat_eq (token self.now) word.now }
    {
        following_word(self.spot().rest, word).is_some()
    }

    /// Right after the next token.
    #[inline]
    #[tactic(auto, unfolding(crate::specs::Text::token, crate::specs::Text::after_token), using(crate::proofs::Scanning::token_length))]
    fn after_next(&self, following: &'a [u8]) -> Here<'a>
        requires { following.now ≡ following_token (at_token self.now).rest }
        ensures stands { record { rest = result.rest.now; place = result.place; fresh = result.fresh; comment = self.now.comment } ≡ after_token self.now }
        ensures countable { IsCountable result.place result.rest.now }
        ensures on_line { result.fresh ≡ false }
    {
        let spot = self.spot();
        let len = spot.rest.len() - following.len();
        Here {
            rest: following,
            place: Place {
                line: spot.place.line,
                column: spot.place.column + len as u32,
            },
            fresh: false,
        }
    }

    /// Passes over the next token, whatever stands after it.
    #[cold]
    #[inline(never)]
    fn pass_far(&mut self, following: &'a [u8])
        requires { following.now ≡ following_token (at_token self.old).rest }
        ensures { self.new ≡ after_token self.old }
    {
        let here = self.after_next(following);
        *self = tokens_from(self.comment, here);
    }

    /// Passes over the next token, after which most often a single blank stands.
    #[inline]
    #[tactic(auto, unfolding(crate::specs::Text::at_token))]
    fn pass(&mut self, following: &'a [u8])
        requires { following.now ≡ following_token (at_token self.old).rest }
        ensures { self.new ≡ after_token self.old }
    {
        let here = self.after_next(following);
        let Some(next) = after_one_blank(self.comment, here.place, here.rest) else {
            self.pass_far(following);
            return;
        };
        self.here = Snapshot::of(&here);
        self.ends_line = next.place.line != here.place.line;
        self.next = next;
    }

    /// Right after eight zeros, where these stand next on this line, with a space after each.
    #[inline(always)]
    #[tactic(auto, using(crate::proofs::Zeros::zero_steps))]
    fn after_next_zeros(&self) -> Option<Here<'a>>
        ensures zeros { is_some result ≡ true → ZerosFollow ZEROS self.now }
        ensures stands { IfSome result (λ h. record { rest = h.rest.now; place = h.place; fresh = h.fresh; comment = self.now.comment } ≡ passed_over ZEROS self.now) }
        ensures countable { IfSome result (λ h. IsCountable h.place h.rest.now) }
        ensures on_line { IfSome result (λ h. h.fresh ≡ false) }
    {
        if self.at_line_end() {
            return None;
        }
        let spot = self.spot();
        let following = after_zeros(spot.rest)?;
        Some(Here {
            rest: following,
            place: Place {
                line: spot.place.line,
                column: spot.place.column + ZEROS_LEN as u32,
            },
            fresh: false,
        })
    }

    /// Passes over eight zeros at once, where each is a token `0` on this line and single spaces stand between and after
    /// them; tells whether they stood there.
    #[inline(always)]
    #[tactic(auto, unfolding(crate::specs::Text::at_token))]
    pub fn pass_zeros(&mut self) -> bool
        ensures zeros { result ≡ true → ZerosFollow ZEROS self.old }
        ensures passed { result ≡ true → self.new ≡ passed_over ZEROS self.old }
        ensures other { result ≡ false → self.new ≡ self.old }
    {
        let Some(here) = self.after_next_zeros() else {
            return false;
        };
        let Some(next) = after_one_blank(self.comment, here.place, here.rest) else {
            return false;
        };
        self.here = Snapshot::of(&here);
        self.ends_line = next.place.line != here.place.line;
        self.next = next;
        true
    }

    /// Reads the next token as any number from `least` to `greatest`.
    #[inline(never)]
    #[tactic(auto, unfolding(crate::specs::Text::token, crate::specs::Text::place_of, crate::specs::Text::number_at), using(crate::proofs::Ranges::number_at_range))]
    fn next_any_number(&mut self, least: i64, greatest: i64) -> Result<i64, TextError>
        ensures value { result ≡ number_at least greatest self.old }
        ensures range { IfOk result (λ z. (least ≤ℤ z) × (z ≤ℤ greatest)) }
        ensures ok { OnOk result (self.new ≡ after_token self.old) }
        ensures err { OnErr result (self.new ≡ self.old) }
    {
        let spot = self.spot();
        let number = leading_number(spot.rest, &spot.place, least, greatest)?;
        self.pass(number.following);
        Ok(number.value)
    }

    /// Reads the next token as a number from `least` to `greatest`: an optional minus and one or more
    /// digits, of any length.
    ///
    /// `EndOfText` where no token is left, `NotAscii` where its first byte is not ASCII, `NotNumber`
    /// where it is otherwise no number, `OutOfRange` where the number is outside the range, each at
    /// the token's first byte. After an error the token is still the next.
    #[inline(always)]
    #[tactic(auto, unfolding(crate::specs::Text::token, crate::specs::Text::place_of, crate::specs::Text::number_at))]
    pub fn next_number(&mut self, least: i64, greatest: i64) -> Result<i64, TextError>
        ensures value { result ≡ number_at least greatest self.old }
        ensures range { IfOk result (λ z. (least ≤ℤ z) × (z ≤ℤ greatest)) }
        ensures ok { OnOk result (self.new ≡ after_token self.old) }
        ensures err { OnErr result (self.new ≡ self.old) }
    {
        match short_number(self.spot().rest, least, greatest) {
            Some(number) => {
                self.pass(number.following);
                Ok(number.value)
            }
            None => self.next_any_number(least, greatest),
        }
    }

    /// Reads the next token as a natural number from `least` to `greatest`, with the faults of `next_number`.
    #[inline(always)]
    pub fn next_natural(&mut self, least: u64, greatest: u64) -> Result<u64, TextError>
        requires least { least < 2 ^ 63 }
        requires greatest { greatest < 2 ^ 63 }
        ensures value { MatchResult result (λ n. number_at (pos least) (pos greatest) self.old ≡ Ok (pos n)) (λ e. number_at (pos least) (pos greatest) self.old ≡ Err e) }
        ensures range { IfOk result (λ n. (least ≤ n) × (n ≤ greatest)) }
        ensures ok { OnOk result (self.new ≡ after_token self.old) }
        ensures err { OnErr result (self.new ≡ self.old) }
    {
        let number = self.next_number(least as i64, greatest as i64)?;
        Ok(number as u64)
    }

    /// Reads the next token as a natural number of 32 bits, with the faults of `next_number`.
    #[inline(always)]
    pub fn next_u32(&mut self) -> Result<u32, TextError>
        ensures value { MatchResult result (λ n. number_at (pos 0) (pos (2 ^ 32 - 1)) self.old ≡ Ok (pos n)) (λ e. number_at (pos 0) (pos (2 ^ 32 - 1)) self.old ≡ Err e) }
        ensures ok { OnOk result (self.new ≡ after_token self.old) }
        ensures err { OnErr result (self.new ≡ self.old) }
    {
        let number = self.next_natural(0, u64::from(u32::MAX))?;
        Ok(number as u32)
    }

    /// Reads the next token as it stands.
    ///
    /// `EndOfText` where no token is left, `NotAscii` where its first byte is not ASCII, each at the
    /// token's first byte. After an error the token is still the next.
    #[tactic(auto, unfolding(crate::specs::Text::token, crate::specs::Text::place_of, crate::specs::Text::word_at))]
    pub fn next_word(&mut self) -> Result<&'a [u8], TextError>
        ensures value { MatchResult result (λ w. word_at self.old ≡ Ok w.now) (λ e. word_at self.old ≡ Err e) }
        ensures ok { OnOk result (self.new ≡ after_token self.old) }
        ensures err { OnErr result (self.new ≡ self.old) }
    {
        let rest = self.spot().rest;
        let len = token_len(rest);
        let word = &rest[..len];
        let [first, ..] = word else {
            return Err(TextError::EndOfText(self.place()));
        };
        if *first >= NOT_ASCII {
            return Err(TextError::NotAscii(self.place()));
        }
        self.pass(&rest[len..]);
        Ok(word)
    }

    /// Passes over the next token where it is this word, and tells whether it is. Another token stays.
    #[inline(always)]
    #[tactic(auto, unfolding(crate::specs::Text::token))]
    pub fn pass_if(&mut self, word: &[u8]) -> bool
        ensures word { result ≡ pointwise nat_eq (token self.old) word.now }
        ensures passed { result ≡ true → self.new ≡ after_token self.old }
        ensures other { result ≡ false → self.new ≡ self.old }
    {
        match following_word(self.spot().rest, word) {
            None => false,
            Some(following) => {
                self.pass(following);
                true
            }
        }
    }

    /// Tests that no token is left.
    ///
    /// `NotAscii` where a token is left whose first byte is not ASCII, else `Trailing` where one is
    /// left, each at the token's first byte.
    #[tactic(auto, unfolding(crate::specs::Text::token, crate::specs::Text::place_of, crate::specs::Text::finish_at))]
    pub fn finish(&self) -> Result<(), TextError>
        ensures { result ≡ finish_at self.now }
    {
        let spot = self.spot();
        let [first, ..] = &spot.rest[..token_len(spot.rest)] else {
            return Ok(());
        };
        if *first >= NOT_ASCII {
            return Err(TextError::NotAscii(spot.place));
        }
        Err(TextError::Trailing(spot.place))
    }
}
