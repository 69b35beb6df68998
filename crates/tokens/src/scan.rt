ghost use Rattle.std.specs.Prelude.{◌≡◌, ℕ, Bool, ◌+◌, ◌-◌, ◌*◌, ◌^◌, ◌<◌, ◌≤◌, ◌++◌, ◌==◌, ◌||◌, not, min, length, codes, false, IfOk, Ok, IfSome, Some, get_or, option_map, is_some, [], ◌∷◌, SomeIff, pos, neg_ℤ, ◌≤ℤ◌, FitsSigned, true, nat_eq};
ghost use Rattle.std.specs.Cmp.Lexicographic.{pointwise};
ghost use Rattle.std.specs.Result.{result_map_both};
ghost use Rattle.std.specs.List.{prefix_len};
ghost use Rattle.std.specs.Int.{w64};
ghost use Rattle.std.specs.Char.{is_ascii_digit};
ghost use Rattle.tokens.specs.Text.{Comment, Place, is_blank, is_solid, opens_comment, is_passed, is_inside_after, place_after, skip, IsCountable, natural_of, value_after, signed_of, in_bounds, number_in, is_blank_line};
ghost use Rattle.tokens.specs.Scanned.{first_token, following_token, head_digits, after_digits};

use crate::comment::Comment;
use crate::place::Place;
use crate::text_error::TextError;

/// Ten times a number below this, and a digit, fit in 64 bits.
const SURELY_SHORT: u64 = 1 << 59;

/// The bytes that `short_natural` reads. The compiler unrolls a loop of this length, and a number of 12 digits is below `SURELY_SHORT`.
const WINDOW: usize = 12;

/// How many zeros `Tokens::pass_zeros` passes over at once.
pub const ZEROS: usize = 8;

/// The bytes of `ZEROS` zeros with a space between each two.
pub(crate) const ZEROS_LEN: usize = 15;

/// Bytes from here on are not ASCII.
pub(crate) const NOT_ASCII: u8 = 128;

/// Where a token begins, or the end of the text. It has no padding, which would be copied for each token.
#[derive(Clone, Copy)]
pub(crate) struct Spot<'a> {
    pub(crate) rest: &'a [u8],
    pub(crate) place: Place,
}

#[inline]
fn is_blank_byte(b: u8) -> bool
    ensures { result ≡ is_blank b }
{
    b == b' ' || b == b'\t' || b == b'\r' || b == b'\n'
}

#[inline]
fn opens_comment_line(comment: Comment, b: u8) -> bool
    ensures { result ≡ opens_comment comment b }
{
    match comment {
        Comment::Never => false,
        Comment::Hash => b == b'#',
        Comment::LetterC => b == b'c',
    }
}

#[inline]
fn is_passed_over(comment: Comment, inside: bool, fresh: bool, b: u8) -> bool
    ensures { result ≡ is_passed comment inside fresh b }
{
    inside || is_blank_byte(b) || (fresh && opens_comment_line(comment, b))
}

#[inline]
fn stays_inside(inside: bool, b: u8) -> bool
    ensures { result ≡ is_inside_after inside b }
{
    (inside || !is_blank_byte(b)) && b != b'\n'
}

#[inline]
fn place_following(b: u8, place: Place) -> Place
    requires line { place.line < 2 ^ 32 - 1 }
    requires column { place.column < 2 ^ 32 - 1 }
    ensures { result ≡ place_after b place }
{
    if b == b'\n' {
        Place {
            line: place.line + 1,
            column: 1,
        }
    } else {
        Place {
            line: place.line,
            column: place.column + 1,
        }
    }
}

/// Passes over blanks.
#[inline]
pub(crate) fn skip_blanks<'a>(from: Place, bytes: &'a [u8]) -> Spot<'a>
    requires { IsCountable from bytes.now }
    ensures found { (comment : Comment) (fresh : Bool) → skip comment false fresh from bytes.now ≡ skip comment false (fresh || not (result.place.line == from.line)) result.place result.rest.now }
    ensures countable { IsCountable result.place result.rest.now }
    ensures line { is_blank_line bytes.now ≡ (length result.rest.now == 0 || not (result.place.line == from.line)) }
{
    let mut rest = bytes;
    let mut place = from;
    while let [first, after @ ..] = rest {
        let b = *first;
        if !is_blank_byte(b) {
            break;
        }
        place = place_following(b, place);
        rest = after;
    }
    Spot { rest, place }
}

/// Passes over blanks and comment lines.
#[inline]
fn skip_to_token<'a>(comment: Comment, from_fresh: bool, from: Spot<'a>) -> Spot<'a>
    requires { IsCountable from.place from.rest.now }
    ensures rest { (skip comment false from_fresh from.entry.place from.entry.rest.now).rest ≡ result.rest.now }
    ensures place { (skip comment false from_fresh from.entry.place from.entry.rest.now).place ≡ result.place }
    ensures comment { (skip comment false from_fresh from.entry.place from.entry.rest.now).comment ≡ comment }
    ensures countable { IsCountable result.place result.rest.now }
{
    let mut rest = from.rest;
    let mut place = from.place;
    let mut fresh = from_fresh;
    let mut inside = false;
    while let [first, after @ ..] = rest {
        let b = *first;
        if !is_passed_over(comment, inside, fresh, b) {
            break;
        }
        inside = stays_inside(inside, b);
        fresh = fresh || b == b'\n';
        place = place_following(b, place);
        rest = after;
    }
    Spot { rest, place }
}

/// Passes over comment lines, where one begins here.
#[inline]
pub(crate) fn skip_comments<'a>(comment: Comment, fresh: bool, from: Spot<'a>) -> Spot<'a>
    requires { IsCountable from.place from.rest.now }
    ensures rest { (skip comment false fresh from.entry.place from.entry.rest.now).rest ≡ result.rest.now }
    ensures place { (skip comment false fresh from.entry.place from.entry.rest.now).place ≡ result.place }
    ensures comment { (skip comment false fresh from.entry.place from.entry.rest.now).comment ≡ comment }
    ensures countable { IsCountable result.place result.rest.now }
{
    match from.rest {
        [first, ..] if is_passed_over(comment, false, fresh, *first) => {
            skip_to_token(comment, fresh, from)
        }
        _ => from,
    }
}

/// Whether a byte is surely no blank.
#[inline]
fn is_above_blanks(b: u8) -> bool
    ensures { result ≡ true → is_blank b ≡ false }
{
    b > b' '
}

/// The token after a single blank that ends a token; `None` where anything else stands here, or a token of control bytes.
#[inline]
pub(crate) fn after_one_blank<'a>(
    comment: Comment,
    from: Place,
    bytes: &'a [u8],
) -> Option<Spot<'a>>
    requires { IsCountable from bytes.now }
    ensures rest { IfSome result (λ s. (skip comment false false from bytes.now).rest ≡ s.rest.now) }
    ensures place { IfSome result (λ s. (skip comment false false from bytes.now).place ≡ s.place) }
    ensures comment { IfSome result (λ s. (skip comment false false from bytes.now).comment ≡ comment) }
    ensures countable { IfSome result (λ s. IsCountable s.place s.rest.now) }
    ensures line { IfSome result (λ s. is_blank_line bytes.now ≡ not (s.place.line == from.line)) }
{
    match bytes {
        [b' ', rest @ ..] => match rest {
            [first, ..] if is_above_blanks(*first) => Some(Spot {
                rest,
                place: Place {
                    line: from.line,
                    column: from.column + 1,
                },
            }),
            _ => None,
        },
        [b'\n', rest @ ..] => match rest {
            [first, ..] if !is_passed_over(comment, false, true, *first) => Some(Spot {
                rest,
                place: Place {
                    line: from.line + 1,
                    column: 1,
                },
            }),
            _ => None,
        },
        _ => None,
    }
}

/// How many bytes stand before the first blank.
pub(crate) fn token_len(bytes: &[u8]) -> usize
    ensures { result ≡ prefix_len is_solid bytes.now }
{
    let mut len = 0;
    let mut rest = bytes;
    while let [first, after @ ..] = rest {
        if is_blank_byte(*first) {
            break;
        }
        len += 1;
        rest = after;
    }
    len
}

/// Whether the first byte differs from that of the word. It is `false` where either is empty.
#[inline]
fn begin_apart(bytes: &[u8], word: &[u8]) -> bool
    ensures { result ≡ true → pointwise nat_eq (first_token bytes.now) word.now ≡ false }
{
    match (bytes, word) {
        ([first, ..], [wanted, ..]) => *first != *wanted,
        _ => false,
    }
}

/// The number after one more digit, or 2^64 - 1 where it is greater, for numbers of any size.
#[cold]
#[inline(never)]
fn saturated_after(total: u64, digit: u64) -> u64
    ensures { result ≡ min (10 * total + digit) (2 ^ 64 - 1) }
{
    total.saturating_mul(10).saturating_add(digit)
}

/// The number after one more digit, or 2^64 - 1 where it is greater.
#[inline]
fn capped_after(total: u64, digit: u8) -> u64
    requires least { 48 ≤ digit }
    requires greatest { digit ≤ 57 }
    ensures { result ≡ min (10 * total + (digit - 48)) (2 ^ 64 - 1) }
{
    let digit = u64::from(digit - b'0');
    if total < SURELY_SHORT {
        total * 10 + digit
    } else {
        saturated_after(total, digit)
    }
}

/// What digits write, and what stands after them.
#[derive(Clone, Copy)]
struct Digits<'a> {
    /// The number, or 2^64 - 1 where it is greater.
    size: u64,
    following: &'a [u8],
}

/// The digits at the head of the bytes, of which there may be none.
#[inline]
#[tactic(auto, using(crate::proofs::Scanning::digit_steps))]
fn leading_digits(bytes: &[u8]) -> Digits<'_>
    ensures size { result.size ≡ min (value_after 0 (head_digits bytes.now)) (2 ^ 64 - 1) }
    ensures following { result.following.now ≡ after_digits bytes.now }
{
    let mut size = 0u64;
    let mut rest = bytes;
    while let [first, after @ ..] = rest {
        let b = *first;
        if !b.is_ascii_digit() {
            break;
        }
        size = capped_after(size, b);
        rest = after;
    }
    Digits {
        size,
        following: rest,
    }
}

/// Whether no token begins with the first byte.
#[inline]
fn begins_no_token(bytes: &[u8]) -> bool
    ensures { result ≡ (length (first_token bytes.now) == 0) }
{
    match bytes {
        [first, ..] => is_blank_byte(*first),
        [] => true,
    }
}

/// What stands after the first token, where it is this byte alone.
#[inline]
#[tactic(auto, using(crate::proofs::Scanning::byte_steps))]
fn after_byte(bytes: &[u8], wanted: u8) -> Option<&[u8]>
    ensures found { is_some result ≡ pointwise nat_eq (first_token bytes.now) (wanted ∷ []) }
    ensures following { IfSome result (λ b. b.now ≡ following_token bytes.now) }
{
    match bytes {
        [first, following @ ..]
            if *first == wanted && !is_blank_byte(wanted) && begins_no_token(following) => {
            Some(following)
        }
        _ => None,
    }
}

/// What stands after the first token, where it is this word.
#[inline]
pub(crate) fn following_word<'a>(bytes: &'a [u8], word: &[u8]) -> Option<&'a [u8]>
    ensures found { is_some result ≡ pointwise nat_eq (first_token bytes.now) word.now }
    ensures following { IfSome result (λ b. b.now ≡ following_token bytes.now) }
{
    if let [only] = word {
        return after_byte(bytes, *only);
    }
    if begin_apart(bytes, word) {
        return None;
    }
    let len = token_len(bytes);
    if &bytes[..len] == word {
        Some(&bytes[len..])
    } else {
        None
    }
}

/// The natural number that the first token writes.
#[inline]
#[tactic(auto, using(crate::proofs::Scanning::natural_steps))]
fn leading_natural(bytes: &[u8]) -> Option<Digits<'_>>
    ensures size { option_map (λ d. d.size) result ≡ option_map (λ n. min n (2 ^ 64 - 1)) (natural_of (first_token bytes.now)) }
    ensures following { IfSome result (λ d. d.following.now ≡ following_token bytes.now) }
{
    let digits = leading_digits(bytes);
    if digits.following.len() == bytes.len() {
        return None;
    }
    if !begins_no_token(digits.following) {
        return None;
    }
    Some(digits)
}

/// The number, where it fits 64 bits with a sign.
#[inline]
fn signed(is_negative: bool, size: u64) -> Option<i64>
    ensures { SomeIff result (FitsSigned w64 (signed_of is_negative size)) (signed_of is_negative size) }
{
    if is_negative {
        0i64.checked_sub_unsigned(size)
    } else {
        0i64.checked_add_unsigned(size)
    }
}

/// A number, and what stands after it.
#[derive(Clone, Copy)]
pub(crate) struct Number<'a> {
    pub(crate) value: i64,
    pub(crate) following: &'a [u8],
}

/// Whether the bytes begin with a blank that most often ends a token.
#[inline]
fn begin_with_a_blank(bytes: &[u8]) -> bool
    ensures some { result ≡ true → 0 < length bytes.now }
    ensures blank { result ≡ true → length (first_token bytes.now) ≡ 0 }
{
    match bytes {
        [b' ', ..] | [b'\n', ..] => true,
        _ => false,
    }
}

/// What stands after four zeros, where the bytes begin with these and a space after each. They are compared as one word.
#[inline(always)]
#[tactic(auto, using(crate::proofs::Zeros::four_zeros))]
fn after_four_zeros(bytes: &[u8]) -> Option<&[u8]>
    ensures { IfSome result (λ b. bytes.now ≡ codes "0 0 0 0 " ++ b.now) }
{
    let (four, following) = bytes.split_first_chunk::<8>()?;
    if u64::from_le_bytes(*four) == u64::from_le_bytes(*b"0 0 0 0 ") {
        Some(following)
    } else {
        None
    }
}

/// What stands right after eight zeros, where the bytes begin with these and a space after each.
#[inline(always)]
#[tactic(auto, using(crate::proofs::Zeros::eight_steps))]
pub(crate) fn after_zeros(bytes: &[u8]) -> Option<&[u8]>
    ensures zeros { IfSome result (λ b. bytes.now ≡ codes "0 0 0 0 0 0 0 0" ++ b.now) }
    ensures some { IfSome result (λ b. 0 < length b.now) }
    ensures blank { IfSome result (λ b. length (first_token b.now) ≡ 0) }
{
    let further = after_four_zeros(bytes)?;
    after_four_zeros(further)?;
    Some(&bytes[ZEROS_LEN..])
}

/// The number that a first token of few digits writes; `None` where the token is anything else.
#[inline(always)]
#[tactic(auto, using(crate::proofs::Windows::window_steps))]
fn short_natural(bytes: &[u8]) -> Option<Digits<'_>>
    requires { WINDOW ≤ length bytes.now }
    ensures size { IfSome result (λ d. option_map (λ n. min n (2 ^ 64 - 1)) (natural_of (first_token bytes.now)) ≡ Some d.size) }
    ensures digit { IfSome result (λ _. is_ascii_digit (get_or bytes.now 0 0) ≡ true) }
    ensures following { IfSome result (λ d. d.following.now ≡ following_token bytes.now) }
{
    let digits = leading_digits(&bytes[..WINDOW]);
    let len = WINDOW - digits.following.len();
    if len == 0 || !begin_with_a_blank(digits.following) {
        return None;
    }
    Some(Digits {
        size: digits.size,
        following: &bytes[len..],
    })
}

/// The number from `least` to `greatest` that a first token of few digits writes, after a minus or not; `None` where the token
/// is anything else.
#[inline(always)]
#[tactic(auto, using(crate::proofs::Windows::read_within))]
fn short_within(is_negative: bool, digits: &[u8], least: i64, greatest: i64) -> Option<Number<'_>>
    requires { WINDOW ≤ length digits.now }
    ensures value { IfSome result (λ n. (place : Place) → in_bounds least greatest place (option_map (signed_of is_negative) (natural_of (first_token digits.now))) ≡ Ok n.value) }
    ensures digit { IfSome result (λ _. is_ascii_digit (get_or digits.now 0 0) ≡ true) }
    ensures range { IfSome result (λ n. (least ≤ℤ n.value) × (n.value ≤ℤ greatest)) }
    ensures following { IfSome result (λ n. n.following.now ≡ following_token digits.now) }
{
    let read = short_natural(digits)?;
    match signed(is_negative, read.size) {
        Some(number) if least <= number && number <= greatest => Some(Number {
            value: number,
            following: read.following,
        }),
        _ => None,
    }
}

/// The number of a digit.
#[inline(always)]
fn digit_value(digit: u8) -> i64
    requires least { 48 ≤ digit }
    requires greatest { digit ≤ 57 }
    ensures { result ≡ pos (digit - 48) }
{
    i64::from(digit - b'0')
}

/// The number from `least` to `greatest` that a first token of one digit writes; `None` where the token is anything else.
#[inline(always)]
#[tactic(auto, using(crate::proofs::Windows::one_digit_steps))]
fn one_digit(bytes: &[u8], least: i64, greatest: i64) -> Option<Number<'_>>
    ensures value { IfSome result (λ n. (place : Place) → number_in least greatest place (first_token bytes.now) ≡ Ok n.value) }
    ensures range { IfSome result (λ n. (least ≤ℤ n.value) × (n.value ≤ℤ greatest)) }
    ensures following { IfSome result (λ n. n.following.now ≡ following_token bytes.now) }
{
    let [digit, following @ ..] = bytes else {
        return None;
    };
    if !digit.is_ascii_digit() || !begin_with_a_blank(following) {
        return None;
    }
    let number = digit_value(*digit);
    if least <= number && number <= greatest {
        Some(Number {
            value: number,
            following,
        })
    } else {
        None
    }
}

/// The number from `least` to `greatest` that a first token of few bytes writes; `None` where the token is anything else, and
/// near the end of the bytes.
#[inline(always)]
#[tactic(auto, using(crate::proofs::Scanning::after_minus))]
pub(crate) fn short_number(bytes: &[u8], least: i64, greatest: i64) -> Option<Number<'_>>
    ensures value { IfSome result (λ n. (place : Place) → number_in least greatest place (first_token bytes.now) ≡ Ok n.value) }
    ensures range { IfSome result (λ n. (least ≤ℤ n.value) × (n.value ≤ℤ greatest)) }
    ensures following { IfSome result (λ n. n.following.now ≡ following_token bytes.now) }
{
    if let Some(number) = one_digit(bytes, least, greatest) {
        return Some(number);
    }
    if bytes.len() <= WINDOW {
        return None;
    }
    match bytes {
        [b'-', digits @ ..] => short_within(true, digits, least, greatest),
        _ => short_within(false, bytes, least, greatest),
    }
}

/// Reads the first token as digits, after a minus or not, of a number from `least` to `greatest`.
#[inline]
fn number_within<'a>(
    is_negative: bool,
    digits: &'a [u8],
    place: &Place,
    least: i64,
    greatest: i64,
) -> Result<Number<'a>, TextError>
    ensures value { result_map_both (λ n. n.value) (λ e. e) result ≡ in_bounds least greatest place.now (option_map (signed_of is_negative) (natural_of (first_token digits.now))) }
    ensures following { IfOk result (λ n. n.following.now ≡ following_token digits.now) }
{
    let Some(read) = leading_natural(digits) else {
        return Err(TextError::NotNumber(*place));
    };
    match signed(is_negative, read.size) {
        Some(number) if least <= number && number <= greatest => Ok(Number {
            value: number,
            following: read.following,
        }),
        _ => Err(TextError::OutOfRange(*place)),
    }
}

/// Reads the first token as digits after a minus, of a number from `least` to `greatest`.
#[cold]
#[inline(never)]
fn negative_within<'a>(
    digits: &'a [u8],
    place: &Place,
    least: i64,
    greatest: i64,
) -> Result<Number<'a>, TextError>
    ensures value { result_map_both (λ n. n.value) (λ e. e) result ≡ in_bounds least greatest place.now (option_map (signed_of true) (natural_of (first_token digits.now))) }
    ensures following { IfOk result (λ n. n.following.now ≡ following_token digits.now) }
{
    number_within(true, digits, place, least, greatest)
}

/// Reads the first token as a number from `least` to `greatest`.
#[inline(always)]
#[tactic(auto, using(crate::proofs::Scanning::number_steps))]
pub(crate) fn leading_number<'a>(
    bytes: &'a [u8],
    place: &Place,
    least: i64,
    greatest: i64,
) -> Result<Number<'a>, TextError>
    ensures value { result_map_both (λ n. n.value) (λ e. e) result ≡ number_in least greatest place.now (first_token bytes.now) }
    ensures following { IfOk result (λ n. n.following.now ≡ following_token bytes.now) }
{
    match bytes {
        [b'-', digits @ ..] => negative_within(digits, place, least, greatest),
        [first, ..] if is_blank_byte(*first) => Err(TextError::EndOfText(*place)),
        [first, ..] if *first >= NOT_ASCII => Err(TextError::NotAscii(*place)),
        [_, ..] => number_within(false, bytes, place, least, greatest),
        [] => Err(TextError::EndOfText(*place)),
    }
}
