ghost use Rattle.std.specs.Prelude.{◌≡◌};
ghost use Rattle.std.specs.Str.{all_ascii_digits};
ghost use Rattle.tokens.specs.Counts.{is_count};

/// The greatest number of digits of a count. The numbers of 64 bits have no more.
pub const MOST_DIGITS: usize = 20;

/// Whether there are digits alone.
fn are_digits(word: &[u8]) -> bool
    ensures { result ≡ all_ascii_digits word.now }
{
    let mut rest = word;
    while let [digit, after @ ..] = rest {
        if !digit.is_ascii_digit() {
            return false;
        }
        rest = after;
    }
    true
}

/// Whether a word is 1 to `MOST_DIGITS` digits.
pub fn is_count(word: &[u8]) -> bool
    ensures { result ≡ is_count word.now }
{
    !word.is_empty() && word.len() <= MOST_DIGITS && are_digits(word)
}
