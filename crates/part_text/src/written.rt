//! What a single token writes: a part, a digest.

ghost use Rattle.std.specs.Prelude.{◌≡◌, ◌≤◌, length};
ghost use Rattle.part_text.specs.Written.{digest_written, part_written, slash_place, small_written};

use crate::fixed::is_word;
use problem_names::PartNumber;
use tokens::{Comment, MOST_DIGITS, Tokens};

/// The number of 32 bits that at most `MOST_DIGITS` bytes write.
#[tactic(auto, unfolding(crate::specs::Written::small_written, crate::specs::Grammar::small_at))]
fn small_written(bytes: &[u8]) -> Option<u32>
    ensures { result ≡ small_written bytes.now }
{
    if bytes.len() > MOST_DIGITS {
        return None;
    }
    let mut tokens = Tokens::new(bytes, Comment::Never);
    let number = tokens.next_u32().ok()?;
    if tokens.at_end() { Some(number) } else { None }
}

/// How many bytes stand before the first slash.
fn slash_place(word: &[u8]) -> usize
    ensures place { result ≡ slash_place word.now }
    ensures within { result ≤ length word.now }
{
    let mut place = 0;
    let mut rest = word;
    while let [first, after @ ..] = rest {
        if *first == b'/' {
            break;
        }
        place += 1;
        rest = after;
    }
    place
}

/// The part that a word `I/K` writes.
#[tactic(auto, unfolding(crate::specs::Written::part_written))]
pub(crate) fn part_written(word: &[u8]) -> Option<PartNumber>
    ensures { result ≡ part_written word.now }
{
    let (before, following) = word.split_at(slash_place(word));
    let [_, after @ ..] = following else {
        return None;
    };
    let index = small_written(before)?;
    let of = small_written(after)?;
    Some(PartNumber { index, of })
}

/// The digest that 64 lower-case hexadecimal digits write.
#[tactic(auto, unfolding(crate::specs::Written::digest_written))]
pub(crate) fn digest_written(word: &[u8]) -> Option<[u8; 32]>
    ensures { result ≡ digest_written word.now }
{
    let mut digest = [0u8; 32];
    hex::decode_to_slice(word, &mut digest).ok()?;
    let mut digits = [0u8; 64];
    hex::encode_to_slice(digest.as_slice(), &mut digits).ok()?;
    if is_word(digits.as_slice(), word) {
        Some(digest)
    } else {
        None
    }
}
