//! Whether there is a text for each part, and all are of one instance.

ghost use Rattle.std.specs.Prelude.{◌≡◌, length, None, pos};
ghost use Rattle.std.specs.Ordering.{int_eq};
ghost use Rattle.problem_names.specs.ModelNames.{word_same};
ghost use Rattle.cover_text.specs.Texts.{text_in};
ghost use Rattle.cover_join.specs.Joining.{is_part, is_in_order, is_of_instance, parts_told, place_fault, places_fault, texts_in};

use crate::join_error::JoinError;
use cover_text::CoverText;
use problem_names::PartNumber;

/// Whether the part with this number is meant, of this number of parts.
fn is_part(of: u32, index: u32, part: Option<PartNumber>) -> bool
    ensures { result ≡ is_part of index part }
{
    match part {
        None => false,
        Some(part) => part.index == index && part.of == of,
    }
}

/// Whether the distance is 0.
fn is_exact(within: i64) -> bool
    ensures { result ≡ int_eq within (pos 0) }
{
    within == 0
}

/// Whether two instances have the same bytes.
fn are_same(one: &[u8], other: &[u8]) -> bool
    ensures { result ≡ word_same one.now other.now }
{
    one == other
}

/// Whether the text may stand at this place.
fn is_in_order(of: u32, index: u32, text: &CoverText) -> bool
    ensures { result ≡ is_in_order of index (text_in text.now) }
{
    is_part(of, index, text.part) && is_exact(text.within)
}

/// Whether the text has the problem and the instance of the first one.
fn is_of_instance(first: &CoverText, text: &CoverText) -> bool
    ensures { result ≡ is_of_instance (text_in first.now) (text_in text.now) }
{
    text.model.byte() == first.model.byte()
        && are_same(text.instance.as_slice(), first.instance.as_slice())
}

/// The fault of the text at this place.
fn place_fault(first: &CoverText, of: u32, index: u32, text: &CoverText) -> Option<JoinError>
    ensures { result ≡ place_fault (text_in first.now) of index (text_in text.now) }
{
    if !is_in_order(of, index, text) {
        return Some(JoinError::Order { index });
    }
    if !is_of_instance(first, text) {
        return Some(JoinError::Instance { index });
    }
    None
}

/// How many parts the first text tells of.
pub(crate) fn parts_told(first: &CoverText) -> u32
    ensures { result ≡ parts_told first.now.part }
{
    match first.part {
        None => 0,
        Some(part) => part.of,
    }
}

/// The first fault of the texts as they stand.
pub(crate) fn places_fault(first: &CoverText, of: u32, texts: &[CoverText]) -> Option<JoinError>
    ensures { result ≡ places_fault (text_in first.now) of 0 (texts_in texts.now) }
{
    let mut rest = texts;
    let mut index = 0;
    while let [text, after @ ..] = rest {
        if index == of {
            return Some(JoinError::Order { index });
        }
        if let Some(fault) = place_fault(first, of, index, text) {
            return Some(fault);
        }
        index += 1;
        rest = after;
    }
    if index == of {
        None
    } else {
        Some(JoinError::Order { index })
    }
}
