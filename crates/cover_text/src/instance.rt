//! The bytes of the instance, and the places after them.

ghost use Rattle.std.specs.Prelude.{◌≡◌, ◌<◌, ◌≤◌, ◌-◌, ◌^◌, length, Ok, Err, IfOk, MatchResult};
ghost use Rattle.cover_text.specs.Instances.{after_lines, end_place, parted, moved, moved_text, moved_place};

use crate::cover_error::CoverError;
use tokens::{Place, TextError};

/// The instance of a text, and the bytes after it.
#[derive(Clone, Copy, Debug)]
pub(crate) struct Parted<'a> {
    pub(crate) instance: &'a [u8],
    pub(crate) following: &'a [u8],
}

/// The bytes after this many lines.
fn after_lines(bytes: &[u8], lines: u32) -> &[u8]
    ensures part { result.now ≡ after_lines lines bytes.now }
    ensures within { length result.now ≤ length bytes.now }
{
    let mut rest = bytes;
    let mut left = lines;
    while let [first, after @ ..] = rest {
        if left == 0 {
            break;
        }
        if *first == b'\n' {
            left -= 1;
        }
        rest = after;
    }
    rest
}

/// The place after the last byte.
pub(crate) fn end_place(bytes: &[u8]) -> Place
    requires { length bytes.now < 2 ^ 32 - 1 }
    ensures { result ≡ end_place bytes.now }
{
    let mut place = Place { line: 1, column: 1 };
    let mut rest = bytes;
    while let [first, after @ ..] = rest {
        place = if *first == b'\n' {
            Place {
                line: place.line + 1,
                column: 1,
            }
        } else {
            Place {
                line: place.line,
                column: place.column + 1,
            }
        };
        rest = after;
    }
    place
}

/// Parts a text after this many lines, and this many bytes later.
pub(crate) fn part_text(bytes: &[u8], lines: u32, size: u32) -> Result<Parted<'_>, CoverError>
    requires { length bytes.now < 2 ^ 32 - 1 }
    ensures parts { MatchResult result (λ p. parted bytes.now lines size ≡ Ok (p.instance.now, p.following.now)) (λ e. parted bytes.now lines size ≡ Err e) }
    ensures within { IfOk result (λ p. length p.following.now ≤ length bytes.now) }
    ensures inside { IfOk result (λ p. length p.instance.now ≤ length bytes.now) }
{
    let rest = after_lines(bytes, lines);
    let size = size as usize;
    if size > rest.len() {
        return Err(CoverError::Text(TextError::EndOfText(end_place(bytes))));
    }
    Ok(Parted {
        instance: &rest[..size],
        following: &rest[size..],
    })
}

/// A place of the part that begins at the origin, seen from the beginning of the text.
fn moved_place(origin: Place, place: Place) -> Place
    ensures { result ≡ moved_place origin place }
{
    if place.line == 1 {
        Place {
            line: origin.line,
            column: origin.column.saturating_add(place.column.saturating_sub(1)),
        }
    } else {
        Place {
            line: origin.line.saturating_add(place.line.saturating_sub(1)),
            column: place.column,
        }
    }
}

fn moved_text(origin: Place, fault: TextError) -> TextError
    ensures { result ≡ moved_text origin fault }
{
    match fault {
        TextError::NotNumber(place) => TextError::NotNumber(moved_place(origin, place)),
        TextError::OutOfRange(place) => TextError::OutOfRange(moved_place(origin, place)),
        TextError::EndOfText(place) => TextError::EndOfText(moved_place(origin, place)),
        TextError::Trailing(place) => TextError::Trailing(moved_place(origin, place)),
        TextError::NotAscii(place) => TextError::NotAscii(moved_place(origin, place)),
    }
}

/// A fault of the part that begins at the origin, seen from the beginning of the text.
pub(crate) fn moved(origin: Place, fault: CoverError) -> CoverError
    ensures { result ≡ moved origin fault }
{
    match fault {
        CoverError::Text(fault) => CoverError::Text(moved_text(origin, fault)),
        CoverError::Word(place) => CoverError::Word(moved_place(origin, place)),
        CoverError::OutOfMemory => CoverError::OutOfMemory,
    }
}
