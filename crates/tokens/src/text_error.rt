use crate::place::Place;

/// Why the next token could not be read, and where it begins.
#[derive(Clone, Copy, Debug, PartialEq, Eq)]
pub enum TextError {
    /// The token is not an optional minus and one or more digits.
    NotNumber(Place),
    /// The token is a number outside the range that was asked for.
    OutOfRange(Place),
    /// No token is left; the place is the end of the text.
    EndOfText(Place),
    /// A token is left where the text should end.
    Trailing(Place),
    /// The token's first byte is not ASCII.
    NotAscii(Place),
}
