ghost use Rattle.std.specs.Prelude.{◌≡◌};
ghost use Rattle.tokens.specs.Grammar.{of_text};

use crate::place::Place;
use crate::text_error::TextError;

/// What is wrong with the text of an instance.
#[derive(Clone, Copy, Debug, PartialEq, Eq)]
pub enum InstanceFault {
    /// A token that should be a number is none.
    NotNumber,
    /// A number is outside its range.
    OutOfRange,
    /// The text ends too early.
    EndOfText,
    /// A token is left after the instance.
    Trailing,
    /// A token's first byte is not ASCII.
    NotAscii,
    /// More or fewer parts than were announced.
    Count,
    /// A running total passes its limit.
    Limit,
    /// A clause has a third literal.
    ThreeLiterals,
    /// A clause is hard: its weight reaches the top weight.
    Hard,
    /// A vertex is outside the graph.
    Vertex,
    /// A window closes before it opens.
    Window,
    /// A word is none of those that may stand there.
    Word,
}

/// The first fault of an instance's text, and where it arises.
#[derive(Clone, Copy, Debug, PartialEq, Eq)]
pub struct InstanceError {
    pub fault: InstanceFault,
    pub place: Place,
}

impl From<TextError> for InstanceError {
    ghost from_gives = { λ e made. made ≡ of_text e };

    fn from(e: TextError) -> InstanceError {
        let (fault, place) = match e {
            TextError::NotNumber(place) => (InstanceFault::NotNumber, place),
            TextError::OutOfRange(place) => (InstanceFault::OutOfRange, place),
            TextError::EndOfText(place) => (InstanceFault::EndOfText, place),
            TextError::Trailing(place) => (InstanceFault::Trailing, place),
            TextError::NotAscii(place) => (InstanceFault::NotAscii, place),
        };
        InstanceError { fault, place }
    }
}
