//! Fixed words.

ghost use Rattle.std.specs.Prelude.{◌≡◌};
ghost use Rattle.problem_names.specs.ModelNames.{word_same};
ghost use Rattle.part_text.specs.Grammar.{Reads, fixed_at, wrong_word};
ghost use Rattle.part_text.specs.declared.read_reports_error.ReadReportsError.TheVariants.{Text};

use crate::read_reports_error::ReadReportsError;
use tokens::{InstanceError, InstanceFault, Place, Tokens};

/// Whether a token is this word.
pub(crate) fn is_word(token: &[u8], word: &[u8]) -> bool
    ensures { result ≡ word_same token.now word.now }
{
    token == word
}

/// The fault of a word that may not stand at this place.
pub(crate) fn wrong_word(place: Place) -> ReadReportsError
    ensures { result ≡ Text (wrong_word place) }
{
    ReadReportsError::Text(InstanceError {
        fault: InstanceFault::Word,
        place,
    })
}

/// Passes over the word, where it is the next token.
#[tactic(auto, unfolding(crate::specs::Grammar::fixed_at))]
pub(crate) fn pass_word(tokens: &mut Tokens<'_>, wanted: &[u8]) -> Result<(), ReadReportsError>
    ensures { Reads (λ _. tokens.new) result (fixed_at wanted.now tokens.old) }
{
    let place = tokens.place();
    let word = tokens.next_word()?;
    if is_word(word, wanted) {
        Ok(())
    } else {
        Err(wrong_word(place))
    }
}
