//! Fixed words.

ghost use Rattle.std.specs.Prelude.{◌≡◌};
ghost use Rattle.problem_names.specs.ModelNames.{word_same};
ghost use Rattle.tokens.specs.Text.{token};
ghost use Rattle.cover_text.specs.Grammar.{Reads, fixed_at, early_end};

use crate::cover_error::CoverError;
use tokens::Tokens;

/// Whether a token is this word.
#[inline]
pub(crate) fn is_word(token: &[u8], word: &[u8]) -> bool
    ensures { result ≡ word_same token.now word.now }
{
    token == word
}

/// Passes over the word, where it is the next token.
#[inline]
#[tactic(auto, unfolding(crate::specs::Grammar::fixed_at))]
pub(crate) fn pass_word(tokens: &mut Tokens<'_>, wanted: &[u8]) -> Result<(), CoverError>
    ensures { Reads (λ _. tokens.new) result (fixed_at wanted.now tokens.old) }
{
    let place = tokens.place();
    let word = tokens.next_word()?;
    if is_word(word, wanted) {
        Ok(())
    } else {
        Err(CoverError::Word(place))
    }
}

/// The fault of a line that ends too early.
#[tactic(auto, unfolding(crate::specs::Grammar::early_end))]
pub(crate) fn early_end(tokens: &mut Tokens<'_>) -> CoverError
    ensures { result ≡ early_end tokens.old }
{
    let place = tokens.place();
    match tokens.next_word() {
        Ok(_) => CoverError::Word(place),
        Err(fault) => CoverError::Text(fault),
    }
}
