//! The first line of a text, read.

ghost use Rattle.std.specs.Prelude.{◌≡◌, ◌^◌, ◌≤◌, true, IfOk};
ghost use Rattle.tokens.specs.Grammar.{Reads};
ghost use Rattle.max_two_sat.specs.Texts.{form_at, header_at, is_word, letter_at, top_at};

use crate::header::{Form, Header};
use tokens::{InstanceError, InstanceFault, ReadModelError, Tokens};

const MOST_VARIABLES: i64 = 1_024;

const MOST_CLAUSES: i64 = 1_048_576;

/// Reads the first line: the word `p`, the form, the number of variables, that of clauses, and perhaps a top weight.
#[tactic(auto, unfolding(crate::specs::Texts::header_at), using(tokens::proofs::Chains::part_fails))]
pub(crate) fn read_header(tokens: &mut Tokens<'_>) -> Result<Header, ReadModelError>
    ensures read { Reads (λ h. (h, tokens.new)) result (header_at tokens.old) }
    ensures variables { IfOk result (λ h. h.variables ≤ 1024) }
    ensures clauses { IfOk result (λ h. h.clauses ≤ 2 ^ 20) }
{
    read_letter(tokens)?;
    let weighted = read_form(tokens)?;
    let variables = tokens.next_number(0, MOST_VARIABLES)? as usize;
    let clauses = tokens.next_number(0, MOST_CLAUSES)? as u64;
    let form = read_top(tokens, weighted)?;
    Ok(Header {
        variables,
        clauses,
        form,
    })
}

#[tactic(auto, unfolding(crate::specs::Texts::letter_at))]
fn read_letter(tokens: &mut Tokens<'_>) -> Result<(), ReadModelError>
    ensures { Reads (λ _. (true, tokens.new)) result (letter_at tokens.old) }
{
    let place = tokens.place();
    let word = tokens.next_word()?;
    if has_letters(word, b"p") {
        Ok(())
    } else {
        let fault = InstanceFault::Word;
        Err(ReadModelError::Text(InstanceError { fault, place }))
    }
}

/// Whether the clauses have weights.
#[tactic(auto, unfolding(crate::specs::Texts::form_at))]
fn read_form(tokens: &mut Tokens<'_>) -> Result<bool, ReadModelError>
    ensures { Reads (λ weighted. (weighted, tokens.new)) result (form_at tokens.old) }
{
    let place = tokens.place();
    let word = tokens.next_word()?;
    if has_letters(word, b"wcnf") {
        Ok(true)
    } else if has_letters(word, b"cnf") {
        Ok(false)
    } else {
        let fault = InstanceFault::Word;
        Err(ReadModelError::Text(InstanceError { fault, place }))
    }
}

/// The top weight, where clauses have weights and a token is left on the line.
#[tactic(auto, unfolding(crate::specs::Texts::top_at))]
fn read_top(tokens: &mut Tokens<'_>, weighted: bool) -> Result<Form, ReadModelError>
    ensures { Reads (λ form. (form, tokens.new)) result (top_at weighted tokens.old) }
{
    if !weighted {
        return Ok(Form::Plain);
    }
    if tokens.at_line_end() {
        return Ok(Form::Weighted(None));
    }
    let top = tokens.next_number(1, i64::MAX)?;
    Ok(Form::Weighted(Some(top)))
}

fn has_letters(word: &[u8], wanted: &[u8]) -> bool
    ensures { result ≡ is_word word.now wanted.now }
{
    word.len() == wanted.len() && word.starts_with(wanted)
}
