//! The clauses of a text, read one after another.

ghost use Rattle.std.specs.Prelude.{◌≡◌, ◌+◌, ◌^◌, ◌<◌, ◌≤◌, true, pos, negsuc, ◌≤ℤ◌, IfOk, OnOk};
ghost use Rattle.tokens.specs.Text.{place_of};
ghost use Rattle.tokens.specs.Grammar.{Reads, times};
ghost use Rattle.tokens.specs.declared.read_model_error.ReadModelError.TheVariants.{Text};
ghost use Rattle.max_two_sat.specs.Clauses.{FitsLiterals};
ghost use Rattle.max_two_sat.specs.Drafted.{gathered_in};
ghost use Rattle.max_two_sat.specs.Room.{FitsOption, FormGives, IsGathered, IsGathering};
ghost use Rattle.max_two_sat.specs.Texts.{following_first, clause_at, end_of_clause, ends_clauses, ends_token, literal_at, literal_of, literals_at, reaches, weight_at};

use crate::clause::{Literal, Literals};
use crate::draft::Draft;
use crate::header::{Form, Header};
use tokens::{InstanceError, InstanceFault, ReadModelError, Tokens};

const MOST_WEIGHT: i64 = 1 << 48;

/// Reads as many clauses as the header counts.
#[tactic(auto, using(tokens::proofs::Chains::times_steps))]
pub(crate) fn read_clauses(
    tokens: &mut Tokens<'_>,
    header: Header,
    draft: &mut Draft,
) -> Result<(), ReadModelError>
    requires few { header.clauses ≤ 2 ^ 20 }
    requires under_way { IsGathering header (gathered_in draft.old) }
    requires none { draft.old.clauses ≡ 0 }
    ensures read { Reads (λ _. (gathered_in draft.new, tokens.new)) result (times (clause_at header) header.clauses (gathered_in draft.old) tokens.old) }
    ensures gathered { OnOk result (IsGathered (gathered_in draft.new)) }
    ensures count { OnOk result (draft.new.clauses ≡ header.clauses) }
{
    for _ in 0..header.clauses {
        read_clause(tokens, header, draft)?;
    }
    Ok(())
}

/// Reads a clause.
#[tactic(auto, unfolding(crate::specs::Texts::clause_at), using(tokens::proofs::Chains::part_fails))]
fn read_clause(
    tokens: &mut Tokens<'_>,
    header: Header,
    draft: &mut Draft,
) -> Result<(), ReadModelError>
    requires few { draft.old.clauses < 2 ^ 20 }
    requires under_way { IsGathering header (gathered_in draft.old) }
    ensures read { Reads (λ _. (gathered_in draft.new, tokens.new)) result (clause_at header (gathered_in draft.old) tokens.old) }
    ensures under_way { OnOk result (IsGathering header (gathered_in draft.new)) }
    ensures count { OnOk result (draft.new.clauses ≡ draft.old.clauses + 1) }
{
    if ends_clauses(tokens) {
        return Err(fault_here(InstanceFault::Count, tokens));
    }
    let weight = read_weight(tokens, header.form, draft.total)?;
    let literals = read_literals(tokens, header.variables)?;
    draft.add(weight, literals);
    Ok(())
}

/// Reads the weight of a clause after clauses of this total weight.
#[tactic(auto, unfolding(crate::specs::Texts::weight_at))]
fn read_weight(tokens: &mut Tokens<'_>, form: Form, total: i64) -> Result<i64, ReadModelError>
    requires low { pos 0 ≤ℤ total }
    requires high { total ≤ℤ pos (2 ^ 48) }
    ensures read { Reads (λ w. (w, tokens.new)) result (weight_at form total tokens.old) }
    ensures range { IfOk result (λ w. FormGives form total w) }
{
    let top = match form {
        Form::Plain => return Ok(1),
        Form::Weighted(top) => top,
    };
    let place = tokens.place();
    let weight = tokens.next_number(0, MOST_WEIGHT)?;
    if reaches(top, weight) {
        let fault = InstanceFault::Hard;
        return Err(ReadModelError::Text(InstanceError { fault, place }));
    }
    if total + weight > MOST_WEIGHT {
        let fault = InstanceFault::Limit;
        return Err(ReadModelError::Text(InstanceError { fault, place }));
    }
    Ok(weight)
}

/// Whether a weight is at least the top, where there is one.
fn reaches(top: Option<i64>, weight: i64) -> bool
    ensures { result ≡ reaches top weight }
{
    match top {
        None => false,
        Some(top) => weight >= top,
    }
}

/// Reads the literals of a clause and the zero after them.
#[tactic(auto, unfolding(crate::specs::Texts::literals_at), using(tokens::proofs::Chains::part_fails))]
fn read_literals(tokens: &mut Tokens<'_>, variables: usize) -> Result<Literals, ReadModelError>
    requires { variables ≤ 1024 }
    ensures read { Reads (λ literals. (literals, tokens.new)) result (literals_at variables tokens.old) }
    ensures range { IfOk result (λ literals. FitsLiterals variables literals) }
{
    match read_literal(tokens, variables)? {
        None => Ok(Literals::Empty),
        Some(a) => read_second(tokens, variables, a),
    }
}

/// Reads what stands after the first literal of a clause.
#[tactic(auto, unfolding(crate::specs::Texts::following_first), using(tokens::proofs::Chains::part_fails))]
fn read_second(
    tokens: &mut Tokens<'_>,
    variables: usize,
    a: Literal,
) -> Result<Literals, ReadModelError>
    requires few { variables ≤ 1024 }
    requires first { a.variable < variables }
    ensures read { Reads (λ literals. (literals, tokens.new)) result (following_first variables a tokens.old) }
    ensures range { IfOk result (λ literals. FitsLiterals variables literals) }
{
    match read_literal(tokens, variables)? {
        None => Ok(Literals::One(a)),
        Some(b) => {
            read_end(tokens, variables)?;
            Ok(Literals::Two(a, b))
        }
    }
}

/// Reads the zero after two literals.
#[tactic(auto, unfolding(crate::specs::Texts::end_of_clause), using(tokens::proofs::Chains::part_fails))]
fn read_end(tokens: &mut Tokens<'_>, variables: usize) -> Result<(), ReadModelError>
    requires { variables ≤ 1024 }
    ensures { Reads (λ _. (true, tokens.new)) result (end_of_clause variables tokens.old) }
{
    let place = tokens.place();
    match read_literal(tokens, variables)? {
        None => Ok(()),
        Some(_) => {
            let fault = InstanceFault::ThreeLiterals;
            Err(ReadModelError::Text(InstanceError { fault, place }))
        }
    }
}

/// Reads a literal, or none for zero.
#[tactic(auto, unfolding(crate::specs::Texts::literal_at))]
fn read_literal(
    tokens: &mut Tokens<'_>,
    variables: usize,
) -> Result<Option<Literal>, ReadModelError>
    requires { variables ≤ 1024 }
    ensures read { Reads (λ a. (a, tokens.new)) result (literal_at variables tokens.old) }
    ensures range { IfOk result (λ a. FitsOption variables a) }
{
    let most = variables as i64;
    let number = tokens.next_number(-most, most)?;
    Ok(literal_from(number))
}

/// The literal that a number writes.
fn literal_from(number: i64) -> Option<Literal>
    requires low { negsuc 1023 ≤ℤ number }
    requires high { number ≤ℤ pos 1024 }
    ensures { result ≡ literal_of number }
{
    if number > 0 {
        Some(Literal {
            variable: number as usize - 1,
            positive: true,
        })
    } else if number < 0 {
        Some(Literal {
            variable: (-number) as usize - 1,
            positive: false,
        })
    } else {
        None
    }
}

/// Whether no clause follows: at the end of the text, and at a token that begins with `%`.
pub(crate) fn ends_clauses(tokens: &Tokens<'_>) -> bool
    ensures { result ≡ ends_clauses tokens.now }
{
    ends_token(tokens.peek_word())
}

fn ends_token(word: &[u8]) -> bool
    ensures { result ≡ ends_token word.now }
{
    word.is_empty() || word[0] == b'%'
}

/// A fault at the next token.
pub(crate) fn fault_here(fault: InstanceFault, tokens: &Tokens<'_>) -> ReadModelError
    ensures { result ≡ Text (record { fault = fault; place = place_of tokens.now }) }
{
    ReadModelError::Text(InstanceError {
        fault,
        place: tokens.place(),
    })
}
