//! The text of an instance, read.

ghost use Rattle.std.specs.Prelude.{◌-◌, ◌^◌, ◌<◌, length};
ghost use Rattle.tokens.specs.Text.{text_start};
ghost use Rattle.tokens.specs.Grammar.{Reads};
ghost use Rattle.tokens.specs.declared.comment.Comment.TheVariants.{LetterC};
ghost use Rattle.max_two_sat.specs.Shown.{instance_in};
ghost use Rattle.max_two_sat.specs.Texts.{instance_at};

use crate::draft::Draft;
use crate::first_line::read_header;
use crate::instance::MaxTwoSat;
use crate::reading_clauses::{ends_clauses, fault_here, read_clauses};
use std::alloc::Global;
use tokens::{Comment, InstanceFault, ReadModelError, Tokens};

/// Reads an instance. Lines that begin with `c` are comments.
///
/// The first line is `p cnf V C` or `p wcnf V C`, with 0 to 1,024 variables and 0 to `2^20` clauses; after `wcnf` a top weight may
/// stand on the same line. Another word is `Word`. A clause is at most two literals and 0; after `wcnf` a weight from 0 to `2^48`
/// stands before them. A third literal is `ThreeLiterals`; a weight that reaches the top is `Hard`; `Limit` comes at the weight after
/// which the total exceeds `2^48`. A token that begins with `%` where a clause could begin ends the text. `Count` comes where fewer
/// clauses stand than were announced, and at the first token after them. The first fault is answered, with its place.
#[tactic(auto, unfolding(crate::specs::Texts::instance_at), using(tokens::proofs::Chains::part_fails))]
pub fn read(alloc: Global, bytes: &[u8]) -> Result<MaxTwoSat, ReadModelError>
    requires { length bytes.now < 2 ^ 32 - 1 }
    ensures { Reads instance_in result (instance_at (text_start LetterC bytes.now)) }
{
    let mut tokens = Tokens::new(bytes, Comment::LetterC);
    let header = read_header(&mut tokens)?;
    let mut draft = Draft::new(alloc, header.variables)?;
    read_clauses(&mut tokens, header, &mut draft)?;
    if !ends_clauses(&tokens) {
        return Err(fault_here(InstanceFault::Count, &tokens));
    }
    Ok(MaxTwoSat::of_draft(draft))
}
