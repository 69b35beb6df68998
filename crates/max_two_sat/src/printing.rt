//! The canonical text of an instance.

ghost use Rattle.std.specs.Prelude.{◌≡◌, ◌^◌, ◌≤◌, ◌++◌, length, IfOk, OnOk, Ok};
ghost use Rattle.std.specs.List.{flat_map};
ghost use Rattle.tokens.specs.Text.{text_start};
ghost use Rattle.tokens.specs.declared.comment.Comment.TheVariants.{LetterC};
ghost use Rattle.pair_rows.specs.Pairs.{rows_of};
ghost use Rattle.max_two_sat.specs.Texts.{instance_at};
ghost use Rattle.max_two_sat.specs.Lines.{rows_lines};
ghost use Rattle.max_two_sat.specs.Shown.{instance_in};
ghost use Rattle.max_two_sat.specs.Printed.{first_line_of, line_of, text_of};

use crate::clause::{Literal, Literals};
use crate::instance::MaxTwoSat;
use crate::lines::{count_pairs, count_units, push_clause, push_row, push_units, weighs};
use pair_rows::row_of;
use std::alloc::{AllocError, Global};
use tokens::{push_number, push_text};

/// The canonical text, which reads as the instance: `p wcnf V C`, then a line for each weight above 0. The tautologies stand first, as
/// clauses on the first variable and its negation, then by variable those of the positive and of the negative literal, then by pair
/// `i < j` those of the four signs.
pub fn print(alloc: Global, model: &MaxTwoSat) -> Result<Vec<u8>, AllocError>
    ensures text { IfOk result (λ v. v.items ≡ text_of (instance_in model.now)) }
    ensures short { IfOk result (λ v. length v.items ≤ 2 ^ 30) }
    ensures reads_back { IfOk result (λ v. instance_at (text_start LetterC v.items) ≡ Ok (instance_in model.now)) }
{
    let text = printed(alloc, model)?;
    Ok(text)
}

/// Makes the canonical text.
fn printed(alloc: Global, model: &MaxTwoSat) -> Result<Vec<u8>, AllocError>
    ensures { IfOk result (λ v. v.items ≡ text_of (instance_in model.now)) }
{
    let mut out = Vec::new(alloc);
    push_first_line(&mut out, model)?;
    let first = Literal {
        variable: 0,
        positive: true,
    };
    let not_first = Literal {
        variable: 0,
        positive: false,
    };
    push_clause(&mut out, model.tautologies, Literals::Two(first, not_first))?;
    push_units(&mut out, model.units.as_slice())?;
    push_rows(&mut out, model)?;
    Ok(out)
}

/// Appends the first line.
#[tactic(auto, unfolding(crate::specs::Printed::first_line_of))]
fn push_first_line(out: &mut Vec<u8>, model: &MaxTwoSat) -> Result<(), AllocError>
    ensures { OnOk result (out.new.items ≡ out.old.items ++ first_line_of (instance_in model.now)) }
{
    let units = count_units(model.units.as_slice());
    let pairs = count_pairs(model.pairs.as_slice());
    let clauses = weighs(model.tautologies) + (units + pairs);
    push_text(out, "p wcnf ")?;
    push_number(out, model.units.as_slice().len() as i64)?;
    push_text(out, " ")?;
    push_number(out, clauses as i64)?;
    push_text(out, "\n")
}

/// Appends the lines of the clauses on two variables.
fn push_rows(out: &mut Vec<u8>, model: &MaxTwoSat) -> Result<(), AllocError>
    ensures { OnOk result (out.new.items ≡ out.old.items ++ flat_map line_of (rows_lines 0 (rows_of (length model.now.units.items) model.now.pairs.items))) }
{
    let variables = model.units.as_slice().len();
    for k in 0..variables {
        push_row(out, k, row_of(model.pairs.as_slice(), variables, k))?;
    }
    Ok(())
}
