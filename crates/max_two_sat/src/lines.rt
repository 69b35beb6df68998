//! The lines of a canonical text.

ghost use Rattle.std.specs.Prelude.{◌≡◌, ◌+◌, ◌*◌, ◌^◌, ◌<◌, ◌≤◌, ◌++◌, length, OnOk};
ghost use Rattle.std.specs.List.{flat_map};
ghost use Rattle.max_two_sat.specs.Clauses.{FitsLiteral, FitsLiterals};
ghost use Rattle.max_two_sat.specs.Lines.{clause_where, pair_lines, pair_weighing, pairs_weighing, row_lines, unit_lines, unit_weighing, units_lines, units_weighing, weighs};
ghost use Rattle.max_two_sat.specs.Printed.{line_of, literal_text, literals_text, number_of_literal};

use crate::clause::{Literal, Literals};
use crate::weights::{PairWeights, UnitWeights};
use std::alloc::AllocError;
use tokens::{push_number, push_text};

/// How many of the unit weights are above zero.
pub(crate) fn count_units(units: &[UnitWeights]) -> usize
    requires { units_weighing units.now ≤ 2 ^ 20 }
    ensures { result ≡ units_weighing units.now }
{
    units.iter().map(|unit| lines_of_unit(*unit)).sum()
}

/// How many of the weights of pairs are above zero.
pub(crate) fn count_pairs(pairs: &[PairWeights]) -> usize
    requires { pairs_weighing pairs.now ≤ 2 ^ 20 }
    ensures { result ≡ pairs_weighing pairs.now }
{
    pairs.iter().map(|pair| lines_of_pair(*pair)).sum()
}

fn lines_of_unit(unit: UnitWeights) -> usize
    ensures { result ≡ unit_weighing unit }
{
    weighs(unit.positive) + weighs(unit.negative)
}

fn lines_of_pair(pair: PairWeights) -> usize
    ensures { result ≡ pair_weighing pair }
{
    (weighs(pair.both) + weighs(pair.first)) + (weighs(pair.second) + weighs(pair.neither))
}

/// 1 where the weight is above zero, else 0.
pub(crate) fn weighs(weight: i64) -> usize
    ensures lines { result ≡ weighs weight }
    ensures few { result ≤ 1 }
{
    if weight > 0 { 1 } else { 0 }
}

/// Appends the lines of the clauses with one literal, for the variables from `v` on.
pub(crate) fn push_units(out: &mut Vec<u8>, units: &[UnitWeights]) -> Result<(), AllocError>
    requires { length units.now ≤ 1024 }
    ensures { OnOk result (out.new.items ≡ out.old.items ++ flat_map line_of (units_lines 0 units.now)) }
{
    for v in 0..units.len() {
        push_unit(out, v, units[v])?;
    }
    Ok(())
}

fn push_unit(out: &mut Vec<u8>, variable: usize, unit: UnitWeights) -> Result<(), AllocError>
    requires { variable < 1024 }
    ensures { OnOk result (out.new.items ≡ out.old.items ++ flat_map line_of (unit_lines variable unit)) }
{
    let yes = Literal {
        variable,
        positive: true,
    };
    let no = Literal {
        variable,
        positive: false,
    };
    push_clause(out, unit.positive, Literals::One(yes))?;
    push_clause(out, unit.negative, Literals::One(no))?;
    Ok(())
}

/// Appends the lines of the clauses on `i` and a later variable.
pub(crate) fn push_row(out: &mut Vec<u8>, i: usize, row: &[PairWeights]) -> Result<(), AllocError>
    requires { i + 1 + length row.now ≤ 1024 }
    ensures { OnOk result (out.new.items ≡ out.old.items ++ flat_map line_of (row_lines i (i + 1) row.now)) }
{
    for index in 0..row.len() {
        push_pair(out, i, i + 1 + index, row[index])?;
    }
    Ok(())
}

fn push_pair(out: &mut Vec<u8>, i: usize, j: usize, pair: PairWeights) -> Result<(), AllocError>
    requires first { i < 1024 }
    requires second { j < 1024 }
    ensures { OnOk result (out.new.items ≡ out.old.items ++ flat_map line_of (pair_lines i j pair)) }
{
    let first = Literal {
        variable: i,
        positive: true,
    };
    let not_first = Literal {
        variable: i,
        positive: false,
    };
    let second = Literal {
        variable: j,
        positive: true,
    };
    let not_second = Literal {
        variable: j,
        positive: false,
    };
    push_clause(out, pair.both, Literals::Two(first, second))?;
    push_clause(out, pair.first, Literals::Two(first, not_second))?;
    push_clause(out, pair.second, Literals::Two(not_first, second))?;
    push_clause(out, pair.neither, Literals::Two(not_first, not_second))?;
    Ok(())
}

/// Appends the line of a clause, where it has weight.
pub(crate) fn push_clause(
    out: &mut Vec<u8>,
    weight: i64,
    literals: Literals,
) -> Result<(), AllocError>
    requires { FitsLiterals 1024 literals }
    ensures { OnOk result (out.new.items ≡ out.old.items ++ flat_map line_of (clause_where weight literals)) }
{
    if weight <= 0 {
        return Ok(());
    }
    push_number(out, weight)?;
    push_literals(out, literals)?;
    push_text(out, " 0\n")
}

fn push_literals(out: &mut Vec<u8>, literals: Literals) -> Result<(), AllocError>
    requires { FitsLiterals 1024 literals }
    ensures { OnOk result (out.new.items ≡ out.old.items ++ literals_text literals) }
{
    match literals {
        Literals::Empty => Ok(()),
        Literals::One(a) => push_literal(out, a),
        Literals::Two(a, b) => {
            push_literal(out, a)?;
            push_literal(out, b)
        }
    }
}

/// Appends a space and the number of a literal.
fn push_literal(out: &mut Vec<u8>, a: Literal) -> Result<(), AllocError>
    requires { FitsLiteral 1024 a }
    ensures { OnOk result (out.new.items ≡ out.old.items ++ literal_text a) }
{
    push_text(out, " ")?;
    push_number(out, number_of(a))
}

/// The number that writes a literal: the variable from 1, negative where it is negated.
fn number_of(a: Literal) -> i64
    requires { FitsLiteral 1024 a }
    ensures { result ≡ number_of_literal a }
{
    let number = a.variable as i64 + 1;
    if a.positive { number } else { -number }
}
