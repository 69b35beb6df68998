//! The problem's own words: a truth value for each variable, and the weight of the clauses that it satisfies.

ghost use Rattle.std.specs.Prelude.{◌≡◌, ◌^◌, ◌≤◌, ◌==◌, ◌&&◌, pos, ◌≤ℤ◌, length, IsTrue};
ghost use Rattle.pair_rows.specs.OwnWords.{are_binary};
ghost use Rattle.pair_rows.specs.Pairs.{pair_count, rows_of};
ghost use Rattle.max_two_sat.specs.Instance.{pair_total, pairs_total, units_total};
ghost use Rattle.max_two_sat.specs.Limits.{PairIsPositive, pairs_are_positive, units_are_positive};
ghost use Rattle.max_two_sat.specs.Shown.{instance_in};
ghost use Rattle.max_two_sat.specs.OwnWords.{own_value, pair_left, pair_value, row_value, rows_value, unit_value, units_value};
ghost use Rattle.dp_model.specs.Solution.{SolutionGives};
ghost use Rattle.pair_rows.specs.Program.{program_of};
ghost use Rattle.max_two_sat.specs.Program.{rows_in};

use crate::instance::MaxTwoSat;
use crate::weights::{PairWeights, UnitWeights};
use pair_problem::are_binary;
use pair_rows::row_of;

/// The weight of the satisfied clauses, where the decisions give each variable 0 (false) or 1 (true). `None` exactly where they do
/// not. Such lists are the feasible solutions of the program, with this value.
pub fn value_of(model: &MaxTwoSat, decisions: &[u32]) -> Option<i64>
    ensures own_words { result ≡ own_value (instance_in model.now) decisions.now }
    ensures solution { SolutionGives (program_of (rows_in (instance_in model.now))) decisions.now result }
{
    let units = model.units.as_slice();
    if !is_assignment(units.len(), decisions) {
        return None;
    }
    let units_part = value_of_units(units, decisions);
    let pairs_part = value_of_pairs(model.pairs.as_slice(), decisions);
    Some(model.tautologies + (units_part + pairs_part))
}

/// Whether there is a truth value for each variable.
fn is_assignment(variables: usize, values: &[u32]) -> bool
    ensures { result ≡ ((length values.now == variables) && are_binary values.now) }
{
    values.len() == variables && are_binary(values)
}

/// The satisfied weight of the clauses with one literal.
fn value_of_units(units: &[UnitWeights], values: &[u32]) -> i64
    requires lengths { length values.now ≡ length units.now }
    requires positive { IsTrue (units_are_positive units.now) }
    requires weight { units_total units.now ≤ℤ pos (2 ^ 48) }
    ensures value { result ≡ units_value units.now values.now }
    ensures low { pos 0 ≤ℤ result }
    ensures high { result ≤ℤ units_total units.now }
{
    let mut total = 0;
    for i in 0..units.len() {
        total += value_of_unit(units[i], values[i]);
    }
    total
}

/// The satisfied weight of the clauses with one literal on a variable.
pub(crate) fn value_of_unit(unit: UnitWeights, value: u32) -> i64
    ensures { result ≡ unit_value unit value }
{
    if value == 0 {
        unit.negative
    } else {
        unit.positive
    }
}

/// The satisfied weight of the clauses on two variables.
fn value_of_pairs(pairs: &[PairWeights], values: &[u32]) -> i64
    requires few { length values.now ≤ 1024 }
    requires pairs { length pairs.now ≡ pair_count (length values.now) }
    requires positive { IsTrue (pairs_are_positive pairs.now) }
    requires weight { pairs_total pairs.now ≤ℤ pos (2 ^ 48) }
    ensures value { result ≡ rows_value (rows_of (length values.now) pairs.now) values.now }
    ensures low { pos 0 ≤ℤ result }
    ensures high { result ≤ℤ pairs_total pairs.now }
{
    let mut total = 0;
    for k in 0..values.len() {
        let row = row_of(pairs, values.len(), k);
        total += value_of_row(row, values[k], &values[k + 1..]);
    }
    total
}

/// The satisfied weight of the clauses on a variable and a later one.
fn value_of_row(row: &[PairWeights], value: u32, later: &[u32]) -> i64
    requires lengths { length row.now ≡ length later.now }
    requires positive { IsTrue (pairs_are_positive row.now) }
    requires weight { pairs_total row.now ≤ℤ pos (2 ^ 48) }
    ensures value { result ≡ row_value row.now value later.now }
    ensures low { pos 0 ≤ℤ result }
    ensures high { result ≤ℤ pairs_total row.now }
{
    let mut total = 0;
    for i in 0..row.len() {
        total += value_of_pair(row[i], value, later[i]);
    }
    total
}

/// The satisfied weight of the clauses on two variables.
pub(crate) fn value_of_pair(pair: PairWeights, first: u32, second: u32) -> i64
    requires positive { PairIsPositive pair }
    requires weight { pair_total pair ≤ℤ pos (2 ^ 48) }
    ensures { result ≡ pair_value pair first second }
{
    pair_sum(pair) - unsatisfied(pair, first, second)
}

/// The weight of the clauses of which both literals are false.
fn unsatisfied(pair: PairWeights, first: u32, second: u32) -> i64
    ensures { result ≡ pair_left pair first second }
{
    if first == 0 {
        if second == 0 { pair.both } else { pair.first }
    } else {
        if second == 0 {
            pair.second
        } else {
            pair.neither
        }
    }
}

/// What all clauses on two variables weigh.
pub(crate) fn pair_sum(pair: PairWeights) -> i64
    requires positive { PairIsPositive pair }
    requires weight { pair_total pair ≤ℤ pos (2 ^ 48) }
    ensures { result ≡ pair_total pair }
{
    (pair.both + pair.first) + (pair.second + pair.neither)
}
