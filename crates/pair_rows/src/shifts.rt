//! What each decision does to the later variables, made once of an instance.

ghost use Rattle.std.specs.Prelude.{◌≡◌, ◌^◌, ◌≤◌, length, map, pos, ◌≤ℤ◌, IfOk, IsTrue};
ghost use Rattle.pair_rows.specs.Pairs.{pair_count, rows_of};
ghost use Rattle.pair_rows.specs.Instance.{pair_most, pairs_most};
ghost use Rattle.pair_rows.specs.Limits.{PairFits, pairs_fit};
ghost use Rattle.pair_rows.specs.Program.{given_no, given_yes};
ghost use Rattle.pair_rows.specs.Shifts.{AreShifts, change_of, shift_of, shifts_of, stake_of, stakes_of};

use crate::hashes::polynomial;
use crate::rows::row_of;
use crate::values::PairValues;
use std::alloc::{AllocError, Global};

/// What one of the two decisions of each variable does to the later ones.
#[derive(Drop)]
pub(crate) struct Shifts {
    /// By pair: how far it shifts the benefit of the second variable.
    pub(crate) cells: Vec<i64>,
    /// By first variable: what it gives with later ones on both sides of these.
    pub(crate) stakes: Vec<i64>,
    /// By first variable: what it adds to the hash of a state.
    pub(crate) changes: Vec<i64>,
}

impl Shifts {
    /// The shifts of a decision.
    pub(crate) fn of_decision(
        alloc: Global,
        variables: usize,
        pairs: &[PairValues],
        d: u32,
    ) -> Result<Shifts, AllocError>
        requires few { variables ≤ 1024 }
        requires whole { length pairs.now ≡ pair_count variables }
        requires positive { IsTrue (pairs_fit pairs.now) }
        requires weight { pairs_most pairs.now ≤ℤ pos (2 ^ 48) }
        ensures { IfOk result (λ s. AreShifts d variables pairs.now s.cells.items s.stakes.items s.changes.items) }
    {
        let cells = cells_of(alloc, pairs, d)?;
        let stakes = stakes_of(alloc, variables, pairs, d)?;
        let changes = changes_of(alloc, variables, cells.as_slice())?;
        Ok(Shifts {
            cells,
            stakes,
            changes,
        })
    }
}

/// By pair, how far a decision shifts the benefit of the second variable.
fn cells_of(alloc: Global, pairs: &[PairValues], d: u32) -> Result<Vec<i64>, AllocError>
    requires positive { IsTrue (pairs_fit pairs.now) }
    requires weight { pairs_most pairs.now ≤ℤ pos (2 ^ 48) }
    ensures { IfOk result (λ v. v.items ≡ shifts_of d pairs.now) }
{
    let mut cells = Vec::with_capacity(alloc, pairs.len())?;
    for i in 0..pairs.len() {
        cells.push(shift(pairs[i], d))?;
    }
    Ok(cells)
}

/// How far a decision shifts the benefit of one later variable.
fn shift(pair: PairValues, d: u32) -> i64
    requires positive { PairFits pair }
    requires weight { pair_most pair ≤ℤ pos (2 ^ 48) }
    ensures { result ≡ shift_of d pair }
{
    let (yes_given, no_given) = both_sides(pair, d);
    yes_given - no_given
}

/// By first variable, what it gives with later ones on both sides of these.
fn stakes_of(
    alloc: Global,
    variables: usize,
    pairs: &[PairValues],
    d: u32,
) -> Result<Vec<i64>, AllocError>
    requires few { variables ≤ 1024 }
    requires whole { length pairs.now ≡ pair_count variables }
    requires positive { IsTrue (pairs_fit pairs.now) }
    requires weight { pairs_most pairs.now ≤ℤ pos (2 ^ 48) }
    ensures { IfOk result (λ v. v.items ≡ map (stakes_of d) (rows_of variables pairs.now)) }
{
    let mut stakes = Vec::with_capacity(alloc, variables)?;
    for k in 0..variables {
        stakes.push(row_stakes(row_of(pairs, variables, k), d))?;
    }
    Ok(stakes)
}

/// By first variable, what its shifts add to the hash of a state.
fn changes_of(alloc: Global, variables: usize, cells: &[i64]) -> Result<Vec<i64>, AllocError>
    requires few { variables ≤ 1024 }
    requires whole { length cells.now ≡ pair_count variables }
    ensures { IfOk result (λ v. v.items ≡ map change_of (rows_of variables cells.now)) }
{
    let mut changes = Vec::with_capacity(alloc, variables)?;
    for k in 0..variables {
        changes.push(polynomial(row_of(cells, variables, k)))?;
    }
    Ok(changes)
}

/// What a row gives on both sides of the later variables.
fn row_stakes(row: &[PairValues], d: u32) -> i64
    requires positive { IsTrue (pairs_fit row.now) }
    requires weight { pairs_most row.now ≤ℤ pos (2 ^ 48) }
    ensures { result ≡ stakes_of d row.now }
{
    let mut total = 0;
    for i in 0..row.len() {
        total += stake(row[i], d);
    }
    total
}

/// What an entry gives on both sides of the later variable.
fn stake(pair: PairValues, d: u32) -> i64
    requires positive { PairFits pair }
    requires weight { pair_most pair ≤ℤ pos (2 ^ 48) }
    ensures { result ≡ stake_of d pair }
{
    let (yes_given, no_given) = both_sides(pair, d);
    yes_given + no_given
}

/// What two variables give by the value of the first, where the second is 1 and where it is 0.
fn both_sides(pair: PairValues, d: u32) -> (i64, i64)
    ensures on_true { result.0 ≡ given_yes pair d }
    ensures on_false { result.1 ≡ given_no pair d }
{
    if d == 0 {
        (pair.no_yes, pair.no_no)
    } else {
        (pair.yes_yes, pair.yes_no)
    }
}
