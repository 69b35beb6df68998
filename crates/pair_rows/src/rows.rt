//! What is made once of an instance.

ghost use Rattle.std.specs.Prelude.{◌≡◌, suc, ◌+◌, ◌-◌, ◌^◌, ◌<◌, ◌≤◌, ◌≤ℤ◌, ◌+ℤ◌, pos, length, take, drop, IsTrue, IfOk};
ghost use Rattle.pair_rows.specs.Pairs.{pair_count, row_at, rows_of, entries_before};
ghost use Rattle.pair_rows.specs.Instance.{units_most};
ghost use Rattle.pair_rows.specs.Limits.{IsInstance, units_fit};
ghost use Rattle.pair_rows.specs.Shifts.{AreShifts, change_of, shifts_of, stakes_of};
ghost use Rattle.pair_rows.specs.Table.{later_totals, limits_through};
ghost use Rattle.pair_rows.specs.Program.{lesser_units, limits_at, root_of, words_of};
ghost use Rattle.pair_rows.specs.Laws.Totals.{none_negative};

use crate::limits::{LayerLimits, limits_in, limits_of_layers};
use crate::row::{lesser_sum, write_root};
use crate::shifts::Shifts;
use crate::source::PairInstance;
use crate::sums::sums_from;
use crate::values::UnitValues;
use std::alloc::{AllocError, Global};
use std::snapshot::Snapshot;

/// The rows of an instance, as its dynamic program uses them.
#[derive(Drop)]
pub struct PairRows {
    /// The instance. Contracts alone use it: it takes no bytes.
    pub(crate) source: Snapshot<PairInstance>,
    pub(crate) variables: usize,
    pub(crate) first: u32,
    pub(crate) root: Vec<i64>,
    pub(crate) root_value: i64,
    /// For each layer, and for the end, what the pairs from it on give at most.
    pub(crate) later: Vec<i64>,
    /// What the decision for 0 does, and what that for 1 does.
    pub(crate) on_false: Shifts,
    pub(crate) on_true: Shifts,
    /// For each layer, and for the end, how large the benefits of a state may be.
    pub(crate) limits: Vec<LayerLimits>,
    ghost kept: { IsInstance (record { constant = source.value.constant; first = source.value.first; units = source.value.units.items; pairs = source.value.pairs.items }) },
    ghost counted: { variables ≡ length source.value.units.items },
    ghost firsts: { first ≡ source.value.first },
    ghost rooted: { root.items ≡ root_of source.value.units.items },
    ghost valued: { root_value ≡ source.value.constant +ℤ lesser_units source.value.units.items },
    ghost summed: { later.items ≡ later_totals (rows_of (length source.value.units.items) source.value.pairs.items) },
    ghost false_shifts: { AreShifts 0 (length source.value.units.items) source.value.pairs.items on_false.cells.items on_false.stakes.items on_false.changes.items },
    ghost true_shifts: { AreShifts 1 (length source.value.units.items) source.value.pairs.items on_true.cells.items on_true.stakes.items on_true.changes.items },
    ghost limited: { limits.items ≡ limits_through source.value.units.items source.value.pairs.items (length source.value.units.items) },
}

impl PairRows {
    ghost use Rattle.pair_rows.specs.Shown.{instance_in, instance_of};

    /// The rows of an instance. Fails only for want of memory.
    pub fn prepared(alloc: Global, source: &PairInstance) -> Result<PairRows, AllocError>
        requires { IsInstance (instance_of source.now) }
        ensures { IfOk result (λ rows. instance_in rows ≡ instance_of source.now) }
    {
        let units = source.units.as_slice();
        let pairs = source.pairs.as_slice();
        let variables = units.len();
        let root = root_row(alloc, units)?;
        let root_value = source.constant + lesser_sum(units);
        let later = sums_from(alloc, variables, pairs)?;
        let on_false = Shifts::of_decision(alloc, variables, pairs, 0)?;
        let on_true = Shifts::of_decision(alloc, variables, pairs, 1)?;
        let limits = limits_of_layers(alloc, units, pairs)?;
        Ok(PairRows {
            source: Snapshot::of(source),
            variables,
            first: source.first,
            root,
            root_value,
            later,
            on_false,
            on_true,
            limits,
        })
    }

    /// What a decision does to the later variables.
    fn of_decision(&self, d: u32) -> &Shifts
        requires { d < 2 }
        ensures { AreShifts d (length (instance_in self.now).units) (instance_in self.now).pairs result.now.cells.items result.now.stakes.items result.now.changes.items }
    {
        if d == 0 {
            &self.on_false
        } else {
            &self.on_true
        }
    }

    /// How far a decision of variable `k` shifts the benefit of each later one.
    pub(crate) fn shifts(&self, k: usize, d: u32) -> &[i64]
        requires variable { k < length (instance_in self.now).units }
        requires decision { d < 2 }
        ensures { result.now ≡ shifts_of d (row_at (rows_of (length (instance_in self.now).units) (instance_in self.now).pairs) k) }
    {
        part_of_row(self.of_decision(d).cells.as_slice(), self.variables, k)
    }

    /// What the pairs of variable `k` with later ones give on both sides of these.
    pub(crate) fn stakes(&self, k: usize, d: u32) -> i64
        requires variable { k < length (instance_in self.now).units }
        requires decision { d < 2 }
        ensures { result ≡ stakes_of d (row_at (rows_of (length (instance_in self.now).units) (instance_in self.now).pairs) k) }
    {
        self.of_decision(d).stakes[k]
    }

    /// What the shifts of a decision of variable `k` add to the hash of a state.
    pub(crate) fn change(&self, k: usize, d: u32) -> i64
        requires variable { k < length (instance_in self.now).units }
        requires decision { d < 2 }
        ensures { result ≡ change_of (shifts_of d (row_at (rows_of (length (instance_in self.now).units) (instance_in self.now).pairs) k)) }
    {
        self.of_decision(d).changes[k]
    }

    /// How large the benefits of a state of layer `k` may be, from variable `k` on.
    pub(crate) fn limits(&self, k: usize) -> &[i64]
        requires { k ≤ length (instance_in self.now).units }
        ensures limits { result.now ≡ limits_at (instance_in self.now).units (instance_in self.now).pairs k }
        ensures positive { IsTrue (none_negative result.now) }
        ensures cells { length result.now + k ≡ words_of (length (instance_in self.now).units) }
    {
        limits_in(self.limits.as_slice(), k)
    }
}

/// The root state.
fn root_row(alloc: Global, units: &[UnitValues]) -> Result<Vec<i64>, AllocError>
    requires fit { IsTrue (units_fit units.now) }
    requires weight { units_most units.now ≤ℤ pos (2 ^ 48) }
    ensures { IfOk result (λ root. root.items ≡ root_of units.now) }
{
    let mut root = vec![in alloc; 0i64; words_for(units)]?;
    write_root(units, root.as_mut_slice());
    Ok(root)
}

/// How many cells a state has.
fn words_for(units: &[UnitValues]) -> usize
    ensures { result ≡ words_of (length units.now) }
{
    units.len().max(1)
}

/// What belongs to variable `k` with each later one, among what belongs to all pairs of at most 1,024 variables.
pub fn row_of<T>(entries: &[T], variables: usize, k: usize) -> &[T]
    requires few { variables ≤ 1024 }
    requires whole { length entries.now ≡ pair_count variables }
    requires variable { k < variables }
    ensures { result.now ≡ row_at (rows_of variables entries.now) k }
{
    part_of_row(entries, variables, k)
}

/// The same, as a part of the list.
fn part_of_row<T>(entries: &[T], variables: usize, k: usize) -> &[T]
    requires few { variables ≤ 1024 }
    requires whole { length entries.now ≡ pair_count variables }
    requires variable { k < variables }
    ensures { result.now ≡ take (variables - suc k) (drop (entries_before variables k) entries.now) }
{
    let start = start_of_row(variables, k);
    let end = start + (variables - k - 1);
    &entries[start..end]
}

/// How many entries stand before the row of variable `k`.
pub fn start_of_row(variables: usize, k: usize) -> usize
    requires few { variables ≤ 1024 }
    requires variable { k ≤ variables }
    ensures { result ≡ entries_before variables k }
{
    k * variables - k * (k + 1) / 2
}
