//! Instances that are made entry by entry.

ghost use Rattle.std.specs.Prelude.{◌≡◌, ◌^◌, ◌<◌, ◌≤◌, pos, neg_ℤ, ◌+ℤ◌, ◌≤ℤ◌, length, IfOk};
ghost use Rattle.std.specs.Int.{int_min};
ghost use Rattle.benefit_rows.specs.Benefits.{size_of};
ghost use Rattle.pair_rows.specs.Limits.{IsInstance, UnitFits, PairFits};
ghost use Rattle.pair_rows.specs.Shown.{instance_of};
ghost use Rattle.pair_problem.specs.Adding.{unit_sum, pair_sum, nothing_of, with_unit, with_pair, with_product, unit_weight, pair_weight};
ghost use Rattle.pair_problem.specs.Room.{HasRoom};

use crate::places::{count_of_pairs, place_of_pair};
use benefit_rows::{above_zero, below_zero, size};
use pair_rows::{PairInstance, PairValues, UnitValues};
use std::alloc::{AllocError, Global};

/// An instance of `variables` variables of two values, at most 1,024, that give nothing. Fails only for want of memory.
pub fn nothing_of(alloc: Global, variables: usize) -> Result<PairInstance, AllocError>
    requires { variables ≤ 1024 }
    ensures { IfOk result (λ list. instance_of list ≡ nothing_of variables) }
{
    let units = vec![in alloc; UnitValues::NONE; variables]?;
    let pairs = vec![in alloc; PairValues::NONE; count_of_pairs(variables)]?;
    Ok(PairInstance {
        constant: 0,
        first: 2,
        units,
        pairs,
    })
}

/// Adds what variable `a` gives.
pub fn add_unit(list: &mut PairInstance, a: usize, unit: UnitValues)
    requires kept { IsInstance (instance_of list.old) }
    requires variable { a < length (instance_of list.old).units }
    requires fits { UnitFits unit }
    requires small { unit.most ≤ℤ pos (2 ^ 48) }
    ensures { instance_of list.new ≡ with_unit (instance_of list.old) a unit }
{
    let sum = unit_sum(list.units[a], unit);
    list.units[a] = sum;
}

/// Adds what variables `a` and `b` give together, of which `a` is the lesser.
pub fn add_pair(list: &mut PairInstance, a: usize, b: usize, pair: PairValues)
    requires kept { IsInstance (instance_of list.old) }
    requires order { a < b }
    requires variable { b < length (instance_of list.old).units }
    requires fits { PairFits pair }
    requires small { pair.most ≤ℤ pos (2 ^ 48) }
    ensures { instance_of list.new ≡ with_pair (instance_of list.old) a b pair }
{
    let at = place_of_pair(list.units.len(), a, b);
    let sum = pair_sum(list.pairs[at], pair);
    list.pairs[at] = sum;
}

/// Adds a weight that counts where the variables `a` and `b` are 1. They may be the same, and `b` is not before `a`.
pub fn add_product(list: &mut PairInstance, a: usize, b: usize, weight: i64)
    requires { HasRoom (instance_of list.old) a b weight }
    ensures { instance_of list.new ≡ with_product (instance_of list.old) a b weight }
{
    list.constant = with_weight(list.constant, weight);
    if a == b {
        add_unit(list, a, unit_weight(weight));
    } else {
        add_pair(list, a, b, pair_weight(weight));
    }
}

/// A constant with a weight more, if that is negative.
fn with_weight(constant: i64, weight: i64) -> i64
    requires small { size_of weight ≤ℤ pos (2 ^ 48) }
    requires low { (neg_ℤ (pos (2 ^ 48)) +ℤ size_of weight) ≤ℤ constant }
    requires high { constant ≤ℤ pos (2 ^ 48) }
    ensures { result ≡ constant +ℤ int_min weight (pos 0) }
{
    constant + weight.min(0)
}

/// What a weight gives beyond its negative part, by one variable.
fn unit_weight(weight: i64) -> UnitValues
    requires { size_of weight ≤ℤ pos (2 ^ 50) }
    ensures { result ≡ unit_weight weight }
{
    UnitValues {
        if_no: below_zero(weight),
        if_yes: above_zero(weight),
        most: size(weight),
    }
}

/// What a weight gives beyond its negative part, by two variables.
fn pair_weight(weight: i64) -> PairValues
    requires { size_of weight ≤ℤ pos (2 ^ 50) }
    ensures { result ≡ pair_weight weight }
{
    PairValues {
        no_no: below_zero(weight),
        no_yes: below_zero(weight),
        yes_no: below_zero(weight),
        yes_yes: above_zero(weight),
        most: size(weight),
    }
}

/// What two entries of one variable give together.
fn unit_sum(u: UnitValues, v: UnitValues) -> UnitValues
    requires first { UnitFits u }
    requires second { UnitFits v }
    requires first_small { u.most ≤ℤ pos (2 ^ 48) }
    requires second_small { v.most ≤ℤ pos (2 ^ 48) }
    ensures { result ≡ unit_sum u v }
{
    UnitValues {
        if_no: u.if_no + v.if_no,
        if_yes: u.if_yes + v.if_yes,
        most: u.most + v.most,
    }
}

/// What two entries of one pair give together.
fn pair_sum(p: PairValues, q: PairValues) -> PairValues
    requires first { PairFits p }
    requires second { PairFits q }
    requires first_small { p.most ≤ℤ pos (2 ^ 48) }
    requires second_small { q.most ≤ℤ pos (2 ^ 48) }
    ensures { result ≡ pair_sum p q }
{
    PairValues {
        no_no: p.no_no + q.no_no,
        no_yes: p.no_yes + q.no_yes,
        yes_no: p.yes_no + q.yes_no,
        yes_yes: p.yes_yes + q.yes_yes,
        most: p.most + q.most,
    }
}
