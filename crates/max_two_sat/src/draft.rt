ghost use Rattle.std.specs.Prelude.{◌≡◌, ◌^◌, ◌+◌, ◌<◌, ◌≤◌, pos, ◌+ℤ◌, ◌≤ℤ◌, length, IfOk};
ghost use Rattle.max_two_sat.specs.Instance.{pair_total, unit_total};
ghost use Rattle.max_two_sat.specs.Limits.{PairIsPositive, UnitIsPositive};
ghost use Rattle.max_two_sat.specs.Clauses.{FitsLiteral, FitsLiterals, gathered_with, heavier_pair, heavier_unit, nothing_gathered, same_sign, with_pair, with_two, with_unit};
ghost use Rattle.max_two_sat.specs.Room.{HasClauseRoom};
ghost use Rattle.max_two_sat.specs.Drafted.{gathered_in, instance_gathered};

use crate::clause::{Literal, Literals};
use crate::weights::{PairWeights, UnitWeights};
use pair_problem::{count_of_pairs, place_of_pair};
use std::alloc::{AllocError, Global};

/// An instance while its clauses are read.
#[derive(Drop)]
pub(crate) struct Draft {
    pub(crate) tautologies: i64,
    pub(crate) units: Vec<UnitWeights>,
    pub(crate) pairs: Vec<PairWeights>,
    /// What the clauses weigh, those without literals too.
    pub(crate) total: i64,
    /// How many clauses there are.
    pub(crate) clauses: u64,
}

impl Draft {
    /// An instance of this many variables, without clauses.
    pub(crate) fn new(alloc: Global, variables: usize) -> Result<Draft, AllocError>
        requires { variables ≤ 1024 }
        ensures { IfOk result (λ d. gathered_in d ≡ nothing_gathered variables) }
    {
        let units = vec![in alloc; UnitWeights::NONE; variables]?;
        let pairs = vec![in alloc; PairWeights::NONE; count_of_pairs(variables)]?;
        Ok(Draft {
            tautologies: 0,
            units,
            pairs,
            total: 0,
            clauses: 0,
        })
    }

    /// Adds a clause.
    pub(crate) fn add(&mut self, weight: i64, literals: Literals)
        requires room { HasClauseRoom (instance_gathered self.old) weight }
        requires variables { FitsLiterals (length self.old.units.items) literals }
        requires total { (self.old.total +ℤ weight) ≤ℤ pos (2 ^ 48) }
        requires low { pos 0 ≤ℤ self.old.total }
        requires clauses { self.old.clauses < 2 ^ 20 }
        ensures { gathered_in self.new ≡ gathered_with (gathered_in self.old) weight literals }
    {
        self.total += weight;
        self.clauses += 1;
        match literals {
            Literals::Empty => {}
            Literals::One(a) => self.add_unit(weight, a),
            Literals::Two(a, b) => self.add_two(weight, a, b),
        }
    }

    fn add_two(&mut self, weight: i64, a: Literal, b: Literal)
        requires room { HasClauseRoom (instance_gathered self.old) weight }
        requires first { FitsLiteral (length self.old.units.items) a }
        requires second { FitsLiteral (length self.old.units.items) b }
        ensures instance { instance_gathered self.new ≡ with_two (instance_gathered self.old) weight a b }
        ensures total { self.new.total ≡ self.old.total }
        ensures clauses { self.new.clauses ≡ self.old.clauses }
    {
        if a.variable == b.variable {
            if has_same_sign(a, b) {
                self.add_unit(weight, a);
            } else {
                self.tautologies += weight;
            }
        } else if a.variable < b.variable {
            self.add_pair(weight, a, b);
        } else {
            self.add_pair(weight, b, a);
        }
    }

    fn add_unit(&mut self, weight: i64, a: Literal)
        requires room { HasClauseRoom (instance_gathered self.old) weight }
        requires variable { FitsLiteral (length self.old.units.items) a }
        ensures instance { instance_gathered self.new ≡ with_unit (instance_gathered self.old) weight a }
        ensures total { self.new.total ≡ self.old.total }
        ensures clauses { self.new.clauses ≡ self.old.clauses }
    {
        self.units[a.variable] = unit_with(self.units[a.variable], a.positive, weight);
    }

    /// Adds a clause on two variables, of which that of `a` is the lesser.
    fn add_pair(&mut self, weight: i64, a: Literal, b: Literal)
        requires room { HasClauseRoom (instance_gathered self.old) weight }
        requires lesser { a.variable < b.variable }
        requires variable { FitsLiteral (length self.old.units.items) b }
        ensures instance { instance_gathered self.new ≡ with_pair (instance_gathered self.old) weight a b }
        ensures total { self.new.total ≡ self.old.total }
        ensures clauses { self.new.clauses ≡ self.old.clauses }
    {
        let place = place_of_pair(self.units.len(), a.variable, b.variable);
        self.pairs[place] = pair_with(self.pairs[place], a.positive, b.positive, weight);
    }
}

fn has_same_sign(a: Literal, b: Literal) -> bool
    ensures { result ≡ same_sign a.positive b.positive }
{
    a.positive == b.positive
}

/// The unit weights with a weight added at a sign.
fn unit_with(unit: UnitWeights, positive: bool, weight: i64) -> UnitWeights
    requires positive { UnitIsPositive unit }
    requires low { pos 0 ≤ℤ weight }
    requires room { (unit_total unit +ℤ weight) ≤ℤ pos (2 ^ 48) }
    ensures { result ≡ heavier_unit unit positive weight }
{
    if positive {
        UnitWeights {
            positive: unit.positive + weight,
            negative: unit.negative,
        }
    } else {
        UnitWeights {
            positive: unit.positive,
            negative: unit.negative + weight,
        }
    }
}

/// The weights of a pair with a weight added at the signs of both literals.
fn pair_with(pair: PairWeights, first: bool, second: bool, weight: i64) -> PairWeights
    requires positive { PairIsPositive pair }
    requires low { pos 0 ≤ℤ weight }
    requires room { (pair_total pair +ℤ weight) ≤ℤ pos (2 ^ 48) }
    ensures { result ≡ heavier_pair pair first second weight }
{
    let mut heavier = pair;
    match (first, second) {
        (true, true) => heavier.both += weight,
        (true, false) => heavier.first += weight,
        (false, true) => heavier.second += weight,
        (false, false) => heavier.neither += weight,
    }
    heavier
}
