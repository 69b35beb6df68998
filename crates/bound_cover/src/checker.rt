//! The checker of covers: what `check_rows` and `check` need beside a cover and a model.

ghost use Rattle.std.specs.Prelude.{◌≡◌, ◌<◌, ◌-◌, ◌^◌, pos, IfOk, length};
ghost use Rattle.dp_model.specs.Distances.{IsDistance};
ghost use Rattle.bound_cover.specs.Verdicts.{checked_rows, verdict};
ghost use Rattle.bound_cover.specs.InTurn.{begun, taken, concluded};
ghost use Rattle.bound_cover.specs.Proved.{IsReportedBest, IsReportedWithin};
ghost use Rattle.bound_cover.specs.declared.cover.Verdict.TheVariants.{Accepted};

use crate::checks::{Reported, check, check_rows, claim_of, solution_fault};
use crate::cover::{Verdict, Why};
use crate::layer_tests::{LayerTests, last_fault, layer_fault};
use crate::storing::Cover;
use dp_model::{DpModel, OutOfMemory};
use std::alloc::Global;
use std::marker::Model;
use std::mem;

/// Room for two states of a model, so that checking takes no memory.
#[derive(Debug, Drop)]
pub struct Checker {
    root: Vec<i64>,
    step: Vec<i64>,
}

impl Model for Checker {
    ghost use Rattle.std.specs.Prelude.{◌≡◌, vec_len};
    ghost use Rattle.bound_cover.specs.Checkers.{CheckerView};

    ghost Value = { CheckerView };

    ghost view = { λ c. record { words = vec_len c.root } };

    ghost invariant = { λ c. vec_len c.step ≡ vec_len c.root };
}

impl Checker {
    /// A checker for covers of the model. It fails only for want of memory.
    pub fn prepare<M: DpModel>(alloc: Global, model: &M) -> Result<Checker, OutOfMemory>
        ensures { IfOk result (λ c. c.words ≡ (M.meaning (M.numbers model.now)).words) }
    {
        let words = model.words();
        let root = vec![in alloc; 0; words]?;
        let step = vec![in alloc; 0; words]?;
        Ok(Checker { root, step })
    }

    /// The first failing test of the rows, where the assignment and its value are left out and `claim` stands for the best value;
    /// `None` exactly where no test fails. A claim of `None` says that there is no feasible solution.
    ///
    /// The checker was prepared for the model. It takes no memory.
    pub fn check_rows<M: DpModel>(
        &mut self,
        model: &M,
        claim: Option<i64>,
        cover: &Cover,
    ) -> Option<Why>
        requires { self.old.words ≡ (M.meaning (M.numbers model.now)).words }
        ensures why { result ≡ checked_rows (M.meaning (M.numbers model.now)) claim cover.now }
        ensures same { self.new ≡ self.old }
    {
        check_rows(model, claim, cover, &mut self.root, &mut self.step)
    }

    /// The verdict on a cover with its reported value, distance and assignment: accepted, or refused by the first test that
    /// fails. Where it is accepted, the assignment is a feasible solution of that value, and the greatest value of all feasible
    /// solutions is at most `within` above it: with a distance of 0 it is the value. Where no value is reported, there is no
    /// feasible solution.
    ///
    /// The checker was prepared for the model, and `reported.within` is a distance. It takes no memory.
    pub fn check<M: DpModel>(&mut self, model: &M, reported: Reported<'_>, cover: &Cover) -> Verdict
        requires prepared { self.old.words ≡ (M.meaning (M.numbers model.now)).words }
        requires distance { IsDistance reported.within }
        ensures verdict { result ≡ verdict (M.meaning (M.numbers model.now)) reported.entry.best reported.entry.within reported.entry.assignment.now cover.now }
        ensures near { result ≡ Accepted → IsReportedWithin (M.meaning (M.numbers model.now)) reported.entry.assignment.now reported.entry.best reported.entry.within }
        ensures sound { result ≡ Accepted → reported.entry.within ≡ pos 0 → IsReportedBest (M.meaning (M.numbers model.now)) reported.entry.assignment.now reported.entry.best }
        ensures same { self.new ≡ self.old }
    {
        check(model, reported, cover, &mut self.root, &mut self.step)
    }

    /// Begins the tests of a cover whose layers come one after another: tests the assignment and its value.
    ///
    /// The checker was prepared for the model, and `reported.within` is a distance. It takes no memory.
    pub fn begin<M: DpModel>(
        &mut self,
        alloc: Global,
        model: &M,
        reported: Reported<'_>,
    ) -> LayerTests
        requires prepared { self.old.words ≡ (M.meaning (M.numbers model.now)).words }
        requires distance { IsDistance reported.within }
        ensures begun { result ≡ begun (M.meaning (M.numbers model.now)) reported.entry.best reported.entry.within reported.entry.assignment.now }
        ensures same { self.new ≡ self.old }
    {
        let Reported {
            best,
            within,
            assignment,
        } = reported;
        let why = solution_fault(model, best, assignment, &mut self.root, &mut self.step);
        let claim = match why {
            None => claim_of(best, within),
            Some(_) => None,
        };
        LayerTests {
            claim,
            count: 0,
            here: Cover::new(alloc),
            why,
        }
    }

    /// Takes the next layer, the first one of a cover, and tests what can be tested then: the very first layer for the root, and
    /// after it the rows of the layer before. That layer is given back, so that its memory can be used again.
    ///
    /// The checker was prepared for the model. It takes no memory.
    pub fn take_layer<M: DpModel>(
        &mut self,
        model: &M,
        tests: &mut LayerTests,
        next: Cover,
    ) -> Cover
        requires prepared { self.old.words ≡ (M.meaning (M.numbers model.now)).words }
        requires few { tests.old.count < 2 ^ 64 - 1 }
        ensures taken { tests.new ≡ taken (M.meaning (M.numbers model.now)) tests.old next }
        ensures same { self.new ≡ self.old }
    {
        if tests.why.is_none() {
            tests.why = layer_fault(model, tests, &next, &mut self.root, &mut self.step);
        }
        tests.count += 1;
        mem::replace(&mut tests.here, next)
    }

    /// The verdict after the last layer: that of `check` on all layers.
    ///
    /// The checker was prepared for the model. It takes no memory.
    pub fn conclude<M: DpModel>(&mut self, model: &M, tests: &LayerTests) -> Verdict
        requires prepared { self.old.words ≡ (M.meaning (M.numbers model.now)).words }
        ensures verdict { result ≡ concluded (M.meaning (M.numbers model.now)) tests.now }
        ensures same { self.new ≡ self.old }
    {
        if tests.count != model.vars() + 1 {
            return Verdict::Refused(Why::Layers);
        }
        if let Some(why) = tests.why {
            return Verdict::Refused(why);
        }
        match last_fault(model, &tests.here, &mut self.step) {
            None => Verdict::Accepted,
            Some(why) => Verdict::Refused(why),
        }
    }
}
