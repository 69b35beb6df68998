use crate::instance::MaxTwoSat;
use dp_model::OutOfMemory;
use pair_problem::PairProblem;
use pair_rows::PairRows;
use problem_theory::ReadInstanceError;
use std::alloc::Global;

#[tactic(auto, using(problem_theory::proofs::Readings::reads_numbers, problem_theory::proofs::Readings::drawn_numbers, problem_theory::proofs::Readings::spelled_numbers, crate::specs::Laws::Numbers::reads_numbers))]
impl PairProblem for MaxTwoSat {
    ghost use Rattle.std.specs.Prelude.{refl};
    ghost use Rattle.max_two_sat.specs.Numbers.{numbers_of};
    ghost use Rattle.max_two_sat.specs.Program.{listed};
    ghost use Rattle.max_two_sat.specs.Shown.{instance_in};
    ghost use Rattle.max_two_sat.specs.Theory.{sat_theory, sat_kept, sat_agrees};

    ghost numbers = { λ m. numbers_of (instance_in m) };

    ghost listed = { listed };

    ghost theory = { sat_theory };

    ghost kept = { λ m. sat_kept (instance_in m) m.kept };

    ghost same_program = { λ _. refl };

    ghost agrees = { λ m. sat_agrees (instance_in m) m.kept };

    fn rows(alloc: Global, problem: &MaxTwoSat) -> Result<PairRows, OutOfMemory> {
        crate::listing::rows_of(alloc, problem)
    }

    fn read(alloc: Global, bytes: &[u8]) -> Result<MaxTwoSat, ReadInstanceError> {
        Ok(crate::reading::read(alloc, bytes)?)
    }

    fn print(alloc: Global, problem: &MaxTwoSat) -> Result<Vec<u8>, OutOfMemory> {
        crate::printing::print(alloc, problem)
    }

    fn value_of(problem: &MaxTwoSat, decisions: &[u32]) -> Option<i64> {
        crate::value::value_of(problem, decisions)
    }

    fn generate(alloc: Global, n: u32, seed: u32) -> Result<MaxTwoSat, OutOfMemory> {
        crate::generating::generate(alloc, n, seed)
    }
}
