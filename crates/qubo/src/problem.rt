use crate::instance::Qubo;
use dp_model::OutOfMemory;
use pair_problem::PairProblem;
use pair_rows::PairRows;
use problem_theory::ReadInstanceError;
use std::alloc::Global;

#[tactic(auto, using(problem_theory::proofs::Readings::reads_numbers, problem_theory::proofs::Readings::drawn_numbers, problem_theory::proofs::Readings::spelled_numbers, crate::specs::Laws::Numbers::round_trip))]
impl PairProblem for Qubo {
    ghost use Rattle.std.specs.Prelude.{refl};
    ghost use Rattle.qubo.specs.Quadratic.{numbers_of};
    ghost use Rattle.qubo.specs.Program.{listed};
    ghost use Rattle.qubo.specs.Shown.{instance_in};
    ghost use Rattle.qubo.specs.Theory.{qubo_theory, qubo_kept, qubo_agrees};

    ghost numbers = { λ m. numbers_of (instance_in m) };

    ghost listed = { listed };

    ghost theory = { qubo_theory };

    ghost kept = { λ m. qubo_kept (instance_in m) m.kept };

    ghost same_program = { λ _. refl };

    ghost agrees = { λ m. qubo_agrees (instance_in m) m.kept };

    fn rows(alloc: Global, problem: &Qubo) -> Result<PairRows, OutOfMemory> {
        crate::listing::rows_of(alloc, problem)
    }

    fn read(alloc: Global, bytes: &[u8]) -> Result<Qubo, ReadInstanceError> {
        Ok(crate::reading::read(alloc, bytes)?)
    }

    fn print(alloc: Global, problem: &Qubo) -> Result<Vec<u8>, OutOfMemory> {
        crate::printing::print(alloc, problem)
    }

    fn value_of(problem: &Qubo, decisions: &[u32]) -> Option<i64> {
        crate::value::value_of(problem, decisions)
    }

    fn generate(alloc: Global, n: u32, seed: u32) -> Result<Qubo, OutOfMemory> {
        crate::generating::generate(alloc, n, seed)
    }
}
