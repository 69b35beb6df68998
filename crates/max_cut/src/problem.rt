use crate::instance::MaxCut;
use dp_model::OutOfMemory;
use pair_problem::PairProblem;
use pair_rows::PairRows;
use problem_theory::ReadInstanceError;
use std::alloc::Global;

#[tactic(auto, using(problem_theory::proofs::Readings::reads_numbers, problem_theory::proofs::Readings::drawn_numbers, problem_theory::proofs::Readings::spelled_numbers))]
impl PairProblem for MaxCut {
    ghost use Rattle.std.specs.Prelude.{refl};
    ghost use Rattle.max_cut.specs.Graph.{numbers_of};
    ghost use Rattle.max_cut.specs.Program.{listed};
    ghost use Rattle.max_cut.specs.Shown.{instance_in};
    ghost use Rattle.max_cut.specs.Theory.{cut_theory, cut_kept, cut_agrees};

    ghost numbers = { λ m. numbers_of (instance_in m) };

    ghost listed = { listed };

    ghost theory = { cut_theory };

    ghost kept = { λ m. cut_kept (instance_in m) m.graph };

    ghost same_program = { λ _. refl };

    ghost agrees = { λ m. cut_agrees (instance_in m) m.graph };

    fn rows(alloc: Global, problem: &MaxCut) -> Result<PairRows, OutOfMemory> {
        crate::listing::rows_of(alloc, problem)
    }

    fn read(alloc: Global, bytes: &[u8]) -> Result<MaxCut, ReadInstanceError> {
        Ok(crate::reading::read(alloc, bytes)?)
    }

    fn print(alloc: Global, problem: &MaxCut) -> Result<Vec<u8>, OutOfMemory> {
        crate::printing::print(alloc, problem)
    }

    fn value_of(problem: &MaxCut, decisions: &[u32]) -> Option<i64> {
        crate::value::value_of(problem, decisions)
    }

    fn generate(alloc: Global, n: u32, seed: u32) -> Result<MaxCut, OutOfMemory> {
        crate::generating::generate(alloc, n, seed)
    }
}
