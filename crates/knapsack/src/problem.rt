use crate::Knapsack;
use dp_model::OutOfMemory;
use problem_theory::{Problem, ReadInstanceError};
use std::alloc::Global;

#[tactic(auto, using(problem_theory::proofs::Readings::reads_numbers, problem_theory::proofs::Readings::drawn_numbers, problem_theory::proofs::Readings::spelled_numbers, crate::specs::Laws::Program::round_trip))]
impl Problem for Knapsack {
    ghost use Rattle.std.specs.Prelude.{refl};
    ghost use Rattle.knapsack.specs.Shown.{instance_in};
    ghost use Rattle.knapsack.specs.Theory.{knapsack_theory, knapsack_agrees};

    ghost theory = { knapsack_theory };

    ghost same_program = { λ _. refl };

    ghost agrees = { λ m. knapsack_agrees (instance_in m) };

    fn read(alloc: Global, bytes: &[u8]) -> Result<Knapsack, ReadInstanceError> {
        Ok(crate::reading::read(alloc, bytes)?)
    }

    fn print(alloc: Global, model: &Knapsack) -> Result<Vec<u8>, OutOfMemory> {
        crate::printing::print(alloc, model)
    }

    fn value_of(model: &Knapsack, decisions: &[u32]) -> Option<i64> {
        crate::value::value_of(model, decisions)
    }

    fn generate(alloc: Global, n: u32, seed: u32) -> Result<Option<Knapsack>, OutOfMemory> {
        Ok(Some(crate::generating::generate(alloc, n, seed)?))
    }
}
