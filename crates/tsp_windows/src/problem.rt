use crate::TspWindows;
use dp_model::OutOfMemory;
use problem_theory::{Problem, ReadInstanceError};
use std::alloc::Global;

#[tactic(auto, using(problem_theory::proofs::Readings::reads_numbers, problem_theory::proofs::Readings::drawn_numbers, problem_theory::proofs::Readings::spelled_numbers))]
impl Problem for TspWindows {
    ghost use Rattle.std.specs.Prelude.{refl};
    ghost use Rattle.tsp_windows.specs.Shown.{instance_in};
    ghost use Rattle.tsp_windows.specs.Theory.{tour_theory, tour_agrees};

    ghost theory = { tour_theory };

    ghost same_program = { λ _. refl };

    ghost agrees = { λ m. tour_agrees (instance_in m) m.small m.spelled };

    fn read(alloc: Global, bytes: &[u8]) -> Result<TspWindows, ReadInstanceError> {
        Ok(crate::reading::read(alloc, bytes)?)
    }

    fn print(alloc: Global, model: &TspWindows) -> Result<Vec<u8>, OutOfMemory> {
        crate::printing::print(alloc, model)
    }

    fn value_of(model: &TspWindows, decisions: &[u32]) -> Option<i64> {
        crate::value::value_of(model, decisions)
    }

    fn generate(alloc: Global, n: u32, seed: u32) -> Result<Option<TspWindows>, OutOfMemory> {
        Ok(Some(crate::generating::generate(alloc, n, seed)?))
    }
}
