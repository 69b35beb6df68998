use crate::OneMachine;
use dp_model::OutOfMemory;
use problem_theory::{Problem, ReadInstanceError};
use std::alloc::Global;

#[tactic(auto, using(problem_theory::proofs::Readings::reads_numbers, problem_theory::proofs::Readings::drawn_numbers, problem_theory::proofs::Readings::spelled_numbers, crate::specs::Laws::Limits::round_trip))]
impl Problem for OneMachine {
    ghost use Rattle.std.specs.Prelude.{refl};
    ghost use Rattle.one_machine.specs.Shown.{instance_in};
    ghost use Rattle.one_machine.specs.Theory.{order_theory, order_agrees};

    ghost theory = { order_theory };

    ghost same_program = { λ _. refl };

    ghost agrees = { λ m. order_agrees (instance_in m) };

    fn read(alloc: Global, bytes: &[u8]) -> Result<OneMachine, ReadInstanceError> {
        Ok(crate::reading::read(alloc, bytes)?)
    }

    fn print(alloc: Global, model: &OneMachine) -> Result<Vec<u8>, OutOfMemory> {
        crate::printing::print(alloc, model)
    }

    fn value_of(model: &OneMachine, decisions: &[u32]) -> Option<i64> {
        crate::value::value_of(model, decisions)
    }

    fn generate(alloc: Global, n: u32, seed: u32) -> Result<Option<OneMachine>, OutOfMemory> {
        Ok(Some(crate::generating::generate(alloc, n, seed)?))
    }
}
