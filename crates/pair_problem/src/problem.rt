use crate::listing::PairProblem;
use crate::pair_model::PairModel;
use dp_model::OutOfMemory;
use problem_theory::{Problem, ReadInstanceError};
use std::alloc::Global;

impl<P: PairProblem> Problem for PairModel<P> {
    ghost theory = { P.theory };

    ghost same_program = { P.same_program };

    ghost agrees = { λ m. P.agrees m.problem };

    fn read(alloc: Global, bytes: &[u8]) -> Result<PairModel<P>, ReadInstanceError> {
        let problem = P::read(alloc, bytes)?;
        match P::rows(alloc, &problem) {
            Ok(rows) => Ok(PairModel { problem, rows }),
            Err(_) => Err(ReadInstanceError::OutOfMemory),
        }
    }

    fn print(alloc: Global, model: &PairModel<P>) -> Result<Vec<u8>, OutOfMemory> {
        P::print(alloc, &model.problem)
    }

    fn value_of(model: &PairModel<P>, decisions: &[u32]) -> Option<i64> {
        P::value_of(&model.problem, decisions)
    }

    fn generate(alloc: Global, n: u32, seed: u32) -> Result<Option<PairModel<P>>, OutOfMemory> {
        let problem = P::generate(alloc, n, seed)?;
        let rows = P::rows(alloc, &problem)?;
        Ok(Some(PairModel { problem, rows }))
    }
}
