use crate::table::TableModel;
use dp_model::OutOfMemory;
use problem_theory::{Problem, ReadInstanceError};
use std::alloc::Global;

#[tactic(auto, using(crate::proofs::Readings::reads_table, crate::proofs::Readings::spelled_table, crate::specs::Laws::Coded::round_trip))]
impl Problem for TableModel {
    ghost use Rattle.std.specs.Prelude.{refl};
    ghost use Rattle.table_model.specs.Shown.{table_shown};
    ghost use Rattle.table_model.specs.Theory.{table_theory};
    ghost use Rattle.table_model.specs.Laws.Agreeing.{table_agrees};

    ghost theory = { table_theory };

    ghost same_program = { λ _. refl };

    ghost agrees = { λ m. table_agrees (table_shown m) (record { root_value = m.small; some = m.some; few = m.few; layers = m.layered }) };

    fn read(alloc: Global, bytes: &[u8]) -> Result<TableModel, ReadInstanceError> {
        Ok(crate::reading::read(alloc, bytes)?)
    }

    fn print(alloc: Global, model: &TableModel) -> Result<Vec<u8>, OutOfMemory> {
        crate::printing::print(alloc, model)
    }

    fn value_of(model: &TableModel, decisions: &[u32]) -> Option<i64> {
        crate::value::value_of(model, decisions)
    }

    fn generate(_alloc: Global, _n: u32, _seed: u32) -> Result<Option<TableModel>, OutOfMemory> {
        Ok(None)
    }
}
