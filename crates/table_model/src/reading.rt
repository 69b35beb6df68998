ghost use Rattle.std.specs.Prelude.{◌≡◌, ◌≤◌, true, length, IfOk, IfErr, Some};
ghost use Rattle.serde_json.specs.View.{view};
ghost use Rattle.table_model.specs.Reading.{Reads, TreeFails, tree_of_text, tested, table_of, table_text};
ghost use Rattle.table_model.specs.Shape.{is_small, are_layers};
ghost use Rattle.table_model.specs.Shown.{table_shown};

use crate::document::{layers, read_outline};
use crate::error::ReadTableError;
use crate::laws::first_failure;
use crate::layer::Layer;
use crate::table::TableModel;
use serde_json::{Category, Value};
use std::alloc::Global;
use table_refusal::TableError;

/// The tree that the bytes spell.
#[tactic(auto, using(crate::proofs::Texts::tree_is, crate::proofs::Texts::tree_is_none))]
fn tree(alloc: Global, bytes: &[u8]) -> Result<Value, ReadTableError>
    ensures ok { IfOk result (λ v. tree_of_text bytes.now ≡ Some (view v)) }
    ensures err { IfErr result (λ e. TreeFails e (tree_of_text bytes.now)) }
{
    match Value::from_slice(alloc, bytes) {
        Ok(value) => Ok(value),
        Err(error) => if error.classify() == Category::Memory {
            Err(ReadTableError::OutOfMemory)
        } else {
            Err(ReadTableError::Refused(TableError::Json))
        },
    }
}

/// The table of the layers, or the first of its tests that fails.
fn tested(root_value: i64, layers: Vec<Layer>) -> Result<TableModel, ReadTableError>
    requires small { is_small root_value ≡ true }
    requires some { 1 ≤ length layers.items }
    requires few { length layers.items ≤ 65 }
    requires layered { are_layers layers.items ≡ true }
    ensures { Reads table_shown result (tested (record { root_value = root_value; layers = layers.items })) }
{
    match first_failure(layers.as_slice()) {
        Some(failure) => Err(ReadTableError::Refused(TableError::Law(failure))),
        None => Ok(TableModel { root_value, layers }),
    }
}

/// The table that a tree spells.
fn table(alloc: Global, value: &Value) -> Result<TableModel, ReadTableError>
    ensures { Reads table_shown result (table_of (view value.now)) }
{
    let Some(outline) = read_outline(value) else {
        let layer = None;
        return Err(ReadTableError::Refused(TableError::Shape { layer }));
    };
    let layers = layers(alloc, outline.layers)?;
    tested(outline.root_value, layers)
}

/// Reads a table from its document.
///
/// # Errors
///
/// `Refused` exactly where the bytes spell no table, with the first reason: `Json` where they are no text of JSON, `Shape` where the
/// document's outline or else a layer is not of the form, with the first such layer, and `Law` with the first test that fails, in
/// order of layer, law, first and second number. `OutOfMemory` for want of memory.
pub fn read(alloc: Global, bytes: &[u8]) -> Result<TableModel, ReadTableError>
    ensures { Reads table_shown result (table_text bytes.now) }
{
    let tree = tree(alloc, bytes)?;
    table(alloc, &tree)
}
