ghost use Rattle.std.specs.Prelude.{◌≡◌, ◌≤◌, ◌^◌, length, Ok, Some, map, IfOk, string_bytes};
ghost use Rattle.serde_json.specs.Data.{array};
ghost use Rattle.serde_json.specs.View.{view, items_of};
ghost use Rattle.table_model.specs.Printing.{row_tree, rows_tree, last_tree, inner_tree, layer_tree, tree_of, text_of};
ghost use Rattle.table_model.specs.Reading.{tree_of_text, table_text};
ghost use Rattle.table_model.specs.Shown.{table_shown};

use crate::cells::Cell;
use crate::layer::Layer;
use crate::table::TableModel;
use serde_json::{Value, json};
use std::alloc::{AllocError, Global};

/// A list of cells.
fn row_value<T: Cell>(alloc: Global, row: &[T]) -> Result<Value, AllocError>
    ensures { IfOk result (λ v. view v ≡ row_tree T.tree row.now) }
{
    let mut values = Vec::with_capacity(alloc, row.len())?;
    'cells: for cell in row {
        values.push(cell.value())?;
    }
    Ok(Value::Array(values))
}

/// A list of lists of cells.
fn rows_value<T: Cell>(alloc: Global, rows: &[Vec<T>]) -> Result<Value, AllocError>
    ensures { IfOk result (λ v. view v ≡ rows_tree T.tree (map (λ r. r.items) rows.now)) }
{
    let mut values = Vec::with_capacity(alloc, rows.len())?;
    'rows: for row in rows {
        values.push(row_value(alloc, row.as_slice())?)?;
    }
    Ok(Value::Array(values))
}

/// The last layer.
fn last_value(alloc: Global, layer: &Layer) -> Result<Value, AllocError>
    ensures { IfOk result (λ v. view v ≡ last_tree layer.now) }
{
    let states = layer.states;
    let gap = rows_value(alloc, layer.gap.as_slice())?;
    let merge = rows_value(alloc, layer.merge.as_slice())?;
    let rough = row_value(alloc, layer.rough.as_slice())?;
    json!(in alloc; {"gap": gap, "merge": merge, "rough": rough, "states": states})
}

/// Any other layer.
fn inner_value(alloc: Global, layer: &Layer) -> Result<Value, AllocError>
    ensures { IfOk result (λ v. view v ≡ inner_tree layer.now) }
{
    let (choices, states) = (layer.choices, layer.states);
    let gain = rows_value(alloc, layer.gain.as_slice())?;
    let gap = rows_value(alloc, layer.gap.as_slice())?;
    let merge = rows_value(alloc, layer.merge.as_slice())?;
    let next = rows_value(alloc, layer.next.as_slice())?;
    let rough = row_value(alloc, layer.rough.as_slice())?;
    json!(in alloc; {"choices": choices, "gain": gain, "gap": gap, "merge": merge, "next": next, "rough": rough, "states": states})
}

/// A layer.
fn layer_value(alloc: Global, layer: &Layer) -> Result<Value, AllocError>
    ensures { IfOk result (λ v. view v ≡ layer_tree layer.now) }
{
    if layer.choices == 0 {
        last_value(alloc, layer)
    } else {
        inner_value(alloc, layer)
    }
}

/// A list of layers.
fn layers_value(alloc: Global, layers: &[Layer]) -> Result<Value, AllocError>
    ensures { IfOk result (λ v. view v ≡ array (items_of (map layer_tree layers.now))) }
{
    let mut values = Vec::with_capacity(alloc, layers.len())?;
    'layers: for layer in layers {
        values.push(layer_value(alloc, layer)?)?;
    }
    Ok(Value::Array(values))
}

/// The document.
fn tree(alloc: Global, model: &TableModel) -> Result<Value, AllocError>
    ensures { IfOk result (λ v. view v ≡ tree_of (table_shown model.now)) }
{
    let layers = layers_value(alloc, model.layers.as_slice())?;
    let root_value = model.root_value;
    json!(in alloc; {"layers": layers, "root_value": root_value})
}

/// The text of the document with a final line feed. It spells the document again.
#[tactic(auto, using(crate::proofs::Trees::tree_whole, crate::proofs::Trees::tree_flat, crate::proofs::Trailing::same_reading))]
fn text(alloc: Global, model: &TableModel) -> Result<String, AllocError>
    ensures text { IfOk result (λ s. string_bytes s ≡ text_of (table_shown model.now)) }
    ensures reads_back { IfOk result (λ s. tree_of_text (string_bytes s) ≡ Some (tree_of (table_shown model.now))) }
{
    let mut text = tree(alloc, model)?.to_string(alloc)?;
    text.push_str("\n")?;
    Ok(text)
}

/// The canonical text: the compact text of the document, its keys in the order of their bytes, with a final line feed. It is
/// read as the same table. Fails only for want of memory.
pub fn print(alloc: Global, model: &TableModel) -> Result<Vec<u8>, AllocError>
    ensures text { IfOk result (λ text. text.items ≡ text_of (table_shown model.now)) }
    ensures short { IfOk result (λ text. length text.items ≤ 2 ^ 30) }
    ensures reads_back { IfOk result (λ text. table_text text.items ≡ Ok (table_shown model.now)) }
{
    let text = text(alloc, model)?;
    Ok(text.into_bytes())
}
