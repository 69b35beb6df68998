//! The rows of a diagram are put into a region.

ghost use Rattle.std.specs.Prelude.{◌≡◌, ◌+◌, ◌<◌, ◌≤◌, [], ◌∷◌, length, map, vec_capacity};
ghost use Rattle.dp_laws.specs.Diagrams.Nodes.{DdNode};
ghost use Rattle.relaxed_dd.specs.Shown.{layers_of, layer_in, last_of};
ghost use Rattle.cover_pages.specs.Pages.{CanKeep, row_of};
ghost use Rattle.cover_pages.specs.Sizes.{nodes_of};
ghost use Rattle.cover_pages.specs.Stored.{HasPutRows, rows_of};

use relaxed_dd::Diagram;
use row_region::{Region, RowId};

/// Puts a row into the region, and its name after the others.
fn put_row(row: &[i64], region: &mut Region, ids: &mut Vec<RowId>)
    requires cells { length row.now ≡ region.old.words }
    requires spare { 0 < region.old.spare }
    requires room { length ids.old.items < vec_capacity ids.old }
    ensures put { HasPutRows region.old ids.old.items (row.now ∷ []) region.new ids.new.items }
    ensures room { vec_capacity ids.new ≡ vec_capacity ids.old }
{
    let id = region.take_free();
    region.row_mut(id).copy_from_slice(row);
    ids.push_reserved(id);
}

/// Puts in the rows of a layer.
fn put_layer(diagram: &Diagram, depth: usize, region: &mut Region, ids: &mut Vec<RowId>)
    requires keep { CanKeep region.old.words (layers_of diagram.now) }
    requires first { (layers_of diagram.now).first ≤ depth }
    requires last { depth ≤ last_of (layers_of diagram.now) }
    requires spare { length (layer_in (layers_of diagram.now) depth) ≤ region.old.spare }
    requires room { length ids.old.items + length (layer_in (layers_of diagram.now) depth) ≤ vec_capacity ids.old }
    ensures put { HasPutRows region.old ids.old.items (map row_of (layer_in (layers_of diagram.now) depth)) region.new ids.new.items }
    ensures room { vec_capacity ids.new ≡ vec_capacity ids.old }
{
    'nodes: for node in 0..diagram.nodes(depth) {
        put_row(diagram.row(depth, node), region, ids);
    }
}

/// Puts in the rows of all layers, for which there is room.
pub(crate) fn put_layers(diagram: &Diagram, region: &mut Region, ids: &mut Vec<RowId>)
    requires keep { CanKeep region.old.words (layers_of diagram.now) }
    requires spare { nodes_of (layers_of diagram.now).layers ≤ region.old.spare }
    requires room { length ids.old.items + nodes_of (layers_of diagram.now).layers ≤ vec_capacity ids.old }
    ensures put { HasPutRows region.old ids.old.items (rows_of (layers_of diagram.now).layers) region.new ids.new.items }
{
    let first = diagram.first_depth();
    let count = diagram.last_depth() - first + 1;
    'layers: for i in 0..count {
        put_layer(diagram, first + i, region, ids);
    }
}
