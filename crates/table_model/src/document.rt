//! The layers of a document.

ghost use Rattle.std.specs.Prelude.{◌≡◌, ◌≤◌, true, length, Ok, option_and_then, option_map, IfOk, IfErr, IfSome, map};
ghost use Rattle.serde_json.specs.Find.{get};
ghost use Rattle.serde_json.specs.View.{view, items_view};
ghost use Rattle.table_model.specs.Document.{has_members, count_at, states_in, row_of, rows_of, cell_of, state_lists, with_decisions, last_lists, inner_lists, lists_of, within_limits, layer_of, states_or_most, states_after, layers_from, is_layer_count, items_in, root_value_of, outline_of};
ghost use Rattle.table_model.specs.Layers.{LayersFail};
ghost use Rattle.table_model.specs.Shape.{is_small, are_layers};
ghost use Rattle.table_model.specs.Outlines.{outline_shown};

use crate::cells::{Cell, natural, row, rows};
use crate::error::ReadTableError;
use crate::layer::Layer;
use crate::shape::{MOST_STATES, is_layer, is_small};
use serde_json::Value;
use std::alloc::{AllocError, Global};
use table_refusal::TableError;

const MOST_LAYERS: usize = 65;

/// The keys of a last layer.
const LAST_KEYS: usize = 4;

/// The keys of any other layer.
const INNER_KEYS: usize = 7;

/// The keys of the whole document.
const OUTLINE_KEYS: usize = 2;

/// A document without the contents of its layers.
#[derive(Clone, Copy, Debug)]
pub(crate) struct Outline<'v> {
    pub(crate) root_value: i64,
    pub(crate) layers: &'v [Value],
}

/// Whether the value is an object with this many members.
fn has_members(value: &Value, many: usize) -> bool
    ensures { result ≡ has_members many (view value.now) }
{
    match value.as_object() {
        Some(members) => members.len() == many,
        None => false,
    }
}

/// The number from 1 to 32 at the key, and 0 where there is none.
fn count_at(value: &Value, key: &str) -> u32
    ensures { result ≡ count_at key.now (view value.now) }
{
    match value
        .get(key)
        .and_then(|count| natural(count, u64::from(MOST_STATES)))
    {
        Some(count) => count as u32,
        None => 0,
    }
}

/// The list of lists at the key.
fn rows_at<T: Cell>(
    alloc: Global,
    value: &Value,
    key: &str,
) -> Result<Option<Vec<Vec<T>>>, AllocError>
    ensures { IfOk result (λ o. option_map (λ v. map (λ r. r.items) v.items) o ≡ option_and_then (rows_of T.spelled) (get key.now (view value.now))) }
{
    match value.get(key) {
        Some(value) => rows(alloc, value),
        None => Ok(None),
    }
}

/// The list at the key.
fn row_at<T: Cell>(alloc: Global, value: &Value, key: &str) -> Result<Option<Vec<T>>, AllocError>
    ensures { IfOk result (λ o. option_map (λ v. v.items) o ≡ option_and_then (row_of T.spelled) (get key.now (view value.now))) }
{
    match value.get(key) {
        Some(value) => row(alloc, value),
        None => Ok(None),
    }
}

/// The members that every layer has.
fn state_lists(alloc: Global, value: &Value, states: u32) -> Result<Option<Layer>, AllocError>
    ensures { IfOk result (λ o. o ≡ state_lists states (view value.now)) }
{
    let Some(gap) = rows_at(alloc, value, "gap")? else {
        return Ok(None);
    };
    let Some(merge) = rows_at(alloc, value, "merge")? else {
        return Ok(None);
    };
    let Some(rough) = row_at(alloc, value, "rough")? else {
        return Ok(None);
    };
    Ok(Some(Layer {
        states,
        choices: 0,
        gap,
        merge,
        rough,
        next: Vec::new(alloc),
        gain: Vec::new(alloc),
    }))
}

/// The layer with the members that each layer but the last has.
fn with_decisions(alloc: Global, value: &Value, layer: Layer) -> Result<Option<Layer>, AllocError>
    ensures { IfOk result (λ o. o ≡ with_decisions (view value.now) layer) }
{
    let Some(next) = rows_at(alloc, value, "next")? else {
        return Ok(None);
    };
    let Some(gain) = rows_at(alloc, value, "gain")? else {
        return Ok(None);
    };
    let choices = count_at(value, "choices");
    Ok(Some(Layer {
        choices,
        next,
        gain,
        ..layer
    }))
}

/// The lists of an object with exactly the keys of a last layer.
fn last_lists(alloc: Global, value: &Value, states: u32) -> Result<Option<Layer>, AllocError>
    ensures { IfOk result (λ o. o ≡ last_lists states (view value.now)) }
{
    if has_members(value, LAST_KEYS) {
        state_lists(alloc, value, states)
    } else {
        Ok(None)
    }
}

/// The lists of an object with exactly the keys of any other layer.
fn inner_lists(alloc: Global, value: &Value, states: u32) -> Result<Option<Layer>, AllocError>
    ensures { IfOk result (λ o. o ≡ inner_lists states (view value.now)) }
{
    if !has_members(value, INNER_KEYS) {
        return Ok(None);
    }
    match state_lists(alloc, value, states)? {
        Some(layer) => with_decisions(alloc, value, layer),
        None => Ok(None),
    }
}

/// The lists of a layer, which is the last one where `after` is 0.
fn lists(alloc: Global, value: &Value, states: u32, after: u32) -> Result<Option<Layer>, AllocError>
    ensures { IfOk result (λ o. o ≡ lists_of after states (view value.now)) }
{
    if after == 0 {
        last_lists(alloc, value, states)
    } else {
        inner_lists(alloc, value, states)
    }
}

/// A layer with this many states, where the next one has this many, and 0 says that there is none.
fn layer(alloc: Global, value: &Value, states: u32, after: u32) -> Result<Option<Layer>, AllocError>
    ensures { IfOk result (λ o. o ≡ layer_of after states (view value.now)) }
{
    match lists(alloc, value, states, after)? {
        Some(layer) => if is_layer(after, &layer) {
            Ok(Some(layer))
        } else {
            Ok(None)
        },
        None => Ok(None),
    }
}

/// How many states a layer says to have, and 0 where it says nothing right.
fn states_in(value: &Value) -> u32
    ensures { result ≡ states_in (view value.now) }
{
    count_at(value, "states")
}

/// How many states the first of these layers has at most, and 0 where there is none.
fn states_after(values: &[Value]) -> u32
    ensures { result ≡ states_after (items_view values.now) }
{
    match values.first() {
        Some(value) => match states_in(value) {
            0 => MOST_STATES,
            states => states,
        },
        None => 0,
    }
}

/// The layers of a list, or the number of the first item that is none.
#[tactic(auto, using(crate::proofs::Layered::onto_more, crate::proofs::Layered::onto_fails, crate::proofs::Layered::onto_start, crate::proofs::Layered::onto_end))]
pub(crate) fn layers(alloc: Global, values: &[Value]) -> Result<Vec<Layer>, ReadTableError>
    requires { length values.now ≤ 65 }
    ensures ok { IfOk result (λ v. layers_from 0 (items_view values.now) ≡ Ok v.items) }
    ensures err { IfErr result (λ e. LayersFail e (layers_from 0 (items_view values.now))) }
{
    let mut layers = Vec::with_capacity(alloc, values.len())?;
    let mut k = 0;
    let mut left = values;
    'layers: while let Some((value, rest)) = left.split_first() {
        let states = states_in(value);
        let Some(layer) = layer(alloc, value, states, states_after(rest))? else {
            let layer = Some(k);
            return Err(ReadTableError::Refused(TableError::Shape { layer }));
        };
        layers.push(layer)?;
        k += 1;
        left = rest;
    }
    Ok(layers)
}

/// The root value, of at most 2^50 in size.
fn root_value(value: &Value) -> Option<i64>
    ensures { result ≡ root_value_of (view value.now) }
{
    let number = value.get("root_value")?.as_i64()?;
    if is_small(number) { Some(number) } else { None }
}

/// Whether there are 1 to 65.
fn is_layer_count(count: usize) -> bool
    ensures { result ≡ is_layer_count count }
{
    1 <= count && count <= MOST_LAYERS
}

/// The list of 1 to 65 items at the key of the layers.
fn items(value: &Value) -> Option<&Vec<Value>>
    ensures some { IfSome result (λ v. 1 ≤ length v.now.items) }
    ensures few { IfSome result (λ v. length v.now.items ≤ 65) }
    ensures are { option_map (λ v. items_view v.now.items) result ≡ items_in (view value.now) }
{
    let items = value.get("layers")?.as_array()?;
    if is_layer_count(items.len()) {
        Some(items)
    } else {
        None
    }
}

/// The outline of an object with exactly its two keys.
pub(crate) fn read_outline(value: &Value) -> Option<Outline>
    ensures shown { option_map outline_shown result ≡ outline_of (view value.now) }
    ensures few { IfSome result (λ o. length o.layers.now ≤ 65) }
    ensures some { IfSome result (λ o. 1 ≤ length o.layers.now) }
    ensures small { IfSome result (λ o. is_small o.root_value ≡ true) }
{
    if !has_members(value, OUTLINE_KEYS) {
        return None;
    }
    let root_value = root_value(value)?;
    let items = items(value)?;
    Some(Outline {
        root_value,
        layers: items.as_slice(),
    })
}
