//! The lists of a document.

ghost use Rattle.std.specs.Prelude.{◌≡◌, ℕ, ◌^◌, ◌≤◌, ℤ, Bool, Option, map, option_map, IfOk};
ghost use Rattle.serde_json.specs.Data.{Data};
ghost use Rattle.serde_json.specs.View.{view, items_view};
ghost use Rattle.table_model.specs.Document.{natural_of, cell_of, state_of, next_of, list_of, row_of, rows_of};
ghost use Rattle.table_model.specs.Printing.{cell_tree, state_tree, next_tree};
ghost use Rattle.table_model.specs.Shape.{is_cell_between, is_state_between, is_next_between};

use serde_json::Value;
use std::alloc::{AllocError, Global};

/// The greatest number of a state.
const LAST_STATE: u64 = 31;

/// A whole number from 0 to `most`.
pub(crate) fn natural(value: &Value, most: u64) -> Option<u64>
    ensures { result ≡ natural_of most (view value.now) }
{
    let number = value.as_u64()?;
    if number <= most { Some(number) } else { None }
}

/// What a list of the document has as its items.
pub(crate) trait Cell: Copy + Drop {
    /// What a tree spells.
    ghost spelled: { Data → Option Self };

    /// The tree that spells it.
    ghost tree: { Self → Data };

    /// Whether it is null, or a number between two others.
    ghost between: { ℤ → ℤ → Self → Bool };

    /// Reads a cell, where the value is of its form.
    fn read(value: &Value) -> Option<Self>
        ensures { result ≡ spelled (view value.now) };

    /// The value that spells it.
    fn value(self) -> Value
        ensures { view result ≡ tree self };

    /// Whether it is null, or a number between two others.
    fn is_between(&self, least: i64, most: i64) -> bool
        ensures { result ≡ between least most self.now };
}

impl Cell for Option<i64> {
    ghost spelled = { cell_of };

    ghost tree = { cell_tree };

    ghost between = { is_cell_between };

    fn read(value: &Value) -> Option<Option<i64>> {
        if value.is_null() {
            return Some(None);
        }
        let number = value.as_i64()?;
        Some(Some(number))
    }

    fn value(self) -> Value {
        match self {
            Some(number) => Value::from(number),
            None => Value::Null,
        }
    }

    fn is_between(&self, least: i64, most: i64) -> bool {
        match *self {
            Some(number) => least <= number && number <= most,
            None => true,
        }
    }
}

impl Cell for u32 {
    ghost spelled = { state_of };

    ghost tree = { state_tree };

    ghost between = { is_state_between };

    fn read(value: &Value) -> Option<u32> {
        let state = natural(value, LAST_STATE)?;
        Some(state as u32)
    }

    fn value(self) -> Value {
        Value::from(self)
    }

    fn is_between(&self, least: i64, most: i64) -> bool {
        let state = i64::from(*self);
        least <= state && state <= most
    }
}

impl Cell for Option<u32> {
    ghost spelled = { next_of };

    ghost tree = { next_tree };

    ghost between = { is_next_between };

    fn read(value: &Value) -> Option<Option<u32>> {
        if value.is_null() {
            return Some(None);
        }
        let state = natural(value, LAST_STATE)?;
        Some(Some(state as u32))
    }

    fn value(self) -> Value {
        match self {
            Some(state) => Value::from(state),
            None => Value::Null,
        }
    }

    fn is_between(&self, least: i64, most: i64) -> bool {
        match *self {
            Some(state) => state.is_between(least, most),
            None => true,
        }
    }
}

/// The cells of these values, where each is one.
fn cells<T: Cell>(alloc: Global, values: &[Value]) -> Result<Option<Vec<T>>, AllocError>
    ensures { IfOk result (λ o. option_map (λ v. v.items) o ≡ list_of T.spelled (items_view values.now)) }
{
    let mut cells = Vec::with_capacity(alloc, values.len())?;
    'cells: for value in values {
        let Some(cell) = T::read(value) else {
            return Ok(None);
        };
        cells.push(cell)?;
    }
    Ok(Some(cells))
}

/// A list of cells.
pub(crate) fn row<T: Cell>(alloc: Global, value: &Value) -> Result<Option<Vec<T>>, AllocError>
    ensures { IfOk result (λ o. option_map (λ v. v.items) o ≡ row_of T.spelled (view value.now)) }
{
    match value.as_array() {
        Some(values) => cells(alloc, values.as_slice()),
        None => Ok(None),
    }
}

/// The rows of these values, where each is one.
fn rows_in<T: Cell>(alloc: Global, values: &[Value]) -> Result<Option<Vec<Vec<T>>>, AllocError>
    ensures { IfOk result (λ o. option_map (λ v. map (λ r. r.items) v.items) o ≡ list_of (row_of T.spelled) (items_view values.now)) }
{
    let mut rows = Vec::with_capacity(alloc, values.len())?;
    'rows: for value in values {
        let Some(row) = row(alloc, value)? else {
            return Ok(None);
        };
        rows.push(row)?;
    }
    Ok(Some(rows))
}

/// A list of lists of cells.
pub(crate) fn rows<T: Cell>(alloc: Global, value: &Value) -> Result<Option<Vec<Vec<T>>>, AllocError>
    ensures { IfOk result (λ o. option_map (λ v. map (λ r. r.items) v.items) o ≡ rows_of T.spelled (view value.now)) }
{
    match value.as_array() {
        Some(values) => rows_in(alloc, values.as_slice()),
        None => Ok(None),
    }
}
