ghost use Rattle.std.specs.Prelude.{◌≡◌, ◌++◌, ◌≤◌, ◌^◌, length, Ok, IfOk, OnOk};
ghost use Rattle.knapsack.specs.Shown.{instance_in};
ghost use Rattle.knapsack.specs.Printing.{copies_text, line_of, text_of};
ghost use Rattle.knapsack.specs.Reading.{instance_text};
ghost use Rattle.std.specs.List.{flat_map};

use crate::instance::Knapsack;
use crate::item::Item;
use std::alloc::{AllocError, Global};
use tokens::{push_number, push_text};

/// Appends a space and the number of copies, unless it is 1.
fn push_copies(out: &mut Vec<u8>, copies: u32) -> Result<(), AllocError>
    ensures { OnOk result (out.new.items ≡ out.old.items ++ copies_text copies) }
{
    if copies == 1 {
        return Ok(());
    }
    push_text(out, " ")?;
    push_number(out, i64::from(copies))
}

/// Appends the line of an item.
fn push_item(out: &mut Vec<u8>, item: Item) -> Result<(), AllocError>
    ensures { OnOk result (out.new.items ≡ out.old.items ++ line_of item) }
{
    push_number(out, i64::from(item.profit))?;
    push_text(out, " ")?;
    push_number(out, i64::from(item.weight))?;
    push_copies(out, item.copies)?;
    push_text(out, "\n")
}

/// Appends the lines of the items.
fn push_items(out: &mut Vec<u8>, items: &[Item]) -> Result<(), AllocError>
    ensures { OnOk result (out.new.items ≡ out.old.items ++ flat_map line_of items.now) }
{
    for item in items {
        push_item(out, *item)?;
    }
    Ok(())
}

/// The canonical text: a line with the number of items and the capacity, then a line for each item with its profit, its weight
/// and, unless it is 1, its number of copies. `read` gives the same instance for it. Fails only for want of memory.
pub fn print(alloc: Global, model: &Knapsack) -> Result<Vec<u8>, AllocError>
    ensures text { IfOk result (λ text. text.items ≡ text_of (instance_in model.now)) }
    ensures short { IfOk result (λ text. length text.items ≤ 2 ^ 30) }
    ensures reads_back { IfOk result (λ text. instance_text text.items ≡ Ok (instance_in model.now)) }
{
    let text = printed(alloc, model)?;
    Ok(text)
}

/// Makes the canonical text.
fn printed(alloc: Global, model: &Knapsack) -> Result<Vec<u8>, AllocError>
    ensures { IfOk result (λ text. text.items ≡ text_of (instance_in model.now)) }
{
    let mut out = Vec::new(alloc);
    push_number(&mut out, model.items.len() as i64)?;
    push_text(&mut out, " ")?;
    push_number(&mut out, model.capacity as i64)?;
    push_text(&mut out, "\n")?;
    push_items(&mut out, &model.items)?;
    Ok(out)
}
