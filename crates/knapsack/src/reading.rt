ghost use Rattle.std.specs.Prelude.{◌≡◌, ◌-◌, ◌^◌, ◌+◌, ◌<◌, ◌≤◌, length, true, Ok, Err, OnOk, IfOk};
ghost use Rattle.std.specs.List.{list_all};
ghost use Rattle.tokens.specs.Grammar.{Reads, times};
ghost use Rattle.knapsack.specs.Instance.{is_small_item};
ghost use Rattle.knapsack.specs.Shown.{instance_in};
ghost use Rattle.knapsack.specs.Reading.{copies_at, item_after, instance_text};

use crate::instance::Knapsack;
use crate::item::Item;
use std::alloc::Global;
use tokens::{Comment, InstanceError, InstanceFault, ReadModelError, Tokens};

const MOST_ITEMS: u64 = 1_000;

const MOST_COPIES: u64 = 1_000;

const GREATEST_PROFIT: u64 = 1_000_000_000;

const GREATEST_WEIGHT: u64 = 1_000_000_000;

const GREATEST_CAPACITY: u64 = 1 << 40;

/// Reads the number of copies of an item, which is 1 if the line ends here.
#[tactic(auto, unfolding(crate::specs::Reading::copies_at))]
fn next_copies(tokens: &mut Tokens) -> Result<u32, ReadModelError>
    ensures reads { Reads (λ c. (c, tokens.new)) result (copies_at tokens.old) }
    ensures within { IfOk result (λ c. c ≤ 1000) }
{
    if tokens.at_line_end() {
        return Ok(1);
    }
    let copies = tokens.next_natural(0, MOST_COPIES)?;
    if !tokens.at_line_end() {
        let place = tokens.place();
        let fault = InstanceFault::Trailing;
        return Err(ReadModelError::Text(InstanceError { fault, place }));
    }
    Ok(copies as u32)
}

/// Reads an item and appends it.
#[tactic(auto, unfolding(crate::specs::Reading::item_after), using(tokens::proofs::Chains::part_fails))]
fn next_item(tokens: &mut Tokens, items: &mut Vec<Item>) -> Result<(), ReadModelError>
    requires { list_all is_small_item items.old.items ≡ true }
    ensures reads { Reads (λ _. (items.new.items, tokens.new)) result (item_after items.old.items tokens.old) }
    ensures one { OnOk result (length items.new.items ≡ length items.old.items + 1) }
    ensures small { OnOk result (list_all is_small_item items.new.items ≡ true) }
{
    let profit = tokens.next_natural(0, GREATEST_PROFIT)? as u32;
    let weight = tokens.next_natural(0, GREATEST_WEIGHT)? as u32;
    let copies = next_copies(tokens)?;
    items.push(Item {
        profit,
        weight,
        copies,
    })?;
    Ok(())
}

/// Reads `count` items and appends them.
#[tactic(auto, using(tokens::proofs::Chains::times_steps))]
fn next_items(count: u64, tokens: &mut Tokens, items: &mut Vec<Item>) -> Result<(), ReadModelError>
    requires { list_all is_small_item items.old.items ≡ true }
    ensures reads { Reads (λ _. (items.new.items, tokens.new)) result (times item_after count items.old.items tokens.old) }
    ensures count { OnOk result (length items.new.items ≡ length items.old.items + count) }
    ensures small { OnOk result (list_all is_small_item items.new.items ≡ true) }
{
    for _ in 0..count {
        next_item(tokens, items)?;
    }
    Ok(())
}

/// Reads an instance from its text: the number of items and the capacity, then the profit and the weight of each item. A further
/// token on the line of the weight is the number of copies, which is 1 otherwise. The text has less than 2^32 - 1 bytes.
///
/// # Errors
///
/// `Text` with the first fault in reading order and its place: `EndOfText` for a missing number, `NotAscii` or `NotNumber` for a
/// token that is no number, `OutOfRange` for a number outside the limits, `Trailing` for a further token on the line of the
/// copies, and `Trailing` or `NotAscii` for a token after the last item. `OutOfMemory` for want of memory.
#[tactic(auto, unfolding(crate::specs::Reading::instance_at), using(tokens::proofs::Chains::part_fails))]
pub fn read(alloc: Global, bytes: &[u8]) -> Result<Knapsack, ReadModelError>
    requires { length bytes.now < 2 ^ 32 - 1 }
    ensures { Reads instance_in result (instance_text bytes.now) }
{
    let mut tokens = Tokens::new(bytes, Comment::Never);
    let count = tokens.next_natural(0, MOST_ITEMS)?;
    let capacity = tokens.next_natural(0, GREATEST_CAPACITY)?;
    let mut items = Vec::with_capacity(alloc, count as usize)?;
    next_items(count, &mut tokens, &mut items)?;
    tokens.finish()?;
    Ok(Knapsack::new(alloc, capacity, items)?)
}
