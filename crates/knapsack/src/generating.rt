//! Instances that are drawn from a seed.

ghost use Rattle.std.specs.Prelude.{◌≡◌, ◌*◌, ◌<◌, ◌≤◌, ◌^◌, true, IfOk};
ghost use Rattle.knapsack.specs.Instance.{is_small_item};
ghost use Rattle.knapsack.specs.Shown.{instance_in};
ghost use Rattle.knapsack.specs.Generating.{item_drawn, after_item, generated};

use crate::instance::Knapsack;
use crate::item::Item;
use draws::Draws;
use std::alloc::{AllocError, Global};

/// Draws an item: a profit from 1 to 100, a weight from 1 to 50 and 1 to 3 copies.
fn draw_item(draws: &mut Draws) -> Item
    ensures item { result ≡ item_drawn draws.old }
    ensures following { draws.new ≡ after_item draws.old }
    ensures small { is_small_item result ≡ true }
    ensures light { result.weight * result.copies ≤ 150 }
{
    let profit = 1 + draws.draw() % 100;
    let weight = 1 + draws.draw() % 50;
    let copies = 1 + draws.draw() % 3;
    Item {
        profit,
        weight,
        copies,
    }
}

/// Draws an instance of `n` items, 0 to 1,000, from a seed below 2^31. Its capacity is half of the total weight of all copies, rounded
/// down. Fails only for want of memory.
pub fn generate(alloc: Global, n: u32, seed: u32) -> Result<Knapsack, AllocError>
    requires size { n ≤ 1000 }
    requires seed { seed < 2 ^ 31 }
    ensures { IfOk result (λ m. instance_in m ≡ generated n seed) }
{
    let mut draws = Draws::from_seed(seed);
    let mut items = Vec::with_capacity(alloc, n as usize)?;
    let mut weight = 0u64;
    for _ in 0..n {
        let item = draw_item(&mut draws);
        weight += u64::from(item.weight) * u64::from(item.copies);
        items.push(item)?;
    }
    Knapsack::new(alloc, weight / 2, items)
}
