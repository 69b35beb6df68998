ghost use Rattle.std.specs.Prelude.{◌≡◌, IsTrue, IfOk};
ghost use Rattle.knapsack.specs.Instance.{is_small};
ghost use Rattle.knapsack.specs.Placed.{placed_from};
ghost use Rattle.knapsack.specs.Runs.{AreRunLayers};

use crate::item::Item;
use crate::ordering::ordered;
use crate::placed::Placed;
use crate::running::{Runs, runs_by_layer};
use std::alloc::{AllocError, Global};

/// A bounded knapsack within the limits: at most 1,000 items, profits and weights of at most 10^9, at most 1,000 copies of
/// each item, and a capacity of at most 2^40.
#[derive(Debug, Drop)]
pub struct Knapsack {
    pub(crate) capacity: u64,
    pub(crate) items: Vec<Item>,
    pub(crate) order: Vec<Placed>,
    // For each layer, and for the end, the runs of the items from it on.
    pub(crate) runs: Vec<Runs>,
    ghost small: { IsTrue (is_small (record { capacity = capacity; items = items.items })) },
    ghost ordered: { order.items ≡ placed_from 0 items.items },
    ghost layered: { AreRunLayers order.items runs.items },
}

impl Knapsack {
    /// The instance of this capacity and these items, in the order of the text. Fails only for want of memory.
    pub(crate) fn new(
        alloc: Global,
        capacity: u64,
        items: Vec<Item>,
    ) -> Result<Knapsack, AllocError>
        requires { IsTrue (is_small (record { capacity = capacity; items = items.items })) }
        ensures capacity { IfOk result (λ m. m.capacity ≡ capacity) }
        ensures items { IfOk result (λ m. m.items.items ≡ items.items) }
    {
        let order = ordered(alloc, &items)?;
        let runs = runs_by_layer(alloc, &order)?;
        Ok(Knapsack {
            capacity,
            items,
            order,
            runs,
        })
    }
}
