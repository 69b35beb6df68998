//! Running sums of the items from each layer on, in order.

ghost use Rattle.std.specs.Prelude.{◌≡◌, ◌*◌, ◌≤◌, length, IfOk};
ghost use Rattle.knapsack.specs.Limits.{IsSmallItem};
ghost use Rattle.knapsack.specs.Placed.{kept_from, HasSmallItems};
ghost use Rattle.knapsack.specs.Runs.{AreRunsOf, AreRunLayers};

use crate::item::Item;
use crate::placed::Placed;
use std::alloc::{AllocError, Global};

/// What begins at a place of the order: an item, or the end, which has no profit and no weight.
#[derive(Clone, Copy, Debug)]
pub(crate) struct Begun {
    /// What the items before it are worth, all their copies together.
    pub(crate) before: u64,
    /// The profit of one copy.
    pub(crate) profit: u32,
    /// The weight of one copy.
    pub(crate) weight: u32,
}

/// The running sums of items in order. Both lists have an entry for each item and one for the end.
#[derive(Debug, Drop)]
pub(crate) struct Runs {
    /// What the items before each place weigh, all their copies together.
    pub(crate) weights: Vec<u64>,
    /// What begins at each place.
    pub(crate) begun: Vec<Begun>,
}

/// What all copies of an item weigh.
fn whole_weight(item: Item) -> u64
    requires { IsSmallItem item }
    ensures { result ≡ item.copies * item.weight }
{
    u64::from(item.copies) * u64::from(item.weight)
}

/// What all copies of an item are worth.
fn whole_profit(item: Item) -> u64
    requires { IsSmallItem item }
    ensures value { result ≡ item.copies * item.profit }
    ensures small { result ≤ 1000000000000 }
{
    u64::from(item.copies) * u64::from(item.profit)
}

/// The runs of the items from a layer on, in order.
fn runs_from(alloc: Global, order: &[Placed], layer: usize) -> Result<Runs, AllocError>
    requires small { HasSmallItems order.now }
    requires layer { layer ≤ length order.now }
    ensures { IfOk result (λ r. AreRunsOf (kept_from layer order.now) r) }
{
    let places = order.len() - layer + 1;
    let mut weights = Vec::with_capacity(alloc, places)?;
    let mut begun = Vec::with_capacity(alloc, places)?;
    let mut weight = 0;
    let mut before = 0;
    for placed in order {
        if placed.number < layer {
            continue;
        }
        let item = placed.item;
        weights.push(weight)?;
        begun.push(Begun {
            before,
            profit: item.profit,
            weight: item.weight,
        })?;
        weight += whole_weight(item);
        before += whole_profit(item);
    }
    weights.push(weight)?;
    begun.push(Begun {
        before,
        profit: 0,
        weight: 0,
    })?;
    Ok(Runs { weights, begun })
}

/// For each layer, and for the end, the runs of the items from it on.
pub(crate) fn runs_by_layer(alloc: Global, order: &[Placed]) -> Result<Vec<Runs>, AllocError>
    requires { HasSmallItems order.now }
    ensures { IfOk result (λ v. AreRunLayers order.now v.items) }
{
    let mut layers = Vec::with_capacity(alloc, order.len() + 1)?;
    for k in 0..order.len() + 1 {
        let runs = runs_from(alloc, order, k)?;
        layers.push(runs)?;
    }
    Ok(layers)
}
