//! How much memory a workspace needs, and its layers before a compilation.

ghost use Rattle.std.specs.Prelude.{◌≡◌, ◌+◌, ◌*◌, ◌<◌, ◌≤◌, ◌^◌, ℕ, IfOk, map, vec_capacity};
ghost use Rattle.dp_model.specs.Decisions.{below};
ghost use Rattle.layer_build.specs.Layers.{IsWidth, AreEnough};
ghost use Rattle.layer_build.specs.Preparing.{IsMost, IsReady};
ghost use Rattle.layer_build.specs.Stacked.{empty_layer, beam_width};

use crate::stack::Stack;
use dp_model::{DpModel, OutOfMemory};
use layer_nodes::Layer;
use row_region::Region;
use std::alloc::Global;

/// The greatest of three numbers.
fn greatest(a: usize, b: usize, c: usize) -> usize
    ensures first { a ≤ result }
    ensures second { b ≤ result }
    ensures third { c ≤ result }
    ensures least { (n : ℕ) → a ≤ n → b ≤ n → c ≤ n → result ≤ n }
{
    a.max(b).max(c)
}

/// How many candidates a layer has at most, and at least 1: each layer has as many members as the width, and the one below the
/// first as many as there are choices.
pub(crate) fn room_for<M: DpModel>(model: &M, width: usize) -> usize
    requires { IsWidth (M.meaning (M.numbers model.now)) width }
    ensures { AreEnough (M.meaning (M.numbers model.now)) width (M.meaning (M.numbers model.now)).vars result }
{
    let mut room = 1;
    let mut before = 0;
    'layers: for k in 0..model.vars() {
        let choices = model.choices(k) as usize;
        room = greatest(room, width * choices, before * choices);
        before = choices;
    }
    room
}

/// The most choices of a layer.
fn most_choices<M: DpModel>(model: &M) -> usize
    ensures { IsMost (M.meaning (M.numbers model.now)) (M.meaning (M.numbers model.now)).vars result }
{
    let mut most = 0;
    'layers: for k in 0..model.vars() {
        let choices = model.choices(k) as usize;
        most = most.max(choices);
    }
    most
}

/// The numbers of choices of all layers.
pub(crate) fn choices_of<M: DpModel>(alloc: Global, model: &M) -> Result<Vec<u32>, OutOfMemory>
    ensures { IfOk result (λ choices. choices.items ≡ map (M.meaning (M.numbers model.now)).choices (below (M.meaning (M.numbers model.now)).vars)) }
{
    let vars = model.vars();
    let mut all = Vec::with_capacity(alloc, vars)?;
    'layers: for k in 0..vars {
        let choices = model.choices(k);
        all.push_reserved(choices);
    }
    Ok(all)
}

/// A layer for each depth, with room for as many nodes as the width, and room in the list for two more.
fn layers_for<M: DpModel>(
    alloc: Global,
    model: &M,
    width: usize,
    region: &Region,
) -> Result<Vec<Layer>, OutOfMemory>
    requires { IsWidth (M.meaning (M.numbers model.now)) width }
    ensures layers { IfOk result (λ layers. layers.items ≡ map (λ k. empty_layer (M.meaning (M.numbers model.now)).words width (width * (M.meaning (M.numbers model.now)).choices k)) (below (M.meaning (M.numbers model.now)).vars)) }
    ensures room { IfOk result (λ layers. (M.meaning (M.numbers model.now)).vars + 2 ≤ vec_capacity layers) }
{
    let vars = model.vars();
    let words = model.words();
    let mut layers = Vec::with_capacity(alloc, vars + 2)?;
    'layers: for k in 0..vars {
        let choices = model.choices(k) as usize;
        let layer = Layer::prepare(alloc, words, width, width * choices, region)?;
        layers.push_reserved(layer);
    }
    Ok(layers)
}

/// The layers before a compilation, with room for this many candidates. The region has rows for all layers, and for a beam with
/// as many members a layer besides; the last layer and the beam each hold one row ahead.
pub(crate) fn prepare_stack<M: DpModel>(
    alloc: Global,
    model: &M,
    width: usize,
    room: usize,
    widest: usize,
) -> Result<Stack, OutOfMemory>
    requires width { IsWidth (M.meaning (M.numbers model.now)) width }
    requires few { room ≤ 2 ^ 25 }
    requires widest { widest ≡ beam_width width }
    ensures { IfOk result (λ stack. IsReady (M.meaning (M.numbers model.now)) width room stack) }
{
    let vars = model.vars();
    let words = model.words();
    let most = most_choices(model);
    let below = room + 1 + (room + widest + 1);
    let region = Region::new(alloc, words, vars * width + most + below)?;
    let mut layers = layers_for(alloc, model, width, &region)?;
    let second = Layer::prepare(alloc, words, most, room_for(model, 1), &region)?;
    let top = Layer::prepare(alloc, words, 0, 0, &region)?;
    layers.push_reserved(second);
    layers.push_reserved(top);
    let newest = Layer::prepare(alloc, words, room, 0, &region)?;
    Ok(Stack {
        vars,
        first: 0,
        last: 0,
        layers,
        newest,
        region,
    })
}
