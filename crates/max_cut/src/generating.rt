//! Instances that are drawn from a seed.

ghost use Rattle.std.specs.Prelude.{◌≡◌, ◌<◌, ◌≤◌, ◌^◌, IfOk};
ghost use Rattle.max_cut.specs.Graph.{IsWeight};
ghost use Rattle.max_cut.specs.Generating.{weight_drawn, after_weight, generated};
ghost use Rattle.max_cut.specs.Shown.{instance_in};

use crate::instance::MaxCut;
use draws::Draws;
use pair_problem::count_of_pairs;
use std::alloc::{AllocError, Global};

/// Draws the weight of a pair: one draw in four makes an edge, whose weight is from -10 to 10, and without an edge it is 0.
fn draw_weight(draws: &mut Draws) -> i64
    ensures weight { result ≡ weight_drawn draws.old }
    ensures following { draws.new ≡ after_weight draws.old }
    ensures small { IsWeight result }
{
    if draws.draw() % 4 == 0 {
        i64::from(draws.draw() % 21) - 10
    } else {
        0
    }
}

/// Draws an instance of `n` vertices, 0 to 1,024, from a seed below 2^31: a weight for each pair, by the first vertex, then by the
/// second. Fails only for want of memory.
pub fn generate(alloc: Global, n: u32, seed: u32) -> Result<MaxCut, AllocError>
    requires size { n ≤ 1024 }
    requires seed { seed < 2 ^ 31 }
    ensures { IfOk result (λ m. instance_in m ≡ generated n seed) }
{
    let vertices = n as usize;
    let pairs = count_of_pairs(vertices);
    let mut draws = Draws::from_seed(seed);
    let mut weights = Vec::with_capacity(alloc, pairs)?;
    for _ in 0..pairs {
        weights.push(draw_weight(&mut draws))?;
    }
    Ok(MaxCut { vertices, weights })
}
