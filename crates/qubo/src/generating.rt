//! Instances that are drawn from a seed.

ghost use Rattle.std.specs.Prelude.{◌≡◌, ◌<◌, ◌≤◌, ◌^◌, ◌%◌, true, IfOk};
ghost use Rattle.draws.specs.Draws.{next, drawn};
ghost use Rattle.qubo.specs.Generating.{line_drawn, after_line, generated};
ghost use Rattle.qubo.specs.Quadratic.{is_line};
ghost use Rattle.qubo.specs.Shown.{instance_in};

use crate::instance::Qubo;
use crate::line::Line;
use draws::Draws;
use std::alloc::{AllocError, Global};

/// Draws a number below another one.
fn draw_below(draws: &mut Draws, most: u32) -> u32
    requires { 0 < most }
    ensures number { result ≡ drawn draws.old % most }
    ensures following { draws.new ≡ next draws.old }
    ensures below { result < most }
{
    draws.draw() % most
}

/// Draws a line of two of `n` variables: the first, the second from the first on, and a weight from -100 to 100.
fn draw_line(draws: &mut Draws, n: u32) -> Line
    requires { 0 < n }
    ensures line { result ≡ line_drawn n draws.old }
    ensures following { draws.new ≡ after_line draws.old }
    ensures kept { is_line n result ≡ true }
{
    let first = draw_below(draws, n);
    let second = first + draw_below(draws, n - first);
    let weight = i64::from(draw_below(draws, 201)) - 100;
    Line {
        first,
        second,
        weight,
    }
}

/// Draws an instance of `n` variables, 0 to 1,024, from a seed below 2^31: four lines for each variable. Fails only for want of memory.
pub fn generate(alloc: Global, n: u32, seed: u32) -> Result<Qubo, AllocError>
    requires size { n ≤ 1024 }
    requires seed { seed < 2 ^ 31 }
    ensures { IfOk result (λ m. instance_in m ≡ generated n seed) }
{
    let mut draws = Draws::from_seed(seed);
    let count = 4 * n;
    let mut lines = Vec::with_capacity(alloc, count as usize)?;
    for _ in 0..count {
        lines.push(draw_line(&mut draws, n))?;
    }
    Ok(Qubo {
        variables: n as usize,
        lines,
    })
}
