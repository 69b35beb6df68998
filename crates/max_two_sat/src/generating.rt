//! Instances that are drawn from a seed.

ghost use Rattle.std.specs.Prelude.{◌≡◌, ◌<◌, ◌≤◌, ◌^◌, ◌+◌, IfOk};
ghost use Rattle.max_two_sat.specs.Clauses.{FitsLiteral};
ghost use Rattle.max_two_sat.specs.Drafted.{gathered_in};
ghost use Rattle.max_two_sat.specs.Generating.{literal_drawn, after_literal, clause_drawn, after_clause, IsDrawing, generated};
ghost use Rattle.max_two_sat.specs.Shown.{instance_in};

use crate::clause::{Literal, Literals};
use crate::draft::Draft;
use crate::instance::MaxTwoSat;
use draws::Draws;
use std::alloc::{AllocError, Global};

/// Draws a literal: one of the variables, and whether it is negated.
fn draw_literal(draws: &mut Draws, variables: u32) -> Literal
    requires { 0 < variables }
    ensures literal { result ≡ literal_drawn variables draws.old }
    ensures following { draws.new ≡ after_literal draws.old }
    ensures fits { FitsLiteral variables result }
{
    let variable = draws.draw() % variables;
    let positive = draws.draw() % 2 == 0;
    Literal {
        variable: variable as usize,
        positive,
    }
}

/// Draws a clause of two literals with a weight from 1 to 10, and adds it.
fn draw_clause(draws: &mut Draws, variables: u32, draft: &mut Draft)
    requires some { 0 < variables }
    requires drawing { IsDrawing variables (gathered_in draft.old) }
    requires few { draft.old.clauses < 3072 }
    ensures clause { gathered_in draft.new ≡ clause_drawn variables (gathered_in draft.old) draws.old }
    ensures following { draws.new ≡ after_clause draws.old }
    ensures drawing { IsDrawing variables (gathered_in draft.new) }
    ensures count { draft.new.clauses ≡ draft.old.clauses + 1 }
{
    let first = draw_literal(draws, variables);
    let second = draw_literal(draws, variables);
    let weight = 1 + draws.draw() % 10;
    draft.add(i64::from(weight), Literals::Two(first, second));
}

/// Draws an instance of `n` variables, 0 to 1,024, and three times as many clauses from a seed below 2^31. Fails only for want of memory.
pub fn generate(alloc: Global, n: u32, seed: u32) -> Result<MaxTwoSat, AllocError>
    requires size { n ≤ 1024 }
    requires seed { seed < 2 ^ 31 }
    ensures { IfOk result (λ m. instance_in m ≡ generated n seed) }
{
    let mut draws = Draws::from_seed(seed);
    let mut draft = Draft::new(alloc, n as usize)?;
    for _ in 0..3 * n {
        draw_clause(&mut draws, n, &mut draft);
    }
    Ok(MaxTwoSat::of_draft(draft))
}
