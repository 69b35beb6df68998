//! The variables and pairs of an instance, with what its lines give.

ghost use Rattle.std.specs.Prelude.{◌≡◌, IfOk};
ghost use Rattle.pair_rows.specs.Shown.{instance_of, instance_in as rows_shown};
ghost use Rattle.qubo.specs.Program.{rows_in};
ghost use Rattle.qubo.specs.Quadratic.{IsQuadratic};
ghost use Rattle.qubo.specs.Shown.{instance_in};

use crate::instance::Qubo;
use crate::line::Line;
use pair_problem::{add_product, nothing_of};
use pair_rows::{PairInstance, PairRows};
use std::alloc::{AllocError, Global};

/// The rows of what the lines give.
pub(crate) fn rows_of(alloc: Global, model: &Qubo) -> Result<PairRows, AllocError>
    ensures { IfOk result (λ rows. rows_shown rows ≡ rows_in (instance_in model.now)) }
{
    let list = listed(alloc, model.variables, &model.lines)?;
    PairRows::prepared(alloc, &list)
}

/// The variables and pairs, with what the lines give.
fn listed(alloc: Global, variables: usize, lines: &[Line]) -> Result<PairInstance, AllocError>
    requires { IsQuadratic (record { variables = variables; lines = lines.now }) }
    ensures { IfOk result (λ list. instance_of list ≡ rows_in (record { variables = variables; lines = lines.now })) }
{
    let mut list = nothing_of(alloc, variables)?;
    for line in lines {
        add_product(
            &mut list,
            line.first as usize,
            line.second as usize,
            line.weight,
        );
    }
    Ok(list)
}
