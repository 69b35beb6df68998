ghost use Rattle.qubo.specs.Quadratic.{IsQuadratic};

use crate::line::Line;

/// An instance: up to 1,024 variables, and up to `2^20` lines, in the order of the text. Lines of the same variables add up.
#[derive(Debug, Drop)]
pub struct Qubo {
    pub(crate) variables: usize,
    pub(crate) lines: Vec<Line>,
    ghost kept: { IsQuadratic (record { variables = variables; lines = lines.items }) },
}
