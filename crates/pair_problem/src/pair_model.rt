ghost use Rattle.std.specs.Prelude.{◌≡◌};
ghost use Rattle.pair_rows.specs.Shown.{instance_in};

use crate::listing::PairProblem;
use pair_rows::PairRows;

/// A problem with the rows of the variables and pairs that it lists.
#[derive(Drop)]
pub struct PairModel<P: PairProblem> {
    pub(crate) problem: P,
    // What the calls of the program use.
    pub(crate) rows: PairRows,
    ghost listed: { instance_in rows ≡ P.listed (P.numbers problem) },
}
