//! Where the entries of pairs stand, by the first variable, then by the second.

ghost use Rattle.std.specs.Prelude.{◌≡◌, ◌<◌, ◌≤◌};
ghost use Rattle.pair_rows.specs.Pairs.{pair_count};
ghost use Rattle.pair_problem.specs.Adding.{place_of};

use pair_rows::start_of_row;

/// How many pairs this many variables make, which are at most 1,024.
pub fn count_of_pairs(variables: usize) -> usize
    requires { variables ≤ 1024 }
    ensures { result ≡ pair_count variables }
{
    start_of_row(variables, variables)
}

/// Where the entry of variables `a < b` stands, among those of each two of at most 1,024 variables.
pub fn place_of_pair(variables: usize, a: usize, b: usize) -> usize
    requires few { variables ≤ 1024 }
    requires order { a < b }
    requires variable { b < variables }
    ensures place { result ≡ place_of variables a b }
    ensures inside { result < pair_count variables }
{
    start_of_row(variables, a) + (b - a - 1)
}
