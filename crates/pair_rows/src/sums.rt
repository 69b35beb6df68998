ghost use Rattle.std.specs.Prelude.{◌≡◌, ◌^◌, ◌≤◌, length, pos, ◌≤ℤ◌, IfOk, IsTrue};
ghost use Rattle.pair_rows.specs.Pairs.{pair_count, rows_of};
ghost use Rattle.pair_rows.specs.Instance.{pairs_most};
ghost use Rattle.pair_rows.specs.Limits.{pairs_fit};
ghost use Rattle.pair_rows.specs.Table.{later_totals};

use crate::limits::pair_limit;
use crate::rows::row_of;
use crate::values::PairValues;
use std::alloc::{AllocError, Global};

/// For each layer, and for the end, what the pairs from it on give at most.
pub(crate) fn sums_from(
    alloc: Global,
    variables: usize,
    pairs: &[PairValues],
) -> Result<Vec<i64>, AllocError>
    requires few { variables ≤ 1024 }
    requires whole { length pairs.now ≡ pair_count variables }
    requires positive { IsTrue (pairs_fit pairs.now) }
    requires weight { pairs_most pairs.now ≤ℤ pos (2 ^ 48) }
    ensures { IfOk result (λ v. v.items ≡ later_totals (rows_of variables pairs.now)) }
{
    let mut sums = Vec::with_capacity(alloc, variables + 1)?;
    let mut left = row_sum(pairs);
    for k in 0..variables {
        sums.push(left)?;
        left -= row_sum(row_of(pairs, variables, k));
    }
    sums.push(left)?;
    Ok(sums)
}

/// What a row gives at most.
fn row_sum(row: &[PairValues]) -> i64
    requires positive { IsTrue (pairs_fit row.now) }
    requires weight { pairs_most row.now ≤ℤ pos (2 ^ 48) }
    ensures { result ≡ pairs_most row.now }
{
    let mut total = 0;
    for i in 0..row.len() {
        total += pair_limit(row[i]);
    }
    total
}
