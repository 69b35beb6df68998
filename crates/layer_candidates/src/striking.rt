//! Lists the ways whose states are not struck.

ghost use Rattle.std.specs.Prelude.{◌≡◌, ◌<◌, ◌≤◌, ◌^◌, IfSome, length, vec_capacity};
ghost use Rattle.dp_model.specs.Gaps.{is_struck_by};
ghost use Rattle.dp_model.specs.Numbers.{IsSmall};
ghost use Rattle.layer_candidates.specs.HeldRows.{AreLive, HasLeft};
ghost use Rattle.layer_candidates.specs.KeyOrder.{key_rows};
ghost use Rattle.layer_candidates.specs.Ways.{rows_of, way_row, IsNearly, AreDistinct};
ghost use Rattle.layer_candidates.specs.Pruning.{IsKeyIn, struck, unstruck_keys};

use crate::key::Key;
use crate::ordering::key_at;
use crate::rows::row_of;
use crate::way::Way;
use dp_model::DpModel;
use row_region::{Region, RowId};

/// Whether a state is struck: its value plus its rough bound is at most the threshold, or it has no rough bound.
pub fn is_struck_by(value: i64, rough: Option<i64>, threshold: Option<i64>) -> bool
    requires near { IsNearly value }
    requires small { IfSome rough (λ r. IsSmall r) }
    ensures { result ≡ is_struck_by value rough threshold }
{
    let Some(rough) = rough else {
        return true;
    };
    match threshold {
        Some(threshold) => value + rough <= threshold,
        None => false,
    }
}

/// Whether the key is struck: its rough bound shows that no completion is above the threshold, or that there is no completion.
fn is_struck<M: DpModel>(
    model: &M,
    k: usize,
    threshold: Option<i64>,
    region: &Region,
    key: Key,
) -> bool
    requires key { IsKeyIn (M.meaning (M.numbers model.now)) k region.now key }
    ensures { result ≡ struck (M.meaning (M.numbers model.now)) k threshold region.now key }
{
    let rough = model.rough_by_rank(k, row_of(region, key.row), key.rank);
    is_struck_by(key.value, rough, threshold)
}

/// The keys of the ways that are not struck, as they stand. The rows of the others are given back.
pub fn list_unstruck<M: DpModel>(
    model: &M,
    k: usize,
    threshold: Option<i64>,
    region: &mut Region,
    ways: &[Way],
    keys: &mut Vec<Key>,
)
    requires distinct { AreDistinct (M.meaning (M.numbers model.now)) k (way_row region.old ways.now) ways.now }
    requires held { AreLive region.old (rows_of ways.now) }
    requires room { length ways.now ≤ vec_capacity keys.old }
    requires small { length ways.now < 2 ^ 32 }
    ensures keys { keys.new.items ≡ unstruck_keys (M.meaning (M.numbers model.now)) k threshold region.old ways.now }
    ensures left { HasLeft region.old (rows_of ways.now) region.new (key_rows keys.new.items) }
    ensures capacity { vec_capacity keys.new ≡ vec_capacity keys.old }
{
    keys.clear();
    'ways: for i in 0..ways.len() {
        let key = key_at(ways, i);
        if is_struck(model, k, threshold, region, key) {
            region.give(RowId { place: key.row });
        } else {
            keys.push_reserved(key);
        }
    }
}
