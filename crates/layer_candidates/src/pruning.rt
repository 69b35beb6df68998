//! Takes the keys out that a leader dominates, in order, and keeps the first ones of those that stay.

ghost use Rattle.std.specs.Prelude.{◌≡◌, ◌<◌, ◌≤◌, ◌-ℤ◌, length, take, vec_capacity};
ghost use Rattle.dp_model.specs.Fingerprints.{IsFingerprint};
ghost use Rattle.dp_model.specs.Gaps.{covers_at};
ghost use Rattle.dp_model.specs.Lists.{Each};
ghost use Rattle.layer_candidates.specs.HeldRows.{held_row, AreLive, HasLeft};
ghost use Rattle.layer_candidates.specs.KeyOrder.{key_rows};
ghost use Rattle.layer_candidates.specs.Ways.{way_at, IsNearly};
ghost use Rattle.layer_candidates.specs.Pruning.{IsKeyIn, IsOfWay, led_by, HasPruned};

use crate::holding::give_rows;
use crate::key::Key;
use crate::rows::row_of;
use crate::way::Way;
use dp_model::{DpModel, Fingerprint, MOST_LEADERS};
use row_region::{Region, RowId};

/// By how much the leader's value is above the key's.
fn room(leader: Key, key: Key) -> i64
    requires leader { IsNearly leader.value }
    requires key { IsNearly key.value }
    ensures { result ≡ (leader.value -ℤ key.value) }
{
    leader.value - key.value
}

/// What is known of the key's state without its row.
fn print_of(ways: &[Way], key: Key) -> Fingerprint
    requires { key.place < length ways.now }
    ensures { result ≡ record { rank = key.rank; hash = (way_at ways.now key.place).hash } }
{
    Fingerprint {
        rank: key.rank,
        hash: ways[key.place as usize].hash,
    }
}

/// Whether the leader dominates the key: its state has a gap to the key's, within the values' difference. The caller passes the
/// fingerprint of the key's state. Where the fingerprints refuse the leader, no row is read.
fn dominates<M: DpModel>(
    model: &M,
    k: usize,
    region: &Region,
    ways: &[Way],
    leader: Key,
    key: Key,
    print: Fingerprint,
) -> bool
    requires leader { IsKeyIn (M.meaning (M.numbers model.now)) k region.now leader }
    requires leader_way { IsOfWay (M.meaning (M.numbers model.now)) k region.now ways.now leader }
    requires key { IsKeyIn (M.meaning (M.numbers model.now)) k region.now key }
    requires print { IsFingerprint (M.meaning (M.numbers model.now)) k (held_row region.now key.row) print }
    ensures { result ≡ covers_at ((M.meaning (M.numbers model.now)).gap k (held_row region.now leader.row) (held_row region.now key.row)) leader.value key.value }
{
    let most = room(leader, key);
    let a = row_of(region, leader.row);
    let s = row_of(region, key.row);
    if !model.may_cover(k, a, print_of(ways, leader), s, print, most) {
        return false;
    }
    model
        .covers_within(k, a, leader.rank, s, key.rank, most)
        .is_some()
}

/// Whether one of the leaders dominates the key.
fn is_led<M: DpModel>(
    model: &M,
    k: usize,
    region: &Region,
    ways: &[Way],
    leaders: &[Key],
    key: Key,
) -> bool
    requires leaders { Each (IsKeyIn (M.meaning (M.numbers model.now)) k region.now) leaders.now }
    requires leader_ways { Each (IsOfWay (M.meaning (M.numbers model.now)) k region.now ways.now) leaders.now }
    requires key { IsKeyIn (M.meaning (M.numbers model.now)) k region.now key }
    requires way { IsOfWay (M.meaning (M.numbers model.now)) k region.now ways.now key }
    ensures { result ≡ led_by (M.meaning (M.numbers model.now)) k region.now leaders.now key }
{
    let print = print_of(ways, key);
    'leaders: for i in 0..leaders.len() {
        if dominates(model, k, region, ways, leaders[i], key, print) {
            return true;
        }
    }
    false
}

/// The keys that lead: the first `MOST_LEADERS` of those that stay.
fn leaders_of(kept: &[Key]) -> &[Key]
    ensures { result.now ≡ take MOST_LEADERS kept.now }
{
    &kept[..kept.len().min(MOST_LEADERS)]
}

/// Takes the keys out that one of the first `MOST_LEADERS` that stay dominates. The first ones that stay are kept, as many as
/// `most`, and the rows of all others are given back. Answers whether more would stay.
pub fn prune<M: DpModel>(
    model: &M,
    k: usize,
    most: usize,
    region: &mut Region,
    ways: &[Way],
    keys: &[Key],
    kept: &mut Vec<Key>,
) -> bool
    requires keys { Each (IsKeyIn (M.meaning (M.numbers model.now)) k region.old) keys.now }
    requires ways { Each (IsOfWay (M.meaning (M.numbers model.now)) k region.old ways.now) keys.now }
    requires held { AreLive region.old (key_rows keys.now) }
    requires kept_room { length keys.now ≤ vec_capacity kept.old }
    ensures pruned { HasPruned (M.meaning (M.numbers model.now)) k most region.old keys.now kept.new.items result }
    ensures left { HasLeft region.old (key_rows keys.now) region.new (key_rows kept.new.items) }
    ensures kept_capacity { vec_capacity kept.new ≡ vec_capacity kept.old }
{
    kept.clear();
    'keys: for i in 0..keys.len() {
        let key = keys[i];
        if is_led(model, k, region, ways, leaders_of(kept.as_slice()), key) {
            region.give(RowId { place: key.row });
        } else {
            if kept.len() == most {
                give_rows(region, &keys[i..]);
                return true;
            }
            kept.push_reserved(key);
        }
    }
    false
}
