//! Least ways, over rows of distances.

ghost use Rattle.std.specs.Prelude.{◌≡◌, ℕ, ◌+◌, ◌-◌, ◌*◌, ◌^◌, ◌<◌, ◌≤◌, ◌&&◌, ◌||◌, not, nat_eq, nat_lt, true, false, length, get_or, Option, unwrap_or, MatchOption, IfOk, IfSome};
ghost use Rattle.node_sets.specs.Sums.{all_below, sum_below, lesser, least_amount};
ghost use Rattle.node_sets.specs.Sets.{IsSet, has};
ghost use Rattle.tsp_windows.specs.Instance as instance;
ghost use Rattle.tsp_windows.specs.Instance.{no_window};

use crate::window::Window;
use node_sets::Members;
use std::alloc::{AllocError, Global};

/// The lesser of a way and the least one so far.
#[inline]
fn lesser(least: Option<u32>, way: u32) -> Option<u32>
    ensures { result ≡ lesser way least }
{
    match least {
        Some(other) => Some(other.min(way)),
        None => Some(way),
    }
}

/// The least distance to a node from one of many positions other than it, or none where there is no such position. It is never
/// inlined: only the case of a single position, in `least_leg`, is.
#[inline(never)]
fn least_of_legs(nodes: usize, distances: &[u32], positions: &[i64], to: usize) -> Option<u32>
    requires few { nodes ≤ 300 }
    requires square { length distances.now ≡ nodes * nodes }
    requires set { IsSet nodes positions.now }
    requires inside { to < nodes }
    ensures { result ≡ least_amount nodes (λ p. has positions.now p && not (nat_eq p to)) (λ p. get_or distances.now (p * nodes + to) 0) }
{
    let mut least = None;
    let mut rest = Members::of(positions);
    'positions: while let Some(position) = rest.next() {
        if position != to {
            least = lesser(least, distances[position * nodes + to]);
        }
    }
    least
}

/// The least distance to a node from a position other than it, or none where there is no such position. Most states have a single
/// position.
#[inline]
pub(crate) fn least_leg(
    nodes: usize,
    distances: &[u32],
    positions: &[i64],
    to: usize,
) -> Option<u32>
    requires few { nodes ≤ 300 }
    requires square { length distances.now ≡ nodes * nodes }
    requires set { IsSet nodes positions.now }
    requires inside { to < nodes }
    ensures { result ≡ least_amount nodes (λ p. has positions.now p && not (nat_eq p to)) (λ p. get_or distances.now (p * nodes + to) 0) }
{
    let mut rest = Members::of(positions);
    let first = rest.next()?;
    if rest.next().is_some() {
        return least_of_legs(nodes, distances, positions, to);
    }
    if first == to {
        return None;
    }
    Some(distances[first * nodes + to])
}

/// The least distance to a node from another one, or 0 where there is no other.
fn least_way(nodes: usize, distances: &[u32], to: usize) -> u32
    requires few { nodes ≤ 300 }
    requires square { length distances.now ≡ nodes * nodes }
    requires inside { to < nodes }
    ensures { result ≡ instance.least_way nodes distances.now to }
{
    let mut least = None;
    'others: for from in 0..nodes {
        if from != to {
            least = lesser(least, distances[from * nodes + to]);
        }
    }
    least.unwrap_or(0)
}

/// The least distance to each node from another one.
pub(crate) fn least_ways(
    alloc: Global,
    nodes: usize,
    distances: &[u32],
) -> Result<Vec<u32>, AllocError>
    requires few { nodes ≤ 300 }
    requires square { length distances.now ≡ nodes * nodes }
    ensures all { IfOk result (λ ways. length ways.items ≡ nodes) }
    ensures each { IfOk result (λ ways. (v : ℕ) → v < nodes → get_or ways.items v 0 ≡ instance.least_way nodes distances.now v) }
{
    let mut ways = Vec::with_capacity(alloc, nodes)?;
    'nodes: for to in 0..nodes {
        ways.push(least_way(nodes, distances, to))?;
    }
    Ok(ways)
}

/// The first moment at which it is too late to leave for each node by the least way to it: the first one after its closing, less
/// the way.
pub(crate) fn moments_too_late(
    alloc: Global,
    nearest: &[u32],
    windows: &[Window],
) -> Result<Vec<u64>, AllocError>
    requires same { length windows.now ≡ length nearest.now }
    requires closes { (v : ℕ) → (get_or windows.now v no_window).closing ≤ 1000000000000 }
    ensures all { IfOk result (λ moments. length moments.items ≡ length nearest.now) }
    ensures each { IfOk result (λ moments. (v : ℕ) → v < length nearest.now → get_or moments.items v 0 ≡ ((get_or windows.now v no_window).closing + 1) - get_or nearest.now v 0) }
{
    let mut moments = Vec::with_capacity(alloc, nearest.len())?;
    'nodes: for to in 0..nearest.len() {
        let following = windows[to].closing + 1;
        moments.push(following.saturating_sub(u64::from(nearest[to])))?;
    }
    Ok(moments)
}

/// The sum of the least ways to all members, or none where it is too late to leave for one of them.
pub(crate) fn ways_within(
    nearest: &[u32],
    too_late: &[u64],
    members: &[i64],
    time: u64,
) -> Option<u64>
    requires few { length nearest.now ≤ 300 }
    requires same { length too_late.now ≡ length nearest.now }
    requires set { IsSet (length nearest.now) members.now }
    ensures total { MatchOption result
        (all_below (length nearest.now) (λ v. nat_lt time (get_or too_late.now v 0) || not (has members.now v)) ≡ false)
        (λ total. (all_below (length nearest.now) (λ v. nat_lt time (get_or too_late.now v 0) || not (has members.now v)) ≡ true)
        × (total ≡ sum_below (length nearest.now) (has members.now) (λ v. get_or nearest.now v 0))) }
    ensures small { IfSome result (λ total. total ≤ 300 * 2 ^ 32) }
{
    let mut total = 0;
    let mut rest = Members::of(members);
    'members: while let Some(member) = rest.next() {
        if time >= too_late[member] {
            return None;
        }
        total += u64::from(nearest[member]);
    }
    Some(total)
}
