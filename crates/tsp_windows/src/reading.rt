//! Reading a problem from a text.

ghost use Rattle.std.specs.Prelude.{◌≡◌, ◌+◌, ◌*◌, ◌-◌, ◌^◌, ◌<◌, ◌≤◌, length, IsTrue, IfOk, OnOk};
ghost use Rattle.tokens.specs.Grammar.{times, Reads};
ghost use Rattle.tsp_windows.specs.Instance.{is_small};
ghost use Rattle.tsp_windows.specs.Shown.{instance_in};
ghost use Rattle.tsp_windows.specs.Texts.{distance_at, window_at, nodes_at, spelled};

use crate::instance::TspWindows;
use crate::parts::MOST_NODES;
use crate::ways::{least_ways, moments_too_late};
use crate::window::Window;
use std::alloc::{AllocError, Global};
use tokens::{Comment, InstanceError, InstanceFault, ReadModelError, Tokens};

const GREATEST_DISTANCE: i64 = 1_000_000_000;

const LATEST_CLOSING: i64 = 1_000_000_000_000;

/// Reads a distance after those before it.
#[tactic(auto, unfolding(crate::specs::Texts::distance_at))]
fn read_distance(
    nodes: usize,
    tokens: &mut Tokens,
    distances: &mut Vec<u32>,
) -> Result<(), ReadModelError>
    requires { 1 ≤ nodes }
    ensures { Reads (λ _. (distances.new.items, tokens.new)) result (distance_at nodes distances.old.items tokens.old) }
{
    let distance = tokens.next_number(0, GREATEST_DISTANCE)? as u32;
    let place = distances.len();
    let kept = if place / nodes == place % nodes {
        0
    } else {
        distance
    };
    distances.push(kept)?;
    Ok(())
}

/// Reads a window after those before it.
#[tactic(auto, unfolding(crate::specs::Texts::window_at))]
fn read_window(tokens: &mut Tokens, windows: &mut Vec<Window>) -> Result<(), ReadModelError>
    ensures { Reads (λ _. (windows.new.items, tokens.new)) result (window_at windows.old.items tokens.old) }
{
    let opening = tokens.next_number(0, LATEST_CLOSING)?;
    let place = tokens.place();
    let closing = tokens.next_number(0, LATEST_CLOSING)?;
    if closing < opening {
        return Err(ReadModelError::Text(InstanceError {
            fault: InstanceFault::Window,
            place,
        }));
    }
    windows.push(Window {
        opening: opening as u64,
        closing: closing as u64,
    })?;
    Ok(())
}

/// Reads this many distances.
#[tactic(auto, using(tokens::proofs::Chains::times_steps))]
fn read_distances(
    nodes: usize,
    count: usize,
    tokens: &mut Tokens,
    distances: &mut Vec<u32>,
) -> Result<(), ReadModelError>
    requires { 1 ≤ nodes }
    ensures { Reads (λ _. (distances.new.items, tokens.new)) result (times (distance_at nodes) count distances.old.items tokens.old) }
{
    'distances: for _ in 0..count {
        read_distance(nodes, tokens, distances)?;
    }
    Ok(())
}

/// Reads this many windows.
#[tactic(auto, using(tokens::proofs::Chains::times_steps))]
fn read_windows(
    count: usize,
    tokens: &mut Tokens,
    windows: &mut Vec<Window>,
) -> Result<(), ReadModelError>
    ensures { Reads (λ _. (windows.new.items, tokens.new)) result (times window_at count windows.old.items tokens.old) }
{
    'windows: for _ in 0..count {
        read_window(tokens, windows)?;
    }
    Ok(())
}

/// The problem of an instance within the limits.
pub(crate) fn problem_of(
    alloc: Global,
    nodes: usize,
    distances: Vec<u32>,
    windows: Vec<Window>,
) -> Result<TspWindows, AllocError>
    requires { IsTrue (is_small (record { nodes = nodes; distances = distances.items; windows = windows.items })) }
    ensures { IfOk result (λ m. instance_in m ≡ record { nodes = nodes; distances = distances.items; windows = windows.items }) }
{
    let nearest = least_ways(alloc, nodes, &distances)?;
    let too_late = moments_too_late(alloc, &nearest, &windows)?;
    Ok(TspWindows {
        nodes,
        distances,
        windows,
        nearest,
        too_late,
    })
}

/// Reads what stands after the number of nodes, to the end.
#[tactic(auto, unfolding(crate::specs::Texts::nodes_at), using(tokens::proofs::Chains::part_fails))]
fn read_nodes(
    alloc: Global,
    nodes: usize,
    tokens: &mut Tokens,
) -> Result<TspWindows, ReadModelError>
    requires some { 1 ≤ nodes }
    requires few { nodes ≤ 300 }
    ensures { Reads instance_in result (nodes_at nodes tokens.old) }
{
    let mut distances = Vec::new(alloc);
    read_distances(nodes, nodes * nodes, tokens, &mut distances)?;
    let mut windows = Vec::new(alloc);
    read_windows(nodes, tokens, &mut windows)?;
    tokens.finish()?;
    let problem = problem_of(alloc, nodes, distances, windows)?;
    Ok(problem)
}

/// Reads a problem: the number of nodes, the distances by row, and opening and closing of each node's window. Lines whose
/// first byte that is not a blank is `#` are comments. The distance of a node to itself counts as 0.
///
/// The first fault of the text is answered with its place: one of `Tokens::next_number` and `Tokens::finish`, or `Window`
/// at a closing that is before its opening. `OutOfMemory` where there was no memory for the problem.
#[tactic(auto, unfolding(crate::specs::Texts::spelled))]
pub fn read(alloc: Global, bytes: &[u8]) -> Result<TspWindows, ReadModelError>
    requires { length bytes.now < 2 ^ 32 - 1 }
    ensures { Reads instance_in result (spelled bytes.now) }
{
    let mut tokens = Tokens::new(bytes, Comment::Hash);
    let nodes = tokens.next_number(1, MOST_NODES as i64)? as usize;
    read_nodes(alloc, nodes, &mut tokens)
}
