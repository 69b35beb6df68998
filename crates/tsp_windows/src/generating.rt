//! Problems that are drawn from a seed.

ghost use Rattle.std.specs.Prelude.{◌≡◌, ◌+◌, ◌*◌, ◌-◌, ◌<◌, ◌≤◌, ◌^◌, length, get_or, true, IfOk};
ghost use Rattle.std.specs.List.{list_all};
ghost use Rattle.tsp_windows.specs.Instance.{is_window};
ghost use Rattle.tsp_windows.specs.Generating.{distance_drawn, following_distance, distances_drawn, AreDistances, way_on, home_again, windows_along, generated};
ghost use Rattle.tsp_windows.specs.Shown.{instance_in};

use crate::instance::TspWindows;
use crate::reading::problem_of;
use crate::window::Window;
use draws::Draws;
use std::alloc::{AllocError, Global};

/// How long a window is open before its node is reached on the tour `0, 1, .., n - 1, 0`, and how long after.
const SLACK: u64 = 40;

/// Draws the distance at a place in the rows: from 10 to 50, and 0 without a draw from a node to itself.
fn draw_distance(draws: &mut Draws, nodes: usize, place: usize) -> u32
    requires { 1 ≤ nodes }
    ensures distance { result ≡ distance_drawn nodes place draws.old }
    ensures following { draws.new ≡ following_distance nodes place draws.old }
    ensures short { result ≤ 50 }
{
    if place / nodes == place % nodes {
        0
    } else {
        10 + draws.draw() % 41
    }
}

/// Draws the distances by row.
fn draw_distances(alloc: Global, nodes: usize, seed: u32) -> Result<Vec<u32>, AllocError>
    requires some { 1 ≤ nodes }
    requires few { nodes ≤ 300 }
    requires seed { seed < 2 ^ 31 }
    ensures drawn { IfOk result (λ ds. ds.items ≡ distances_drawn nodes seed) }
    ensures distances { IfOk result (λ ds. AreDistances nodes (nodes * nodes) ds.items) }
{
    let mut draws = Draws::from_seed(seed);
    let mut distances = Vec::with_capacity(alloc, nodes * nodes)?;
    'distances: for place in 0..nodes * nodes {
        distances.push(draw_distance(&mut draws, nodes, place))?;
    }
    Ok(distances)
}

/// The distance from a node to the one that is numbered after it.
fn way_on(nodes: usize, distances: &[u32], node: usize) -> u32
    requires few { nodes ≤ 300 }
    requires distances { AreDistances nodes (nodes * nodes) distances.now }
    requires inside { node + 1 < nodes }
    ensures way { result ≡ way_on nodes distances.now node }
    ensures short { result ≤ 50 }
{
    distances[node * nodes + (node + 1)]
}

/// When node 0 is reached again on the way from node to node, in the order of their numbers, from time 0.
fn home_again(nodes: usize, distances: &[u32]) -> u64
    requires some { 1 ≤ nodes }
    requires few { nodes ≤ 300 }
    requires distances { AreDistances nodes (nodes * nodes) distances.now }
    ensures time { result ≡ home_again nodes distances.now }
    ensures early { result ≤ 15000 }
{
    let mut time = 0u64;
    'nodes: for node in 1..nodes {
        time += u64::from(way_on(nodes, distances, node - 1));
    }
    time + u64::from(distances[(nodes - 1) * nodes])
}

/// The windows around the times at which that tour reaches the nodes.
fn windows_along(alloc: Global, nodes: usize, distances: &[u32]) -> Result<Vec<Window>, AllocError>
    requires some { 1 ≤ nodes }
    requires few { nodes ≤ 300 }
    requires distances { AreDistances nodes (nodes * nodes) distances.now }
    ensures { IfOk result (λ ws. ws.items ≡ windows_along nodes distances.now) }
{
    let mut windows = Vec::with_capacity(alloc, nodes)?;
    windows.push(Window {
        opening: 0,
        closing: home_again(nodes, distances) + SLACK,
    })?;
    let mut time = 0u64;
    'nodes: for node in 1..nodes {
        time += u64::from(way_on(nodes, distances, node - 1));
        windows.push(Window {
            opening: time.saturating_sub(SLACK),
            closing: time + SLACK,
        })?;
    }
    Ok(windows)
}

/// Draws a problem of `n` nodes, 1 to 300, from a seed below 2^31: the distances, and windows around the times of the tour
/// `0, 1, .., n - 1, 0`, which is feasible. Fails only for want of memory.
pub fn generate(alloc: Global, n: u32, seed: u32) -> Result<TspWindows, AllocError>
    requires some { 1 ≤ n }
    requires few { n ≤ 300 }
    requires seed { seed < 2 ^ 31 }
    ensures { IfOk result (λ m. instance_in m ≡ generated n seed) }
{
    let nodes = n as usize;
    let distances = draw_distances(alloc, nodes, seed)?;
    let windows = windows_along(alloc, nodes, distances.as_slice())?;
    problem_of(alloc, nodes, distances, windows)
}
