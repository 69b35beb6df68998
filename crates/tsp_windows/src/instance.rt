ghost use Rattle.std.specs.Prelude.{◌≡◌, ℕ, ◌*◌, ◌<◌, ◌≤◌, IsTrue, length, get_or};
ghost use Rattle.tsp_windows.specs.Instance.{is_small, near, no_window, instance_of, numbers_of};
ghost use Rattle.tsp_windows.specs.Late.{are_too_late};

use crate::window::Window;

/// A travelling salesman with time windows within the limits: 1 to 300 nodes, distances of at most 10^9, and windows
/// from 0 to 10^12 that do not close before they open. The distance of a node to itself is 0.
#[derive(Debug, Drop)]
pub struct TspWindows {
    pub(crate) nodes: usize,
    /// The distance from each node to each node, by row.
    pub(crate) distances: Vec<u32>,
    pub(crate) windows: Vec<Window>,
    /// The least distance to each node from another one.
    pub(crate) nearest: Vec<u32>,
    /// The first moment at which it is too late to leave for each node, even by the least distance to it.
    pub(crate) too_late: Vec<u64>,
    ghost small: { IsTrue (is_small (record { nodes = nodes; distances = distances.items; windows = windows.items })) },
    ghost spelled: { instance_of (numbers_of (record { nodes = nodes; distances = distances.items; windows = windows.items })) ≡ (record { nodes = nodes; distances = distances.items; windows = windows.items }) },
    ghost some: { 1 ≤ nodes },
    ghost few: { nodes ≤ 300 },
    ghost square: { length distances.items ≡ nodes * nodes },
    ghost each_window: { length windows.items ≡ nodes },
    ghost opens: { (v : ℕ) → (get_or windows.items v no_window).opening ≤ (get_or windows.items v no_window).closing },
    ghost closes: { (v : ℕ) → (get_or windows.items v no_window).closing ≤ 1000000000000 },
    ghost all_nearest: { length nearest.items ≡ nodes },
    ghost ways: { (v : ℕ) → v < nodes → get_or nearest.items v 0 ≡ near (record { nodes = nodes; distances = distances.items; windows = windows.items }) v },
    ghost all_too_late: { length too_late.items ≡ nodes },
    ghost late: { IsTrue (are_too_late (record { nodes = nodes; distances = distances.items; windows = windows.items }) too_late.items) },
}
