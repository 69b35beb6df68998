/// The greatest distance that a search may be asked for, in units of the value.
pub const MOST_DISTANCE: u64 = 1 << 50;

/// The greatest width of a diagram, in nodes of a layer. No subproblem has more children.
pub const MOST_WIDTH: u32 = 1 << 24;

/// The greatest cost of a diagram's layers in memory, in units of 8 bytes.
pub const MOST_COST: u64 = 1 << 25;

/// The greatest number of workers of a search.
pub const MOST_WORKERS: u32 = 16;

/// The greatest number of choices of a layer.
pub const MOST_CHOICES: usize = 1024;

/// The greatest number of leaders of a layer: the nodes that others are compared with for dominance.
pub const MOST_LEADERS: usize = 16;

/// The greatest number of parts in which the layers of a relaxed diagram are made.
pub const MOST_LAYER_PARTS: u32 = 64;
