/// When a node may be visited.
#[derive(Clone, Copy, Debug, PartialEq, Eq)]
pub struct Window {
    /// The earliest time of a visit. A tour that arrives earlier waits.
    pub opening: u64,
    /// The latest time of an arrival.
    pub closing: u64,
}
