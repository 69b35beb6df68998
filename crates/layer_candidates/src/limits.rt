/// What a layer may keep.
#[derive(Clone, Copy, Debug)]
pub struct Limits {
    /// The most members of a layer.
    pub width: usize,
    /// A candidate whose bound is at most this is struck; so is one without a bound.
    pub threshold: Option<i64>,
}
