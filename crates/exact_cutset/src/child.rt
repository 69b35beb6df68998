ghost use Rattle.std.specs.Prelude.{◌≡◌};

/// A child: the depth and the place of its node, its value and its bound.
#[derive(Clone, Copy, Debug)]
pub(crate) struct Child {
    pub(crate) depth: usize,
    pub(crate) node: usize,
    pub(crate) value: i64,
    pub(crate) bound: i64,
}

impl Child {
    /// The child of the node at the depth and the place.
    pub(crate) fn at(depth: usize, node: usize, value: i64, bound: i64) -> Child
        ensures { result ≡ record { depth = depth; node = node; value = value; bound = bound } }
    {
        Child {
            depth,
            node,
            value,
            bound,
        }
    }
}
