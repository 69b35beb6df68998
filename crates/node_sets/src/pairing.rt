//! What is made of two sets.

ghost use Rattle.std.specs.Prelude.{◌≡◌};
ghost use Rattle.node_sets.specs.Pairs.{made_word};

/// Which set is made of a first and a second one.
#[derive(Clone, Copy)]
pub(crate) enum Pairing {
    /// The members of either.
    Union,
    /// The members of both.
    Intersection,
    /// The members of the first that are none of the second.
    Difference,
}

impl Pairing {
    /// The word that is made of two.
    #[inline]
    pub(crate) fn words(self, a: u32, b: u32) -> u32
        ensures { result ≡ made_word self a b }
    {
        match self {
            Pairing::Union => a | b,
            Pairing::Intersection => a & b,
            Pairing::Difference => a & !b,
        }
    }
}
