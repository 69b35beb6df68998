ghost use Rattle.std.specs.Prelude.{◌≡◌};
ghost use Rattle.table_refusal.specs.Laws.{number_of};

/// A law that a table is tested for.
#[derive(Clone, Copy, Debug, PartialEq, Eq)]
pub enum Law {
    /// Where `a` has a gap to `s`, each decision of `s` is matched by one of `a`.
    GapIsSound,
    /// The gap of a state to itself is 0.
    OwnGapIsZero,
    /// The merge of `x` and `s` has a gap to `s`, and to each state to which `x` has one.
    MergeCovers,
    /// A rough bound is at least what each decision gains with the rough bound after it, and 0 at the last layer.
    RoughBounds,
    /// A gap is at most the sum of two gaps that lead the same way.
    GapsAddUp,
}

impl Law {
    /// The number by which the law is printed: its place among the laws of a dynamic program. Of these, 1 (steps are states) and 6
    /// (sizes) need no test, since each table of the right form meets them.
    pub fn number(self) -> u8
        ensures { result ≡ number_of self }
    {
        match self {
            Law::GapIsSound => 2,
            Law::OwnGapIsZero => 3,
            Law::MergeCovers => 4,
            Law::RoughBounds => 5,
            Law::GapsAddUp => 7,
        }
    }
}

/// A test that fails.
#[derive(Clone, Copy, Debug, PartialEq, Eq)]
pub struct Failure {
    pub law: Law,
    pub layer: u32,
    /// The number of the first state.
    pub first: u32,
    /// The number of the second state, or of the decision where rough bounds are tested.
    pub second: u32,
}
