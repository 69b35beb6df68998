ghost use Rattle.std.specs.Prelude.{◌≡◌, true};
ghost use Rattle.streams.specs.Counts.{next_count, Counts};

/// A call of a source or a sink failed, and its count of faults rose.
#[derive(Clone, Copy, Debug, PartialEq, Eq)]
pub struct Failed;

impl Failed {
    /// The answer of a call that fails, after it was counted.
    pub(crate) fn counted(faults: &mut u64) -> Failed
        ensures count { faults.new ≡ next_count faults.old }
        ensures rose { Counts true faults.old faults.new }
    {
        *faults = faults.saturating_add(1);
        Failed
    }
}
