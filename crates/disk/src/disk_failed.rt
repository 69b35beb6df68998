ghost use Rattle.std.specs.Prelude.{◌≡◌, true};
ghost use Rattle.disk.specs.Counts.{next_count, Counts};

/// A call of a disk failed, and its count of faults rose.
#[derive(Clone, Copy, Debug, PartialEq, Eq)]
pub struct DiskFailed;

impl DiskFailed {
    /// The answer of a call that fails, after it was counted.
    pub(crate) fn counted(faults: &mut u64) -> DiskFailed
        ensures count { faults.new ≡ next_count faults.old }
        ensures rose { Counts true faults.old faults.new }
    {
        *faults = faults.saturating_add(1);
        DiskFailed
    }
}
