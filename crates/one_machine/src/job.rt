/// A job of the machine.
#[derive(Clone, Copy, Debug, PartialEq, Eq)]
pub struct Job {
    /// The processing time.
    pub processing: u64,
    /// What each unit of its tardiness costs.
    pub weight: u64,
    /// The due time: a job that is completed later is tardy by the difference.
    pub due: u64,
}
