/// A journal gets a snapshot after this many finished subproblems.
pub(crate) const SNAPSHOT_EVERY: u32 = 1024;
