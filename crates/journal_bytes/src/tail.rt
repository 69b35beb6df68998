/// Where the next record goes.
#[derive(Clone, Copy, Debug, PartialEq, Eq)]
pub struct Tail {
    /// The offset of the closed gate.
    pub end: u64,
    /// The digest of the record before it; 32 zero bytes before the first.
    pub digest: [u8; 32],
    /// The version of the records, 1 or 2.
    pub version: u32,
    /// How many Finish records stand after the last Snapshot, or after the head where there is none. It stops at `u64::MAX`.
    pub since: u64,
}
