use journal_bytes::Incumbent;

/// What the search of a part has settled.
#[derive(Debug, Drop)]
pub struct PartReport {
    /// The number of the part, from 0 on.
    pub index: u32,
    /// How many parts there are.
    pub of: u32,
    /// The digest of the last record of the journal that was split.
    pub digest: [u8; 32],
    /// The best solution with its value, or none where none was found.
    pub best: Option<Incumbent>,
}
