use problem_names::ModelName;

/// The version of journals that have neither snapshots nor a distance.
pub(crate) const FIRST_VERSION: u32 = 1;

/// The version in which journals of whole searches are written.
pub const VERSION: u32 = 2;

/// The version of the journals of parts of a search: the letters PART. Their head has the part, and their records are those of version 2.
pub const PART_VERSION: u32 = 0x5041_5254;

/// The greatest distance that a head may have: 2^50.
pub const MOST_WITHIN: i64 = 0x4_0000_0000_0000;

/// A part of a search that was dealt out.
#[derive(Clone, Copy, Debug, PartialEq, Eq)]
pub struct Part {
    /// The number of the part, from 0 on. It is less than the number of parts.
    pub index: u32,
    /// How many parts there are.
    pub of: u32,
    /// The digest of the last record of the journal that was split.
    pub digest: [u8; 32],
}

/// What a journal begins with.
#[derive(Debug, Drop)]
pub struct Head {
    pub model: ModelName,
    /// How far the search may end from the best value, from 0 to `MOST_WITHIN`. A journal of version 1 is of distance 0.
    pub within: i64,
    /// The part of a search that the journal has, or none where it is of a whole search.
    pub part: Option<Part>,
    /// The text of the instance.
    pub text: Vec<u8>,
}
