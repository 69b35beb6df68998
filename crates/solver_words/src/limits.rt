/// The greatest number of words that the books of a cover may be given together.
pub const MOST_COVER_WORDS: u64 = 1 << 27;

/// The number of words that the books of a cover may have where none is given.
pub const DEFAULT_COVER_WORDS: u64 = 1 << 26;

/// The greatest seed of a drawn instance.
pub(crate) const MOST_SEED: u64 = (1 << 31) - 1;
