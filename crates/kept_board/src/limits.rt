/// How many subproblems a snapshot lists at most, so that its body has fewer than 2^32 bytes.
pub const MOST_LISTED: usize = 1_000_000;
