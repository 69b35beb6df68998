//! The exit statuses of the program.

/// The search went to its end with a best solution, or the command did what was asked for.
pub const DONE: u8 = 0;

/// There is no feasible solution.
pub const INFEASIBLE: u8 = 1;

/// The search stopped early.
pub const STOPPED: u8 = 2;

/// The input is refused.
pub const REFUSED_INPUT: u8 = 3;

/// The words or the width are refused.
pub const REFUSED_WORDS: u8 = 4;

/// The journal is refused.
pub const REFUSED_JOURNAL: u8 = 5;

/// The input failed.
pub const UNREAD: u8 = 6;

/// The output failed.
pub const UNWRITTEN: u8 = 7;

/// Memory ran out before the search or in printing.
pub const OUT_OF_MEMORY: u8 = 8;

/// A cover is refused, or a reported solution that does not have its value.
pub const REFUSED_COVER: u8 = 9;

/// The disk failed before the search.
pub const DISK_FAILED: u8 = 10;
