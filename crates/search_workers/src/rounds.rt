//! Rounds of worker 0 on a board that one owns, until the search ends: nothing is open, a cause is held, or the budget is used up.
//! Where the budget and the tickets suffice for every prefix and memory is not refused, it ends with nothing open.

mod compiling;
mod exploring;
mod offering;

pub use compiling::fill_with;
pub use exploring::explore;
