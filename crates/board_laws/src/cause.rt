/// Why a search is halted.
#[derive(Clone, Copy, Debug, PartialEq, Eq, Hash)]
pub enum Cause {
    /// The budget of subproblems is used up. `take` answers this; a board never stores it.
    Budget,
    /// Memory was refused.
    Memory,
    /// The journal failed.
    Journal,
}
