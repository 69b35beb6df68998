/// What becomes of a child when its parent is finished. The first variant that applies is the fate.
#[derive(Clone, Copy, Debug, PartialEq, Eq, Hash)]
pub enum Fate {
    /// The child's bound is at most the reach: the child is dropped.
    Below,
    /// The open subproblem of the child's depth and state has no less value: the child is dropped. `by` is the ticket of that subproblem.
    Kept { by: u64 },
    /// An entry of the table dominates the child: the child is dropped. `by` is the least ticket of such entries.
    Dominated { by: u64 },
    /// The child becomes open with this ticket, in place of the open subproblem of its depth and state, whose ticket is `old`.
    Replaced { ticket: u64, old: u64 },
    /// The child becomes open with this ticket.
    Entered { ticket: u64 },
}
