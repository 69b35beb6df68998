use fringe::Fringe;

/// What a board starts with: an incumbent or none, the open subproblems, and the next ticket.
#[derive(Debug, Drop)]
pub struct Start {
    /// The decisions of the incumbent.
    pub best: Vec<u32>,
    /// The value of the incumbent, or `None` if there is no incumbent.
    pub best_value: Option<i64>,
    /// The open subproblems.
    pub fringe: Fringe,
    /// The ticket of the next subproblem that enters.
    pub next_ticket: u64,
}
