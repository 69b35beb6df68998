use dp_model::Sub;
use std::marker::Model;

/// A subproblem that a worker has out, with its ticket.
#[derive(Debug, Drop)]
pub struct CheckedOut {
    /// Its ticket.
    pub ticket: u64,
    /// The subproblem.
    pub sub: Sub,
}

impl Model for CheckedOut {
    ghost use Rattle.fringe.specs.Tickets.{Ticketed};

    ghost Value = { Ticketed };

    ghost view = { λ o. record { ticket = o.ticket; subproblem = o.sub.subproblem } };
}
