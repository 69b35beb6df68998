use dp_model::Sub;
use std::marker::Model;

/// An open subproblem with its ticket.
#[derive(Debug, Drop)]
pub struct Listed {
    /// Its ticket.
    pub ticket: u64,
    /// The subproblem.
    pub sub: Sub,
}

impl Model for Listed {
    ghost use Rattle.fringe.specs.Tickets.{Ticketed};

    ghost Value = { Ticketed };

    ghost view = { λ o. record { ticket = o.ticket; subproblem = o.sub.subproblem } };
}
