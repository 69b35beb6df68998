//! The open subproblems in order of ticket.

ghost use Rattle.std.specs.Prelude.{◌≡◌, map, IfOk};
ghost use Rattle.fringe.specs.Listing.{in_slots, referred};
ghost use Rattle.fringe.specs.Slots.{HaveOwnTickets, opened};

use crate::listed::Listed;
use dp_model::Sub;
use std::alloc::{AllocError, Global};

/// The `count` open subproblems with their tickets, in the order of their slots.
fn list_slots<'a>(
    alloc: Global,
    slots: &'a [Option<Listed>],
    count: usize,
) -> Result<Vec<(u64, &'a Sub)>, AllocError>
    ensures { IfOk result (λ list. map referred list.items ≡ in_slots slots.now) }
{
    let mut list = Vec::with_capacity(alloc, count)?;
    for one in slots {
        if let Some(one) = one {
            list.push((one.ticket, &one.sub))?;
        }
    }
    Ok(list)
}

/// The `count` open subproblems with their tickets, in order of ticket.
pub fn list_by_ticket<'a>(
    alloc: Global,
    slots: &'a [Option<Listed>],
    count: usize,
) -> Result<Vec<(u64, &'a Sub)>, AllocError>
    requires { HaveOwnTickets slots.now }
    ensures { IfOk result (λ list. map referred list.items ≡ opened slots.now) }
{
    let mut list = list_slots(alloc, slots, count)?;
    list.sort_unstable_by_key(|one| one.0);
    Ok(list)
}
