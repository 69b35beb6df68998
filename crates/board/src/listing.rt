//! What is out or open, in order of ticket.

ghost use Rattle.std.specs.Prelude.{◌≡◌, ◌≢◌, ◌++◌, map, IfOk};
ghost use Rattle.dp_laws.specs.Pairs.{EachTwo};
ghost use Rattle.fringe.specs.Listing.{referred};
ghost use Rattle.board_laws.specs.Board.{full_slots};
ghost use Rattle.board.specs.Frontier.{in_order};

use crate::checked_out::CheckedOut;
use dp_model::{OutOfMemory, Sub};
use fringe::Fringe;

/// The list with what the slots have appended. Fails only for want of memory.
fn with_slots<'a>(
    list: Vec<(u64, &'a Sub)>,
    slots: &'a [Option<CheckedOut>],
) -> Result<Vec<(u64, &'a Sub)>, OutOfMemory>
    ensures { IfOk result (λ all. map referred all.items ≡ map referred list.entry.items ++ full_slots slots.now) }
{
    let mut all = list;
    for slot in slots {
        if let Some(one) = slot {
            all.push((one.ticket, &one.sub))?;
        }
    }
    Ok(all)
}

/// What the slots have and what is open, in order of ticket. No two of them have one ticket. Fails only for want of memory.
pub fn list_frontier<'a>(
    slots: &'a [Option<CheckedOut>],
    fringe: &'a Fringe,
) -> Result<Vec<(u64, &'a Sub)>, OutOfMemory>
    requires { EachTwo (λ a b. a.ticket ≢ b.ticket) (full_slots slots.now ++ fringe.now.open_ones) }
    ensures { IfOk result (λ all. map referred all.items ≡ in_order (full_slots slots.now ++ fringe.now.open_ones)) }
{
    let listed = fringe.by_ticket()?;
    let mut all = with_slots(listed, slots)?;
    all.sort_unstable_by_key(|one| one.0);
    Ok(all)
}
