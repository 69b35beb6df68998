//! The fates of children.

ghost use Rattle.std.specs.Prelude.{◌≡◌, ℕ, ◌+◌, ◌^◌, ◌<◌, ◌≤◌, [], cond, length, vec_capacity};
ghost use Rattle.dp_model.specs.Gaps.{IsStateOf};
ghost use Rattle.dp_model.specs.Lists.{Each};
ghost use Rattle.dp_model.specs.Numbers.{is_above};
ghost use Rattle.dominance_table.specs.Dominator.{IsReached};
ghost use Rattle.board_laws.specs.Fates.{fate_of, fates_by, ticket_after};
ghost use Rattle.board.specs.Contents.{contents};

use board_laws::Fate;
use dominance_table::Table;
use dp_model::{DpModel, Sub};
use fringe::Fringe;

/// Whether the value is above the reach; `None` is less than every number.
pub fn is_above(reach: Option<i64>, value: i64) -> bool
    ensures { result ≡ is_above reach value }
{
    match reach {
        None => true,
        Some(reach) => reach < value,
    }
}

/// The fate of a child beside these open subproblems and entries. If it enters, it has this ticket.
fn decide<M: DpModel>(
    model: &M,
    reach: Option<i64>,
    fringe: &Fringe,
    table: &Table,
    ticket: u64,
    sub: &Sub,
) -> Fate
    requires cells { length sub.now.subproblem.row ≡ fringe.now.words }
    requires state { IsStateOf (M.meaning (M.numbers model.now)) (length sub.now.subproblem.decisions) sub.now.subproblem.row }
    requires entries { Each (λ e. IsReached (M.meaning (M.numbers model.now)) e.depth e.row e.rank) table.now.entries }
    ensures { result ≡ fate_of (M.meaning (M.numbers model.now)) reach fringe.now.open_ones table.now.entries ticket sub.now.subproblem }
{
    if !is_above(reach, sub.bound) {
        return Fate::Below;
    }
    let depth = sub.decisions.len();
    let row = sub.row.as_slice();
    let same = fringe.same(depth, row);
    if let Some(same) = &same {
        if sub.value <= same.value {
            return Fate::Kept { by: same.ticket };
        }
    }
    if let Some(by) = table.dominator(model, depth, row, sub.value) {
        return Fate::Dominated { by };
    }
    match &same {
        None => Fate::Entered { ticket },
        Some(same) => Fate::Replaced {
            ticket,
            old: same.ticket,
        },
    }
}

/// The fates of children, each decided beside the same open subproblems and entries. The first child that enters has the next
/// ticket.
pub fn decide_all<M: DpModel>(
    model: &M,
    reach: Option<i64>,
    fringe: &Fringe,
    table: &Table,
    next: u64,
    subs: &[Sub],
    into: &mut Vec<Fate>,
)
    requires cells { Each (λ h. length h.subproblem.row ≡ fringe.now.words) subs.now }
    requires states { Each (λ h. IsStateOf (M.meaning (M.numbers model.now)) (length h.subproblem.decisions) h.subproblem.row) subs.now }
    requires entries { Each (λ e. IsReached (M.meaning (M.numbers model.now)) e.depth e.row e.rank) table.now.entries }
    requires empty { into.old.items ≡ [] }
    requires room { length subs.now ≤ vec_capacity into.old }
    requires tickets { next + length subs.now < 2 ^ 64 }
    ensures fates { into.new.items ≡ fates_by (fate_of (M.meaning (M.numbers model.now)) reach fringe.now.open_ones table.now.entries) next (contents subs.now) }
    ensures capacity { vec_capacity into.new ≡ vec_capacity into.old }
{
    let mut next = next;
    for sub in subs {
        let fate = decide(model, reach, fringe, table, next, sub);
        into.push_reserved(fate);
        if enters(&fate) {
            next += 1;
        }
    }
}

/// Whether a child of this fate enters.
fn enters(fate: &Fate) -> bool
    ensures { (ticket : ℕ) → ticket_after ticket fate.now ≡ cond result (ticket + 1) ticket }
{
    matches!(fate, Fate::Replaced { .. } | Fate::Entered { .. })
}
