//! Tests of the fringe: pushes of one state, the order of pops, and more subproblems than a list could handle in the time of a test.

ghost use Rattle.std.specs.Prelude.{◌+◌, ◌<◌};
ghost use Rattle.dp_model.specs.Lists.{Each};

use dp_model::Sub;
use fringe::{Fringe, FringeFate, Same};
use std::alloc::{AllocError, Global};
use std::process::Abort;
use std::test::Fail;

/// A subproblem of depth 1 with this state, value and bound.
fn sub(alloc: Global, state: i64, value: i64, bound: i64) -> Result<Sub, AllocError> {
    let decisions = vec![in alloc; 0u32; 1]?;
    let row = vec![in alloc; state; 1]?;
    Ok(Sub {
        decisions,
        row,
        value,
        bound,
    })
}

/// Pushes the subproblem under a ticket that is greater than those of the open ones.
fn push_later(fringe: &mut Fringe, ticket: u64, sub: Sub) -> Result<FringeFate, AllocError>
    requires { Each (λ o. o.ticket < ticket) fringe.old.open_ones }
    ensures { Each (λ o. o.ticket < ticket + 1) fringe.new.open_ones }
{
    fringe.reserve(1)?;
    if sub.row.len() != fringe.words() {
        return Err(AllocError);
    }
    Ok(fringe.push(ticket, sub))
}

/// A state, a value and a bound, and the fate of the subproblem that has them.
type Push = (i64, i64, i64, FringeFate);

/// Pushes the subproblems under the tickets from 0 on. They have their fates.
fn push_all(
    rt: &impl Abort,
    alloc: Global,
    fringe: &mut Fringe,
    pushes: &[Push],
) -> Result<(), AllocError>
    requires { Each (λ o. o.ticket < 0) fringe.old.open_ones }
{
    for place in 0..pushes.len() {
        let (state, value, bound, wanted) = pushes[place];
        let one = sub(alloc, state, value, bound)?;
        let fate = push_later(fringe, place as u64, one)?;
        assert_eq!(rt; fate, wanted, "at {place}");
    }
    Ok(())
}

/// Nothing is open, and there is no room.
fn is_new(rt: &impl Abort, fringe: &Fringe) {
    assert_eq!(rt; (fringe.spare(), fringe.best_bound()), (0, None));
}

/// A new fringe after these pushes.
fn filled(rt: &impl Abort, alloc: Global, pushes: &[Push]) -> Result<Fringe, AllocError> {
    let mut fringe = Fringe::new(alloc, 1);
    is_new(rt, &fringe);
    push_all(rt, alloc, &mut fringe, pushes)?;
    Ok(fringe)
}

/// The ticket of the subproblem that is popped.
fn popped(fringe: &mut Fringe) -> Option<u64> {
    let (ticket, _sub) = fringe.pop_best()?;
    Some(ticket)
}

/// These tickets are popped.
fn pops(rt: &impl Abort, fringe: &mut Fringe, tickets: &[u64]) {
    for ticket in tickets {
        assert_eq!(rt; popped(fringe), Some(*ticket));
    }
}

/// Whether nothing is left. A drop of a fringe takes most of the time of a proof, so few functions drop one.
fn ends(mut fringe: Fringe) -> bool {
    popped(&mut fringe).is_none() && fringe.is_empty()
}

/// These tickets are popped, and then nothing is left.
fn empties(rt: &impl Abort, mut fringe: Fringe, tickets: &[u64]) {
    pops(rt, &mut fringe, tickets);
    assert!(rt; ends(fringe));
}

/// The open subproblem with this depth and this state of one cell is this one.
fn has_same(rt: &impl Abort, fringe: &Fringe, depth: usize, cell: i64, wanted: Option<Same>) {
    assert!(rt; fringe.words() == 1);
    assert_eq!(rt; fringe.same(depth, &[cell]), wanted);
}

/// How many are open, and the greatest bound.
fn counts(rt: &impl Abort, fringe: &Fringe, wanted: (usize, Option<i64>)) {
    assert_eq!(rt; (fringe.len(), fringe.best_bound()), wanted);
}

const OF_ONE_STATE: &[Push] = &[
    (9, 0, 3, FringeFate::Entered),
    (5, 60, 121, FringeFate::Entered),
    (5, 50, 121, FringeFate::Kept { by: 1 }),
    (5, 70, 121, FringeFate::Replaced { old: 1 }),
];

/// The open subproblem of the state that was pushed several times.
const GREATEST: Same = Same {
    ticket: 3,
    value: 70,
};

#[test]
fn pushes_of_one_state(rt: HostRuntime) -> Result<(), Fail> {
    let fringe = filled(&rt, rt.alloc(), OF_ONE_STATE)?;
    has_same(&rt, &fringe, 1, 5, Some(GREATEST));
    has_same(&rt, &fringe, 2, 5, None);
    has_same(&rt, &fringe, 1, 4, None);
    empties(&rt, fringe, &[3, 0]);
    Ok(())
}

/// The tickets and the values of the open ones, as the list by ticket has them.
fn tickets_and_values(alloc: Global, fringe: &Fringe) -> Result<Vec<(u64, i64)>, AllocError> {
    let listed = fringe.by_ticket()?;
    let mut pairs = Vec::new(alloc);
    for one in listed.as_slice() {
        let (ticket, sub) = *one;
        pairs.push((ticket, sub.value))?;
    }
    Ok(pairs)
}

/// The list by ticket has these tickets and values.
fn lists(
    rt: &impl Abort,
    alloc: Global,
    fringe: &Fringe,
    wanted: &[(u64, i64)],
) -> Result<(), AllocError> {
    let pairs = tickets_and_values(alloc, fringe)?;
    assert_eq!(rt; pairs.as_slice(), wanted);
    Ok(())
}

/// The last subproblem takes the place of the first in memory.
const IN_ONE_PLACE: &[Push] = &[
    (5, 60, 121, FringeFate::Entered),
    (10, 0, 120, FringeFate::Entered),
    (5, 70, 121, FringeFate::Replaced { old: 0 }),
];

#[test]
fn lists_by_ticket(rt: HostRuntime) -> Result<(), Fail> {
    let fringe = filled(&rt, rt.alloc(), IN_ONE_PLACE)?;
    let listed = lists(&rt, rt.alloc(), &fringe, &[(1, 0), (2, 70)]);
    empties(&rt, fringe, &[2, 1]);
    listed?;
    Ok(())
}

const OF_MANY_BOUNDS: &[Push] = &[
    (1, 5, 12, FringeFate::Entered),
    (2, 5, 10, FringeFate::Entered),
    (3, 5, 9, FringeFate::Entered),
    (4, 7, 12, FringeFate::Entered),
    (5, 5, 12, FringeFate::Entered),
];

#[test]
fn pops_in_order(rt: HostRuntime) -> Result<(), Fail> {
    let mut fringe = filled(&rt, rt.alloc(), OF_MANY_BOUNDS)?;
    counts(&rt, &fringe, (5, Some(12)));
    fringe.drop_up_to(9);
    counts(&rt, &fringe, (4, Some(12)));
    empties(&rt, fringe, &[3, 0, 4, 1]);
    Ok(())
}

/// A number below 2^24 that is far from that of the next one.
fn scattered(number: u64) -> i64 {
    (number.wrapping_mul(0x9e37_79b9_7f4a_7c15) >> 40) as i64
}

/// Pushes this many subproblems of different states with scattered bounds. Whether each entered.
fn push_many(alloc: Global, fringe: &mut Fringe, count: u32) -> Result<bool, AllocError>
    requires { Each (λ o. o.ticket < 0) fringe.old.open_ones }
{
    let mut all = true;
    for number in 0..count {
        let ticket = u64::from(number);
        let bound = scattered(ticket);
        let one = sub(alloc, i64::from(number), bound % 100, bound)?;
        let fate = push_later(fringe, ticket, one)?;
        all = all && fate == FringeFate::Entered;
    }
    Ok(all)
}

/// Pops this many. Whether no bound is greater than the one before it.
fn pop_many(fringe: &mut Fringe, count: u32) -> bool {
    let mut last = i64::MAX;
    for _ in 0..count {
        match fringe.pop_best() {
            Some((_ticket, sub)) if sub.bound <= last => last = sub.bound,
            _ => return false,
        }
    }
    true
}

/// Whether this many that are pushed all enter, have ranks, and are popped again.
fn holds_many(alloc: Global, count: u32) -> Result<bool, AllocError> {
    let mut fringe = Fringe::new(alloc, 1);
    let entered = push_many(alloc, &mut fringe, count);
    let ranked = fringe.ranks() >= fringe.len();
    let popped = pop_many(&mut fringe, count);
    let ended = ends(fringe);
    Ok(entered? && ranked && popped && ended)
}

#[test]
fn many_are_pushed_and_popped(rt: HostRuntime) -> Result<(), Fail> {
    // a list would need minutes for this many
    assert!(rt; holds_many(rt.alloc(), 200_000)?);
    Ok(())
}
