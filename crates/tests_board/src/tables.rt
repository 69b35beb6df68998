//! A table at its limit, and which states of the knapsack an entry dominates.

ghost use Rattle.std.specs.Prelude.{◌≡◌, ◌<◌, ℕ, [], length, true};
ghost use Rattle.dp_model.specs.Gaps.{IsStateOf};
ghost use Rattle.dominance_table.specs.Dominator.{AreStates};

use dominance_table::{Put, Table};
use dp_model::{DpModel, OutOfMemory};
use knapsack::Knapsack;
use std::alloc::Global;
use std::process::Abort;
use std::test::Fail;

/// A depth, a room that is left there, and the value that it is reached with.
type Reached = (usize, i64, i64);

/// Three items in a room of 10.
fn three_items(rt: &impl Abort, alloc: Global) -> Knapsack {
    let model = knapsack::read(alloc, b"3 10\n60 5\n50 4\n70 6\n");
    assert!(rt; model.is_ok(), "the three items");
    model.expect(rt, "the three items")
}

/// Whether the row is a state of the depth.
fn is_state<M: DpModel>(model: &M, depth: usize, row: &[i64]) -> bool
    ensures { result ≡ true → IsStateOf (M.meaning (M.numbers model.now)) depth row.now }
{
    depth <= model.vars() && row.len() == model.words() && model.is_state(depth, row)
}

/// Puts the state into an empty table under ticket 1.
fn put_first<M: DpModel>(model: &M, table: &mut Table, depth: usize, row: &[i64], value: i64)
    requires empty { table.old.entries ≡ [] }
    requires limit { table.old.limit ≡ 1 }
    requires room { 0 < table.old.spare }
    requires cells { length row.now ≡ table.old.words }
    requires state { IsStateOf (M.meaning (M.numbers model.now)) depth row.now }
    ensures { (k : ℕ) → AreStates (M.meaning (M.numbers model.now)) k table.new.entries }
{
    table.put(model, depth, row, value, 1);
}

/// The dominator of the second state in a table that has only the first one, under ticket 1.
fn dominator_beside<M: DpModel>(
    rt: &impl Abort,
    alloc: Global,
    model: &M,
    entry: Reached,
    sought: Reached,
) -> Result<Option<u64>, OutOfMemory> {
    let (depth, left, value) = entry;
    let row = [left];
    assert!(rt; is_state(model, depth, &row), "{entry:?}");
    let mut table = Table::new(alloc, 1, 1);
    table.reserve(1)?;
    put_first(model, &mut table, depth, &row, value);
    let (depth, left, value) = sought;
    let row = [left];
    assert!(rt; is_state(model, depth, &row), "{sought:?}");
    Ok(table.dominator(model, depth, &row, value))
}

/// A state, and the ticket of what dominates it beside the state of depth 1 with a room of 5 and the value 60.
const STATES: &[(Reached, Option<u64>)] = &[
    ((1, 4, 60), Some(1)),
    ((1, 5, 60), Some(1)),
    ((1, 5, 61), None),
    ((1, 6, 60), None),
    ((2, 4, 60), None),
];

/// The state has this dominator.
fn has_dominator<M: DpModel>(
    rt: &impl Abort,
    alloc: Global,
    model: &M,
    sought: Reached,
    wanted: Option<u64>,
) -> Result<(), OutOfMemory> {
    let by = dominator_beside(rt, alloc, model, (1, 5, 60), sought)?;
    assert_eq!(rt; by, wanted, "at {sought:?}");
    Ok(())
}

#[test]
fn states_with_no_more_room_and_no_more_value_are_dominated(rt: HostRuntime) -> Result<(), Fail> {
    let model = three_items(&rt, rt.alloc());
    for (sought, wanted) in STATES.iter().copied() {
        has_dominator(&rt, rt.alloc(), &model, sought, wanted)?;
    }
    Ok(())
}

/// The table answers so to a put of this state of depth 1, with this value and ticket.
fn puts<M: DpModel>(
    rt: &impl Abort,
    model: &M,
    table: &mut Table,
    entry: (i64, i64, u64),
    wanted: (Put, usize),
) {
    let (cell, value, ticket) = entry;
    let row = [cell];
    assert!(rt; is_state(model, 1, &row), "{entry:?}");
    assert!(rt; table.words() == 1);
    assert!(rt; table.spare() > 0 || table.len() == table.limit() as usize);
    let answer = table.put(model, 1, &row, value, ticket);
    assert_eq!(rt; (answer, table.len()), wanted);
}

/// The table is empty and has no room.
fn is_new(rt: &impl Abort, table: &Table) {
    assert_eq!(rt; (table.spare(), table.len()), (0, 0));
}

#[test]
fn puts_up_to_the_limit(rt: HostRuntime) -> Result<(), Fail> {
    let model = three_items(&rt, rt.alloc());
    let mut table = Table::new(rt.alloc(), 1, 1);
    is_new(&rt, &table);
    table.reserve(1)?;
    puts(&rt, &model, &mut table, (5, 60, 1), (Put::Yes, 1));
    puts(&rt, &model, &mut table, (10, 0, 2), (Put::AtLimit, 1));
    Ok(())
}
