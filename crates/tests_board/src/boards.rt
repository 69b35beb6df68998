//! Steps of one worker on a board over the knapsack.

ghost use Rattle.std.specs.Prelude.{◌≡◌, ◌<◌, ◌^◌, ◌≤ℤ◌, pos, List, ℕ, [], length, slice_get, Some, None, IsTrue, IsSome, IfOk};
ghost use Rattle.dp_model.specs.Distances.{IsDistance};
ghost use Rattle.dp_model.specs.Numbers.{AtMost, IsFar};
ghost use Rattle.dp_model.specs.Prefixes.{IsSolution, value_of};
ghost use Rattle.board_laws.specs.Board.{incumbent_value, slot_at};
ghost use Rattle.board_laws.specs.GoodBoard.{IsGood};
ghost use Rattle.board_laws.specs.Restoring.{MayRestore};
ghost use Rattle.board_laws.specs.Steps.{finished_by};
ghost use Rattle.board.specs.Opened.{ticketed};

use board::{Board, Cause, Improved, Settings, Taken};
use dp_model::{DpModel, OutOfMemory, Sub};
use knapsack::Knapsack;
use std::alloc::Global;
use std::process::Abort;
use std::sync::Arc;
use std::test::Fail;

/// Three items in a room of 10. The best value is 120. Items by profit per weight, with a part of the last one, give 121.
const THREE_ITEMS: &[u8] = b"3 10\n60 5\n50 4\n70 6\n";

/// Two items that fit together, with a profit of 110.
const TWO_ITEMS: &[u8] = b"2 9\n60 5\n50 4\n";

/// What the readers of a board for one worker show.
#[derive(Clone, Copy, Debug, PartialEq)]
struct Shown {
    bound: Option<i64>,
    incumbent: Option<i64>,
    out: Option<u64>,
    taken: u64,
    finished: u64,
    cause: Option<Cause>,
    explored: bool,
}

/// The first board of the three items.
const AT_FIRST: Shown = Shown {
    bound: Some(121),
    incumbent: None,
    out: None,
    taken: 0,
    finished: 0,
    cause: None,
    explored: false,
};

/// What the board shows.
fn seen<M: DpModel>(board: &Board<M>) -> Shown {
    // Each board is for one worker at least.
    let incumbent = board.incumbent_value();
    Shown {
        bound: board.bound(),
        incumbent,
        out: board.slot_ticket(0),
        taken: board.taken(),
        finished: board.finished(),
        cause: board.cause(),
        explored: board.is_explored(),
    }
}

/// What the board shows at the end. A drop of a board takes most of the time of a proof, so only this function drops one.
fn last_seen<M: DpModel>(board: Board<M>) -> Shown {
    seen(&board)
}

/// Stops the test if a board does not show what is wanted.
fn shows(rt: &impl Abort, found: Shown, wanted: Shown) {
    assert_eq!(rt; found, wanted);
}

/// The items as a problem.
fn items(rt: &impl Abort, alloc: Global, text: &[u8]) -> Knapsack {
    assert!(rt; text.len() < 100, "the items");
    let model = knapsack::read(alloc, text);
    assert!(rt; model.is_ok(), "the items");
    model.expect(rt, "the items")
}

/// The first board of a problem for one worker, who may have this many subproblems, with a distance.
fn first_board<M: DpModel>(
    alloc: Global,
    model: M,
    budget: u64,
    within: i64,
) -> Result<Board<M>, OutOfMemory>
    requires distance { IsDistance within }
    ensures empty { IfOk result (λ b. slice_get b.board.slots 0 ≡ Some None) }
    ensures numbers { IfOk result (λ b. b.numbers ≡ M.numbers model) }
    ensures good { IfOk result (λ b. IsGood (M.meaning b.numbers) b.first) }
{
    let settings = Settings {
        workers: 1,
        budget,
        table_limit: 4,
        width: 1,
        within,
    };
    let model = Arc::new(alloc, model)?;
    Board::begin(alloc, model, settings)
}

/// That board once the worker has asked for the root, with the answer and the bound of what the worker got.
fn root_taken<M: DpModel>(
    alloc: Global,
    model: M,
    budget: u64,
) -> Result<(Board<M>, Taken, i64), OutOfMemory>
    ensures { IfOk result (λ r. IsGood (M.meaning r.0.numbers) r.0.first) }
{
    let mut into = Sub::blank(alloc, model.vars(), model.words())?;
    let mut board = first_board(alloc, model, budget, 0)?;
    let answer = board.take(0, &mut into);
    Ok((board, answer, into.bound))
}

fn is_out<M: DpModel>(board: &Board<M>) -> bool
    ensures { IsTrue result → IsSome (slot_at board.now.board 0) }
{
    board.facts();
    board.slot_ticket(0).is_some()
}

fn is_halted<M: DpModel>(board: &Board<M>) -> bool
    ensures { IsTrue result → IsSome board.now.board.cause }
{
    board.cause().is_some()
}

/// Whether the bound of the board is its incumbent's value, so that no feasible solution is worth more.
fn is_closed<M: DpModel>(board: &Board<M>) -> bool
    requires { IsGood (M.meaning board.now.numbers) board.now.first }
    ensures { IsTrue result → (x : List ℕ) → IsSolution (M.meaning board.now.numbers) x → AtMost (value_of (M.meaning board.now.numbers) x) (incumbent_value board.now.board) }
{
    board.bound() == board.incumbent_value()
}

/// Finishes without children. No feasible solution is worth more than the incumbent.
fn finish_childless<M: DpModel>(alloc: Global, board: &mut Board<M>)
    requires full { IsSome (slot_at board.old.board 0) }
    requires closed { (x : List ℕ) → IsSolution (M.meaning board.old.numbers) x → AtMost (value_of (M.meaning board.old.numbers) x) (incumbent_value board.old.board) }
    ensures { board.new.board ≡ finished_by (M.meaning board.old.numbers) board.old.board 0 [] }
{
    board.facts();
    let mut subs = Vec::new(alloc);
    board.finish(0, None, &mut subs, &[]);
}

/// The board answers the offer so.
fn answers<M: DpModel>(rt: &impl Abort, board: &mut Board<M>, decisions: &[u32], wanted: Improved)
    ensures numbers { board.new.numbers ≡ board.old.numbers }
    ensures first { board.new.first ≡ board.old.first }
{
    assert_eq!(rt; board.improve(decisions), wanted, "of {decisions:?}");
}

/// The board answers each offer so.
fn answer_all<M: DpModel>(rt: &impl Abort, board: &mut Board<M>, offers: &[(&[u32], Improved)]) {
    for (decisions, answer) in offers.iter().copied() {
        answers(rt, board, decisions, answer);
    }
}

/// These decisions are the incumbent's.
fn is_incumbent<M: DpModel>(rt: &impl Abort, board: &Board<M>, best: &[u32]) {
    let found = board.incumbent().map(|found| found.decisions);
    assert_eq!(rt; found, Some(best));
}

/// What the first board shows.
fn at_first<M: DpModel>(alloc: Global, model: M) -> Result<Shown, OutOfMemory> {
    let board = first_board(alloc, model, 1, 0)?;
    Ok(last_seen(board))
}

/// The first subproblem that is open or out, with its bound, how many there are, and the next ticket.
fn frontier_seen<M: DpModel>(
    board: &Board<M>,
) -> Result<(Option<(u64, i64)>, usize, u64), OutOfMemory> {
    let frontier = board.frontier()?;
    let first = match frontier.as_slice().first() {
        Some(one) => {
            let (ticket, sub) = *one;
            Some((ticket, sub.bound))
        }
        None => None,
    };
    Ok((first, board.live(), board.next_ticket()))
}

/// The same after the worker has asked for the root.
fn frontier_after_asking<M: DpModel>(
    alloc: Global,
    model: M,
) -> Result<(Option<(u64, i64)>, usize, u64), OutOfMemory> {
    let (board, _answer, _bound) = root_taken(alloc, model, 1)?;
    let found = frontier_seen(&board);
    let _shown = last_seen(board);
    found
}

/// What the board shows once the worker has asked for the root, with the answer and the bound of what the worker got.
fn after_asking<M: DpModel>(
    alloc: Global,
    model: M,
    budget: u64,
) -> Result<(Taken, i64, Shown), OutOfMemory> {
    let (board, answer, bound) = root_taken(alloc, model, budget)?;
    Ok((answer, bound, last_seen(board)))
}

/// What the board shows after the offers, by which these decisions are the incumbent's.
fn after_offers<M: DpModel>(
    rt: &impl Abort,
    alloc: Global,
    model: M,
    within: u32,
    offers: &[(&[u32], Improved)],
    best: &[u32],
) -> Result<Shown, OutOfMemory> {
    let mut board = first_board(alloc, model, 1, i64::from(within))?;
    answer_all(rt, &mut board, offers);
    is_incumbent(rt, &board, best);
    Ok(last_seen(board))
}

/// What the board shows once the worker with the root is halted, and after it is handed back.
fn after_halt<M: DpModel>(
    rt: &impl Abort,
    alloc: Global,
    model: M,
) -> Result<(Shown, Shown), OutOfMemory> {
    let (mut board, _answer, _bound) = root_taken(alloc, model, 1)?;
    board.halt(Cause::Memory);
    let halted = seen(&board);
    assert!(rt; is_out(&board) && is_halted(&board));
    board.give_back(0);
    Ok((halted, last_seen(board)))
}

/// The worker offers the best solution, and finishes without children.
fn finish_by<M: DpModel>(
    rt: &impl Abort,
    alloc: Global,
    board: &mut Board<M>,
    best: &[u32],
) -> Result<(), OutOfMemory>
    requires { IsGood (M.meaning board.old.numbers) board.old.first }
{
    answers(rt, board, best, Improved::Yes);
    board.reserve_for(3)?;
    assert!(rt; is_closed(board) && is_out(board));
    finish_childless(alloc, board);
    Ok(())
}

/// What the board shows once the root is finished by the best solution.
fn after_finish<M: DpModel>(
    rt: &impl Abort,
    alloc: Global,
    model: M,
    best: &[u32],
) -> Result<Shown, OutOfMemory> {
    let (mut board, _answer, _bound) = root_taken(alloc, model, 1)?;
    let ended = finish_by(rt, alloc, &mut board, best);
    let found = last_seen(board);
    ended.map(|()| found)
}

/// The root as the only subproblem of a list, with ticket 0 and a bound.
fn listed_root<M: DpModel>(
    alloc: Global,
    model: &M,
    bound: i64,
) -> Result<Vec<(u64, Sub)>, OutOfMemory>
    requires some { 0 < (M.meaning (M.numbers model.now)).vars }
    requires far { IsFar bound }
    ensures { IfOk result (λ listed. (next : ℕ) → 0 < next → MayRestore (M.meaning (M.numbers model.now)) None (ticketed listed.items) next) }
{
    let mut root = Sub::blank(alloc, model.vars(), model.words())?;
    model.root(root.row.as_mut_slice());
    root.value = model.root_value();
    root.bound = bound;
    let mut listed = Vec::with_capacity(alloc, 1)?;
    listed.push_reserved((0, root));
    Ok(listed)
}

/// A board that is restored from the root alone, after every ticket but the last was given out.
fn restored_at_the_end<M: DpModel>(
    alloc: Global,
    model: M,
    bound: i64,
) -> Result<Board<M>, OutOfMemory>
    requires some { 0 < (M.meaning (M.numbers model)).vars }
    requires far { IsFar bound }
    ensures empty { IfOk result (λ b. slice_get b.board.slots 0 ≡ Some None) }
    ensures numbers { IfOk result (λ b. b.numbers ≡ M.numbers model) }
{
    let settings = Settings {
        workers: 1,
        budget: 5,
        table_limit: 4,
        width: 1,
        within: 0,
    };
    let listed = listed_root(alloc, &model, bound)?;
    let model = Arc::new(alloc, model)?;
    Board::restore(alloc, model, settings, None, listed, u64::MAX)
}

/// What that board shows once the worker has asked, with the answer.
fn after_the_end<M: DpModel>(
    rt: &impl Abort,
    alloc: Global,
    model: M,
) -> Result<(Taken, Shown), OutOfMemory> {
    assert!(rt; model.vars() > 0);
    let mut into = Sub::blank(alloc, model.vars(), model.words())?;
    let mut board = restored_at_the_end(alloc, model, 121)?;
    let answer = board.take(0, &mut into);
    Ok((answer, last_seen(board)))
}

#[test]
fn takes_nothing_where_tickets_come_to_their_end(rt: HostRuntime) -> Result<(), Fail> {
    let model = items(&rt, rt.alloc(), THREE_ITEMS);
    let found = after_the_end(&rt, rt.alloc(), model)?;
    assert_eq!(rt; found, (Taken::Halted(Cause::Budget), AT_FIRST));
    Ok(())
}

#[test]
fn begins_with_the_root(rt: HostRuntime) -> Result<(), Fail> {
    let model = items(&rt, rt.alloc(), THREE_ITEMS);
    shows(&rt, at_first(rt.alloc(), model)?, AT_FIRST);
    Ok(())
}

#[test]
fn takes_the_root(rt: HostRuntime) -> Result<(), Fail> {
    let model = items(&rt, rt.alloc(), THREE_ITEMS);
    let found = after_asking(rt.alloc(), model, 1)?;
    let wanted = Shown {
        out: Some(0),
        taken: 1,
        ..AT_FIRST
    };
    assert_eq!(rt; found, (Taken::Sub, 121, wanted));
    Ok(())
}

#[test]
fn what_is_out_stays_in_the_frontier(rt: HostRuntime) -> Result<(), Fail> {
    let model = items(&rt, rt.alloc(), THREE_ITEMS);
    let found = frontier_after_asking(rt.alloc(), model)?;
    assert_eq!(rt; found, (Some((0, 121)), 1, 1));
    Ok(())
}

#[test]
fn a_budget_of_zero_is_used_up(rt: HostRuntime) -> Result<(), Fail> {
    let model = items(&rt, rt.alloc(), THREE_ITEMS);
    let (answer, _bound, found) = after_asking(rt.alloc(), model, 0)?;
    assert_eq!(rt; (answer, found), (Taken::Halted(Cause::Budget), AT_FIRST));
    Ok(())
}

const OFFERS: &[(&[u32], Improved)] = &[
    (&[1, 0], Improved::Yes),
    (&[0, 1], Improved::NotBetter),
    (&[1], Improved::NoSolution),
    (&[1, 2], Improved::NoSolution),
    (&[1, 1], Improved::Yes),
];

#[test]
fn offers(rt: HostRuntime) -> Result<(), Fail> {
    let model = items(&rt, rt.alloc(), TWO_ITEMS);
    let found = after_offers(&rt, rt.alloc(), model, 0, OFFERS, &[1, 1])?;
    let wanted = Shown {
        bound: Some(110),
        incumbent: Some(110),
        explored: true,
        ..AT_FIRST
    };
    shows(&rt, found, wanted);
    Ok(())
}

#[test]
fn a_distance_ends_the_search_early(rt: HostRuntime) -> Result<(), Fail> {
    let model = items(&rt, rt.alloc(), THREE_ITEMS);
    let best: &[u32] = &[0, 1, 1];
    let found = after_offers(&rt, rt.alloc(), model, 1, &[(best, Improved::Yes)], best)?;
    let wanted = Shown {
        incumbent: Some(120),
        explored: true,
        ..AT_FIRST
    };
    shows(&rt, found, wanted);
    Ok(())
}

#[test]
fn halts_and_gives_back(rt: HostRuntime) -> Result<(), Fail> {
    let model = items(&rt, rt.alloc(), THREE_ITEMS);
    let (halted, given_back) = after_halt(&rt, rt.alloc(), model)?;
    let wanted = Shown {
        taken: 1,
        cause: Some(Cause::Memory),
        ..AT_FIRST
    };
    shows(&rt, given_back, wanted);
    let out = Some(0);
    shows(&rt, halted, Shown { out, ..wanted });
    Ok(())
}

#[test]
fn finishes(rt: HostRuntime) -> Result<(), Fail> {
    let model = items(&rt, rt.alloc(), TWO_ITEMS);
    let found = after_finish(&rt, rt.alloc(), model, &[1, 1])?;
    let wanted = Shown {
        bound: Some(110),
        incumbent: Some(110),
        taken: 1,
        finished: 1,
        explored: true,
        ..AT_FIRST
    };
    shows(&rt, found, wanted);
    Ok(())
}
