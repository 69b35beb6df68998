//! The exploration of a whole problem.

ghost use Rattle.std.specs.Prelude.{◌≡◌, ◌+◌, ◌^◌, ◌<◌, None, Ok, true, false, IfOk, IfSome, OnOk};
ghost use Rattle.dp_model.specs.Best.{best};
ghost use Rattle.bound_cover.specs.Clamping.{AreWritable, IsReachable};
ghost use Rattle.bound_cover.specs.Exploring.{HoldsAll};
ghost use Rattle.bound_cover.specs.Verdicts.{checked_rows};
ghost use Rattle.layer_build.specs.Layers.{IsPreparedFor};
ghost use Rattle.cover_book.specs.UnderWay.{IsUnderWay, waits_next};

use crate::exploration::Exploration;
use crate::thinning::explore_thin;
use bound_cover::{Checker, Cover};
use cover_pages::CoverBook;
use dp_model::{DpModel, OutOfMemory};
use layer_build::{PrepareError, Workspace, greatest_width};
use relaxed_dd::relaxed;
use std::alloc::Global;

/// The width of the diagrams, unless the greatest one is less.
const WIDTH: u32 = 100;

/// The cover of an exploration of the whole problem: the root's diagram, and one more for each row that waits, until none does. The claim
/// is the best value, or none where there is no feasible solution. It fails only for want of memory or of a cover's room, or where a
/// layer of the cover needs 2^32 rows.
///
/// Where the claim is the best value, the checker's `check_rows` answers `None` for the cover; so it does for each claim that no feasible
/// solution exceeds and that is at least the least value that a feasible solution can have.
pub fn explore_whole<M: DpModel>(
    alloc: Global,
    model: &M,
    claim: Option<i64>,
) -> Result<Cover, OutOfMemory>
    ensures best { IfOk result (λ cover. claim ≡ best (M.meaning (M.numbers model.now)) → checked_rows (M.meaning (M.numbers model.now)) claim cover ≡ None) }
    ensures passes { IfOk result (λ cover. HoldsAll (M.meaning (M.numbers model.now)) claim → IsReachable claim → checked_rows (M.meaning (M.numbers model.now)) claim cover ≡ None) }
    ensures writable { IfOk result (λ cover. AreWritable cover) }
{
    if let Some(cover) = thin_cover(alloc, model, claim, &[])? {
        return Ok(cover);
    }
    explore_each(alloc, model, claim)
}

/// The cover of a thin exploration by the pages of books, where it passes the checker's tests.
pub(crate) fn thin_cover<M: DpModel>(
    alloc: Global,
    model: &M,
    claim: Option<i64>,
    books: &[CoverBook],
) -> Result<Option<Cover>, OutOfMemory>
    ensures passes { IfOk result (λ o. IfSome o (λ cover. checked_rows (M.meaning (M.numbers model.now)) claim cover ≡ None)) }
    ensures writable { IfOk result (λ o. IfSome o (λ cover. AreWritable cover)) }
{
    let cover = explore_thin(alloc, model, claim, books)?;
    let mut checker = Checker::prepare(alloc, model)?;
    match checker.check_rows(model, claim, &cover) {
        None => Ok(Some(cover)),
        Some(_) => Ok(None),
    }
}

/// The cover of an exploration of the whole problem: the root's diagram, and one more for each row that waits, until none does.
fn explore_each<M: DpModel>(
    alloc: Global,
    model: &M,
    claim: Option<i64>,
) -> Result<Cover, OutOfMemory>
    ensures best { IfOk result (λ cover. claim ≡ best (M.meaning (M.numbers model.now)) → checked_rows (M.meaning (M.numbers model.now)) claim cover ≡ None) }
    ensures passes { IfOk result (λ cover. HoldsAll (M.meaning (M.numbers model.now)) claim → IsReachable claim → checked_rows (M.meaning (M.numbers model.now)) claim cover ≡ None) }
    ensures writable { IfOk result (λ cover. AreWritable cover) }
{
    let mut space = space_for(alloc, model)?;
    let mut exploration = Exploration::start(alloc, model, claim)?;
    put_all(alloc, model, &mut space, &mut exploration)?;
    exploration.finish(alloc, model)
}

/// A workspace for the diagrams of an exploration.
pub(crate) fn space_for<M: DpModel>(alloc: Global, model: &M) -> Result<Workspace, OutOfMemory>
    ensures { IfOk result (λ space. IsPreparedFor (M.meaning (M.numbers model.now)) space) }
{
    match Workspace::prepare(alloc, model, greatest_width(model).min(WIDTH)) {
        Ok(space) => Ok(space),
        Err(PrepareError::OutOfMemory) => Err(OutOfMemory),
        // The width is at least 1 and at most the greatest one.
        Err(PrepareError::Width) => unreachable!(),
    }
}

/// Puts in a diagram for each row that waits, until none does.
fn put_all<M: DpModel>(
    alloc: Global,
    model: &M,
    space: &mut Workspace,
    exploration: &mut Exploration,
) -> Result<(), OutOfMemory>
    requires prepared { IsPreparedFor (M.meaning (M.numbers model.now)) space.old }
    requires under_way { IsUnderWay (M.meaning (M.numbers model.now)) exploration.old }
    ensures under_way { OnOk result (IsUnderWay (M.meaning (M.numbers model.now)) exploration.new) }
    ensures done { OnOk result (waits_next exploration.new ≡ None) }
    ensures claim { exploration.new.claim ≡ exploration.old.claim }
{
    'diagrams: while put_next(alloc, model, space, exploration)? {}
    Ok(())
}

/// Compiles the diagram of the prefix that waits next, and puts it in. Says whether there was one.
fn put_next<M: DpModel>(
    alloc: Global,
    model: &M,
    space: &mut Workspace,
    exploration: &mut Exploration,
) -> Result<bool, OutOfMemory>
    requires prepared { IsPreparedFor (M.meaning (M.numbers model.now)) space.old }
    requires under_way { IsUnderWay (M.meaning (M.numbers model.now)) exploration.old }
    ensures under_way { OnOk result (IsUnderWay (M.meaning (M.numbers model.now)) exploration.new) }
    ensures put { result ≡ Ok true → exploration.new.next ≡ exploration.old.next + 1 }
    ensures few { result ≡ Ok true → exploration.new.next < 2 ^ 64 }
    ensures done { result ≡ Ok false → waits_next exploration.new ≡ None }
    ensures claim { exploration.new.claim ≡ exploration.old.claim }
    ensures prepared { IsPreparedFor (M.meaning (M.numbers model.now)) space.new }
{
    let Some(sub) = exploration.next(model) else {
        return Ok(false);
    };
    let diagram = relaxed(space, model, sub, exploration.claim);
    exploration.put(alloc, model, &diagram)?;
    Ok(true)
}
