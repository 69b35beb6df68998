//! The cover of a search from what its books hold.

ghost use Rattle.std.specs.Prelude.{◌≡◌, None, IfOk};
ghost use Rattle.dp_model.specs.Best.{best};
ghost use Rattle.bound_cover.specs.Clamping.{AreWritable, IsReachable};
ghost use Rattle.bound_cover.specs.Exploring.{HoldsAll};
ghost use Rattle.bound_cover.specs.Verdicts.{checked_rows};

use crate::whole::{explore_whole, thin_cover};
use bound_cover::Cover;
use cover_pages::CoverBook;
use dp_model::{DpModel, OutOfMemory};
use std::alloc::Global;

/// The cover of a search whose workers kept these books, for a claim, which is the best value, or none where there is no feasible
/// solution. It fails only for want of memory or of a cover's room, or where a layer of the cover needs 2^32 rows.
///
/// Where the claim is the best value, the checker's `check_rows` answers `None` for the cover; so it does for each claim that no feasible
/// solution exceeds and that is at least the least value that a feasible solution can have.
pub fn settle<M: DpModel>(
    alloc: Global,
    model: &M,
    claim: Option<i64>,
    books: &[CoverBook],
) -> Result<Cover, OutOfMemory>
    ensures best { IfOk result (λ cover. claim ≡ best (M.meaning (M.numbers model.now)) → checked_rows (M.meaning (M.numbers model.now)) claim cover ≡ None) }
    ensures passes { IfOk result (λ cover. HoldsAll (M.meaning (M.numbers model.now)) claim → IsReachable claim → checked_rows (M.meaning (M.numbers model.now)) claim cover ≡ None) }
    ensures writable { IfOk result (λ cover. AreWritable cover) }
{
    if has_pages(books) {
        if let Some(cover) = thin_cover(alloc, model, claim, books)? {
            return Ok(cover);
        }
    }
    explore_whole(alloc, model, claim)
}

/// Whether there is a page in one of the books.
fn has_pages(books: &[CoverBook]) -> bool {
    'books: for book in books {
        if book.pages() > 0 {
            return true;
        }
    }
    false
}
