//! What a worker puts into its book.

ghost use Rattle.std.specs.Prelude.{◌≡◌, ◌<◌, [], length, IfOk};
ghost use Rattle.cover_pages.specs.Books.{IsBookOf, places_of};
ghost use Rattle.search_workers.specs.Collected.{HoldsDiagram, MayBeBook};

use crate::desk::Desk;
use board::Fate;
use cover_pages::{CoverBook, Place};
use dp_model::{DpModel, OutOfMemory};
use exact_cutset::Children;
use layer_build::Workspace;
use relaxed_dd::shown;
use std::alloc::Global;

/// The places of the children in their diagram, in order.
fn places_of(alloc: Global, cutset: &Children) -> Result<Vec<Place>, OutOfMemory>
    ensures { IfOk result (λ places. places.items ≡ places_of cutset.now.places) }
{
    let mut places = Vec::with_capacity(alloc, cutset.len())?;
    'children: for child in 0..cutset.len() {
        let (depth, node) = cutset.node(child);
        places.push_reserved(Place { depth, node });
    }
    Ok(places)
}

/// Puts the diagram in the workspace into the book, with the ticket of its subproblem and with its children and their fates, unless the
/// book has no room for it.
///
/// # Errors
///
/// There was no memory, and the book is as it was.
fn collect<M: DpModel>(
    alloc: Global,
    book: &mut CoverBook,
    ticket: u64,
    space: &Workspace,
    cutset: &Children,
    fates: &[Fate],
    _model: &M,
) -> Result<(), OutOfMemory>
    requires holds { HoldsDiagram (M.meaning (M.numbers _model.now)) space.now cutset.now }
    requires fates { length fates.now ≡ length cutset.now.places }
    requires book { IsBookOf (M.meaning (M.numbers _model.now)) book.old }
    ensures { IsBookOf (M.meaning (M.numbers _model.now)) book.new }
{
    let places = places_of(alloc, cutset)?;
    let _ = book.collect(alloc, ticket, &shown(space), places.as_slice(), fates)?;
    Ok(())
}

/// Puts the diagram that lies on the desk into its book, where it has one, once its subproblem is finished with a fate for each child. A
/// cover does without what a book lacks, so what has no room, or for which there is no memory, is left out.
pub(crate) fn collect_from<M: DpModel>(alloc: Global, desk: &mut Desk, model: &M)
    requires holds { HoldsDiagram (M.meaning (M.numbers model.now)) desk.old.space desk.old.cutset }
    requires book { MayBeBook (M.meaning (M.numbers model.now)) desk.old.book }
    ensures book { MayBeBook (M.meaning (M.numbers model.now)) desk.new.book }
    ensures rest { desk.new ≡ record desk.old { book = desk.new.book } }
{
    let Some(ticket) = desk.ticket else {
        return;
    };
    let Some(book) = &mut desk.book else {
        return;
    };
    let fates = desk.fates.as_slice();
    if fates.len() != desk.cutset.len() {
        return;
    }
    let _ = collect(alloc, book, ticket, &desk.space, &desk.cutset, fates, model);
}
