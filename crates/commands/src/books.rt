//! The books of the workers, from which a cover is made.

ghost use Rattle.std.specs.Prelude.{◌≡◌, ◌≤◌, IfOk};
ghost use Rattle.commands.specs.Desks.{book_for, books_in};

use cover_pages::CoverBook;
use dp_model::{DpModel, OutOfMemory};
use search_workers::Desk;
use solver_words::JobSettings;
use std::alloc::Global;

/// The book of a worker at the start of a search, if a cover is asked for. The workers have the same share of the words that their books
/// may have together.
pub fn book_for<M: DpModel>(alloc: Global, model: &M, search: JobSettings) -> Option<CoverBook>
    requires { 1 ≤ search.workers }
    ensures { result ≡ book_for (M.meaning (M.numbers model.now)) search }
{
    let words = search.cover_words?;
    let limit = words / u64::from(search.workers);
    Some(CoverBook::new(alloc, model.words(), limit))
}

/// The books of the desks, in order. It consumes the desks. Fails only for want of memory.
pub fn books_of(alloc: Global, desks: Vec<Desk>) -> Result<Vec<CoverBook>, OutOfMemory>
    ensures { IfOk result (λ books. books.items ≡ books_in desks.items) }
{
    let mut books = Vec::with_capacity(alloc, desks.len())?;
    for desk in desks {
        if let Some(book) = desk.into_book() {
            books.push_reserved(book);
        }
    }
    Ok(books)
}
