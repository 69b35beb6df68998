ghost use Rattle.std.specs.Prelude.{◌≡◌, ◌<◌, ◌≤◌, true, None, IfOk};
ghost use Rattle.dp_model.specs.declared.cut_kind.CutKind.TheVariants.{LastExactLayer};
ghost use Rattle.dp_model.specs.declared.limits.TheConstants.{MOST_LAYER_PARTS};
ghost use Rattle.search_workers.specs.Collected.{MayBeBook};
ghost use Rattle.search_workers.specs.Prepared.{AreDesks};

use crate::parts::Parts;
use board::Fate;
use cover_pages::CoverBook;
use dp_model::{CutKind, DpModel, Sub};
use exact_cutset::Children;
use layer_build::{PrepareError, Workspace};
use relaxed_dd::CutRows;
use std::alloc::Global;

/// All that one worker needs for its rounds: the subproblem that it took last, with its ticket if it is under a turn, the memory in which
/// diagrams are compiled, their children and of which kind these are, the rows of a last exact layer, a buffer for fates, which grows to
/// the size that rounds need and is used again, perhaps a book that collects the relaxed diagrams, and in how many parts the layers of
/// these are made.
#[derive(Drop)]
pub struct Desk {
    pub taken: Sub,
    pub ticket: Option<u64>,
    pub space: Workspace,
    pub cutset: Children,
    pub cut: CutRows,
    pub kind: CutKind,
    pub fates: Vec<Fate>,
    pub book: Option<CoverBook>,
    pub parts: Parts,
}

impl Desk {
    /// A desk for the rounds on the model with diagrams of the width, which is at least 1 and at most the greatest one, and with
    /// their children of the kind. Where there is a book, it has diagrams of the model's instance alone. The layers of relaxed
    /// diagrams are made in this many parts, from 1 to `MOST_LAYER_PARTS`.
    pub fn prepare<M: DpModel>(
        alloc: Global,
        model: &M,
        width: u32,
        kind: CutKind,
        book: Option<CoverBook>,
        parts: u32,
    ) -> Result<Desk, PrepareError>
        requires book { MayBeBook (M.meaning (M.numbers model.now)) book }
        requires some_parts { 0 < parts }
        requires few_parts { parts ≤ MOST_LAYER_PARTS }
        ensures desk { AreDesks (M.meaning (M.numbers model.now)) width result }
        ensures kind { IfOk result (λ desk. desk.kind ≡ kind) }
        ensures book { IfOk result (λ desk. desk.book ≡ book) }
        ensures parts { IfOk result (λ desk. desk.parts ≡ parts) }
    {
        let space = Workspace::prepare(alloc, model, width)?;
        let cutset = Children::prepare(alloc, model, width, kind)?;
        let Ok(cut) = CutRows::prepare(alloc, model, width as usize) else {
            return Err(PrepareError::OutOfMemory);
        };
        match Sub::blank(alloc, model.vars(), model.words()) {
            Ok(taken) => Ok(Desk {
                taken,
                ticket: None,
                space,
                cutset,
                cut,
                kind,
                fates: Vec::new(alloc),
                book,
                parts: Parts::new(parts),
            }),
            Err(_) => Err(PrepareError::OutOfMemory),
        }
    }

    /// Whether rounds under a turn need no rows of a relaxed diagram but those of its last exact layer.
    pub(crate) fn needs_cut_alone(&self) -> bool
        ensures kind { result ≡ true → self.now.kind ≡ LastExactLayer }
        ensures book { result ≡ true → self.now.book ≡ None }
    {
        match self.kind {
            CutKind::LastExactLayer => self.book.is_none(),
            CutKind::Frontier => false,
        }
    }

    /// The book of the desk, where it has one.
    pub fn into_book(self) -> Option<CoverBook>
        ensures { result ≡ self.book }
    {
        self.book
    }
}
