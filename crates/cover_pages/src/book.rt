//! A book, and how it collects.

ghost use Rattle.std.specs.Prelude.{◌≡◌, ◌≢◌, ◌↔◌, ◌+◌, ◌<◌, [], Ok, IfOk, length};
ghost use Rattle.dp_model.specs.Lists.{Each};
ghost use Rattle.relaxed_dd.specs.Shown.{layers_of};
ghost use Rattle.cover_pages.specs.Books.{kept_in, with_page};
ghost use Rattle.cover_pages.specs.Pages.{CanKeep, IsExactPlace, page_of, size_of};

use crate::making::{make_children, make_layers};
use crate::pages::{Collected, PageHead, Place};
use crate::sizing::diagram_leaves;
use crate::stored::StoredPage;
use crate::writing::put_layers;
use board_laws::Fate;
use dp_model::OutOfMemory;
use relaxed_dd::Diagram;
use row_region::Region;
use std::alloc::Global;
use std::marker::Model;

/// Pages of diagrams, within a limit of words.
#[derive(Debug, Drop)]
pub struct CoverBook {
    pub(crate) limit: u64,
    // how many words the pages have
    pub(crate) kept: u64,
    // the rows of all pages
    pub(crate) rows: Region,
    pub(crate) pages: Vec<StoredPage>,
}

impl Model for CoverBook {
    ghost use Rattle.cover_pages.specs.Books.{BookView};
    ghost use Rattle.cover_pages.specs.Stored.{IsSound, shown_book};

    ghost Value = { BookView };

    ghost view = { λ b. shown_book b.limit b.rows b.pages.items };

    ghost invariant = { λ b. IsSound b.limit b.kept b.rows b.pages.items };
}

impl CoverBook {
    /// A book without pages, for rows of this many cells and pages of this many words. It takes no memory.
    ///
    /// A row has at least one cell.
    pub fn new(alloc: Global, words: usize, limit: u64) -> CoverBook
        requires { 0 < words }
        ensures { result ≡ record { words = words; limit = limit; pages = [] } }
    {
        CoverBook {
            limit,
            kept: 0,
            rows: Region::empty(alloc, words),
            pages: Vec::new(alloc),
        }
    }

    /// Puts in a diagram as the last page, with the ticket of its subproblem and with its children and their fates; `Left` exactly
    /// where the limit has no room for it. Its rows have as many cells as the book's. It fails only for want of memory, and then, as
    /// where the diagram is left out, nothing changes.
    pub fn collect(
        &mut self,
        alloc: Global,
        ticket: u64,
        diagram: &Diagram,
        children: &[Place],
        fates: &[Fate],
    ) -> Result<Collected, OutOfMemory>
        requires keep { CanKeep self.old.words (layers_of diagram.now) }
        requires children { Each (IsExactPlace (layers_of diagram.now)) children.now }
        requires fates { length fates.now ≡ length children.now }
        ensures left { IfOk result (λ c. (c ≡ Collected.Left) ↔ (self.old.limit < kept_in self.old + size_of self.old.words (page_of ticket (layers_of diagram.now) children.now fates.now))) }
        ensures kept { result ≡ Ok Collected.Kept → self.new ≡ with_page self.old (page_of ticket (layers_of diagram.now) children.now fates.now) }
        ensures same { result ≢ Ok Collected.Kept → self.new ≡ self.old }
    {
        let Some(rest) = diagram_leaves(self.rows.words(), diagram, self.limit - self.kept) else {
            return Ok(Collected::Left);
        };
        let made = make_layers(alloc, diagram)?;
        let nodes = made.nodes;
        let mut page = StoredPage {
            head: PageHead {
                ticket,
                first: diagram.first_depth(),
                first_reduced: diagram.first_reduced(),
            },
            layers: made.layers,
            children: make_children(alloc, diagram, children, fates)?,
            rows: Vec::with_capacity(alloc, nodes)?,
        };
        self.pages.reserve(1)?;
        self.rows.grow(nodes)?;
        put_layers(diagram, &mut self.rows, &mut page.rows);
        self.pages.push_reserved(page);
        self.kept = self.limit - rest;
        Ok(Collected::Kept)
    }
}
