//! Covers under way: rows come to every layer, and a row may get its arcs later.

ghost use Rattle.std.specs.Prelude.{◌≡◌, ℕ, ℤ, List, Option, option_map, length, get_or, ◌<◌, [], ◌∷◌, ◌++◌, OnOk};
ghost use Rattle.bound_cover.specs.Covers.{CoverRow};
ghost use Rattle.bound_cover.specs.Exploring.{with_arcs_at};
ghost use Rattle.cover_book.specs.Nodes.{with_arcs};

use bound_cover::CoverArc;
use dp_model::OutOfMemory;
use std::alloc::Global;
use std::marker::Model;

/// A row of a cover under way.
#[derive(Debug, Drop)]
pub(crate) struct DraftRow {
    pub(crate) bound: Option<i128>,
    pub(crate) words: Vec<i64>,
    pub(crate) arcs: Option<Vec<CoverArc>>,
}

impl Model for DraftRow {
    ghost use Rattle.std.specs.Prelude.{option_map};
    ghost use Rattle.bound_cover.specs.Covers.{CoverRow};

    ghost Value = { CoverRow };

    ghost view = { λ r. record { bound = r.bound; words = r.words.items; arcs = option_map (λ arcs. arcs.items) r.arcs } };
}

/// The rows of a layer of a cover under way.
#[derive(Debug, Drop)]
pub(crate) struct DraftLayer {
    pub(crate) rows: Vec<DraftRow>,
}

impl Model for DraftLayer {
    ghost use Rattle.std.specs.Prelude.{List};
    ghost use Rattle.bound_cover.specs.Covers.{CoverRow};

    ghost Value = { List CoverRow };

    ghost view = { λ l. l.rows.items };
}

impl DraftRow {
    /// Gives it arcs.
    fn set_arcs(&mut self, arcs: Vec<CoverArc>)
        ensures { self.new ≡ with_arcs arcs.items self.old }
    {
        self.arcs = Some(arcs);
    }
}

impl DraftLayer {
    /// A layer without rows. It takes no memory.
    pub(crate) fn new(alloc: Global) -> DraftLayer
        ensures { result ≡ [] }
    {
        DraftLayer {
            rows: Vec::new(alloc),
        }
    }

    /// How many rows there are.
    pub(crate) fn len(&self) -> usize
        ensures { result ≡ length self.now }
    {
        self.rows.len()
    }

    /// The row at a place.
    pub(crate) fn row(&self, place: usize) -> &DraftRow
        requires { place < length self.now }
        ensures { result.now ≡ get_or self.now place result.now }
    {
        &self.rows[place]
    }

    /// Adds a row after the others.
    pub(crate) fn push(&mut self, row: DraftRow) -> Result<(), OutOfMemory>
        ensures { OnOk result (self.new ≡ self.old ++ row ∷ []) }
    {
        self.rows.reserve(1)?;
        self.rows.push_reserved(row);
        Ok(())
    }

    /// Gives arcs to the row at the place; where there is none, nothing changes.
    pub(crate) fn set_arcs(&mut self, place: usize, arcs: Vec<CoverArc>)
        ensures { self.new ≡ with_arcs_at place arcs.items self.old }
    {
        if place < self.rows.len() {
            self.rows[place].set_arcs(arcs);
        }
    }
}
