//! The rows of a layer, read at their places.

ghost use Rattle.std.specs.Prelude.{◌≡◌, slice_get, option_map};
ghost use Rattle.bound_cover.specs.Stored.{shown_row};

use super::{Head, RowRef, span_at, view_of};
use crate::cover::CoverArc;
use std::marker::Model;

/// The rows of a layer, of which it is known where the first one is and how many there are.
#[derive(Debug, Drop)]
pub struct LayerRows<'c> {
    pub(super) heads: &'c [Head],
    pub(super) words: &'c [i64],
    pub(super) arcs: &'c [CoverArc],
    pub(super) first: usize,
    pub(super) count: usize,
}

impl<'c> Model for LayerRows<'c> {
    ghost use Rattle.std.specs.Prelude.{◌+◌, ◌≤◌, List, length};
    ghost use Rattle.dp_model.specs.Lists.{Each};
    ghost use Rattle.bound_cover.specs.Covers.{CoverRow};
    ghost use Rattle.bound_cover.specs.Stored.{rows_from, spans, IsWithin};

    ghost Value = { List CoverRow };

    ghost view = { λ l. rows_from l.heads.now l.words.now l.arcs.now l.first l.count };

    ghost invariant = { λ l. (l.first + l.count ≤ length l.heads.now)
        × Each (IsWithin (length l.words.now) (length l.arcs.now)) (spans l.heads.now) };
}

impl<'c> LayerRows<'c> {
    /// The row at a place, or `None` where there is none.
    #[inline]
    pub(crate) fn at(&self, place: usize) -> Option<RowRef<'_>>
        ensures { option_map shown_row result ≡ slice_get self.now place }
    {
        if place >= self.count {
            return None;
        }
        match span_at(self.heads, self.first + place) {
            None => None,
            Some(span) => Some(view_of(span, self.words, self.arcs)),
        }
    }
}
