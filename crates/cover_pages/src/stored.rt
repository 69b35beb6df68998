//! Pages in memory. The rows stand in the book's region.

ghost use Rattle.std.specs.Prelude.{◌≡◌, Some, IfSome, option_map, slice_get};
ghost use Rattle.cover_pages.specs.Readers.{ShowsChild, IsShownNode};
ghost use Rattle.cover_pages.specs.Stored.{with_row};

use crate::pages::{PageChild, PageHead, PageNode, Place};
use board_laws::Fate;
use bound_cover::CoverArc;
use row_region::RowId;
use std::marker::Model;

/// A node without its row.
#[derive(Debug, Drop)]
pub(crate) struct StoredNode {
    pub(crate) value: i64,
    pub(crate) suffix: Option<i64>,
    pub(crate) exact: bool,
    pub(crate) arcs: Vec<CoverArc>,
}

impl Model for StoredNode {
    ghost use Rattle.cover_pages.specs.Stored.{NodeBody};

    ghost Value = { NodeBody };

    ghost view = { λ n. record { value = n.value; suffix = n.suffix; exact = n.exact; arcs = n.arcs.items } };
}

/// A layer: its nodes, and how many nodes of its page stand in the layers above.
#[derive(Debug, Drop)]
pub(crate) struct StoredLayer {
    pub(crate) start: usize,
    pub(crate) nodes: Vec<StoredNode>,
}

impl Model for StoredLayer {
    ghost use Rattle.cover_pages.specs.Stored.{LayerBody};

    ghost Value = { LayerBody };

    ghost view = { λ l. record { start = l.start; nodes = l.nodes.items } };
}

/// A child.
#[derive(Debug, Drop)]
pub(crate) struct StoredChild {
    pub(crate) place: Place,
    pub(crate) decisions: Vec<u32>,
    pub(crate) fate: Fate,
}

impl Model for StoredChild {
    ghost use Rattle.cover_pages.specs.Pages.{ChildView};

    ghost Value = { ChildView };

    ghost view = { λ c. record { place = c.place; decisions = c.decisions.items; fate = c.fate } };
}

/// A page: what it tells beside its nodes, the layers, the children, and the names of the rows, layer by layer.
#[derive(Debug, Drop)]
pub(crate) struct StoredPage {
    pub(crate) head: PageHead,
    pub(crate) layers: Vec<StoredLayer>,
    pub(crate) children: Vec<StoredChild>,
    pub(crate) rows: Vec<RowId>,
}

impl Model for StoredPage {
    ghost use Rattle.cover_pages.specs.Stored.{PageBody};

    ghost Value = { PageBody };

    ghost view = { λ p. record { head = p.head; layers = p.layers.items; children = p.children.items; rows = p.rows.items } };
}

impl StoredNode {
    /// The node with its row.
    pub(crate) fn shown<'b>(&'b self, row: &'b [i64]) -> PageNode<'b>
        ensures { IsShownNode (with_row row.now self.now) result }
    {
        PageNode {
            row,
            value: self.value,
            suffix: self.suffix,
            exact: self.exact,
            arcs: self.arcs.as_slice(),
        }
    }
}

impl StoredChild {
    /// The child as it is told.
    pub(crate) fn shown(&self) -> PageChild<'_>
        ensures { ShowsChild (Some self.now) (Some result) }
    {
        PageChild {
            place: self.place,
            decisions: self.decisions.as_slice(),
            fate: self.fate,
        }
    }
}
