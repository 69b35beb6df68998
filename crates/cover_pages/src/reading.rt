//! The readers of a book.

ghost use Rattle.std.specs.Prelude.{◌≡◌, length, slice_get};
ghost use Rattle.cover_pages.specs.Readers.{ShowsChild, ShowsNode, children_in, head_in, layers_in, nodes_in};

use crate::book::CoverBook;
use crate::pages::{PageChild, PageHead, PageNode};

impl CoverBook {
    /// How many pages there are.
    pub fn pages(&self) -> usize
        ensures { result ≡ length self.now.pages }
    {
        self.pages.len()
    }

    /// What a page tells beside its nodes; none where there is no such page.
    pub fn page(&self, page: usize) -> Option<PageHead>
        ensures { result ≡ head_in self.now page }
    {
        Some(self.pages.get(page)?.head)
    }

    /// How many layers a page has; 0 if there is no such page.
    pub fn layers(&self, page: usize) -> usize
        ensures { result ≡ length (layers_in self.now page) }
    {
        match self.pages.get(page) {
            Some(page) => page.layers.len(),
            None => 0,
        }
    }

    /// How many nodes a layer of a page has, where layers count from 0; 0 if there is no such layer.
    pub fn nodes(&self, page: usize, layer: usize) -> usize
        ensures { result ≡ length (nodes_in self.now page layer) }
    {
        let Some(page) = self.pages.get(page) else {
            return 0;
        };
        match page.layers.get(layer) {
            Some(layer) => layer.nodes.len(),
            None => 0,
        }
    }

    /// A node of a layer of a page; none where there is no such node.
    pub fn node(&self, page: usize, layer: usize, node: usize) -> Option<PageNode<'_>>
        ensures { ShowsNode (slice_get (nodes_in self.now page layer) node) result }
    {
        let page = self.pages.get(page)?;
        let layer = page.layers.get(layer)?;
        let body = layer.nodes.get(node)?;
        let id = page.rows[layer.start + node];
        Some(body.shown(self.rows.row(id)))
    }

    /// How many children a page has; 0 if there is no such page.
    pub fn children(&self, page: usize) -> usize
        ensures { result ≡ length (children_in self.now page) }
    {
        match self.pages.get(page) {
            Some(page) => page.children.len(),
            None => 0,
        }
    }

    /// A child of a page; none where there is no such child.
    pub fn child(&self, page: usize, child: usize) -> Option<PageChild<'_>>
        ensures { ShowsChild (slice_get (children_in self.now page) child) result }
    {
        let child = self.pages.get(page)?.children.get(child)?;
        Some(child.shown())
    }
}
