//! The pages of books, by the tickets of their subproblems.

ghost use Rattle.std.specs.Prelude.{◌^◌, ◌<◌};

use crate::claims::{greater_of, leads_above, rest_of};
use crate::rows::{is_deep, is_last_exact};
use crate::sources::{Below, NodeRow, RowSource, Wait};
use board_laws::Fate;
use bound_cover::CoverArc;
use cover_pages::{CoverBook, PageHead, PageNode, Place};
use dp_model::OutOfMemory;
use std::alloc::Global;

/// The ticket of the whole problem.
pub(crate) const ROOT_TICKET: u64 = 0;

/// Where the page of a ticket stands.
#[derive(Clone, Copy, Debug, PartialEq, Eq, PartialOrd, Ord)]
struct PageAt {
    ticket: u64,
    book: usize,
    page: usize,
}

/// A ticket that took the place of an older one.
#[derive(Clone, Copy, Debug, PartialEq, Eq, PartialOrd, Ord)]
struct Successor {
    old: u64,
    ticket: u64,
}

/// The child that got a ticket.
#[derive(Clone, Copy, Debug, PartialEq, Eq, PartialOrd, Ord)]
struct Origin {
    ticket: u64,
    book: usize,
    page: usize,
    child: usize,
}

/// The pages of several books. A ticket that another one took the place of stands for that one.
#[derive(Debug, Drop)]
pub(crate) struct Pages<'b> {
    books: &'b [CoverBook],
    // by their tickets
    pages: Vec<PageAt>,
    origins: Vec<Origin>,
    // by the older ticket
    successors: Vec<Successor>,
}

/// A page as a diagram.
#[derive(Debug, Drop)]
pub(crate) struct Page<'b> {
    book: &'b CoverBook,
    page: usize,
    head: PageHead,
    prefix: Option<&'b [u32]>,
    layers: usize,
    // whether its children are those of the frontier
    has_frontier: bool,
    // where the nodes of its children stand, in order
    places: Vec<Place>,
}

/// The ticket of the subproblem that stands for a child; none where there is none, as its bound is too low.
fn ticket_of(fate: Fate) -> Option<u64> {
    match fate {
        Fate::Below => None,
        Fate::Kept { by } => Some(by),
        Fate::Dominated { by } => Some(by),
        Fate::Replaced { ticket, .. } => Some(ticket),
        Fate::Entered { ticket } => Some(ticket),
    }
}

/// The ticket that a child got, where it got one.
fn own_ticket(fate: Fate) -> Option<u64> {
    match fate {
        Fate::Replaced { ticket, .. } | Fate::Entered { ticket } => Some(ticket),
        Fate::Below | Fate::Kept { .. } | Fate::Dominated { .. } => None,
    }
}

/// Puts in the children of a page that got tickets, with those tickets that took the place of others.
fn add_children(
    number: usize,
    book: &CoverBook,
    page: usize,
    origins: &mut Vec<Origin>,
    successors: &mut Vec<Successor>,
) -> Result<(), OutOfMemory> {
    'children: for i in 0..book.children(page) {
        if let Some(child) = book.child(page, i) {
            if let Fate::Replaced { ticket, old } = child.fate {
                successors.push(Successor { old, ticket })?;
            }
            if let Some(ticket) = own_ticket(child.fate) {
                origins.push(Origin {
                    ticket,
                    book: number,
                    page,
                    child: i,
                })?;
            }
        }
    }
    Ok(())
}

impl<'b> Pages<'b> {
    /// The pages of books.
    pub(crate) fn of(alloc: Global, books: &'b [CoverBook]) -> Result<Pages<'b>, OutOfMemory> {
        let mut pages = Vec::new(alloc);
        let mut origins = Vec::new(alloc);
        let mut successors = Vec::new(alloc);
        'books: for i in 0..books.len() {
            add_pages(i, &books[i], &mut pages, &mut origins, &mut successors)?;
        }
        pages.sort_unstable();
        origins.sort_unstable();
        successors.sort_unstable();
        Ok(Pages {
            books,
            pages,
            origins,
            successors,
        })
    }

    /// How many pages there are.
    pub(crate) fn len(&self) -> usize {
        self.pages.len()
    }

    /// The number of the page that stands for a ticket, counted from 0.
    pub(crate) fn find(&self, ticket: u64) -> Option<usize> {
        let mut ticket = ticket;
        'successors: for _ in 0..self.successors.len() {
            match self
                .successors
                .binary_search_by_key(&ticket, |successor| successor.old)
            {
                Ok(i) => ticket = self.successors[i].ticket,
                Err(_) => break,
            }
        }
        self.pages
            .binary_search_by_key(&ticket, |page| page.ticket)
            .ok()
    }

    /// The page with a number.
    pub(crate) fn page(
        &self,
        alloc: Global,
        number: usize,
    ) -> Result<Option<Page<'b>>, OutOfMemory> {
        let Some(at) = self.pages.get(number) else {
            return Ok(None);
        };
        let Some(book) = self.books.get(at.book) else {
            return Ok(None);
        };
        page_of(alloc, book, at.page, self.decisions_of(at.ticket))
    }

    /// The decisions of the subproblem with a ticket.
    fn decisions_of(&self, ticket: u64) -> Option<&'b [u32]> {
        if ticket == ROOT_TICKET {
            return Some(&[]);
        }
        let at = match self
            .origins
            .binary_search_by_key(&ticket, |origin| origin.ticket)
        {
            Ok(i) => self.origins[i],
            Err(_) => return None,
        };
        let child = self.books.get(at.book)?.child(at.page, at.child)?;
        Some(child.decisions)
    }
}

/// Puts in the pages of a book, with those tickets that took the place of others.
fn add_pages(
    number: usize,
    book: &CoverBook,
    pages: &mut Vec<PageAt>,
    origins: &mut Vec<Origin>,
    successors: &mut Vec<Successor>,
) -> Result<(), OutOfMemory> {
    'pages: for page in 0..book.pages() {
        if let Some(head) = book.page(page) {
            pages.push(PageAt {
                ticket: head.ticket,
                book: number,
                page,
            })?;
            add_children(number, book, page, origins, successors)?;
        }
    }
    Ok(())
}

/// A page of a book as a diagram; none where there is no such page.
fn page_of<'b>(
    alloc: Global,
    book: &'b CoverBook,
    page: usize,
    prefix: Option<&'b [u32]>,
) -> Result<Option<Page<'b>>, OutOfMemory> {
    let Some(head) = book.page(page) else {
        return Ok(None);
    };
    let mut places = Vec::new(alloc);
    let mut has_frontier = false;
    'children: for i in 0..book.children(page) {
        if let Some(child) = book.child(page, i) {
            has_frontier = has_frontier || is_deep(head.first_reduced, child.place.depth);
            places.push(child.place)?;
        }
    }
    Ok(Some(Page {
        book,
        page,
        head,
        prefix,
        layers: book.layers(page),
        has_frontier,
        places,
    }))
}

impl<'b> Page<'b> {
    /// The node at a depth and a place.
    fn node(&self, depth: usize, node: usize) -> Option<PageNode<'b>> {
        let layer = depth.checked_sub(self.head.first)?;
        self.book.node(self.page, layer, node)
    }

    /// Whether an arc of a node at the depth leads to an inexact one.
    fn leads_out(&self, depth: usize, arcs: &[CoverArc]) -> bool {
        'arcs: for arc in arcs {
            if let Some(target) = arc.target {
                if let Some(next) = self.node(depth.saturating_add(1), target as usize) {
                    if !next.exact {
                        return true;
                    }
                }
            }
        }
        false
    }

    /// Whether a node stands where its children do: in the last exact layer, or at the border of the exact ones.
    fn is_cut(&self, depth: usize, node: &PageNode) -> bool
        requires { depth < 2 ^ 32 }
    {
        if self.has_frontier {
            node.exact && self.leads_out(depth, node.arcs)
        } else {
            is_last_exact(self.head.first_reduced, depth)
        }
    }

    /// What stands below the row of a node.
    fn below(&self, claim: Option<i64>, depth: usize, node: &PageNode) -> Below
        requires { depth < 2 ^ 32 }
    {
        if self.last_depth() <= depth {
            return Below::Nothing;
        }
        if leads_above(claim, node.value, node.suffix) && self.is_cut(depth, node) {
            return Below::Waits;
        }
        Below::Arcs
    }
}

impl<'b> RowSource for Page<'b> {
    fn first_depth(&self) -> usize {
        self.head.first
    }

    fn last_depth(&self) -> usize {
        self.head
            .first
            .saturating_add(self.layers.saturating_sub(1))
    }

    fn prefix(&self) -> Option<&[u32]> {
        self.prefix
    }

    fn nodes(&self, depth: usize) -> usize {
        match depth.checked_sub(self.head.first) {
            None => 0,
            Some(layer) => self.book.nodes(self.page, layer),
        }
    }

    fn row(&self, claim: Option<i64>, depth: usize, node: usize) -> Option<NodeRow<'_>> {
        let node = self.node(depth, node)?;
        let rest = rest_of(claim, node.value);
        let is_whole = self.has_frontier && node.exact;
        let bound = if is_deep(self.head.first_reduced, depth) && !is_whole {
            greater_of(node.suffix, rest)
        } else {
            rest
        };
        Some(NodeRow {
            words: node.row,
            value: node.value,
            bound,
            below: self.below(claim, depth, &node),
        })
    }

    fn add_arcs(
        &self,
        depth: usize,
        node: usize,
        arcs: &mut Vec<CoverArc>,
    ) -> Result<(), OutOfMemory> {
        match self.node(depth, node) {
            None => Ok(()),
            Some(node) => arcs.extend_from_slice(node.arcs),
        }
    }

    fn wait(&self, alloc: Global, depth: usize, node: usize) -> Result<Option<Wait>, OutOfMemory> {
        let Ok(i) = self.places.binary_search(&Place { depth, node }) else {
            return Ok(None);
        };
        let Some(child) = self.book.child(self.page, i) else {
            return Ok(None);
        };
        Ok(Some(Wait {
            decisions: child.decisions.to_vec(alloc)?,
            ticket: ticket_of(child.fate),
        }))
    }
}
