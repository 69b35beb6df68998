//! Thin exploration: a needed row that a kept row serves is dropped, and gets no diagram.
//!
//! Nothing here says that the cover passes its tests: whoever takes it tests it.

ghost use Rattle.std.specs.Prelude.{◌≤◌, IfOk, IfSome, OnOk};
ghost use Rattle.dp_model.specs.Subproblem.{IsOwn};
ghost use Rattle.layer_build.specs.Layers.{IsPreparedFor};
ghost use Rattle.bound_cover.specs.Clamping.{AreWritable};

use crate::aim::Aim;
use crate::claims::rest_of;
use crate::gathering::{Gathered, Waiter, bound_at, gather, last_count, mark, push_row, renumber};
use crate::pages::{Page, Pages, ROOT_TICKET};
use crate::serving::{Servers, is_served, rank_of};
use crate::sources::{RowSource, Wait};
use crate::whole::space_for;
use bound_cover::{Cover, CoverArc};
use cover_pages::CoverBook;
use dp_model::{DpModel, OutOfMemory, Sub, walk};
use layer_build::Workspace;
use relaxed_dd::relaxed;
use std::alloc::Global;
use std::mem;

/// The greatest number of serving rows among the kept rows of a layer.
const MOST_KEPT_SERVERS: usize = 32;

/// What supplies diagrams: the pages of books, and a workspace for those that no page has.
#[derive(Drop)]
struct Supply<'b> {
    pages: Pages<'b>,
    space: Workspace,
}

/// The layers of an exploration before it begins: one row for the root, which waits.
fn start_layers<'m, M: DpModel>(aim: &Aim<'m, M>) -> Result<Vec<Gathered<'m, M>>, OutOfMemory> {
    let mut layers = Vec::new(aim.alloc);
    'layers: for depth in 0..aim.model.vars() + 1 {
        layers.push(Gathered::new(aim.alloc, aim.model, depth))?;
    }
    if let Some(top) = layers.get_mut(0) {
        start_layer(aim, top)?;
    }
    Ok(layers)
}

/// Puts in the row for the root, which waits.
fn start_layer<M: DpModel>(aim: &Aim<M>, top: &mut Gathered<M>) -> Result<(), OutOfMemory> {
    let model = aim.model;
    let mut words = vec![in aim.alloc; 0i64; model.words()]?;
    model.root(&mut words);
    let bound = bound_at(model, 0, rest_of(aim.claim, model.root_value()));
    push_row(bound, words.as_slice(), None, &mut top.rows)?;
    let root = Wait {
        decisions: Vec::new(aim.alloc),
        ticket: Some(ROOT_TICKET),
    };
    top.wait(0, root)
}

/// A row that a layer needs. In the order of such rows the least bound comes first, of those a row that has arcs, and then the greatest
/// rank, which is written as its complement.
#[derive(Clone, Copy, Debug, PartialEq, Eq, PartialOrd, Ord)]
struct Needed {
    bound: Option<i64>,
    lacks_arcs: bool,
    fall: i64,
    place: u32,
}

/// Marks the targets of the last layer's rows among this many rows of the next one.
fn marks_of(alloc: Global, above: &Cover, count: u32) -> Result<Vec<bool>, OutOfMemory> {
    let mut marks = vec![in alloc; false; count as usize]?;
    let rows = last_count(above) as usize;
    'rows: for i in 0..rows {
        if let Some(row) = above.row(0, i) {
            mark(row.arcs, &mut marks);
        }
    }
    Ok(marks)
}

/// The rows of a layer that are marked, in their order.
fn needed_of<M: DpModel>(
    alloc: Global,
    model: &M,
    k: usize,
    rows: &Cover,
    marks: &[bool],
) -> Result<Vec<Needed>, OutOfMemory>
    requires { k ≤ (M.meaning (M.numbers model.now)).vars }
{
    let mut needed = Vec::new(alloc);
    let count = last_count(rows);
    'rows: for place in 0..count {
        let i = place as usize;
        if !is_marked(marks, i) {
            continue;
        }
        let Some(row) = rows.row(0, i) else {
            continue;
        };
        let rank = rank_of(model, k, row.words).unwrap_or(0);
        let bound = row.bound;
        let lacks_arcs = !row.has_arcs;
        needed.push(Needed {
            bound,
            lacks_arcs,
            fall: !rank,
            place,
        })?;
    }
    needed.sort_unstable();
    Ok(needed)
}

/// Whether a place is marked.
fn is_marked(marks: &[bool], i: usize) -> bool {
    match marks.get(i) {
        None => false,
        Some(mark) => *mark,
    }
}

/// The rows of a layer that are kept, and for each row that was there the number of the kept one that its arcs go to.
#[derive(Drop)]
struct Thinned {
    rows: Cover,
    numbers: Vec<u32>,
}

/// The kept rows of a layer as they come, those of them that serve others, and for each page the number of the row that its diagram
/// stands below.
#[derive(Drop)]
struct Kept<'m, M: DpModel> {
    rows: Cover,
    servers: Servers<'m, M>,
    by_page: Vec<Option<u32>>,
}

impl<'m, M: DpModel> Kept<'m, M> {
    /// Keeps a row, with arcs or none, which serves others from then on, and gives its number.
    fn push(
        &mut self,
        alloc: Global,
        words: &[i64],
        bound: Option<i64>,
        arcs: Option<&[CoverArc]>,
    ) -> Result<u32, OutOfMemory> {
        let number = last_count(&self.rows);
        push_row(bound, words, arcs, &mut self.rows)?;
        self.servers.add(alloc, words, bound, number)?;
        Ok(number)
    }

    /// The number of a kept row that serves this one. Where there is none, this one is kept.
    fn put(
        &mut self,
        alloc: Global,
        words: &[i64],
        bound: Option<i64>,
        arcs: Option<&[CoverArc]>,
    ) -> Result<u32, OutOfMemory> {
        let number = last_count(&self.rows);
        if let Some(server) = self.servers.serve_at_pace(alloc, words, bound, number)? {
            return Ok(server);
        }
        push_row(bound, words, arcs, &mut self.rows)?;
        Ok(number)
    }
}

/// A row of a layer that waits.
#[derive(Clone, Copy)]
struct OpenRow<'r> {
    words: &'r [i64],
    bound: Option<i64>,
    wait: &'r Wait,
}

/// What the row at a place of a layer waits for.
fn wait_of(waiting: &[Waiter], place: u32) -> Option<&Wait> {
    match waiting.binary_search_by_key(&place, |w| w.place) {
        Ok(i) => Some(&waiting[i].wait),
        Err(_) => None,
    }
}

/// The subproblem of decisions; none where they are no prefix or leave nothing to decide.
fn sub_of<M: DpModel>(
    alloc: Global,
    model: &M,
    decisions: &[u32],
) -> Result<Option<Sub>, OutOfMemory>
    ensures { IfOk result (λ sub. IfSome sub (λ s. IsOwn (M.meaning (M.numbers model.now)) s.subproblem)) }
{
    let mut row = vec![in alloc; 0i64; model.words()]?;
    let mut spare = vec![in alloc; 0i64; model.words()]?;
    let Some(value) = walk(model, decisions, &mut row, &mut spare) else {
        return Ok(None);
    };
    if decisions.len() >= model.vars() {
        return Ok(None);
    }
    let decisions = decisions.to_vec(alloc)?;
    Ok(Some(Sub {
        decisions,
        row,
        value,
        bound: 0,
    }))
}

/// The arcs of a row that waits, from its diagram, whose other rows go into the layers; none where its decisions are no prefix.
fn arcs_by_diagram<M: DpModel>(
    aim: &Aim<M>,
    decisions: &[u32],
    space: &mut Workspace,
    layers: &mut [Gathered<M>],
) -> Result<Option<Vec<CoverArc>>, OutOfMemory>
    requires { IsPreparedFor (M.meaning (M.numbers aim.now.model.now)) space.old }
    ensures { IsPreparedFor (M.meaning (M.numbers aim.now.model.now)) space.new }
{
    let Some(sub) = sub_of(aim.alloc, aim.model, decisions)? else {
        return Ok(None);
    };
    let diagram = relaxed(space, aim.model, &sub, aim.claim);
    let arcs = gather(aim, &diagram, layers)?;
    Ok(Some(arcs))
}

/// The number of the row that a page's diagram stands below, which is kept with its arcs where it is not yet there.
fn keep_page<M: DpModel>(
    aim: &Aim<M>,
    k: usize,
    number: usize,
    page: &Page,
    layers: &mut [Gathered<M>],
    kept: &mut Kept<M>,
) -> Result<Option<u32>, OutOfMemory>
    requires { k ≤ (M.meaning (M.numbers aim.now.model.now)).vars }
{
    if let Some(Some(place)) = kept.by_page.get(number) {
        return Ok(Some(*place));
    }
    let Some(top) = page.row(aim.claim, k, 0) else {
        return Ok(None);
    };
    let bound = bound_at(aim.model, k, top.bound);
    let arcs = gather(aim, page, layers)?;
    let place = kept.push(aim.alloc, top.words, bound, Some(arcs.as_slice()))?;
    if let Some(cell) = kept.by_page.get_mut(number) {
        *cell = Some(place);
    }
    Ok(Some(place))
}

/// Whether the row that a page's diagram stands below serves another one.
fn page_serves<M: DpModel>(
    aim: &Aim<M>,
    k: usize,
    page: &Page,
    words: &[i64],
    bound: Option<i64>,
) -> bool
    requires { k ≤ (M.meaning (M.numbers aim.now.model.now)).vars }
{
    if page.first_depth() != k {
        return false;
    }
    match page.row(aim.claim, k, 0) {
        None => false,
        Some(top) => {
            let own = bound_at(aim.model, k, top.bound);
            is_served(aim.model, k, top.words, own, words, bound)
        }
    }
}

/// The number of the kept row that serves one that waits, where that is the row of a page; none where there is no such page, or where
/// its row does not serve.
fn keep_by_ticket<M: DpModel>(
    aim: &Aim<M>,
    k: usize,
    row: OpenRow,
    pages: &Pages,
    layers: &mut [Gathered<M>],
    kept: &mut Kept<M>,
) -> Result<Option<u32>, OutOfMemory>
    requires { k ≤ (M.meaning (M.numbers aim.now.model.now)).vars }
{
    let Some(ticket) = row.wait.ticket else {
        return Ok(None);
    };
    let Some(number) = pages.find(ticket) else {
        return Ok(None);
    };
    let Some(page) = pages.page(aim.alloc, number)? else {
        return Ok(None);
    };
    if !page_serves(aim, k, &page, row.words, row.bound) {
        return Ok(None);
    }
    keep_page(aim, k, number, &page, layers, kept)
}

/// The number of the kept row that serves one that waits: that of a page, or its own, which is kept with the arcs of a diagram.
fn keep_waiting<M: DpModel>(
    aim: &Aim<M>,
    k: usize,
    row: OpenRow,
    supply: &mut Supply,
    layers: &mut [Gathered<M>],
    kept: &mut Kept<M>,
) -> Result<u32, OutOfMemory>
    requires layer { k ≤ (M.meaning (M.numbers aim.now.model.now)).vars }
    requires prepared { IsPreparedFor (M.meaning (M.numbers aim.now.model.now)) supply.old.space }
    ensures { IsPreparedFor (M.meaning (M.numbers aim.now.model.now)) supply.new.space }
{
    if let Some(number) = keep_by_ticket(aim, k, row, &supply.pages, layers, kept)? {
        return Ok(number);
    }
    let decisions = row.wait.decisions.as_slice();
    match arcs_by_diagram(aim, decisions, &mut supply.space, layers)? {
        None => kept.push(aim.alloc, row.words, row.bound, None),
        Some(arcs) => kept.push(aim.alloc, row.words, row.bound, Some(arcs.as_slice())),
    }
}

/// The number of a needed row of a layer: that of a kept one that serves it, or its own, with which it is kept.
fn keep_row<M: DpModel>(
    aim: &Aim<M>,
    k: usize,
    place: u32,
    layer: &Gathered<M>,
    supply: &mut Supply,
    layers: &mut [Gathered<M>],
    kept: &mut Kept<M>,
) -> Result<u32, OutOfMemory>
    requires layer { k ≤ (M.meaning (M.numbers aim.now.model.now)).vars }
    requires prepared { IsPreparedFor (M.meaning (M.numbers aim.now.model.now)) supply.old.space }
    ensures { IsPreparedFor (M.meaning (M.numbers aim.now.model.now)) supply.new.space }
{
    let Some(row) = layer.rows.row(0, place as usize) else {
        return Ok(0);
    };
    if row.has_arcs {
        return kept.put(aim.alloc, row.words, row.bound, Some(row.arcs));
    }
    let Some(wait) = wait_of(layer.waiting.as_slice(), place) else {
        return kept.put(aim.alloc, row.words, row.bound, None);
    };
    if let Some(server) = kept.servers.server_of(row.words, row.bound) {
        return Ok(server);
    }
    let (words, bound) = (row.words, row.bound);
    let row = OpenRow { words, bound, wait };
    keep_waiting(aim, k, row, supply, layers, kept)
}

/// Writes the number of a row.
fn set_number(numbers: &mut [u32], place: u32, number: u32) {
    if let Some(cell) = numbers.get_mut(place as usize) {
        *cell = number;
    }
}

/// Takes the rows of a layer out of the layers.
fn take_layer<'m, M: DpModel>(
    aim: &Aim<'m, M>,
    k: usize,
    layers: &mut [Gathered<'m, M>],
) -> Gathered<'m, M>
    requires { k ≤ (M.meaning (M.numbers aim.now.model.now)).vars }
{
    let layer = Gathered::new(aim.alloc, aim.model, k);
    match layers.get_mut(k) {
        None => layer,
        Some(here) => mem::replace(here, layer),
    }
}

/// Thins a layer: of the marked rows it keeps each that no kept one serves, and puts in the diagrams of those that wait.
fn thin_layer<'m, M: DpModel>(
    aim: &Aim<'m, M>,
    k: usize,
    marks: &[bool],
    supply: &mut Supply,
    layers: &mut [Gathered<'m, M>],
) -> Result<Thinned, OutOfMemory>
    requires layer { k ≤ (M.meaning (M.numbers aim.now.model.now)).vars }
    requires prepared { IsPreparedFor (M.meaning (M.numbers aim.now.model.now)) supply.old.space }
    ensures { IsPreparedFor (M.meaning (M.numbers aim.now.model.now)) supply.new.space }
{
    let alloc = aim.alloc;
    let layer = take_layer(aim, k, layers);
    let needed = needed_of(alloc, aim.model, k, &layer.rows, marks)?;
    let mut numbers = vec![in alloc; 0u32; layer.count() as usize]?;
    let mut kept = Kept {
        rows: Cover::new(alloc),
        servers: Servers::new(alloc, aim.model, k, MOST_KEPT_SERVERS),
        by_page: vec![in alloc; None; supply.pages.len()]?,
    };
    'needed: for i in 0..needed.len() {
        let place = needed[i].place;
        let number = keep_row(aim, k, place, &layer, supply, layers, &mut kept)?;
        set_number(&mut numbers, place, number);
    }
    let rows = kept.rows;
    Ok(Thinned { rows, numbers })
}

/// Adds a row to the cover, its arcs to the numbers of their targets. They are brought together in `spare`.
fn write_row(
    bound: Option<i64>,
    words: &[i64],
    arcs: Option<&[CoverArc]>,
    numbers: &[u32],
    spare: &mut Vec<CoverArc>,
    cover: &mut Cover,
) -> Result<(), OutOfMemory>
    ensures { OnOk result (AreWritable cover.old → AreWritable cover.new) }
{
    let Some(arcs) = arcs else {
        return push_row(bound, words, None, cover);
    };
    spare.clear();
    spare.extend_from_slice(arcs)?;
    renumber(spare, numbers);
    push_row(bound, words, Some(spare.as_slice()), cover)
}

/// Adds an empty layer to the cover.
fn add_layer(cover: &mut Cover) -> Result<(), OutOfMemory>
    ensures { OnOk result (AreWritable cover.old → AreWritable cover.new) }
{
    cover.add_layer()
}

/// Adds the kept rows to the last layer of the cover, their arcs to the numbers of their targets.
fn write_rows(
    alloc: Global,
    above: &Cover,
    numbers: &[u32],
    cover: &mut Cover,
) -> Result<(), OutOfMemory>
    requires { AreWritable cover.old }
    ensures { OnOk result (AreWritable cover.new) }
{
    let count = last_count(above) as usize;
    let mut spare = Vec::new(alloc);
    'rows: for i in 0..count {
        if let Some(row) = above.row(0, i) {
            let arcs = if row.has_arcs { Some(row.arcs) } else { None };
            write_row(row.bound, row.words, arcs, numbers, &mut spare, cover)?;
        }
    }
    Ok(())
}

/// Adds a layer of kept rows to the cover, their arcs to the numbers of their targets.
fn write_layer(
    alloc: Global,
    above: &Cover,
    numbers: &[u32],
    cover: &mut Cover,
) -> Result<(), OutOfMemory>
    requires { AreWritable cover.old }
    ensures { OnOk result (AreWritable cover.new) }
{
    add_layer(cover)?;
    write_rows(alloc, above, numbers, cover)
}

/// Takes the rows that a layer needs out of the layers, thins them, and writes the layer above them.
fn next_layer<'m, M: DpModel>(
    aim: &Aim<'m, M>,
    k: usize,
    above: &Cover,
    supply: &mut Supply,
    layers: &mut [Gathered<'m, M>],
    cover: &mut Cover,
) -> Result<Cover, OutOfMemory>
    requires layer { k ≤ (M.meaning (M.numbers aim.now.model.now)).vars }
    requires prepared { IsPreparedFor (M.meaning (M.numbers aim.now.model.now)) supply.old.space }
    requires writable { AreWritable cover.old }
    ensures prepared { IsPreparedFor (M.meaning (M.numbers aim.now.model.now)) supply.new.space }
    ensures writable { OnOk result (AreWritable cover.new) }
{
    let marks = marks_of(aim.alloc, above, count_at(layers, k))?;
    let next = thin_layer(aim, k, marks.as_slice(), supply, layers)?;
    write_layer(aim.alloc, above, next.numbers.as_slice(), cover)?;
    Ok(next.rows)
}

/// How many rows the layer at a depth has, and none where there is no such layer.
fn count_at<M: DpModel>(layers: &[Gathered<M>], depth: usize) -> u32 {
    match layers.get(depth) {
        None => 0,
        Some(layer) => layer.count(),
    }
}

/// Thins all layers after the first one, whose kept rows these are, and writes each but the last one, whose kept rows it gives.
fn next_layers<'m, M: DpModel>(
    aim: &Aim<'m, M>,
    first: Cover,
    supply: &mut Supply,
    layers: &mut [Gathered<'m, M>],
    cover: &mut Cover,
) -> Result<Cover, OutOfMemory>
    requires prepared { IsPreparedFor (M.meaning (M.numbers aim.now.model.now)) supply.old.space }
    requires writable { AreWritable cover.old }
    ensures { OnOk result (AreWritable cover.new) }
{
    let mut above = first;
    'layers: for k in 0..aim.model.vars() {
        let next = next_layer(aim, k + 1, &above, supply, layers, cover)?;
        above = next;
    }
    Ok(above)
}

/// The kept rows of the first layer, from which the others are thinned.
fn first_layer<'m, M: DpModel>(
    aim: &Aim<'m, M>,
    supply: &mut Supply,
    layers: &mut [Gathered<'m, M>],
) -> Result<Cover, OutOfMemory>
    requires { IsPreparedFor (M.meaning (M.numbers aim.now.model.now)) supply.old.space }
    ensures { IsPreparedFor (M.meaning (M.numbers aim.now.model.now)) supply.new.space }
{
    let top = vec![in aim.alloc; true; 1]?;
    let first = thin_layer(aim, 0, top.as_slice(), supply, layers)?;
    Ok(first.rows)
}

/// The cover of a thin exploration of the whole problem. Its bounds can be written; it is not tested.
pub(crate) fn explore_thin<M: DpModel>(
    alloc: Global,
    model: &M,
    claim: Option<i64>,
    books: &[CoverBook],
) -> Result<Cover, OutOfMemory>
    ensures { IfOk result (λ cover. AreWritable cover) }
{
    let aim = Aim {
        alloc,
        model,
        claim,
    };
    let mut supply = Supply {
        pages: Pages::of(alloc, books)?,
        space: space_for(alloc, model)?,
    };
    let mut layers = start_layers(&aim)?;
    let first = first_layer(&aim, &mut supply, &mut layers)?;
    let mut cover = Cover::new(alloc);
    let last = next_layers(&aim, first, &mut supply, &mut layers, &mut cover)?;
    write_layer(alloc, &last, &[], &mut cover)?;
    Ok(cover)
}
