//! Layers of rows that diagrams supply. An exploration keeps some of them.

ghost use Rattle.std.specs.Prelude.{◌≡◌, ◌≤◌, ◌<◌, OnOk, length};
ghost use Rattle.bound_cover.specs.Clamping.{AreWritable, IsWritable};
ghost use Rattle.bound_cover.specs.Stored.{last_layer};

use crate::aim::Aim;
use crate::serving::Servers;
use crate::sources::{Below, NodeRow, RowSource, Wait};
use crate::tracing::path_to;
use crate::writing::{clamped_bound, highest, lowest};
use bound_cover::{Cover, CoverArc, MOST_BOUND, MOST_ROWS, is_state_row};
use dp_model::{DpModel, OutOfMemory};
use std::alloc::Global;

/// The greatest number of serving rows of a layer while its rows are gathered.
const MOST_GATHERED_SERVERS: usize = 1;

/// A row that waits, by its number in its layer.
#[derive(Debug, Drop)]
pub(crate) struct Waiter {
    pub(crate) place: u32,
    pub(crate) wait: Wait,
}

/// The rows of a layer of a problem, those of them that wait, in order, and those that serve further ones.
#[derive(Drop)]
pub(crate) struct Gathered<'m, M: DpModel> {
    pub(crate) rows: Cover,
    pub(crate) waiting: Vec<Waiter>,
    servers: Servers<'m, M>,
    // The arcs of the row that is put in.
    arcs: Vec<CoverArc>,
}

impl<'m, M: DpModel> Gathered<'m, M> {
    /// A layer without rows. It takes no memory.
    pub(crate) fn new(alloc: Global, model: &'m M, depth: usize) -> Gathered<'m, M>
        requires { depth ≤ (M.meaning (M.numbers model.now)).vars }
    {
        Gathered {
            rows: Cover::new(alloc),
            waiting: Vec::new(alloc),
            servers: Servers::new(alloc, model, depth, MOST_GATHERED_SERVERS),
            arcs: Vec::new(alloc),
        }
    }

    /// How many rows there are.
    pub(crate) fn count(&self) -> u32 {
        last_count(&self.rows)
    }

    /// Puts a row that waits after those that do.
    pub(crate) fn wait(&mut self, place: u32, wait: Wait) -> Result<(), OutOfMemory> {
        self.waiting.reserve(1)?;
        self.waiting.push_reserved(Waiter { place, wait });
        Ok(())
    }

    /// Puts in a row with the arcs of a node, whose targets' rows have these numbers.
    fn push_with_arcs<S: RowSource>(
        &mut self,
        source: &S,
        depth: usize,
        node: usize,
        bound: Option<i64>,
        words: &[i64],
        numbers: &[u32],
    ) -> Result<(), OutOfMemory> {
        self.arcs.clear();
        source.add_arcs(depth, node, &mut self.arcs)?;
        renumber(&mut self.arcs, numbers);
        push_row(bound, words, Some(self.arcs.as_slice()), &mut self.rows)
    }
}

/// How many rows the last layer of a cover has.
pub(crate) fn last_count(cover: &Cover) -> u32
    ensures { result ≡ length (last_layer cover.now) }
{
    let layers = cover.layers();
    if layers == 0 {
        return 0;
    }
    cover.rows(layers - 1) as u32
}

/// A bound that a text can hold.
fn far_bound(bound: Option<i64>) -> Option<i64>
    ensures { IsWritable result }
{
    let bound = bound?;
    if bound < -MOST_BOUND {
        return Some(-MOST_BOUND);
    }
    if bound > MOST_BOUND {
        return Some(MOST_BOUND);
    }
    Some(bound)
}

/// Adds a layer to a cover that has none.
fn open_layer(cover: &mut Cover) -> Result<(), OutOfMemory>
    ensures layer { OnOk result (0 < length cover.new) }
    ensures writable { OnOk result (AreWritable cover.old → AreWritable cover.new) }
{
    if cover.layers() == 0 {
        cover.add_layer()?;
    }
    Ok(())
}

/// Puts a row into the last layer of a cover, which gets one where there is none. It fails for want of memory, and where the layer
/// is full.
pub(crate) fn push_row(
    bound: Option<i64>,
    words: &[i64],
    arcs: Option<&[CoverArc]>,
    cover: &mut Cover,
) -> Result<(), OutOfMemory>
    ensures { OnOk result (AreWritable cover.old → AreWritable cover.new) }
{
    open_layer(cover)?;
    if last_count(cover) as usize >= MOST_ROWS {
        return Err(OutOfMemory);
    }
    cover.add_row(far_bound(bound), words, arcs)
}

/// Gives the targets of arcs other numbers.
pub(crate) fn renumber(arcs: &mut [CoverArc], numbers: &[u32]) {
    'arcs: for i in 0..arcs.len() {
        if let Some(arc) = arcs.get_mut(i) {
            *arc = renumbered_arc(*arc, numbers);
        }
    }
}

/// An arc with another number of its target, where there is one.
fn renumbered_arc(arc: CoverArc, numbers: &[u32]) -> CoverArc {
    let Some(target) = arc.target else {
        return arc;
    };
    match numbers.get(target as usize) {
        None => arc,
        Some(number) => CoverArc {
            decision: arc.decision,
            target: Some(*number),
        },
    }
}

/// What the row of a node claims, brought into the range of its layer.
pub(crate) fn bound_at<M: DpModel>(model: &M, depth: usize, bound: Option<i128>) -> Option<i64>
    requires { depth ≤ (M.meaning (M.numbers model.now)).vars }
{
    clamped_bound(lowest(depth), highest(model, depth), bound)
}

/// Whether the rough bound of a row is at most its own bound.
fn is_rough<M: DpModel>(model: &M, k: usize, words: &[i64], bound: Option<i64>) -> bool
    requires { k ≤ (M.meaning (M.numbers model.now)).vars }
{
    if !is_state_row(model, k, words) {
        return false;
    }
    match (model.rough(k, words), bound) {
        (None, _) => true,
        (Some(_), None) => false,
        (Some(rough), Some(bound)) => rough <= bound,
    }
}

/// What stands below the row of a node: nothing where its rough bound is enough.
fn below_at<M: DpModel>(model: &M, k: usize, row: &NodeRow) -> Below
    requires { k ≤ (M.meaning (M.numbers model.now)).vars }
{
    if row.below == Below::Nothing || is_rough(model, k, row.words, bound_at(model, k, row.bound)) {
        Below::Nothing
    } else {
        row.below
    }
}

/// What a node waits for: what its diagram tells, or a diagram of the decisions by which it is reached.
fn wait_of<M: DpModel, S: RowSource>(
    aim: &Aim<M>,
    source: &S,
    depth: usize,
    node: usize,
) -> Result<Option<Wait>, OutOfMemory>
    requires { depth ≤ (M.meaning (M.numbers aim.now.model.now)).vars }
{
    if let Some(wait) = source.wait(aim.alloc, depth, node)? {
        return Ok(Some(wait));
    }
    match path_to(aim, source, depth, node)? {
        None => Ok(None),
        Some(decisions) => Ok(Some(Wait {
            decisions,
            ticket: None,
        })),
    }
}

/// Puts the row of a node into the layer, with its arcs, whose targets' rows have these numbers, or with what it waits for.
fn put_node<M: DpModel, S: RowSource>(
    aim: &Aim<M>,
    source: &S,
    depth: usize,
    node: usize,
    row: &NodeRow,
    numbers: &[u32],
    layer: &mut Gathered<M>,
) -> Result<(), OutOfMemory>
    requires { depth ≤ (M.meaning (M.numbers aim.now.model.now)).vars }
{
    let bound = bound_at(aim.model, depth, row.bound);
    if row.below == Below::Arcs {
        return layer.push_with_arcs(source, depth, node, bound, row.words, numbers);
    }
    if row.below == Below::Waits {
        if let Some(wait) = wait_of(aim, source, depth, node)? {
            layer.wait(layer.count(), wait)?;
        }
    }
    push_row(bound, row.words, None, &mut layer.rows)
}

/// The number of a node's row: one that serves it, or its own, which is put in then, with that below it. The rows of its targets have
/// these numbers.
fn gather_node<M: DpModel, S: RowSource>(
    aim: &Aim<M>,
    source: &S,
    depth: usize,
    node: usize,
    below: Below,
    numbers: &[u32],
    layer: &mut Gathered<M>,
) -> Result<u32, OutOfMemory>
    requires { depth ≤ (M.meaning (M.numbers aim.now.model.now)).vars }
{
    let number = layer.count();
    let Some(mut row) = source.row(aim.claim, depth, node) else {
        return Ok(number);
    };
    row.below = below;
    let bound = bound_at(aim.model, depth, row.bound);
    let server = if below == Below::Waits {
        layer.servers.serve(aim.alloc, row.words, bound, number)?
    } else {
        layer
            .servers
            .serve_at_pace(aim.alloc, row.words, bound, number)?
    };
    if let Some(server) = server {
        return Ok(server);
    }
    put_node(aim, source, depth, node, &row, numbers, layer)?;
    Ok(number)
}

/// The numbers of the rows of those nodes of a layer that need one. Those that none serves are put in.
fn gather_layer<M: DpModel, S: RowSource>(
    aim: &Aim<M>,
    source: &S,
    depth: usize,
    needed: &[Option<Below>],
    numbers: &[u32],
    layer: &mut Gathered<M>,
) -> Result<Vec<u32>, OutOfMemory>
    requires { depth ≤ (M.meaning (M.numbers aim.now.model.now)).vars }
{
    let mut new = Vec::with_capacity(aim.alloc, needed.len())?;
    'nodes: for node in 0..needed.len() {
        let mut number = 0;
        if let Some(below) = needed[node] {
            number = gather_node(aim, source, depth, node, below, numbers, layer)?;
        }
        new.push(number)?;
    }
    Ok(new)
}

/// Marks the targets of arcs.
pub(crate) fn mark(arcs: &[CoverArc], marks: &mut [bool]) {
    'arcs: for arc in arcs {
        if let Some(target) = arc.target {
            if let Some(cell) = marks.get_mut(target as usize) {
                *cell = true;
            }
        }
    }
}

/// Which nodes of the next layer the arcs of a layer's rows lead to.
fn marks_below<S: RowSource>(
    alloc: Global,
    source: &S,
    depth: usize,
    above: &[Option<Below>],
) -> Result<Vec<bool>, OutOfMemory> {
    let mut marks = vec![in alloc; false; source.nodes(depth.saturating_add(1))]?;
    let mut arcs = Vec::new(alloc);
    'nodes: for node in 0..above.len() {
        if above[node] == Some(Below::Arcs) {
            arcs.clear();
            source.add_arcs(depth, node, &mut arcs)?;
            mark(arcs.as_slice(), &mut marks);
        }
    }
    Ok(marks)
}

/// What stands below the rows of the marked nodes of a layer; none for the others.
fn needed_of<M: DpModel, S: RowSource>(
    aim: &Aim<M>,
    source: &S,
    depth: usize,
    marks: &[bool],
) -> Result<Vec<Option<Below>>, OutOfMemory>
    requires { depth ≤ (M.meaning (M.numbers aim.now.model.now)).vars }
{
    let mut needed = vec![in aim.alloc; None; marks.len()]?;
    'nodes: for node in 0..marks.len() {
        if !marks[node] {
            continue;
        }
        if let Some(row) = source.row(aim.claim, depth, node) {
            let below = below_at(aim.model, depth, &row);
            if let Some(cell) = needed.get_mut(node) {
                *cell = Some(below);
            }
        }
    }
    Ok(needed)
}

/// Which nodes need rows, and what stands below these, of each layer below the first one, down to the last layer that has such nodes.
fn needed_nodes<M: DpModel, S: RowSource>(
    aim: &Aim<M>,
    source: &S,
) -> Result<Vec<Vec<Option<Below>>>, OutOfMemory> {
    let mut above = vec![in aim.alloc; Some(Below::Arcs); 1]?;
    let mut layers = Vec::new(aim.alloc);
    'layers: for depth in source.first_depth()..aim.model.vars() {
        let marks = marks_below(aim.alloc, source, depth, above.as_slice())?;
        if !marks.contains(&true) {
            break;
        }
        let needed = needed_of(aim, source, depth + 1, marks.as_slice())?;
        above = needed.to_vec(aim.alloc)?;
        layers.push(needed)?;
    }
    Ok(layers)
}

/// The numbers of the rows of the nodes just below a diagram's root, once the rows of all its layers are put in, the lowest first.
fn gather_layers<M: DpModel, S: RowSource>(
    aim: &Aim<M>,
    source: &S,
    layers: &mut [Gathered<M>],
) -> Result<Vec<u32>, OutOfMemory> {
    let needed = needed_nodes(aim, source)?;
    let first = source.first_depth();
    let mut numbers = Vec::new(aim.alloc);
    let count = needed.len();
    'layers: for i in 0..count {
        let here = needed[count - 1 - i].as_slice();
        let depth = first.saturating_add(count - i);
        if depth > aim.model.vars() {
            continue;
        }
        if let Some(layer) = layers.get_mut(depth) {
            numbers = gather_layer(aim, source, depth, here, numbers.as_slice(), layer)?;
        }
    }
    Ok(numbers)
}

/// Puts the rows of a diagram into the layers, and gives the arcs of its root.
pub(crate) fn gather<M: DpModel, S: RowSource>(
    aim: &Aim<M>,
    source: &S,
    layers: &mut [Gathered<M>],
) -> Result<Vec<CoverArc>, OutOfMemory> {
    let numbers = gather_layers(aim, source, layers)?;
    let mut arcs = Vec::new(aim.alloc);
    source.add_arcs(source.first_depth(), 0, &mut arcs)?;
    renumber(&mut arcs, numbers.as_slice());
    Ok(arcs)
}
