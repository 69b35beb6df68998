//! Covers in memory: heads of rows one after another, and their words and arcs in two blocks.

ghost use Rattle.std.specs.Prelude.{◌≡◌, ℕ, ◌<◌, ◌≤◌, ◌-◌, ◌^◌, cond, List, [], ◌∷◌, ◌++◌, length, slice_get, Option, Some, None, option_map, OnOk, OnErr, IfOk};
ghost use Rattle.bound_cover.specs.Covers.{CoverRow};
ghost use Rattle.bound_cover.specs.Stored.{with_row, shown_row, span_of, spans, row_of, place_at, start_at, count_at, last_layer, AreShort, IsWithin};
ghost use Rattle.bound_cover.specs.Exploring.{layer_of};

mod building;
mod layer_rows;

use crate::cover::CoverArc;
pub use building::CoverBuilder;
use dp_model::OutOfMemory;
pub use layer_rows::LayerRows;
use std::alloc::Global;
use std::marker::Model;

/// What is kept of a row: its bound, and where its words and its arcs end. They begin where those of the row before end.
#[derive(Clone, Copy, Debug)]
pub struct Head {
    // It counts where the row is bounded.
    bound: i64,
    words_to: u32,
    arcs_to: u32,
    is_bounded: bool,
    has_arcs: bool,
}

/// A row's bound, and where its words and its arcs lie.
#[derive(Clone, Copy, Debug)]
pub struct Span {
    bound: Option<i64>,
    words_from: usize,
    words_to: usize,
    has_arcs: bool,
    arcs_from: usize,
    arcs_to: usize,
}

/// A row as it is read.
#[derive(Clone, Copy, Debug)]
pub struct RowRef<'c> {
    pub bound: Option<i64>,
    pub words: &'c [i64],
    pub has_arcs: bool,
    pub arcs: &'c [CoverArc],
}

/// The place among all rows of a row of a layer, or `None` where there is none.
fn place_of(starts: &[usize], rows: usize, layer: usize, row: usize) -> Option<usize>
    ensures { result ≡ place_at starts.now rows layer row }
{
    let Some(start) = starts.get(layer) else {
        return None;
    };
    let start = *start;
    let end = match starts.get(layer + 1) {
        Some(next) => *next,
        None => rows,
    };
    if start <= end && row < end - start {
        Some(start + row)
    } else {
        None
    }
}

/// The place among all rows where a layer begins; one that does not exist begins after all rows.
fn start_of(starts: &[usize], rows: usize, layer: usize) -> usize
    ensures { result ≡ start_at starts.now rows layer }
{
    match starts.get(layer) {
        Some(start) => *start,
        None => rows,
    }
}

/// How many rows a layer has.
fn count_of(starts: &[usize], rows: usize, layer: usize) -> usize
    ensures { result ≡ count_at starts.now rows layer }
{
    let Some(start) = starts.get(layer) else {
        return 0;
    };
    let start = *start;
    let end = match starts.get(layer + 1) {
        Some(next) => *next,
        None => rows,
    };
    if start <= end { end - start } else { 0 }
}

/// Where words or arcs end, where there is room for this many.
#[inline]
fn end_of(len: usize) -> Result<u32, OutOfMemory>
    ensures { IfOk result (λ end. end ≡ len) }
{
    match u32::try_from(len) {
        Ok(end) => Ok(end),
        Err(_) => Err(OutOfMemory),
    }
}

/// The head of a row with this bound, whose words and arcs end there, where a cover has room for this many.
#[inline]
fn head_of(
    bound: Option<i64>,
    has_arcs: bool,
    words_to: usize,
    arcs_to: usize,
) -> Result<Head, OutOfMemory>
    ensures { IfOk result (λ head. (words_from arcs_from : ℕ) → span_of words_from arcs_from head ≡ record { bound = bound; words_from = words_from; words_to = words_to; has_arcs = has_arcs; arcs_from = arcs_from; arcs_to = arcs_to }) }
{
    let words_to = end_of(words_to)?;
    let arcs_to = end_of(arcs_to)?;
    let (is_bounded, bound) = match bound {
        Some(bound) => (true, bound),
        None => (false, 0),
    };
    Ok(Head {
        bound,
        words_to,
        arcs_to,
        is_bounded,
        has_arcs,
    })
}

/// The span of a head whose words and arcs begin here.
fn span_of(words_from: usize, arcs_from: usize, head: Head) -> Span
    ensures { result ≡ span_of words_from arcs_from head }
{
    let bound = if head.is_bounded {
        Some(head.bound)
    } else {
        None
    };
    Span {
        bound,
        words_from,
        words_to: head.words_to as usize,
        has_arcs: head.has_arcs,
        arcs_from,
        arcs_to: head.arcs_to as usize,
    }
}

/// The head at a place, or `None` where there is none.
fn head_at(heads: &[Head], place: usize) -> Option<Head>
    ensures { result ≡ slice_get heads.now place }
{
    match heads.get(place) {
        None => None,
        Some(head) => Some(*head),
    }
}

/// The head before a place.
fn head_before(heads: &[Head], place: usize) -> Head
    requires some { 0 < place }
    requires there { place ≤ length heads.now }
    ensures { slice_get heads.now (place - 1) ≡ Some result }
{
    heads[place - 1]
}

/// The span of the head at a place.
#[tactic(auto, using(crate::proofs::Spans::span_steps))]
#[inline]
fn span_after(heads: &[Head], place: usize, head: Head) -> Span
    requires { slice_get heads.now place ≡ Some head }
    ensures { slice_get (spans heads.now) place ≡ Some result }
{
    if place == 0 {
        return span_of(0, 0, head);
    }
    let before = head_before(heads, place);
    span_of(before.words_to as usize, before.arcs_to as usize, head)
}

/// The span at a place, or `None` where there is none.
#[tactic(auto, using(crate::proofs::Spans::span_steps))]
fn span_at(heads: &[Head], place: usize) -> Option<Span>
    ensures { result ≡ slice_get (spans heads.now) place }
{
    match head_at(heads, place) {
        None => None,
        Some(head) => Some(span_after(heads, place, head)),
    }
}

/// The row of a span.
fn view_of<'c>(span: Span, words: &'c [i64], arcs: &'c [CoverArc]) -> RowRef<'c>
    requires { IsWithin (length words.now) (length arcs.now) span }
    ensures { shown_row result ≡ row_of words.now arcs.now span }
{
    RowRef {
        bound: span.bound,
        words: &words[span.words_from..span.words_to],
        has_arcs: span.has_arcs,
        arcs: &arcs[span.arcs_from..span.arcs_to],
    }
}

/// A cover: for each layer a list of rows. It has room for fewer than `2^32` words and as many arcs, which take 34 and 51 GB.
#[derive(Debug, Drop)]
pub struct Cover {
    starts: Vec<usize>,
    heads: Vec<Head>,
    words: Vec<i64>,
    arcs: Vec<CoverArc>,
}

impl Model for Cover {
    ghost use Rattle.std.specs.Prelude.{List, map, vec_len};
    ghost use Rattle.bound_cover.specs.Covers.{CoverRow};
    ghost use Rattle.bound_cover.specs.Stored.{row_of, spans, layers_of, AreShort, IsStored, BeginsAt};

    ghost Value = { List (List CoverRow) };

    ghost view = { λ c. layers_of c.starts.items (map (row_of c.words.items c.arcs.items) (spans c.heads.items)) };

    ghost invariant = { λ c. IsStored c.starts.items (spans c.heads.items) (vec_len c.words) (vec_len c.arcs)
        × AreShort (layers_of c.starts.items (map (row_of c.words.items c.arcs.items) (spans c.heads.items)))
        × BeginsAt (vec_len c.words) (vec_len c.arcs) c.heads.items };
}

impl Cover {
    /// A cover without layers. It takes no memory.
    pub fn new(alloc: Global) -> Cover
        ensures { result ≡ [] }
    {
        Cover {
            starts: Vec::new(alloc),
            heads: Vec::new(alloc),
            words: Vec::new(alloc),
            arcs: Vec::new(alloc),
        }
    }

    /// How many layers there are.
    pub fn layers(&self) -> usize
        ensures count { result ≡ length self.now }
        ensures short { AreShort self.now }
    {
        self.starts.len()
    }

    /// The row at a place of a layer, or `None` where there is none.
    pub fn row(&self, layer: usize, place: usize) -> Option<RowRef<'_>>
        ensures { option_map shown_row result ≡ slice_get (layer_of self.now layer) place }
    {
        match place_of(self.starts.as_slice(), self.heads.len(), layer, place) {
            None => None,
            Some(place) => match span_at(self.heads.as_slice(), place) {
                None => None,
                Some(span) => Some(view_of(span, self.words.as_slice(), self.arcs.as_slice())),
            },
        }
    }

    /// The bound of a row that exists; `None` where the row claims that its state has no continuation.
    pub fn bound(&self, layer: usize, row: usize) -> Option<i64>
        requires { row < length (layer_of self.now layer) }
        ensures { option_map (λ r. r.bound) (slice_get (layer_of self.now layer) row) ≡ Some result }
    {
        let Some(row) = self.row(layer, row) else {
            unreachable!()
        };
        row.bound
    }

    /// The words of a row. The row exists.
    pub fn words(&self, layer: usize, row: usize) -> &[i64]
        requires { row < length (layer_of self.now layer) }
        ensures { option_map (λ r. r.words) (slice_get (layer_of self.now layer) row) ≡ Some result.now }
    {
        let Some(row) = self.row(layer, row) else {
            unreachable!()
        };
        row.words
    }

    /// The arcs of a row that exists; `None` exactly where it has no arc part.
    pub fn arcs(&self, layer: usize, row: usize) -> Option<&[CoverArc]>
        requires { row < length (layer_of self.now layer) }
        ensures { option_map (λ r. r.arcs) (slice_get (layer_of self.now layer) row) ≡ Some (option_map (λ a. a.now) result) }
    {
        let Some(row) = self.row(layer, row) else {
            unreachable!()
        };
        if row.has_arcs { Some(row.arcs) } else { None }
    }

    /// How many rows a layer has. The layer exists.
    pub fn rows(&self, layer: usize) -> usize
        requires { layer < length self.now }
        ensures count { result ≡ length (layer_of self.now layer) }
        ensures small { result < 2 ^ 32 }
    {
        count_of(self.starts.as_slice(), self.heads.len(), layer)
    }

    /// The rows of a layer; none where the layer does not exist.
    pub(crate) fn layer(&self, layer: usize) -> LayerRows<'_>
        ensures { result ≡ layer_of self.now layer }
    {
        let rows = self.heads.len();
        LayerRows {
            heads: self.heads.as_slice(),
            words: self.words.as_slice(),
            arcs: self.arcs.as_slice(),
            first: start_of(self.starts.as_slice(), rows, layer),
            count: count_of(self.starts.as_slice(), rows, layer),
        }
    }

    /// Adds an empty layer. A refusal changes nothing.
    pub fn add_layer(&mut self) -> Result<(), OutOfMemory>
        ensures ok { OnOk result (self.new ≡ self.old ++ [] ∷ []) }
        ensures err { OnErr result (self.new ≡ self.old) }
    {
        self.starts.reserve(1)?;
        self.starts.push_reserved(self.heads.len());
        Ok(())
    }

    /// Adds a row to the last layer: its bound, its words, and its arcs, or none where it has no arc part.
    ///
    /// There is a layer, and the last one has fewer than `2^32 - 1` rows. It fails only for want of memory or of a cover's room, and
    /// then changes nothing.
    pub fn add_row(
        &mut self,
        bound: Option<i64>,
        words: &[i64],
        arcs: Option<&[CoverArc]>,
    ) -> Result<(), OutOfMemory>
        requires layer { 0 < length self.old }
        requires few { length (last_layer self.old) < 2 ^ 32 - 1 }
        ensures ok { OnOk result (self.new ≡ with_row self.old (record { bound = bound; words = words.now; arcs = option_map (λ a. a.now) arcs.entry })) }
        ensures err { OnErr result (self.new ≡ self.old) }
    {
        match arcs {
            None => self.add_parts(bound, words, false, &[]),
            Some(arcs) => self.add_parts(bound, words, true, arcs),
        }
    }

    /// Adds a row whose arcs count only where it is to have an arc part.
    fn add_parts(
        &mut self,
        bound: Option<i64>,
        words: &[i64],
        has_arcs: bool,
        arcs: &[CoverArc],
    ) -> Result<(), OutOfMemory>
        requires layer { 0 < length self.old }
        requires few { length (last_layer self.old) < 2 ^ 32 - 1 }
        ensures ok { OnOk result (self.new ≡ with_row self.old (record { bound = bound; words = words.now; arcs = cond has_arcs (Some arcs.now) None })) }
        ensures err { OnErr result (self.new ≡ self.old) }
    {
        self.heads.reserve(1)?;
        self.words.reserve(words.len())?;
        self.arcs.reserve(arcs.len())?;
        let words_to = self.words.len() + words.len();
        let arcs_to = self.arcs.len() + arcs.len();
        let head = head_of(bound, has_arcs, words_to, arcs_to)?;
        let _ = self.words.extend_from_slice(words);
        let _ = self.arcs.extend_from_slice(arcs);
        self.heads.push_reserved(head);
        Ok(())
    }
}
