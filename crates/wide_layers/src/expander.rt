//! How a layer is expanded.

ghost use Rattle.std.specs.Prelude.{◌≡◌, ◌+◌, ◌<◌, ◌≤◌, nat_lt, cond, length, take};
ghost use Rattle.dp_model.specs.declared.limits.TheConstants.{MOST_LAYER_PARTS};
ghost use Rattle.dp_laws.specs.Rules.Compiling.{expand, prune};
ghost use Rattle.layer_build.specs.Layers.{last_depth, last_layer, expand_last, reduced_first};
ghost use Rattle.layer_build.specs.UnderWay.{IsUnderWay};
ghost use Rattle.layer_build.specs.Within.{within_width};
ghost use Rattle.wide_layers.specs.Pieces.{AreRight, AllRight};
ghost use Rattle.wide_layers.specs.Ready.{MayMake};

use crate::making::make;
use crate::piece::Piece;
use crate::recalled::Recalled;
use dp_model::DpModel;
use layer_build::Workspace;
use std::alloc::Global;
use std::thread;
use std::thread::Threads;

/// The fewest nodes of a layer that is made in pieces: with fewer, threads cost more than they save.
const FEWEST_NODES: usize = 256;

/// Pieces in which the candidates of a layer are made, each by a thread of its own where one can be made.
#[derive(Drop)]
pub struct ParallelExpander<'r, R: Threads + Sync> {
    rt: &'r R,
    alloc: Global,
    parts: usize,
    pieces: Vec<Piece>,
}

/// What expands the layers of a diagram, one after another.
#[derive(Drop)]
pub enum Expander<'r, R: Threads + Sync> {
    /// By one thread.
    Plain,
    /// By several threads, in pieces.
    Parallel(ParallelExpander<'r, R>),
}

/// Where the part with this number begins, of parts of this many nodes.
fn start_of(i: usize, size: usize, nodes: usize) -> usize
    ensures { result ≤ nodes }
{
    i.saturating_mul(size).min(nodes)
}

/// Where a part ends that begins there.
fn end_of(from: usize, size: usize, nodes: usize) -> usize
    requires { from ≤ nodes }
    ensures order { from ≤ result }
    ensures within { result ≤ nodes }
{
    from.saturating_add(size).min(nodes)
}

/// The piece gets the candidates of as many nodes as `size`, from `i` times as many on, as far as there are nodes and memory.
fn make_part<M: DpModel>(
    alloc: Global,
    space: &Workspace,
    model: &M,
    size: usize,
    i: usize,
    piece: &mut Piece,
)
    requires { MayMake (M.meaning (M.numbers model.now)) space.now }
    ensures { AreRight (M.meaning (M.numbers model.now)) (last_depth space.now) piece.new }
{
    let nodes = space.nodes(space.last_depth());
    let from = start_of(i, size, nodes);
    let to = end_of(from, size, nodes);
    let _ = make(alloc, space, model, from, to, piece);
}

impl<'r, R: Threads + Sync> ParallelExpander<'r, R> {
    /// An expander in `parts` parts, from 1 to `MOST_LAYER_PARTS`. It takes no memory.
    fn new(rt: &'r R, alloc: Global, parts: u32) -> ParallelExpander<'r, R>
        requires some { 0 < parts }
        requires few { parts ≤ MOST_LAYER_PARTS }
    {
        ParallelExpander {
            rt,
            alloc,
            parts: parts as usize,
            pieces: Vec::new(alloc),
        }
    }

    /// There are as many pieces as parts, as far as there is memory.
    fn fill_up(&mut self) {
        for _ in self.pieces.len()..self.parts {
            let _ = self.pieces.push(Piece::new(self.alloc));
        }
    }

    /// Makes candidates of the last layer. Answers how many of the pieces have some.
    fn make<M: DpModel>(&mut self, space: &Workspace, model: &M) -> usize
        requires { MayMake (M.meaning (M.numbers model.now)) space.now }
        ensures within { result ≤ length self.new.pieces.items }
        ensures right { AllRight (M.meaning (M.numbers model.now)) (last_depth space.now) (take result self.new.pieces.items) }
    {
        let nodes = space.nodes(space.last_depth());
        self.fill_up();
        let count = self.pieces.len();
        if nodes < FEWEST_NODES || count == 0 {
            return 0;
        }
        make_parts(
            self.rt,
            self.alloc,
            space,
            model,
            nodes.div_ceil(count),
            self.pieces.as_mut_slice(),
        );
        count
    }
}

/// Makes candidates of the last layer in all pieces.
fn make_parts<R: Threads + Sync, M: DpModel>(
    rt: &R,
    alloc: Global,
    space: &Workspace,
    model: &M,
    size: usize,
    pieces: &mut [Piece],
)
    requires some { 0 < length pieces.old }
    requires may { MayMake (M.meaning (M.numbers model.now)) space.now }
    ensures { AllRight (M.meaning (M.numbers model.now)) (last_depth space.now) pieces.new }
{
    let count = pieces.len();
    thread::for_each_mut(
        rt,
        pieces,
        count,
        &|i: usize, piece: &mut Piece|
            requires { MayMake (M.meaning (M.numbers model.now)) space.now }
            ensures { AreRight (M.meaning (M.numbers model.entry.now)) (last_depth space.entry.now) piece.exit.now }
        { make_part(alloc, space, model, size, i, piece) },
    );
}

impl<'r, R: Threads + Sync> Expander<'r, R> {
    /// The expander in this many parts, from 1 to `MOST_LAYER_PARTS`; with one part it is the plain one. It takes no memory.
    pub fn in_parts(rt: &'r R, alloc: Global, parts: u32) -> Expander<'r, R>
        requires some { 0 < parts }
        requires few { parts ≤ MOST_LAYER_PARTS }
    {
        if parts == 1 {
            Expander::Plain
        } else {
            Expander::Parallel(ParallelExpander::new(rt, alloc, parts))
        }
    }

    /// Expands the last layer into the next one and takes out of that what `strike` does, as `Workspace::expand_pruned` does.
    pub fn expand_pruned<M: DpModel>(
        &mut self,
        space: &mut Workspace,
        model: &M,
        threshold: Option<i64>,
    )
        requires under_way { IsUnderWay (M.meaning (M.numbers model.now)) space.old }
        requires below { last_depth space.old < (M.meaning (M.numbers model.now)).vars }
        requires narrow { length space.old.prefix + 2 ≤ last_depth space.old → length (last_layer space.old.layers) ≤ space.old.width }
        ensures layers { space.new ≡ record space.old {
          layers = expand_last (λ layer. prune (M.meaning (M.numbers model.now)) (last_depth space.old + 1) threshold (expand (M.meaning (M.numbers model.now)) (last_depth space.old) layer)) space.old.layers;
          told = space.new.told;
        } }
        ensures under_way { IsUnderWay (M.meaning (M.numbers model.now)) space.new }
    {
        match self {
            Expander::Plain => space.expand_pruned(model, threshold),
            Expander::Parallel(parallel) => {
                let depth = space.last_depth();
                let count = parallel.make(space, model);
                let recalled = Recalled::new(model, depth, &parallel.pieces[..count]);
                space.expand_pruned(&recalled, threshold);
            }
        }
    }

    /// Expands the last layer into the next one, prunes that and merges it to the width, as `Workspace::expand_within` does.
    pub fn expand_within<M: DpModel>(
        &mut self,
        space: &mut Workspace,
        model: &M,
        threshold: Option<i64>,
    )
        requires under_way { IsUnderWay (M.meaning (M.numbers model.now)) space.old }
        requires below { last_depth space.old < (M.meaning (M.numbers model.now)).vars }
        requires narrow { length space.old.prefix + 2 ≤ last_depth space.old → length (last_layer space.old.layers) ≤ space.old.width }
        ensures layers { space.new ≡ record space.old {
          layers = expand_last (λ layer. within_width (M.meaning (M.numbers model.now)) space.old.width (last_depth space.old + 1) (prune (M.meaning (M.numbers model.now)) (last_depth space.old + 1) threshold (expand (M.meaning (M.numbers model.now)) (last_depth space.old) layer))) space.old.layers;
          told = space.new.told;
          first_reduced = cond (nat_lt space.old.width (length (prune (M.meaning (M.numbers model.now)) (last_depth space.old + 1) threshold (expand (M.meaning (M.numbers model.now)) (last_depth space.old) (last_layer space.old.layers))).next)) (reduced_first space.old.first_reduced (last_depth space.old + 1)) space.old.first_reduced;
        } }
        ensures under_way { IsUnderWay (M.meaning (M.numbers model.now)) space.new }
    {
        match self {
            Expander::Plain => space.expand_within(model, threshold),
            Expander::Parallel(parallel) => {
                let depth = space.last_depth();
                let count = parallel.make(space, model);
                let recalled = Recalled::new(model, depth, &parallel.pieces[..count]);
                space.expand_within(&recalled, threshold);
            }
        }
    }
}
