ghost use Rattle.std.specs.Prelude.{◌≡◌, ◌+◌, ◌-◌, ◌*◌, ◌<◌, ◌≤◌, nat_lt, ℕ, ℤ, List, [], ◌∷◌, true, false, cond, Option, None, IfOk, is_some, length, map, vec_capacity};
ghost use Rattle.dp_model.specs.Dp.{Dp};
ghost use Rattle.dp_model.specs.Lists.{Each};
ghost use Rattle.dp_model.specs.Prefixes.{IsPrefix, state_of, value_of};
ghost use Rattle.dp_model.specs.Reached.{reached};
ghost use Rattle.dp_model.specs.Subproblem.{IsOwn};
ghost use Rattle.dp_laws.specs.Restricted.Beams.{beam, wide};
ghost use Rattle.dp_laws.specs.Rules.Compiling.{expand, prune, keep_first, merge_rest, start_layer};
ghost use Rattle.dp_laws.specs.Rules.Pruning.{is_struck};
ghost use Rattle.layer_nodes.specs.Sifting.{expand_sifted};
ghost use Rattle.layer_nodes.specs.Striking.{drop_dominated};
ghost use Rattle.layer_candidates.specs.Beaming.{IsFirst};
ghost use Rattle.layer_build.specs.Layers.{IsWidth, IsPreparedFor, last_depth, last_layer, expand_last, on_last_two, reduced_first};
ghost use Rattle.layer_build.specs.Space.{IsSpacePrepared};
ghost use Rattle.layer_build.specs.UnderWay.{IsUnderWay};
ghost use Rattle.layer_build.specs.Within.{expanded_as, within_width, MayMerge};

use crate::preparing::{choices_of, prepare_stack, room_for};
use crate::stack::{Making, Stack, drop_above, expand_newest, place_above, place_of};
use crate::width::greatest_width;
use dp_model::{DpModel, MOST_CHOICES, OutOfMemory, Sub};
use layer_candidates::{Beam, Beamed, Limits, Start};
use layer_nodes::{Expansion, Redirects, Strikes, drop_dominated, keep_first, merge_rest, strike};
use std::alloc::Global;
use std::marker::Model;

/// Why a workspace was not prepared.
#[derive(Clone, Copy, Debug, PartialEq, Eq)]
pub enum PrepareError {
    /// The width is 0, or above the greatest one.
    Width,
    /// There is no memory for it.
    OutOfMemory,
}

/// The memory in which diagrams are compiled, layer by layer. After `prepare` no call takes memory.
#[derive(Debug, Drop)]
pub struct Workspace {
    pub(crate) words: usize,
    pub(crate) width: usize,
    pub(crate) choices: Vec<u32>,
    pub(crate) prefix: Vec<u32>,
    pub(crate) stack: Stack,
    pub(crate) first_reduced: Option<usize>,
    pub(crate) held: usize,
    pub(crate) expansion: Expansion,
    pub(crate) redirects: Redirects,
    pub(crate) beam: Beam,
    pub(crate) path: Vec<u32>,
}

impl Model for Workspace {
    ghost use Rattle.std.specs.Prelude.{map, vec_capacity};
    ghost use Rattle.layer_nodes.specs.Nodes.{told_by};
    ghost use Rattle.layer_build.specs.Layers.{SpaceView};
    ghost use Rattle.layer_build.specs.Stacked.{shown_stack, HasSpace};

    ghost Value = { SpaceView };

    ghost view = { λ s. record {
      vars = s.stack.vars;
      words = s.words;
      choices = s.choices.items;
      width = s.width;
      room = s.stack.newest.nodes_room;
      prefix = s.prefix.items;
      layers = shown_stack s.prefix.items s.stack;
      told = map told_by s.stack.newest.nodes;
      first_reduced = s.first_reduced;
      held = s.held;
      path = s.path.items;
    } };

    ghost invariant = { λ s. HasSpace s.words s.width s.held s.choices.items s.prefix.items (vec_capacity s.prefix) s.stack s.expansion s.redirects s.path.items s.beam };
}

impl Workspace {
    /// A workspace for the model and the width, which is at least 1 and at most the greatest one.
    pub fn prepare<M: DpModel>(
        alloc: Global,
        model: &M,
        width: u32,
    ) -> Result<Workspace, PrepareError>
        ensures { IsSpacePrepared (M.meaning (M.numbers model.now)) width result }
    {
        if width == 0 || width > greatest_width(model) {
            return Err(PrepareError::Width);
        }
        match Workspace::make(alloc, model, width as usize) {
            Ok(space) => Ok(space),
            Err(_) => Err(PrepareError::OutOfMemory),
        }
    }

    /// A workspace for a width that fits.
    fn make<M: DpModel>(alloc: Global, model: &M, width: usize) -> Result<Workspace, OutOfMemory>
        requires { IsWidth (M.meaning (M.numbers model.now)) width }
        ensures prepared { IfOk result (λ s. IsPreparedFor (M.meaning (M.numbers model.now)) s) }
        ensures width { IfOk result (λ s. s.width ≡ width) }
    {
        let room = room_for(model, width);
        let vars = model.vars();
        let words = model.words();
        let widest = width.max(MOST_CHOICES);
        let beam = Beam::prepare(alloc, words, room, widest, widest + vars * width)?;
        Ok(Workspace {
            words,
            width,
            choices: choices_of(alloc, model)?,
            prefix: Vec::with_capacity(alloc, vars)?,
            stack: prepare_stack(alloc, model, width, room, widest)?,
            first_reduced: None,
            held: 0,
            expansion: Expansion::prepare(alloc, room, words)?,
            redirects: Redirects::prepare(alloc, room, words)?,
            beam,
            path: vec![in alloc; 0u32; vars]?,
        })
    }

    /// Starts a compilation from a prefix with its own state and value: the first layer has one exact node.
    pub fn begin<M: DpModel>(&mut self, model: &M, sub: &Sub)
        requires prepared { IsPreparedFor (M.meaning (M.numbers model.now)) self.old }
        requires prefix { IsPrefix (M.meaning (M.numbers model.now)) sub.now.subproblem.decisions }
        requires row { sub.now.subproblem.row ≡ state_of (M.meaning (M.numbers model.now)) sub.now.subproblem.decisions }
        requires value { sub.now.subproblem.value ≡ value_of (M.meaning (M.numbers model.now)) sub.now.subproblem.decisions }
        ensures layers { self.new ≡ record self.old {
          prefix = sub.now.subproblem.decisions;
          layers = start_layer (reached (M.meaning (M.numbers model.now)) sub.now.subproblem.decisions) ∷ [];
          told = self.new.told;
          first_reduced = None;
          held = length sub.now.subproblem.decisions;
        } }
        ensures under_way { IsUnderWay (M.meaning (M.numbers model.now)) self.new }
    {
        let first = sub.decisions.len();
        let rank = model.rank(first, sub.row.as_slice());
        let hash = model.hash(first, sub.row.as_slice());
        write_all(&mut self.prefix, sub.decisions.as_slice());
        let stack = &mut self.stack;
        stack.first = first;
        stack.last = first;
        stack.region.clear();
        stack.newest.start(&mut stack.region, sub.row.as_slice(), sub.value, rank, hash);
        self.first_reduced = None;
        self.held = first;
    }

    /// Expands the last layer into the next one. Answers whether that was merged.
    fn expand_by<M: DpModel>(&mut self, model: &M, making: Making) -> bool
        requires under_way { IsUnderWay (M.meaning (M.numbers model.now)) self.old }
        requires below { last_depth self.old < (M.meaning (M.numbers model.now)).vars }
        requires narrow { length self.old.prefix + 2 ≤ last_depth self.old → length (last_layer self.old.layers) ≤ self.old.width }
        ensures layers { self.new ≡ record self.old {
          layers = expand_last (expanded_as making result (M.meaning (M.numbers model.now)) self.old.width (last_depth self.old)) self.old.layers;
          told = self.new.told;
        } }
        ensures merged { result ≡ true → MayMerge making (M.meaning (M.numbers model.now)) self.old.width (last_depth self.old) (last_layer self.old.layers) }
        ensures under_way { IsUnderWay (M.meaning (M.numbers model.now)) self.new }
    {
        let at = place_of(self.stack.vars, self.stack.first, self.stack.last);
        let merged = expand_newest(
            model,
            self.stack.last,
            making,
            self.width,
            &mut self.stack.region,
            &mut self.stack.layers[at],
            &mut self.stack.newest,
            &mut self.expansion,
            &mut self.redirects,
        );
        self.stack.last += 1;
        merged
    }

    /// Extends each node of the last layer by each allowed decision. Of each state the best child, in the reduction order, is a
    /// node of the new last layer, exact where all arcs to its state come from exact nodes.
    pub fn expand_layer<M: DpModel>(&mut self, model: &M)
        requires under_way { IsUnderWay (M.meaning (M.numbers model.now)) self.old }
        requires below { last_depth self.old < (M.meaning (M.numbers model.now)).vars }
        requires narrow { length self.old.prefix + 2 ≤ last_depth self.old → length (last_layer self.old.layers) ≤ self.old.width }
        ensures layers { self.new ≡ record self.old {
          layers = expand_last (expand (M.meaning (M.numbers model.now)) (last_depth self.old)) self.old.layers;
          told = self.new.told;
        } }
        ensures under_way { IsUnderWay (M.meaning (M.numbers model.now)) self.new }
    {
        self.expand_by(model, Making::By(Strikes::Nothing));
    }

    /// Expands the last layer as `expand_layer` does, but of the new last layer those nodes are left out that are struck by their
    /// rough bound; the arcs to them have no target. They are neither put in order nor made, and `strike` finds them no more.
    fn expand_sifted<M: DpModel>(&mut self, model: &M, threshold: Option<i64>)
        requires under_way { IsUnderWay (M.meaning (M.numbers model.now)) self.old }
        requires below { last_depth self.old < (M.meaning (M.numbers model.now)).vars }
        requires narrow { length self.old.prefix + 2 ≤ last_depth self.old → length (last_layer self.old.layers) ≤ self.old.width }
        ensures layers { self.new ≡ record self.old {
          layers = expand_last (expand_sifted (M.meaning (M.numbers model.now)) (last_depth self.old) threshold) self.old.layers;
          told = self.new.told;
        } }
        ensures under_way { IsUnderWay (M.meaning (M.numbers model.now)) self.new }
    {
        self.expand_by(model, Making::By(Strikes::AtMost(threshold)));
    }

    /// Takes out the nodes of the last layer that are struck by their rough bound, or that one of the first `MOST_LEADERS` exact
    /// ones that stay dominates; the arcs into it follow.
    pub fn strike<M: DpModel>(&mut self, model: &M, threshold: Option<i64>)
        requires under_way { IsUnderWay (M.meaning (M.numbers model.now)) self.old }
        ensures layers { self.new ≡ record self.old {
          layers = on_last_two (prune (M.meaning (M.numbers model.now)) (last_depth self.old) threshold) self.old.layers;
          told = self.new.told;
        } }
        ensures under_way { IsUnderWay (M.meaning (M.numbers model.now)) self.new }
    {
        let at = place_above(self.stack.vars, self.stack.first, self.stack.last);
        strike(
            model,
            self.stack.last,
            threshold,
            &mut self.stack.region,
            &mut self.stack.layers[at],
            &mut self.stack.newest,
            &mut self.redirects,
        );
    }

    /// Takes out the nodes of the last layer that one of the first `MOST_LEADERS` exact ones that stay dominates; the arcs into it
    /// follow. No node is struck.
    fn drop_dominated<M: DpModel>(&mut self, model: &M)
        requires under_way { IsUnderWay (M.meaning (M.numbers model.now)) self.old }
        ensures layers { self.new ≡ record self.old {
          layers = on_last_two (drop_dominated (M.meaning (M.numbers model.now)) (last_depth self.old)) self.old.layers;
          told = self.new.told;
        } }
        ensures under_way { (t : Option ℤ) → Each (λ node. is_struck (M.meaning (M.numbers model.now)) (last_depth self.old) t node ≡ false) (last_layer self.old.layers) → IsUnderWay (M.meaning (M.numbers model.now)) self.new }
    {
        let at = place_above(self.stack.vars, self.stack.first, self.stack.last);
        drop_dominated(
            model,
            self.stack.last,
            &mut self.stack.region,
            &mut self.stack.layers[at],
            &mut self.stack.newest,
            &mut self.redirects,
        );
    }

    /// Expands the last layer into the next one and takes out of that what `strike` does: it makes the layers that `expand_layer`
    /// and `strike` make, but a rough bound is asked once, and no struck node is put in order.
    pub fn expand_pruned<M: DpModel>(&mut self, model: &M, threshold: Option<i64>)
        requires under_way { IsUnderWay (M.meaning (M.numbers model.now)) self.old }
        requires below { last_depth self.old < (M.meaning (M.numbers model.now)).vars }
        requires narrow { length self.old.prefix + 2 ≤ last_depth self.old → length (last_layer self.old.layers) ≤ self.old.width }
        ensures layers { self.new ≡ record self.old {
          layers = expand_last (λ layer. prune (M.meaning (M.numbers model.now)) (last_depth self.old + 1) threshold (expand (M.meaning (M.numbers model.now)) (last_depth self.old) layer)) self.old.layers;
          told = self.new.told;
        } }
        ensures under_way { IsUnderWay (M.meaning (M.numbers model.now)) self.new }
    {
        self.expand_sifted(model, threshold);
        self.drop_dominated(model);
    }

    /// Keeps the first nodes of the last layer, as many as the width; the arcs into it follow.
    pub fn keep_first(&mut self)
        requires under_way { (dp : Dp) × IsUnderWay dp self.old }
        requires wide { self.old.width < length (last_layer self.old.layers) }
        ensures layers { self.new ≡ record self.old {
          layers = on_last_two (keep_first self.old.width) self.old.layers;
          told = self.new.told;
          first_reduced = reduced_first self.old.first_reduced (last_depth self.old);
        } }
        ensures under_way { (dp : Dp) → IsUnderWay dp self.old → IsUnderWay dp self.new }
    {
        let at = place_above(self.stack.vars, self.stack.first, self.stack.last);
        keep_first(
            self.width,
            &mut self.stack.region,
            &mut self.stack.layers[at],
            &mut self.stack.newest,
        );
        self.first_reduced = reduced_first(self.first_reduced, self.stack.last);
    }

    /// Merges the nodes of the last layer, but for the first ones, one less than the width, into one that stands last; the arcs
    /// into it follow, lengthened by the gaps.
    pub fn merge_rest<M: DpModel>(&mut self, model: &M)
        requires under_way { IsUnderWay (M.meaning (M.numbers model.now)) self.old }
        requires wide { self.old.width < length (last_layer self.old.layers) }
        ensures layers { self.new ≡ record self.old {
          layers = on_last_two (merge_rest (M.meaning (M.numbers model.now)) (last_depth self.old) self.old.width) self.old.layers;
          told = self.new.told;
          first_reduced = reduced_first self.old.first_reduced (last_depth self.old);
        } }
        ensures under_way { IsUnderWay (M.meaning (M.numbers model.now)) self.new }
    {
        let at = place_above(self.stack.vars, self.stack.first, self.stack.last);
        merge_rest(
            model,
            self.stack.last,
            self.width,
            &mut self.stack.region,
            &mut self.stack.layers[at],
            &mut self.stack.newest,
            &mut self.redirects,
        );
        self.first_reduced = reduced_first(self.first_reduced, self.stack.last);
    }

    /// Merges the last nodes of the last layer where it is wider than the width.
    fn merge_wide<M: DpModel>(&mut self, model: &M)
        requires { IsUnderWay (M.meaning (M.numbers model.now)) self.old }
        ensures layers { self.new ≡ record self.old {
          layers = on_last_two (within_width (M.meaning (M.numbers model.now)) self.old.width (last_depth self.old)) self.old.layers;
          told = self.new.told;
          first_reduced = cond (nat_lt self.old.width (length (last_layer self.old.layers))) (reduced_first self.old.first_reduced (last_depth self.old)) self.old.first_reduced;
        } }
        ensures under_way { IsUnderWay (M.meaning (M.numbers model.now)) self.new }
    {
        if self.width < self.stack.newest.len() {
            self.merge_rest(model);
        }
    }

    /// The last layer counts as a reduced one.
    fn count_reduced(&mut self)
        ensures seen { self.new ≡ record self.old { first_reduced = reduced_first self.old.first_reduced (last_depth self.old) } }
        ensures under_way { (dp : Dp) → IsUnderWay dp self.old → IsUnderWay dp self.new }
    {
        self.first_reduced = reduced_first(self.first_reduced, self.stack.last);
    }

    /// Expands the last layer as `expand_pruned` does, and merges the new one as `merge_rest` does where it has more nodes than the
    /// width. Where it can, it does so before the nodes that are merged are put in order.
    pub fn expand_within<M: DpModel>(&mut self, model: &M, threshold: Option<i64>)
        requires under_way { IsUnderWay (M.meaning (M.numbers model.now)) self.old }
        requires below { last_depth self.old < (M.meaning (M.numbers model.now)).vars }
        requires narrow { length self.old.prefix + 2 ≤ last_depth self.old → length (last_layer self.old.layers) ≤ self.old.width }
        ensures layers { self.new ≡ record self.old {
          layers = expand_last (λ layer. within_width (M.meaning (M.numbers model.now)) self.old.width (last_depth self.old + 1) (prune (M.meaning (M.numbers model.now)) (last_depth self.old + 1) threshold (expand (M.meaning (M.numbers model.now)) (last_depth self.old) layer))) self.old.layers;
          told = self.new.told;
          first_reduced = cond (nat_lt self.old.width (length (prune (M.meaning (M.numbers model.now)) (last_depth self.old + 1) threshold (expand (M.meaning (M.numbers model.now)) (last_depth self.old) (last_layer self.old.layers))).next)) (reduced_first self.old.first_reduced (last_depth self.old + 1)) self.old.first_reduced;
        } }
        ensures under_way { IsUnderWay (M.meaning (M.numbers model.now)) self.new }
    {
        if self.expand_by(model, Making::Within(threshold)) {
            self.count_reduced();
            return;
        }
        self.drop_dominated(model);
        self.merge_wide(model);
    }

    /// The rows above the last layer are held no longer.
    pub fn drop_above(&mut self)
        ensures seen { self.new ≡ record self.old { held = last_depth self.old } }
        ensures under_way { (dp : Dp) → IsUnderWay dp self.old → IsUnderWay dp self.new }
    {
        drop_above(&mut self.stack, self.held);
        self.held = self.stack.last;
    }

    /// The beam below a prefix with its own state and value: its value, or none where there is none, and whether the width took
    /// something from a layer. `decisions` has its decisions then. The layers stay as they are.
    pub fn beam<M: DpModel>(&mut self, model: &M, sub: &Sub, threshold: Option<i64>) -> Beamed
        requires prepared { IsPreparedFor (M.meaning (M.numbers model.now)) self.old }
        requires own { IsOwn (M.meaning (M.numbers model.now)) sub.now.subproblem }
        ensures seen { self.new ≡ record self.old { path = self.new.path } }
        ensures prepared { IsPreparedFor (M.meaning (M.numbers model.now)) self.new }
        ensures width { self.new.width ≡ self.old.width }
        ensures beam { IsFirst (beam (M.meaning (M.numbers model.now)) sub.now.subproblem.decisions self.old.width threshold) result.value self.new.path }
        ensures reduced { result.reduced ≡ is_some (wide (M.meaning (M.numbers model.now)) sub.now.subproblem.decisions self.old.width threshold) }
    {
        let start = Start {
            prefix: sub.decisions.as_slice(),
            row: sub.row.as_slice(),
            value: sub.value,
        };
        let limits = Limits {
            width: self.width,
            threshold,
        };
        self.beam.beam(
            &mut self.stack.region,
            model,
            start,
            limits,
            self.path.as_mut_slice(),
        )
    }

    /// The decisions of the last beam, until `first_exact` writes others over them.
    pub fn decisions(&self) -> &[u32]
        ensures { result.now ≡ self.now.path }
    {
        self.path.as_slice()
    }
}

/// Becomes these decisions, in its own memory.
fn write_all(to: &mut Vec<u32>, decisions: &[u32])
    requires { length decisions.now ≤ vec_capacity to.old }
    ensures items { to.new.items ≡ decisions.now }
    ensures room { vec_capacity to.old ≤ vec_capacity to.new }
{
    to.clear();
    let _ = to.extend_from_slice(decisions);
}

/// The least depth that was reduced, once the one at `depth` is.
fn reduced_first(first: Option<usize>, depth: usize) -> Option<usize>
    ensures { result ≡ reduced_first first depth }
{
    match first {
        Some(first) => Some(first),
        None => Some(depth),
    }
}
