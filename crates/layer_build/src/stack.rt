//! The layers of a diagram in memory.

ghost use Rattle.std.specs.Prelude.{◌≡◌, ◌+◌, ◌-◌, ◌*◌, ◌<◌, ◌≤◌, ℕ, true, false, List, [], IsSome, length, map};
ghost use Rattle.dp_model.specs.Lists.{Each};
ghost use Rattle.layer_candidates.specs.HeldRows.{AreLive, HasExchanged};
ghost use Rattle.layer_nodes.specs.Nodes.{shown_layer, shown_below, without_arcs};
ghost use Rattle.layer_nodes.specs.Steps.{IsParent, IsRanked, KeepsRoom};
ghost use Rattle.layer_nodes.specs.Holding.{AreHeld, places_of};
ghost use Rattle.layer_build.specs.Stacked.{layer_in, place_of, place_above, places_above, HasDepth, HasAllDepths};
ghost use Rattle.layer_build.specs.Within.{expanded_as, MayMerge};

use dp_model::DpModel;
use layer_nodes::{Expansion, Layer, Redirects, Strikes, expand, expand_merged};
use row_region::Region;

/// A layer for each depth, then the one just below the first, and an empty one, which stands above the first; and the last
/// layer of all, which is wide before it is reduced. `first` and `last` are the depths of the first and the last one. The rows of
/// all layers stand in the region.
#[derive(Debug, Drop)]
pub(crate) struct Stack {
    pub(crate) vars: usize,
    pub(crate) first: usize,
    pub(crate) last: usize,
    pub(crate) layers: Vec<Layer>,
    pub(crate) newest: Layer,
    pub(crate) region: Region,
}

/// The place of the layer at the depth. The layer just below the first is never reduced, so it has a place of its own.
pub(crate) fn place_of(vars: usize, first: usize, depth: usize) -> usize
    requires { first ≤ 1024 }
    ensures { result ≡ place_of vars first depth }
{
    if depth == first + 1 { vars } else { depth }
}

/// The place of the layer above the last one.
pub(crate) fn place_above(vars: usize, first: usize, last: usize) -> usize
    requires first { first ≤ last }
    requires low { last ≤ 1024 }
    requires few { vars ≤ 1024 }
    ensures { result ≡ place_above vars first last }
{
    if last == first {
        vars + 1
    } else {
        place_of(vars, first, last - 1)
    }
}

/// The layer at the depth.
pub(crate) fn layer_at(stack: &Stack, depth: usize) -> &Layer
    requires { HasDepth stack.now depth }
    ensures { result.now ≡ layer_in stack.now depth }
{
    if depth == stack.last {
        &stack.newest
    } else {
        &stack.layers[place_of(stack.vars, stack.first, depth)]
    }
}

/// The rows of the layers from the depth on that stand above the last one are given back.
pub(crate) fn drop_above(stack: &mut Stack, from: usize)
    requires stored { HasAllDepths stack.old }
    requires first { stack.old.first ≤ from }
    requires live { AreLive stack.old.region (places_above from stack.old) }
    ensures same { stack.new ≡ record stack.old { region = stack.new.region } }
    ensures exchanged { HasExchanged stack.old.region (places_above from stack.old) stack.new.region [] }
{
    'layers: for depth in from..stack.last {
        let at = place_of(stack.vars, stack.first, depth);
        stack.layers[at].drop_rows(&mut stack.region);
    }
}

/// How the next layer is made.
#[derive(Clone, Copy, Debug)]
pub(crate) enum Making {
    /// Without the nodes that are struck.
    By(Strikes),
    /// Without the nodes that the threshold strikes, and merged to the width at once where that is possible.
    Within(Option<i64>),
}

/// The last layer, at depth `k`, is kept at its place above and expanded into the next one. Answers whether that was merged.
pub(crate) fn expand_newest<M: DpModel>(
    model: &M,
    k: usize,
    making: Making,
    width: usize,
    region: &mut Region,
    above: &mut Layer,
    newest: &mut Layer,
    expansion: &mut Expansion,
    redirects: &mut Redirects,
) -> bool
    requires layer { k < (M.meaning (M.numbers model.now)).vars }
    requires above_words { above.old.words ≡ (M.meaning (M.numbers model.now)).words }
    requires next_words { newest.old.words ≡ (M.meaning (M.numbers model.now)).words }
    requires region_words { region.old.words ≡ (M.meaning (M.numbers model.now)).words }
    requires nodes { Each (IsParent (M.meaning (M.numbers model.now)) k) newest.old.nodes }
    requires copy_room { length newest.old.nodes ≤ above.old.nodes_room }
    requires held { AreHeld region.old newest.old.nodes }
    requires spare { length newest.old.nodes * (M.meaning (M.numbers model.now)).choices k + 1 ≤ region.old.spare }
    requires arcs_room { length newest.old.nodes * (M.meaning (M.numbers model.now)).choices k ≤ above.old.arcs_room }
    requires nodes_room { length newest.old.nodes * (M.meaning (M.numbers model.now)).choices k ≤ newest.old.nodes_room }
    requires row_words { expansion.old.words ≡ (M.meaning (M.numbers model.now)).words }
    requires room { length newest.old.nodes * (M.meaning (M.numbers model.now)).choices k ≤ expansion.old.most }
    requires positive { 1 ≤ width }
    requires redirects_words { redirects.old.words ≡ (M.meaning (M.numbers model.now)).words }
    requires redirects_room { length newest.old.nodes * (M.meaning (M.numbers model.now)).choices k ≤ redirects.old.most }
    ensures above { (paths : ℕ → List ℕ) → shown_layer paths above.new.nodes ≡ (expanded_as making result (M.meaning (M.numbers model.now)) width k (shown_layer paths newest.old.nodes)).above }
    ensures next { (paths : ℕ → List ℕ) → shown_below paths newest.new.nodes ≡ (expanded_as making result (M.meaning (M.numbers model.now)) width k (shown_layer paths newest.old.nodes)).next }
    ensures merged { result ≡ true → (paths : ℕ → List ℕ) → MayMerge making (M.meaning (M.numbers model.now)) width k (shown_layer paths newest.old.nodes) }
    ensures ranked { Each (IsRanked (M.meaning (M.numbers model.now)) (k + 1)) newest.new.nodes }
    ensures unmerged { result ≡ false → Each (λ n. IsSome n.parent) newest.new.nodes }
    ensures few { length newest.new.nodes ≤ length newest.old.nodes * (M.meaning (M.numbers model.now)).choices k }
    ensures rest { map without_arcs above.new.nodes ≡ map without_arcs newest.old.nodes }
    ensures places { places_of above.new.nodes ≡ places_of newest.old.nodes }
    ensures above_held { AreHeld region.new above.new.nodes }
    ensures held { AreHeld region.new newest.new.nodes }
    ensures exchanged { HasExchanged region.old [] region.new (places_of newest.new.nodes) }
    ensures above_rooms { KeepsRoom above.old above.new }
    ensures next_rooms { KeepsRoom newest.old newest.new }
    ensures expansion { expansion.new ≡ expansion.old }
    ensures redirects { redirects.new ≡ redirects.old }
{
    above.keep(newest, region);
    match making {
        Making::By(strikes) => {
            expand(model, k, strikes, region, above, newest, expansion);
            false
        }
        Making::Within(threshold) => expand_merged(
            model, k, threshold, width, region, above, newest, expansion, redirects,
        ),
    }
}
