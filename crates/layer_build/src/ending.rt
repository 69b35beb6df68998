//! The suffixes of a layer are set from those of the one below it.

ghost use Rattle.std.specs.Prelude.{◌≡◌, ◌≢◌, ◌+◌, ◌<◌, ◌≤◌, length, map, set, slice_index_or};
ghost use Rattle.dp_model.specs.Lists.{Each};
ghost use Rattle.layer_nodes.specs.Ending.{MayAdd, MayLead, ended_layer};
ghost use Rattle.layer_build.specs.Ended.{HasSuffixesAt};
ghost use Rattle.layer_build.specs.Stacked.{no_layer, nodes_in, HasAllDepths};

use crate::stack::{Stack, place_of};
use layer_nodes::{Layer, set_last_suffixes, set_suffixes};

/// Sets the suffixes of the layer at a place, which is above the one at another place.
fn end_at(layers: &mut [Layer], at: usize, below: usize)
    requires at { at < length layers.old }
    requires below { below < length layers.old }
    requires apart { at ≢ below }
    requires arcs { Each (λ node. Each MayAdd node.arcs) (slice_index_or layers.old at no_layer).nodes }
    requires leads { Each (λ node. Each (λ arc. MayLead (map (λ other. other.suffix) (slice_index_or layers.old below no_layer).nodes) arc.target) node.arcs) (slice_index_or layers.old at no_layer).nodes }
    ensures { layers.new ≡ set layers.old at (ended_layer (map (λ other. other.suffix) (slice_index_or layers.old below no_layer).nodes) (slice_index_or layers.old at no_layer)) }
{
    if at < below {
        let (front, following) = layers.split_at_mut(below);
        set_suffixes(&mut front[at], &following[0]);
    } else {
        let (front, following) = layers.split_at_mut(at);
        set_suffixes(&mut following[0], &front[below]);
    }
}

/// Sets the suffixes of the layer at the depth.
pub(crate) fn end_layer(stack: &mut Stack, depth: usize)
    requires last { depth ≤ stack.old.last }
    requires stored { HasAllDepths stack.old }
    requires first { stack.old.first ≤ 1024 }
    requires arcs { depth < stack.old.last → Each (λ node. Each MayAdd node.arcs) (nodes_in stack.old depth) }
    requires leads { depth < stack.old.last → Each (λ node. Each (λ arc. MayLead (map (λ other. other.suffix) (nodes_in stack.old (depth + 1))) arc.target) node.arcs) (nodes_in stack.old depth) }
    ensures { HasSuffixesAt depth stack.old stack.new }
{
    if depth == stack.last {
        set_last_suffixes(&mut stack.newest);
        return;
    }
    let at = place_of(stack.vars, stack.first, depth);
    if depth + 1 == stack.last {
        set_suffixes(&mut stack.layers[at], &stack.newest);
        return;
    }
    let below = place_of(stack.vars, stack.first, depth + 1);
    end_at(stack.layers.as_mut_slice(), at, below);
}
