//! How many words of a limit a diagram leaves.

ghost use Rattle.std.specs.Prelude.{◌≡◌, ◌+◌, ◌≤◌, IsSome, length, map, option_map};
ghost use Rattle.dp_laws.specs.Diagrams.Nodes.{node_at};
ghost use Rattle.relaxed_dd.specs.Shown.{layers_of, layer_in, last_of};
ghost use Rattle.cover_pages.specs.Pages.{CanKeep};
ghost use Rattle.cover_pages.specs.Sizes.{Leaves, LeavesAt, layer_words, words_of};

use relaxed_dd::Diagram;

/// The words that a node counts for beside its row.
const NODE_WORDS: u128 = 2;

/// The words that an arc counts for.
const ARC_WORDS: u128 = 2;

/// What a node leaves.
fn node_leaves(words: usize, diagram: &Diagram, depth: usize, node: usize, left: u64) -> Option<u64>
    requires first { (layers_of diagram.now).first ≤ depth }
    requires place { IsSome (node_at (layers_of diagram.now) depth node) }
    ensures { LeavesAt words left (node_at (layers_of diagram.now) depth node) result }
{
    let size = words as u128 + NODE_WORDS + ARC_WORDS * diagram.arcs(depth, node) as u128;
    if size > left as u128 {
        return None;
    }
    Some(left - size as u64)
}

/// What a layer leaves.
fn layer_leaves(words: usize, diagram: &Diagram, depth: usize, left: u64) -> Option<u64>
    requires first { (layers_of diagram.now).first ≤ depth }
    requires last { depth ≤ last_of (layers_of diagram.now) }
    ensures { Leaves left (layer_words words (layer_in (layers_of diagram.now) depth)) result }
{
    let mut rest = left;
    'nodes: for node in 0..diagram.nodes(depth) {
        rest = node_leaves(words, diagram, depth, node, rest)?;
    }
    Some(rest)
}

/// What a diagram whose rows have this many cells leaves of this many words; none exactly where these are too few.
pub(crate) fn diagram_leaves(words: usize, diagram: &Diagram, left: u64) -> Option<u64>
    requires { CanKeep words (layers_of diagram.now) }
    ensures { Leaves left (words_of words (layers_of diagram.now).layers) result }
{
    let first = diagram.first_depth();
    let count = diagram.last_depth() - first + 1;
    let mut rest = left;
    'layers: for i in 0..count {
        rest = layer_leaves(words, diagram, first + i, rest)?;
    }
    Some(rest)
}
