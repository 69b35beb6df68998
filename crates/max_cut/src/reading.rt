//! The text of an instance, read.

ghost use Rattle.std.specs.Prelude.{◌^◌, ◌<◌, ◌-◌, length};
ghost use Rattle.tokens.specs.Grammar.{Reads};
ghost use Rattle.max_cut.specs.Edges.{instance_text};
ghost use Rattle.max_cut.specs.Shown.{instance_in};

use crate::edges::read_totals;
use crate::instance::MaxCut;
use std::alloc::Global;
use tokens::{Comment, ReadModelError, Tokens};

const MOST_VERTICES: i64 = 1024;

const MOST_EDGES: i64 = 1_048_576;

/// Reads an instance: the number of vertices and the number of edges, then for each edge two vertices,
/// from 1, and a weight. The weights of edges on one pair add up, and a loop counts nothing.
///
/// Numbers outside their range are `OutOfRange`: 0 to 1,024 vertices, 0 to `2^20` edges, weights of at most
/// 500,000,000 in size. A number that is no vertex is `Vertex`. `Limit` comes at the weight after which
/// the total of a pair exceeds 500,000,000 in size. The first fault is answered, with its place.
#[tactic(auto, unfolding(crate::specs::Edges::instance_at), using(tokens::proofs::Chains::part_fails))]
pub fn read(alloc: Global, bytes: &[u8]) -> Result<MaxCut, ReadModelError>
    requires { length bytes.now < 2 ^ 32 - 1 }
    ensures { Reads instance_in result (instance_text bytes.now) }
{
    let mut tokens = Tokens::new(bytes, Comment::Never);
    let vertices = tokens.next_number(0, MOST_VERTICES)? as usize;
    let edges = tokens.next_number(0, MOST_EDGES)? as usize;
    let weights = read_totals(alloc, &mut tokens, vertices, edges)?;
    tokens.finish()?;
    Ok(MaxCut { vertices, weights })
}
