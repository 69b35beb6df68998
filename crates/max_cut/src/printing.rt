//! The canonical text of an instance.

ghost use Rattle.std.specs.Prelude.{◌≡◌, ◌^◌, ◌≤◌, length, IfOk, Ok};
ghost use Rattle.max_cut.specs.Edges.{instance_text};
ghost use Rattle.max_cut.specs.EdgeLines.{text_of};
ghost use Rattle.max_cut.specs.Shown.{instance_in};

use crate::instance::MaxCut;
use crate::lines::{count_edges, push_lines};
use std::alloc::{AllocError, Global};
use tokens::{push_ended, push_spaced};

/// The canonical text, which reads as the instance: the number of vertices and of edges, then a line for
/// each pair `i < j` of weight other than 0, by `i`, then `j`.
pub fn print(alloc: Global, model: &MaxCut) -> Result<Vec<u8>, AllocError>
    ensures text { IfOk result (λ text. text.items ≡ text_of (instance_in model.now)) }
    ensures short { IfOk result (λ text. length text.items ≤ 2 ^ 30) }
    ensures reads_back { IfOk result (λ text. instance_text text.items ≡ Ok (instance_in model.now)) }
{
    let text = printed(alloc, model)?;
    Ok(text)
}

/// Makes the canonical text.
fn printed(alloc: Global, model: &MaxCut) -> Result<Vec<u8>, AllocError>
    ensures { IfOk result (λ text. text.items ≡ text_of (instance_in model.now)) }
{
    let mut out = Vec::new(alloc);
    push_spaced(&mut out, model.vertices as u64)?;
    push_ended(&mut out, count_edges(model.weights.as_slice()) as i64)?;
    push_lines(&mut out, model.vertices, model.weights.as_slice())?;
    Ok(out)
}
