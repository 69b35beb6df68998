//! Parts of an instance.

ghost use Rattle.std.specs.Prelude.{◌≡◌, IfOk};
ghost use Rattle.std.specs.Arc.{arc_value};
ghost use Rattle.parts.specs.Part.{part_numbers};
ghost use Rattle.problem_names.specs.Parts.{IsPart};

use dp_model::{DpModel, OutOfMemory};
use parts::Part;
use problem_names::PartNumber;
use std::alloc::Global;
use std::sync::Arc;

/// The instance, and the part of it that is meant. Fails only for want of memory.
pub fn part_of<M: DpModel>(
    alloc: Global,
    model: M,
    number: PartNumber,
) -> Result<(Arc<M>, Part<M>), OutOfMemory>
    requires { IsPart number }
    ensures whole { IfOk result (λ r. arc_value r.0 ≡ model) }
    ensures part { IfOk result (λ r. part_numbers r.1.index r.1.of (M.numbers (arc_value r.1.model)) ≡ part_numbers number.index number.of (M.numbers model)) }
{
    let whole = Arc::new(alloc, model)?;
    let part = Part::new(alloc, Arc::try_clone(&whole)?, number.index, number.of)?;
    Ok((whole, part))
}
