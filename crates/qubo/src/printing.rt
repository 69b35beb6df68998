ghost use Rattle.std.specs.Prelude.{◌≡◌, ◌++◌, ◌≤◌, ◌^◌, length, Ok, IfOk, OnOk};
ghost use Rattle.std.specs.List.{flat_map};
ghost use Rattle.qubo.specs.Printing.{line_text, text_of};
ghost use Rattle.qubo.specs.Reading.{instance_text};
ghost use Rattle.qubo.specs.Shown.{instance_in};

use crate::instance::Qubo;
use crate::line::Line;
use std::alloc::{AllocError, Global};
use tokens::{push_ended, push_spaced};

/// Appends a line.
fn push_line(out: &mut Vec<u8>, line: Line) -> Result<(), AllocError>
    ensures { OnOk result (out.new.items ≡ out.old.items ++ line_text line) }
{
    push_spaced(out, u64::from(line.first) + 1)?;
    push_spaced(out, u64::from(line.second) + 1)?;
    push_ended(out, line.weight)
}

/// Appends lines.
fn push_lines(out: &mut Vec<u8>, lines: &[Line]) -> Result<(), AllocError>
    ensures { OnOk result (out.new.items ≡ out.old.items ++ flat_map line_text lines.now) }
{
    for line in lines {
        push_line(out, *line)?;
    }
    Ok(())
}

/// The canonical text: a line with the number of variables and of lines, then each line in the order of the text, with variables from 1.
/// `read` gives the same instance for it. Fails only for want of memory.
pub fn print(alloc: Global, model: &Qubo) -> Result<Vec<u8>, AllocError>
    ensures text { IfOk result (λ text. text.items ≡ text_of (instance_in model.now)) }
    ensures short { IfOk result (λ text. length text.items ≤ 2 ^ 30) }
    ensures reads_back { IfOk result (λ text. instance_text text.items ≡ Ok (instance_in model.now)) }
{
    let text = printed(alloc, model)?;
    Ok(text)
}

/// Makes the canonical text.
fn printed(alloc: Global, model: &Qubo) -> Result<Vec<u8>, AllocError>
    ensures { IfOk result (λ text. text.items ≡ text_of (instance_in model.now)) }
{
    let mut out = Vec::new(alloc);
    push_spaced(&mut out, model.variables as u64)?;
    push_ended(&mut out, model.lines.len() as i64)?;
    push_lines(&mut out, &model.lines)?;
    Ok(out)
}
