//! Printing a problem as a text.

ghost use Rattle.std.specs.Prelude.{◌≡◌, ℕ, ◌≤◌, ◌^◌, ◌++◌, length, OnOk, IfOk, Ok, get_or};
ghost use Rattle.tsp_windows.specs.Instance.{no_window};
ghost use Rattle.tsp_windows.specs.Shown.{instance_in};
ghost use Rattle.tsp_windows.specs.Texts.{printed, printed_distances, printed_window, printed_windows, spelled};

use crate::instance::TspWindows;
use crate::window::Window;
use std::alloc::Global;
use tokens::{OutOfMemory, push_number, push_text};

/// Appends distances, a row a line.
fn push_distances(out: &mut Vec<u8>, nodes: usize, distances: &[u32]) -> Result<(), OutOfMemory>
    requires { 1 ≤ nodes }
    ensures { OnOk result (out.new.items ≡ out.old.items ++ printed_distances nodes 0 distances.now) }
{
    'distances: for (place, distance) in distances.iter().enumerate() {
        push_number(out, i64::from(*distance))?;
        push_text(out, if (place + 1) % nodes == 0 { "\n" } else { " " })?;
    }
    Ok(())
}

/// Appends a window and the end of its line.
fn push_window(out: &mut Vec<u8>, window: Window) -> Result<(), OutOfMemory>
    requires opens { window.opening ≤ window.closing }
    requires closes { window.closing ≤ 1000000000000 }
    ensures { OnOk result (out.new.items ≡ out.old.items ++ printed_window window) }
{
    push_number(out, window.opening as i64)?;
    push_text(out, " ")?;
    push_number(out, window.closing as i64)?;
    push_text(out, "\n")?;
    Ok(())
}

/// Appends windows, one a line.
fn push_windows(out: &mut Vec<u8>, windows: &[Window]) -> Result<(), OutOfMemory>
    requires opens { (v : ℕ) → (get_or windows.now v no_window).opening ≤ (get_or windows.now v no_window).closing }
    requires closes { (v : ℕ) → (get_or windows.now v no_window).closing ≤ 1000000000000 }
    ensures { OnOk result (out.new.items ≡ out.old.items ++ printed_windows windows.now) }
{
    'windows: for window in windows {
        push_window(out, *window)?;
    }
    Ok(())
}

/// The canonical text of a problem: the number of nodes, a line of distances for each node with 0 on the diagonal, and a
/// line for each window. `read` reads the same problem from it.
pub fn print(alloc: Global, model: &TspWindows) -> Result<Vec<u8>, OutOfMemory>
    ensures text { IfOk result (λ text. text.items ≡ printed (instance_in model.now)) }
    ensures short { IfOk result (λ text. length text.items ≤ 2 ^ 30) }
    ensures reads_back { IfOk result (λ text. spelled text.items ≡ Ok (instance_in model.now)) }
{
    let text = printed(alloc, model)?;
    Ok(text)
}

/// Makes the canonical text.
fn printed(alloc: Global, model: &TspWindows) -> Result<Vec<u8>, OutOfMemory>
    ensures { IfOk result (λ text. text.items ≡ printed (instance_in model.now)) }
{
    let mut out = Vec::new(alloc);
    push_number(&mut out, model.nodes as i64)?;
    push_text(&mut out, "\n")?;
    push_distances(&mut out, model.nodes, &model.distances)?;
    push_windows(&mut out, &model.windows)?;
    Ok(out)
}
