//! The path of a step, walked back.

ghost use Rattle.std.specs.Prelude.{◌≡◌, ◌≤◌, length};
ghost use Rattle.layer_candidates.specs.Steps.{path_at, AreBackward};

use crate::step::Step;

/// Writes the path of the step after the prefix.
pub fn write_path(steps: &[Step], last: usize, prefix: &[u32], out: &mut [u32])
    requires backward { AreBackward steps.now }
    requires within { last ≤ length steps.now }
    requires size { length out.old ≡ length (path_at prefix.now steps.now last) }
    ensures { out.new ≡ path_at prefix.now steps.now last }
{
    let mut step = last;
    let mut at = out.len();
    'steps: while step > 0 {
        at -= 1;
        let walked = steps[step - 1];
        out[at] = walked.decision;
        step = walked.before as usize;
    }
    out[..at].copy_from_slice(prefix);
}
