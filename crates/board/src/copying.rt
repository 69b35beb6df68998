//! How the decisions of a solution are kept.

ghost use Rattle.std.specs.Prelude.{◌≡◌, ◌≤◌, length, vec_capacity};

/// Writes the decisions over those of the last solution. It takes no memory.
pub fn copy_decisions(best: &mut Vec<u32>, decisions: &[u32])
    requires { length decisions.now ≤ vec_capacity best.old }
    ensures copied { best.new.items ≡ decisions.now }
    ensures capacity { vec_capacity best.old ≤ vec_capacity best.new }
{
    best.clear();
    let _ = best.extend_from_slice(decisions);
}
