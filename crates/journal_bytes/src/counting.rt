ghost use Rattle.std.specs.Prelude.{◌≡◌, ◌≤◌, ◌+◌, ◌*◌, ◌^◌, ℕ, length, map, option_map, sum_by, IfSome, IfNone};
ghost use Rattle.journal_bytes.specs.Sizes.{IsCount};
ghost use Rattle.journal_bytes.specs.Spelling.{best_size, child_size, listed_size, record_size};
ghost use Rattle.journal_bytes.specs.Views.{child_view, incumbent_view, listed_view, record_view};

use crate::record::{Child, Incumbent, Listed, Record};

/// The sum of two counts.
fn plus(count: Option<u64>, more: Option<u64>) -> Option<u64>
    ensures { (x y : ℕ) → IsCount x count → IsCount y more → IsCount (x + y) result }
{
    count?.checked_add(more?)
}

/// The bytes of decisions after fields of a fixed size.
fn with_decisions(fixed: u64, decisions: &[u32]) -> Option<u64>
    ensures { IsCount (fixed + 4 * length decisions.now) result }
{
    (decisions.len() as u64).checked_mul(4)?.checked_add(fixed)
}

/// The bytes of children in a record's body.
fn children_size(children: &[Child]) -> Option<u64>
    ensures { IsCount (sum_by child_size (map child_view children.now)) result }
{
    let mut size = Some(0);
    for child in children {
        size = plus(size, with_decisions(20, &child.decisions));
    }
    size
}

/// The bytes of the subproblems in a snapshot's body.
fn listed_size(listed: &[Listed]) -> Option<u64>
    ensures { IsCount (sum_by listed_size (map listed_view listed.now)) result }
{
    let mut size = Some(0);
    for one in listed {
        size = plus(size, with_decisions(20, &one.decisions));
    }
    size
}

/// The bytes of the best solution in a snapshot's body.
fn best_size(incumbent: &Option<Incumbent>) -> Option<u64>
    ensures { IsCount (best_size (option_map incumbent_view incumbent.now)) result }
{
    match incumbent {
        Some(best) => with_decisions(13, &best.decisions),
        None => Some(1),
    }
}

/// The bytes of a finished subproblem's body.
fn finish_size(children: &[Child]) -> Option<u64>
    ensures { IsCount (12 + sum_by child_size (map child_view children.now)) result }
{
    plus(Some(12), children_size(children))
}

/// The bytes of a snapshot's body.
fn snapshot_size(incumbent: &Option<Incumbent>, listed: &[Listed]) -> Option<u64>
    ensures { IsCount (best_size (option_map incumbent_view incumbent.now) + (12 + sum_by listed_size (map listed_view listed.now))) result }
{
    plus(best_size(incumbent), plus(Some(12), listed_size(listed)))
}

/// How many bytes the body of a record has, or `None` where they are `2^64` or more.
pub fn body_size(entry: &Record) -> Option<u64>
    ensures counted { IfSome result (λ size. size ≡ record_size (record_view entry.now)) }
    ensures too_many { IfNone result (2 ^ 64 ≤ record_size (record_view entry.now)) }
{
    match entry {
        Record::Improve { decisions, .. } => with_decisions(12, decisions),
        Record::Finish { children, .. } => finish_size(children),
        Record::Snapshot {
            incumbent,
            listed,
            ..
        } => snapshot_size(incumbent, listed),
    }
}
