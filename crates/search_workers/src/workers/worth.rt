//! Which snapshots are worth their bytes.

ghost use Rattle.std.specs.Prelude.{◌≡◌};
ghost use Rattle.search_workers.specs.Worth.{is_worth};

use disk::Disk;
use dp_model::DpModel;
use kept_board::Kept;

/// How many subproblems a snapshot lists at most that is written whenever it is due.
pub const ALWAYS_LISTED: usize = 2048;

/// How many subproblems are finished for each one that a longer snapshot lists.
pub const FINISHED_FOR_EACH: u64 = 2;

/// Whether a snapshot that is due is worth its bytes. It lists few subproblems, or at most one for each two that were finished since
/// the last snapshot. So the snapshots of a search have some part of the bytes that its other records have, however many are open.
pub(super) fn is_worth_writing<M: DpModel, D: Disk>(kept: &Kept<M, D>) -> bool
    ensures { result ≡ is_worth kept.now }
{
    let listed = kept.board().live();
    let finished = kept.since().unwrap_or(0);
    listed <= ALWAYS_LISTED || listed as u64 <= finished / FINISHED_FOR_EACH
}
