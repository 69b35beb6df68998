//! What the search of a part tells.

ghost use Rattle.std.specs.Prelude.{◌≡◌};
ghost use Rattle.answers.specs.Kept.{searched_part};
ghost use Rattle.answers.specs.PartSearches.{part_outcome};

use journal_bytes::Part;
use solver_report::{Outcome, PartOutcome, SearchedPart};

/// What a search within the distance tells of a part, by how it ended.
pub fn part_outcome(outcome: Outcome, within: i64) -> PartOutcome
    ensures { result ≡ part_outcome within outcome }
{
    match outcome {
        Outcome::Proved { best, within } => PartOutcome::Settled {
            best: Some(best),
            within,
        },
        Outcome::Infeasible => PartOutcome::Settled { best: None, within },
        Outcome::Stopped(stop, best, bound) => PartOutcome::Stopped(stop, best, bound),
    }
}

/// The part of a journal, as an answer tells it.
pub fn searched_part(part: Part) -> SearchedPart
    ensures { result ≡ searched_part part }
{
    let digest = part.digest;
    SearchedPart {
        index: part.index,
        of: part.of,
        digest,
    }
}
