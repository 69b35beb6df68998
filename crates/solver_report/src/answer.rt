ghost use Rattle.std.specs.Prelude.{◌≡◌, IfOk};
ghost use Rattle.solver_report.specs.Report.{is_final, value_told, distance_told};

use bound_cover::{Verdict, Why};
use dp_model::{Found, OutOfMemory};
use journal_file::JournalError;
use problem_theory::InstanceRefusal;
use solver_words::WordsError;
use std::alloc::Global;
use std::marker::Model;
use tokens::InstanceError;

/// A feasible solution with its value.
#[derive(Debug, Drop)]
pub struct Solution {
    value: i64,
    decisions: Vec<u32>,
}

impl Model for Solution {
    ghost use Rattle.dp_model.specs.Solution.{Solution};

    ghost Value = { Solution };

    ghost view = { λ s. record { decisions = s.decisions.items; value = s.value } };
}

impl Solution {
    /// A copy of what was found. Fails only for want of memory.
    pub fn copy_of(alloc: Global, found: Found<'_>) -> Result<Solution, OutOfMemory>
        ensures { IfOk result (λ s. s ≡ record { decisions = found.entry.decisions.now; value = found.entry.value }) }
    {
        let decisions = Vec::from_slice(alloc, found.decisions)?;
        Ok(Solution {
            value: found.value,
            decisions,
        })
    }

    /// The value of the solution.
    pub fn value(&self) -> i64
        ensures { result ≡ self.now.value }
    {
        self.value
    }

    /// The decisions of the solution, one for each variable.
    pub fn decisions(&self) -> &[u32]
        ensures { result.now ≡ self.now.decisions }
    {
        self.decisions.as_slice()
    }
}

/// Why a search ended while something was open.
#[derive(Clone, Copy, Debug, PartialEq, Eq)]
pub enum Stop {
    /// The budget is used up.
    Budget,
    /// Memory ran out.
    Memory,
    /// A record could not be added to the journal.
    Journal,
}

/// How a search ended.
#[derive(Debug, Drop)]
pub enum Outcome {
    /// A best solution. If `within` is above 0, the best value is at most this much above its value.
    Proved { best: Solution, within: i64 },
    /// There is no feasible solution.
    Infeasible,
    /// The search ended early: why, its incumbent or none, and a bound that no feasible solution exceeds.
    Stopped(Stop, Option<Solution>, i64),
}

impl Outcome {
    /// Whether the search went to its end.
    pub fn is_final(&self) -> bool
        ensures { result ≡ is_final self.now }
    {
        match self {
            Outcome::Proved { .. } | Outcome::Infeasible => true,
            Outcome::Stopped(_, _, _) => false,
        }
    }

    /// The value of the solution with which a search went to its end. `None` if there is no feasible solution or the search ended early.
    pub fn value(&self) -> Option<i64>
        ensures { result ≡ value_told self.now }
    {
        match self {
            Outcome::Proved { best, .. } => Some(best.value()),
            Outcome::Infeasible | Outcome::Stopped(_, _, _) => None,
        }
    }

    /// How far the best value may be above that value. 0 if the outcome is not `Proved`.
    pub fn distance(&self) -> i64
        ensures { result ≡ distance_told self.now }
    {
        match self {
            Outcome::Proved { within, .. } => *within,
            Outcome::Infeasible | Outcome::Stopped(_, _, _) => 0,
        }
    }
}

/// The counts of a search.
#[derive(Clone, Copy, Debug, PartialEq, Eq)]
pub struct Counts {
    /// How many subproblems were taken.
    pub taken: u64,
    /// How many of them were finished.
    pub finished: u64,
}

/// Why the outputs of the parts of a problem are not joined. `index` is the place of an output, from 0.
#[derive(Clone, Copy, Debug, PartialEq, Eq)]
pub enum JoinRefusal {
    /// The output at this place is not that of the part that belongs there, or is missing, or stands after that of the last part.
    Order { index: u32 },
    /// Its problem or its instance is not that of the first output.
    Instance { index: u32 },
    /// Its cover is refused, for this reason.
    Refused { index: u32, why: Why },
}

/// The part of a stopped search that was searched.
#[derive(Clone, Copy, Debug, PartialEq, Eq)]
pub struct SearchedPart {
    /// The number of the part, from 0.
    pub index: u32,
    /// How many parts there are.
    pub of: u32,
    /// The digest of the last record of the journal that was split.
    pub digest: [u8; 32],
}

/// How the search of a part ended.
#[derive(Debug, Drop)]
pub enum PartOutcome {
    /// The part is settled, with its best solution or none. If `within` is above 0, a better one is at most this much above its value.
    Settled { best: Option<Solution>, within: i64 },
    /// The search ended early: why, its incumbent or none, and a bound that no feasible solution of the part exceeds.
    Stopped(Stop, Option<Solution>, i64),
}

/// Why the reports of the parts of a search are not joined, or their solutions not offered. `index` is the place of a report, from 0.
#[derive(Clone, Copy, Debug, PartialEq, Eq)]
pub enum ReportRefusal {
    /// The report at this place is not that of the part that belongs there, of as many parts as there are reports.
    Order { index: u64 },
    /// It is of a part of another journal.
    Journal { index: u64 },
    /// Its distance is not that of the journal.
    Distance { index: u64 },
    /// Its assignment is no feasible solution with its value.
    Value { index: u64 },
}

/// What the program answers.
#[derive(Debug, Drop)]
pub enum Answer {
    /// How the search ended, and its counts if they are asked for.
    Searched(Outcome, Option<Counts>),
    /// The same for a search that went to its end, with the text of its cover. `None` if there was no memory for the text.
    Covered(Outcome, Option<Counts>, Option<Vec<u8>>),
    /// The SHA-256 of the canonical text.
    Digest([u8; 32]),
    /// The canonical text of a drawn instance.
    Drawn(Vec<u8>),
    /// The verdict on a cover.
    Checked(Verdict),
    /// The input, or the instance in a cover, spells no instance.
    Refused(InstanceRefusal),
    /// The input spells no cover.
    CoverRefused(InstanceError),
    /// The outputs in the input are not joined, for this reason.
    PartsRefused(JoinRefusal),
    /// The bytes of a part of a stopped search.
    PartFile(Vec<u8>),
    /// How the search of a part ended, and its counts if they are asked for.
    PartSearched {
        part: SearchedPart,
        outcome: PartOutcome,
        counts: Option<Counts>,
    },
    /// The input spells no reports of parts.
    ReportRefused(InstanceError),
    /// The reports in the input are not joined, or their solutions not offered, for this reason.
    ReportsRefused(ReportRefusal),
    /// The head or the Snapshot of the part has 2^32 bytes or more, which no record can have.
    PartTooLarge,
    /// The input is longer than the limit.
    TooLong,
    /// The width asked for is 0 or above the greatest width of the instance.
    Width,
    /// The words are refused, or there was no memory for reading them.
    Words(WordsError),
    /// Why no journal is begun, or why the search of a journal does not go on.
    Journal(JournalError),
    /// The input could not be read.
    ReadFault,
    /// Memory ran out before the search or in printing.
    OutOfMemory,
}
