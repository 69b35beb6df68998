ghost use Rattle.std.specs.Prelude.{◌≡◌};
ghost use Rattle.journal_bytes.specs.Base.{is_snapshot};
ghost use Rattle.journal_bytes.specs.Journal.{since_after};
ghost use Rattle.journal_bytes.specs.Spelling.{record_kind};
ghost use Rattle.journal_bytes.specs.Views.{record_view};

/// The kind of an improvement.
pub(crate) const IMPROVE_KIND: u8 = 2;

/// The kind of a finished subproblem.
pub(crate) const FINISH_KIND: u8 = 3;

/// The kind of a snapshot.
pub(crate) const SNAPSHOT_KIND: u8 = 4;

/// A child of a finished subproblem that entered the fringe or replaced another.
#[derive(Debug, Drop)]
pub struct Child {
    /// The ticket of the one that it replaced, less than `u64::MAX`.
    pub replaced: Option<u64>,
    pub bound: i64,
    /// The decisions of the whole prefix.
    pub decisions: Vec<u32>,
}

/// The best solution that a snapshot has.
#[derive(Debug, Drop)]
pub struct Incumbent {
    pub value: i64,
    pub decisions: Vec<u32>,
}

/// A subproblem that a snapshot lists: an open one, or one that a worker has out.
#[derive(Debug, Drop)]
pub struct Listed {
    pub ticket: u64,
    pub bound: i64,
    /// The decisions of the whole prefix.
    pub decisions: Vec<u32>,
}

/// A step of a search, or all that goes on from there.
#[derive(Debug, Drop)]
pub enum Record {
    /// A better feasible solution.
    Improve {
        value: i64,
        decisions: Vec<u32>,
    },
    /// A subproblem that was taken out, and its children in order.
    Finish {
        ticket: u64,
        children: Vec<Child>,
    },
    /// The best solution or none, the next ticket, and all subproblems that are open or out, in order of ticket.
    Snapshot {
        incumbent: Option<Incumbent>,
        next_ticket: u64,
        listed: Vec<Listed>,
    },
}

impl Record {
    /// The byte that tells which record it is.
    pub fn kind(&self) -> u8
        ensures { result ≡ record_kind (record_view self.now) }
    {
        match self {
            Record::Improve { .. } => IMPROVE_KIND,
            Record::Finish { .. } => FINISH_KIND,
            Record::Snapshot { .. } => SNAPSHOT_KIND,
        }
    }

    /// Whether it is a snapshot.
    pub fn is_snapshot(&self) -> bool
        ensures { result ≡ is_snapshot (record_view self.now) }
    {
        matches!(self, Record::Snapshot { .. })
    }

    /// How many Finish records stand after the last Snapshot once this record is added, where there were `since` before. The
    /// count stops at `u64::MAX`.
    pub fn since_after(&self, since: u64) -> u64
        ensures { result ≡ since_after since (record_view self.now) }
    {
        match self {
            Record::Improve { .. } => since,
            Record::Finish { .. } => since.saturating_add(1),
            Record::Snapshot { .. } => 0,
        }
    }
}
