ghost use Rattle.std.specs.Prelude.{◌≡◌, length, map};
ghost use Rattle.journal_bytes.specs.Base.{after_base};
ghost use Rattle.journal_bytes.specs.Views.{record_view};

use crate::Record;
use std::marker::Model;

/// The records of a journal after its head, the oldest first, and the distance of the head.
#[derive(Debug, Drop)]
pub struct Records {
    within: i64,
    first: u64,
    records: Vec<Record>,
}

impl Model for Records {
    ghost use Rattle.std.specs.Prelude.{map};
    ghost use Rattle.journal_bytes.specs.Bodies.{RecordsView};
    ghost use Rattle.journal_bytes.specs.Views.{record_view};

    ghost Value = { RecordsView };

    ghost view = { λ r. record { within = r.within; first = r.first; records = map record_view r.records.items } };
}

/// How many of the records stand after the last snapshot; all of them where there is none.
fn count_after(records: &[Record]) -> usize
    ensures { result ≡ length (after_base (map record_view records.now)) }
{
    let mut count = 0;
    for entry in records {
        count = if entry.is_snapshot() { 0 } else { count + 1 };
    }
    count
}

impl Records {
    pub(crate) fn new(within: i64, first: u64, records: Vec<Record>) -> Records
        ensures { result ≡ record { within = within; first = first; records = map record_view records.items } }
    {
        Records {
            within,
            first,
            records,
        }
    }

    /// The distance of the head.
    pub fn within(&self) -> i64
        ensures { result ≡ self.now.within }
    {
        self.within
    }

    /// The offset of the gate of the first record; where there is none, that of the closed gate.
    pub fn first(&self) -> u64
        ensures { result ≡ self.now.first }
    {
        self.first
    }

    /// How many records stand after the base, which is the last snapshot, or the head where there is none.
    pub fn len_after_base(&self) -> usize
        ensures { result ≡ length (after_base self.now.records) }
    {
        count_after(self.records.as_slice())
    }

    /// All records.
    pub fn as_slice(&self) -> &[Record]
        ensures { map record_view result.now ≡ self.now.records }
    {
        &self.records
    }
}
