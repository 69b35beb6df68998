//! How many bytes the bodies of a part's journal have.

ghost use Rattle.std.specs.Prelude.{◌≡◌, ◌^◌, nat_lt};
ghost use Rattle.journal_bytes.specs.Journal.{new_head};
ghost use Rattle.journal_bytes.specs.Sizes.{head_size};
ghost use Rattle.journal_bytes.specs.Spelling.{mark_size, record_size};
ghost use Rattle.journal_bytes.specs.Views.{record_view};
ghost use Rattle.part_files.specs.Fitting.{are_short};

use journal_bytes::{BODY_LIMIT, Head, Part, Record, body_size};

/// The bytes of a head beside its part and its text: the version, the problem, the distance and the length of the text.
const HEAD_FIELDS: u64 = 17;

/// The bytes of a part: its number, how many parts there are, and a digest.
const PART_FIELDS: u64 = 40;

/// The bytes of a part, or of none.
fn mark_size(part: &Option<Part>) -> u64
    ensures { result ≡ mark_size part.now }
{
    match part {
        Some(_) => PART_FIELDS,
        None => 0,
    }
}

/// The bytes of a head's body.
fn head_size(head: &Head) -> u64
    ensures { result ≡ head_size (new_head head.now) }
{
    HEAD_FIELDS + mark_size(&head.part) + head.text.len() as u64
}

/// Whether a record's body has a length of 32 bits.
fn is_short_record(entry: &Record) -> bool
    ensures { result ≡ nat_lt (record_size (record_view entry.now)) (2 ^ 32) }
{
    match body_size(entry) {
        Some(size) => size < BODY_LIMIT,
        None => false,
    }
}

/// Whether the bodies of a head and of a record have lengths of 32 bits.
pub(crate) fn are_short(head: &Head, entry: &Record) -> bool
    ensures { result ≡ are_short (new_head head.now) (record_view entry.now) }
{
    head_size(head) < BODY_LIMIT && is_short_record(entry)
}
