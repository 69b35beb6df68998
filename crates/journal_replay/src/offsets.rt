//! Where records stand in a journal, and the record that a replay begins with.

ghost use Rattle.std.specs.Prelude.{◌≡◌, map, IfSome};
ghost use Rattle.journal_bytes.specs.Base.{base_offset, following_record, from_base};
ghost use Rattle.journal_bytes.specs.Views.{record_view};

use journal_bytes::{FRAME_OVERHEAD, Record, body_size};

/// The offset of the gate after a record, or `None` where it is too great to be counted.
pub fn offset_after(offset: u64, entry: &Record) -> Option<u64>
    ensures { IfSome result (λ next. next ≡ following_record offset (record_view entry.now)) }
{
    let frame = body_size(entry)?.checked_add(FRAME_OVERHEAD as u64)?;
    offset.checked_add(frame)
}

/// The records from the last snapshot on, or all of them where there is none, with the offset of the first of these. `None` where
/// an offset is too great to be counted.
pub fn from_base(first: u64, records: &[Record]) -> Option<(u64, &[Record])>
    ensures offset { IfSome result (λ base. base.0 ≡ base_offset first (map record_view records.now)) }
    ensures records { IfSome result (λ base. map record_view base.1.now ≡ from_base (map record_view records.now)) }
{
    let mut offset = first;
    let mut base = records;
    let mut at = first;
    let mut rest = records;
    while let [entry, after @ ..] = rest {
        if entry.is_snapshot() {
            offset = at;
            base = rest;
        }
        at = offset_after(at, entry)?;
        rest = after;
    }
    Some((offset, base))
}
