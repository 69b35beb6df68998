//! One member of a set.

ghost use Rattle.std.specs.Prelude.{◌≡◌, ◌+◌, ◌*◌, ◌<◌, ◌&&◌, ◌||◌, not, false, nat_eq, length};
ghost use Rattle.node_sets.specs.Sets.{AreWords, HasMembers, has, row_of};

use crate::word::{put, word};

/// Whether `v` is a member.
pub fn contains(row: &[i64], v: usize) -> bool
    requires cells { AreWords row.now }
    requires within { v < 32 * length row.now }
    ensures { result ≡ has row.now v }
{
    (word(row, v / 32) >> (v % 32)) & 1 == 1
}

/// Makes `v` a member.
pub fn insert(row: &mut [i64], v: usize)
    requires cells { AreWords row.old }
    requires within { v < 32 * length row.old }
    ensures cells { AreWords row.new }
    ensures members { HasMembers row.new (λ u. has row.old u || nat_eq u v) }
{
    let with = word(row, v / 32) | 1u32 << (v % 32);
    put(row, v / 32, with);
}

/// Takes `v` out.
#[inline]
pub fn remove(row: &mut [i64], v: usize)
    requires cells { AreWords row.old }
    requires within { v < 32 * length row.old }
    ensures { row.new ≡ row_of (length row.old) (λ u. has row.old u && not (nat_eq u v)) }
{
    let rest = word(row, v / 32) & !(1u32 << (v % 32));
    put(row, v / 32, rest);
}

/// Leaves the row without members. What its cells held before does not matter.
pub fn clear(row: &mut [i64])
    ensures cells { AreWords row.new }
    ensures members { HasMembers row.new (λ _. false) }
    ensures row { row.new ≡ row_of (length row.old) (λ _. false) }
{
    row.fill(0);
}
