//! One pass over rows of signed benefits.

ghost use Rattle.std.specs.Prelude.{◌≡◌, ◌^◌, ◌+◌, ◌*◌, ◌≤◌, pos, ◌+ℤ◌, ◌≤ℤ◌, true, length, replicate, take, drop};
ghost use Rattle.benefit_rows.specs.Benefits.{above_zero, below_zero, benefit_merged, differences, gap_between, gap_of, merged_of, rank_of, size_of, sums_of, where_at_most};
ghost use Rattle.benefit_rows.specs.Narrow.{AreNarrow};

// How many differences are added up before their sum is tested.
const BLOCK: usize = 8;

// Differences of rows whose ranks are below this are added up in 32 bits, of which a processor takes four at a time.
const NARROW: i64 = 1 << 30;

/// How far a benefit is above zero: what it gains by yes.
pub fn above_zero(benefit: i64) -> i64
    ensures { result ≡ above_zero benefit }
{
    benefit.max(0)
}

/// How far a benefit is below zero: what it gains by no. It needs a benefit of at most `2^60` in size.
pub fn below_zero(benefit: i64) -> i64
    requires { size_of benefit ≤ℤ pos (2 ^ 60) }
    ensures { result ≡ below_zero benefit }
{
    (-benefit).max(0)
}

/// The size of a benefit. It needs a size of at most `2^62`.
pub fn size(benefit: i64) -> i64
    requires { size_of benefit ≤ℤ pos (2 ^ 62) }
    ensures { result ≡ size_of benefit }
{
    benefit.abs()
}

/// The sum of the sizes of a row's benefits. It needs a rank of at most `2^60`.
pub fn rank(row: &[i64]) -> i64
    requires { rank_of row.now ≤ℤ pos (2 ^ 60) }
    ensures { result ≡ rank_of row.now }
{
    let mut total = 0;
    for benefit in row {
        total += size(*benefit);
    }
    total
}

/// How much more the same choices may gain from `to` than from `from`, two rows of one length. It is at
/// least zero, and needs ranks of at most `2^60`.
pub fn gap(from: &[i64], to: &[i64]) -> i64
    requires lengths { length from.now ≡ length to.now }
    requires from_rank { rank_of from.now ≤ℤ pos (2 ^ 60) }
    requires to_rank { rank_of to.now ≤ℤ pos (2 ^ 60) }
    ensures { result ≡ gap_of from.now to.now }
{
    let mut doubled = 0;
    for i in 0..from.len() {
        doubled += doubled_gap(from[i], to[i]);
    }
    doubled / 2
}

/// Twice the gap of one component, by sizes alone. It needs sizes of at most `2^60`.
pub fn doubled_gap(from: i64, to: i64) -> i64
    requires from_size { size_of from ≤ℤ pos (2 ^ 60) }
    requires to_size { size_of to ≤ℤ pos (2 ^ 60) }
    ensures { result ≡ gap_between from to +ℤ gap_between from to }
{
    size(to) - size(from) + size(to - from)
}

/// The gap between two rows of one length where it is at most `most`. The ranks of the rows are told, and they alone
/// may decide; else the rows are read only until the gap is known to exceed. It needs ranks of at most `2^60`.
pub fn gap_within(from: &[i64], from_rank: i64, to: &[i64], to_rank: i64, most: i64) -> Option<i64>
    requires lengths { length from.now ≡ length to.now }
    requires from_rank { from_rank ≡ rank_of from.now }
    requires to_rank { to_rank ≡ rank_of to.now }
    requires from_size { rank_of from.now ≤ℤ pos (2 ^ 60) }
    requires to_size { rank_of to.now ≤ℤ pos (2 ^ 60) }
    ensures { result ≡ where_at_most most (gap_of from.now to.now) }
{
    // A gap is at least zero, at least the difference of the ranks and at most the second rank.
    let more = to_rank - from_rank;
    if most < more.max(0) {
        return None;
    }
    let narrow = from_rank < NARROW && to_rank < NARROW;
    let sizes = distance_within(from, to, 2 * most.min(to_rank) - more, narrow)?;
    Some((more + sizes) / 2)
}

/// The sum of the sizes of the differences where it is at most `most`. The rows are read only until it is known to exceed. `narrow` says
/// that both ranks are below `2^30`. It is never inlined, so that the callers of `gap_within` inline the test of the ranks alone.
#[inline(never)]
fn distance_within(from: &[i64], to: &[i64], most: i64, narrow: bool) -> Option<i64>
    requires lengths { length from.now ≡ length to.now }
    requires from_size { rank_of from.now ≤ℤ pos (2 ^ 60) }
    requires to_size { rank_of to.now ≤ℤ pos (2 ^ 60) }
    requires narrow { narrow ≡ true → AreNarrow from.now to.now }
    ensures { result ≡ where_at_most most (rank_of (differences from.now to.now)) }
{
    let mut sizes = 0;
    let blocks = from.len() / BLOCK;
    for block in 0..blocks {
        sizes += distance(block_of(from, block), block_of(to, block), narrow);
        if sizes > most {
            return None;
        }
    }
    sizes += distance(rest_after(from, blocks), rest_after(to, blocks), narrow);
    if sizes > most { None } else { Some(sizes) }
}

/// A block of a row: eight benefits.
fn block_of(row: &[i64], block: usize) -> &[i64]
    requires { 8 * (block + 1) ≤ length row.now }
    ensures { result.now ≡ take 8 (drop (8 * block) row.now) }
{
    &row[BLOCK * block..BLOCK * block + BLOCK]
}

/// What follows this many blocks of a row.
fn rest_after(row: &[i64], blocks: usize) -> &[i64]
    requires { 8 * blocks ≤ length row.now }
    ensures { result.now ≡ drop (8 * blocks) row.now }
{
    &row[BLOCK * blocks..]
}

/// The sum of the sizes of the differences. `narrow` says that both ranks are below `2^30`.
fn distance(from: &[i64], to: &[i64], narrow: bool) -> i64
    requires lengths { length from.now ≡ length to.now }
    requires from_size { rank_of from.now ≤ℤ pos (2 ^ 60) }
    requires to_size { rank_of to.now ≤ℤ pos (2 ^ 60) }
    requires narrow { narrow ≡ true → AreNarrow from.now to.now }
    ensures { result ≡ rank_of (differences from.now to.now) }
{
    if narrow {
        i64::from(narrow_distance(from, to))
    } else {
        wide_distance(from, to)
    }
}

/// The same for narrow rows, added up in 32 bits.
fn narrow_distance(from: &[i64], to: &[i64]) -> i32
    requires lengths { length from.now ≡ length to.now }
    requires narrow { AreNarrow from.now to.now }
    ensures { result ≡ rank_of (differences from.now to.now) }
{
    let mut total = 0;
    for i in 0..from.len() {
        total += (to[i] as i32 - from[i] as i32).abs();
    }
    total
}

/// The same for any rows, added up in 64 bits.
fn wide_distance(from: &[i64], to: &[i64]) -> i64
    requires lengths { length from.now ≡ length to.now }
    requires from_size { rank_of from.now ≤ℤ pos (2 ^ 60) }
    requires to_size { rank_of to.now ≤ℤ pos (2 ^ 60) }
    ensures { result ≡ rank_of (differences from.now to.now) }
{
    let mut total = 0;
    for i in 0..from.len() {
        total += size(to[i] - from[i]);
    }
    total
}

/// Writes zeros. As many first benefits as `done` are zero already, and are not written.
pub fn write_zeros(out: &mut [i64], done: usize)
    requires { take done out.old ≡ take done (replicate (length out.old) (pos 0)) }
    ensures { out.new ≡ replicate (length out.old) (pos 0) }
{
    if done < out.len() {
        out[done..].fill(0);
    }
}

/// Writes the sums of two rows of the same length, and answers their rank. It needs ranks of at most `2^60`. It is never inlined,
/// so that the caller's loop over a layer keeps its numbers in registers.
#[inline(never)]
pub fn write_sums(out: &mut [i64], row: &[i64], added: &[i64]) -> i64
    requires cells { length out.old ≡ length row.now }
    requires lengths { length row.now ≡ length added.now }
    requires row_size { rank_of row.now ≤ℤ pos (2 ^ 60) }
    requires added_size { rank_of added.now ≤ℤ pos (2 ^ 60) }
    ensures row { out.new ≡ sums_of row.now added.now }
    ensures rank { result ≡ rank_of (sums_of row.now added.now) }
{
    let mut total = 0;
    for i in 0..out.len() {
        let sum = row[i] + added[i];
        out[i] = sum;
        total += size(sum);
    }
    total
}

/// Merges a row of the same length into `merged`: of two benefits at least zero the lesser stays, of two
/// at most zero the greater, and of others zero.
pub fn merge_into(merged: &mut [i64], row: &[i64])
    requires { length merged.old ≡ length row.now }
    ensures { merged.new ≡ merged_of merged.old row.now }
{
    for i in 0..merged.len() {
        merged[i] = middle(merged[i], row[i]);
    }
}

/// Of two benefits and zero the one in the middle.
fn middle(a: i64, s: i64) -> i64
    ensures { result ≡ benefit_merged a s }
{
    // The lesser of the two where `a` is at least zero, else the greater. Where that lies beyond zero, zero is in the middle.
    let inner = if (a < s) == (a < 0) { s } else { a };
    if (inner < 0) == (a < 0) { inner } else { 0 }
}
