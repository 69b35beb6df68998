//! Hashes of states: polynomials modulo 2^64, which a decision changes by one number. Their last 16 bits are those of the sum of the
//! benefits, so two hashes tell how far two rows are apart at least.

ghost use Rattle.std.specs.Prelude.{◌≡◌, ◌^◌, ◌+ℤ◌, ◌*ℤ◌, ◌≤ℤ◌, ℤ, List, length, pos};
ghost use Rattle.std.specs.Int.{w64, cast_unsigned, int_wrap};
ghost use Rattle.benefit_rows.specs.Benefits.{differences, rank_of};
ghost use Rattle.pair_rows.specs.Hashes.{base, hash_of, polynomial};

// Where the polynomials are taken: one more than an odd multiple of 2^16. So the last 16 bits of a hash are those of the sum of the
// benefits, and the other bits are spread.
const BASE: i64 = 0x2545_f491_4f63_0001;

// Its inverse modulo 2^64.
const INVERSE: i64 = 0x3643_4bb7_b09d_0001;

// How many values the last 16 bits of a hash have.
const SUMS: u64 = 1 << 16;

/// The polynomial with these coefficients, the first one alone without the base.
pub(crate) fn polynomial(row: &[i64]) -> i64
    ensures { result ≡ int_wrap w64 (polynomial row.now) }
{
    let mut total: i64 = 0;
    let mut i = row.len();
    'cells: while i > 0 {
        i -= 1;
        total = with_cell(total, row[i]);
    }
    total
}

/// The polynomial with a coefficient before the others.
fn with_cell(rest: i64, cell: i64) -> i64
    ensures { (others : ℤ) → rest ≡ int_wrap w64 others → result ≡ int_wrap w64 ((others *ℤ base) +ℤ cell) }
{
    rest.wrapping_mul(BASE).wrapping_add(cell)
}

/// The hash of the benefits that are open in a state.
pub(crate) fn hash_of(benefits: &[i64]) -> u64
    ensures { result ≡ hash_of benefits.now }
{
    polynomial(benefits).cast_unsigned()
}

/// The hash after the first benefit goes and the polynomial of the others grows by this much.
pub(crate) fn next_hash(hash: u64, first: i64, change: i64) -> u64
    ensures { (others more : ℤ) → hash ≡ cast_unsigned w64 (int_wrap w64 ((others *ℤ base) +ℤ first)) → change ≡ int_wrap w64 more → result ≡ cast_unsigned w64 (int_wrap w64 (others +ℤ more)) }
{
    let others = hash.cast_signed().wrapping_sub(first).wrapping_mul(INVERSE);
    others.wrapping_add(change).cast_unsigned()
}

/// A distance that two rows of one length have at least, by their hashes: the size of the difference of their sums, as far as its last
/// 16 bits tell.
pub(crate) fn least_distance(hash: u64, other: u64) -> i64
    ensures least { (a s : List ℤ) → length a ≡ length s → hash ≡ hash_of a → other ≡ hash_of s → result ≤ℤ rank_of (differences a s) }
    ensures low { pos 0 ≤ℤ result }
    ensures high { result ≤ℤ pos (2 ^ 15) }
{
    let difference = (hash.wrapping_sub(other) % SUMS) as u16;
    i64::from(difference.cast_signed()).abs()
}
