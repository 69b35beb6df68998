ghost use Rattle.std.specs.Prelude.{◌≡◌};
ghost use Rattle.dp_model.specs.Folds.{fold_of, folded, spread};

// 2^64 divided by the golden ratio, made odd.
const FACTOR: u64 = 0x9e37_79b9_7f4a_7c15;

/// The fold of a row: a hash of 64 bits that is seeded with a number, such as the row's layer. Equal rows with equal seeds have
/// equal folds. Every cell reaches the low bits, so the low bits serve as a place in a table.
///
/// Each step rotates the fold and adds a product that depends on the cell alone, so the products can be computed in parallel.
pub fn fold(begun: u64, row: &[i64]) -> u64
    ensures { result ≡ fold_of begun row.now }
{
    let mut so_far = begun;
    for cell in row {
        so_far = folded(so_far, cell);
    }
    spread(so_far).rotate_left(32)
}

/// The fold with a further cell.
fn folded(so_far: u64, cell: &i64) -> u64
    ensures { result ≡ folded so_far cell.now }
{
    so_far
        .rotate_left(27)
        .wrapping_add(spread(cell.cast_unsigned()))
}

/// A product that spreads small numbers over all 64 bits: with an odd number, modulo 2^64.
pub fn spread(n: u64) -> u64
    ensures { result ≡ spread n }
{
    n.wrapping_mul(FACTOR)
}
