//! Rows of numbers.

ghost use Rattle.std.specs.Prelude.{◌≡◌};
ghost use Rattle.dp_model.specs.Rows.{row_same};

/// Whether two rows are the same.
pub fn row_same(one: &[i64], other: &[i64]) -> bool
    ensures { result ≡ row_same one.now other.now }
{
    one == other
}
