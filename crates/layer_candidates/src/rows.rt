//! Rows of a region.

ghost use Rattle.std.specs.Prelude.{◌≡◌, ◌≤◌, ◌↔◌, length, drop, IsTrue};
ghost use Rattle.layer_candidates.specs.HeldRows.{held_row};
ghost use Rattle.row_region.specs.Region.{IsLive};

use row_region::{Region, RowId};

/// The cells of a live row of the region.
#[inline(always)]
pub fn row_of(region: &Region, place: u32) -> &[i64]
    requires { IsLive region.now place }
    ensures row { result.now ≡ held_row region.now place }
    ensures size { length result.now ≡ region.now.words }
{
    region.row(RowId { place })
}

/// The cells of a live row of the region from the first live one on.
#[inline(always)]
pub fn live_cells_of(region: &Region, live: usize, place: u32) -> &[i64]
    requires row { IsLive region.now place }
    requires live { live ≤ region.now.words }
    ensures { result.now ≡ drop live (held_row region.now place) }
{
    &row_of(region, place)[live..]
}

/// Whether two rows are equal.
pub fn same_row(a: &[i64], b: &[i64]) -> bool
    ensures { IsTrue result ↔ (a.now ≡ b.now) }
{
    a == b
}
