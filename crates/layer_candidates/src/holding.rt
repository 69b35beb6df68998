//! Rows of a region are taken and given back.

ghost use Rattle.std.specs.Prelude.{◌≡◌, ℕ, ◌+◌, ◌<◌, ℤ, [], List, true, false, length, map, None, slice_set};
ghost use Rattle.layer_candidates.specs.HeldRows.{held_row, AreLive, HasExchanged};
ghost use Rattle.row_region.specs.Region.{IsLive, HasPut};

use crate::rows::row_of;
use row_region::{Region, RowId};

/// Puts a row into the region. Answers its place.
pub fn put_row(region: &mut Region, row: &[i64]) -> u32
    requires spare { 0 < region.old.spare }
    requires cells { length row.now ≡ region.old.words }
    ensures { HasPut region.old result row.now region.new }
{
    let id = region.take_free();
    region.row_mut(id).copy_from_slice(row);
    id.place
}

/// Takes a row of the region with whatever stands in it.
#[inline(always)]
pub fn take_row(region: &mut Region) -> RowId
    requires spare { 0 < region.old.spare }
    ensures { (row : List ℤ) × (length row ≡ region.old.words) × HasPut region.old result.place row region.new }
{
    region.take_free()
}

/// Where the row at the spot is kept, another free row is the spot from then on.
#[inline(always)]
pub fn next_spot(region: &mut Region, spot: &mut RowId, kept: bool)
    requires spare { 0 < region.old.spare }
    ensures kept { kept ≡ true → (row : List ℤ) × (length row ≡ region.old.words) × HasPut region.old spot.new.place row region.new }
    ensures left { kept ≡ false → (region.new ≡ region.old) × (spot.new.place ≡ spot.old.place) }
{
    if kept {
        *spot = take_row(region);
    }
}

/// Copies a live row, and gives it back.
pub fn move_out(region: &mut Region, place: u32, cells: &mut [i64])
    requires live { IsLive region.old place }
    requires cells { length cells.old ≡ region.old.words }
    ensures cells { cells.new ≡ held_row region.old place }
    ensures given { region.new ≡ record region.old { rows = slice_set region.old.rows place None; spare = region.old.spare + 1 } }
{
    cells.copy_from_slice(row_of(region, place));
    region.give(RowId { place });
}

/// A thing that has a row of a region.
pub trait HasRow {
    /// The place of its row.
    ghost place: { Self → ℕ };

    /// The place of its row.
    fn row(&self) -> u32
        ensures { result ≡ place self.now };
}

/// Gives the rows of some things back.
pub fn give_rows<T: HasRow>(region: &mut Region, things: &[T])
    requires { AreLive region.old (map T.place things.now) }
    ensures { HasExchanged region.old (map T.place things.now) region.new [] }
{
    'things: for i in 0..things.len() {
        region.give(RowId {
            place: things[i].row(),
        });
    }
}
