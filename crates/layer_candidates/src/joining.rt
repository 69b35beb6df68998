//! Of each state the first way of greatest value is kept.

ghost use Rattle.std.specs.Prelude.{◌≡◌, ℕ, ◌+◌, ◌^◌, ◌<◌, ◌≤◌, ◌∷◌, ◌++◌, [], List, drop, length, vec_capacity};
ghost use Rattle.dp_model.specs.Dp.{Dp};
ghost use Rattle.dp_model.specs.Lists.{Each};
ghost use Rattle.dp_laws.specs.Restricted.Extensions.{joined};
ghost use Rattle.layer_candidates.specs.HeldRows.{held_row};
ghost use Rattle.layer_candidates.specs.Rows.{HasZeros};
ghost use Rattle.layer_candidates.specs.Table.{HaveHash, IsTable, IsPlaced};
ghost use Rattle.layer_candidates.specs.Ways.{bettered, reached_by, rows_of, way_row, all_reached, IsWay, AreDistinctRows};
ghost use Rattle.layer_candidates.specs.WayTables.{IsWayTable, HasTableRoom, KeepsTableRoom};
ghost use Rattle.row_region.specs.Region.{IsLive};

use crate::rows::live_cells_of;
use crate::table::WayTable;
use crate::way::Way;
use row_region::Region;

impl WayTable {
    /// Takes a way in, with a row of its own: where its state has a way already, the better one stays, with the row that the
    /// state has, and otherwise it is kept after the others. Answers the place of the state's way.
    #[inline(always)]
    pub fn take_in(&mut self, region: &Region, way: Way) -> usize
        requires table { IsTable (length self.old.ways.items) self.old.hashes.items self.old.heads.items self.old.next.items }
        requires held { Each (IsLive region.now) (way.row ∷ rows_of self.old.ways.items) }
        requires live { self.old.live ≤ region.now.words }
        requires zeros { (i : ℕ) → i < length self.old.ways.items → HasZeros self.old.live (way_row region.now self.old.ways.items i) }
        requires new_zeros { HasZeros self.old.live (held_row region.now way.row) }
        requires hash { HaveHash (way_row region.now self.old.ways.items) self.old.live (length self.old.ways.items) (drop self.old.live (held_row region.now way.row)) way.hash self.old.hashes.items }
        requires room { HasTableRoom (length self.old.ways.items + 1) self.old }
        ensures joined { (dp : Dp) (k : ℕ) → IsWayTable dp k region.now self.old → IsWay dp k (held_row region.now way.row) way → IsWayTable dp k region.now self.new }
        ensures list { (paths : ℕ → List ℕ) → AreDistinctRows (way_row region.now self.old.ways.items) (length self.old.ways.items) → all_reached paths (way_row region.now self.new.ways.items) self.new.ways.items ≡ joined (all_reached paths (way_row region.now self.old.ways.items) self.old.ways.items) (reached_by paths (held_row region.now way.row) way) }
        ensures place { IsPlaced (way_row region.now self.new.ways.items) (length self.old.ways.items) (length self.new.ways.items) (held_row region.now way.row) result }
        ensures new { result ≡ length self.old.ways.items → rows_of self.new.ways.items ≡ rows_of self.old.ways.items ++ way.row ∷ [] }
        ensures old { result < length self.old.ways.items → rows_of self.new.ways.items ≡ rows_of self.old.ways.items }
        ensures few { length self.new.ways.items ≤ length self.old.ways.items + 1 }
        ensures live { self.new.live ≡ self.old.live }
        ensures room { KeepsTableRoom self.old self.new }
    {
        let count = self.ways.len();
        let new = live_cells_of(region, self.live, way.row);
        let place = self.find(region, new, way.hash);
        if place == count {
            self.enter(way.hash);
            self.ways.push_reserved(way);
        } else {
            better(self.ways.as_mut_slice(), place, way);
        }
        place
    }
}

/// The way takes the place where its value is greater. The state keeps its row.
fn better(ways: &mut [Way], place: usize, way: Way)
    requires { place < length ways.old }
    ensures { ways.new ≡ bettered ways.old place way }
{
    let old = ways[place];
    if old.value < way.value {
        ways[place] = Way {
            row: old.row,
            ..way
        };
    }
}
