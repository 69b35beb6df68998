//! The ways to a layer, and the table that finds the way of a state. Rows are compared from the first live cell on.

ghost use Rattle.std.specs.Int.{IsPowerOfTwo};
ghost use Rattle.std.specs.Prelude.{◌≡◌, ◌+◌, ◌^◌, ◌<◌, ◌≤◌, ◌↔◌, length, vec_len, slice_index_or, slice_set, IfOk, IsTrue};
ghost use Rattle.dp_model.specs.Lists.{Each};
ghost use Rattle.layer_candidates.specs.Rows.{live_at};
ghost use Rattle.layer_candidates.specs.Table.{slot_of, HaveHash, IsTable, IsRowFound};
ghost use Rattle.layer_candidates.specs.Ways.{rows_of, way_row};
ghost use Rattle.layer_candidates.specs.WayTables.{HasTableRoom, HasSlots, HasNoWays, KeepsTableRoom};
ghost use Rattle.row_region.specs.Region.{IsLive};

use crate::rows::{live_cells_of, same_row};
use crate::way::Way;
use dp_model::{OutOfMemory, spread};
use row_region::Region;
use std::alloc::Global;

/// The ways to the states of a layer, one for each state, and the table that finds the way of a state. The rows of the states
/// stand in a region that the caller owns. Its memory is made once and used again.
#[derive(Debug, Drop)]
pub struct WayTable {
    /// The ways, in the order in which their states came.
    pub ways: Vec<Way>,
    // the number of first cells that are zero in each row, and are not compared
    pub(crate) live: usize,
    // the most slots, a power of two
    pub(crate) slots: usize,
    // the hash of each row
    pub(crate) hashes: Vec<u64>,
    // for each slot one more than the place of its last row, or zero
    pub(crate) heads: Vec<u32>,
    // for each row one more than the place of the row before it in its slot, or zero
    pub(crate) next: Vec<u32>,
}

/// How many slots a layer has for each way of the one before it, unless it can't have as many ways.
const SLOTS_PER_WAY: usize = 4;

/// The fewest slots that are asked for, unless a layer can't have as many ways.
const FEWEST_SLOTS: usize = 64;

/// The slot of a hash, of a number of slots that is a power of two. Hashes may differ in any of their bits, and a product spreads these.
fn slot(hash: u64, size: usize) -> usize
    requires { IsPowerOfTwo size }
    ensures slot { result ≡ slot_of hash size }
    ensures within { result < size }
{
    let halves = hash ^ (hash >> 32);
    (spread(halves) >> 32) as usize & (size - 1)
}

/// The number of ways for which a layer gets slots, where the one before it had `before` ways. A table that is no larger than it
/// has to be stays in the processor's cache. Where a layer has more ways, its chains are longer.
fn likely_ways(before: usize) -> usize {
    before.saturating_mul(SLOTS_PER_WAY).max(FEWEST_SLOTS)
}

/// The number of slots that serves for a number of rows: a power of two, at most `slots`. It is no less than the rows, unless
/// there are fewer slots.
fn slots_for(rows: usize, slots: usize) -> usize
    requires power { IsPowerOfTwo slots }
    requires small { rows + 1 < 2 ^ 32 }
    ensures power { IsPowerOfTwo result }
    ensures within { result ≤ slots }
{
    rows.next_power_of_two().min(slots)
}

impl WayTable {
    /// Memory for a number of ways.
    pub fn prepare(alloc: Global, room: usize) -> Result<WayTable, OutOfMemory>
        requires { room + 1 < 2 ^ 32 }
        ensures { IfOk result (λ t. HasTableRoom room t) }
    {
        let slots = (2 * room + 1).next_power_of_two();
        Ok(WayTable {
            ways: Vec::with_capacity(alloc, room)?,
            live: 0,
            slots,
            hashes: vec![in alloc; 0u64; room]?,
            heads: Vec::with_capacity(alloc, slots)?,
            next: vec![in alloc; 0u32; room]?,
        })
    }

    /// Takes all ways out, and makes ready for at most `rows` of them, whose rows are to be compared from the cell `live` on. How
    /// many slots there are goes by the ways that are taken out, too. It takes no memory.
    pub fn clear(&mut self, live: usize, rows: usize)
        requires slots { HasSlots self.old }
        requires small { rows + 1 < 2 ^ 32 }
        ensures empty { HasNoWays self.new }
        ensures live { self.new.live ≡ live }
        ensures room { KeepsTableRoom self.old self.new }
    {
        let likely = likely_ways(self.ways.len()).min(rows);
        self.ways.clear();
        self.live = live;
        self.heads.clear();
        let _ = self.heads.resize(slots_for(likely, self.slots), 0);
    }

    /// Whether the row of the way at the place has these live cells.
    #[inline(always)]
    fn is_at(&self, region: &Region, place: usize, new: &[i64], hash: u64) -> bool
        requires within { place < length self.now.hashes.items }
        requires way { place < length self.now.ways.items }
        requires held { Each (IsLive region.now) (rows_of self.now.ways.items) }
        requires live { self.now.live ≤ region.now.words }
        requires hash { live_at (way_row region.now self.now.ways.items) self.now.live place ≡ new.now → slice_index_or self.now.hashes.items place 0 ≡ hash }
        ensures { IsTrue result ↔ (live_at (way_row region.now self.now.ways.items) self.now.live place ≡ new.now) }
    {
        self.hashes[place] == hash
            && same_row(live_cells_of(region, self.live, self.ways[place].row), new)
    }

    /// The place of the way whose row has these live cells, or the number of ways.
    pub(crate) fn find(&self, region: &Region, new: &[i64], hash: u64) -> usize
        requires table { IsTable (length self.now.ways.items) self.now.hashes.items self.now.heads.items self.now.next.items }
        requires held { Each (IsLive region.now) (rows_of self.now.ways.items) }
        requires live { self.now.live ≤ region.now.words }
        requires hash { HaveHash (way_row region.now self.now.ways.items) self.now.live (length self.now.ways.items) new.now hash self.now.hashes.items }
        ensures { IsRowFound (way_row region.now self.now.ways.items) self.now.live (length self.now.ways.items) new.now result }
    {
        let mut i = self.heads[slot(hash, self.heads.len())] as usize;
        'chain: while i > 0 {
            let k = i - 1;
            if self.is_at(region, k, new, hash) {
                return k;
            }
            i = self.next[k] as usize;
        }
        self.ways.len()
    }

    /// Enters the row of the next way, with its hash. The way itself is to be put in afterwards.
    pub(crate) fn enter(&mut self, hash: u64)
        requires small { length self.old.ways.items + 1 < 2 ^ 32 }
        requires hashes { length self.old.ways.items < length self.old.hashes.items }
        requires next { length self.old.ways.items < length self.old.next.items }
        requires heads { IsPowerOfTwo (length self.old.heads.items) }
        ensures table { IsTable (length self.old.ways.items) self.old.hashes.items self.old.heads.items self.old.next.items
            → IsTable (length self.old.ways.items + 1) self.new.hashes.items self.new.heads.items self.new.next.items }
        ensures hashes { self.new.hashes.items ≡ slice_set self.old.hashes.items (length self.old.ways.items) hash }
        ensures ways { self.new.ways ≡ self.old.ways }
        ensures live { self.new.live ≡ self.old.live }
        ensures room { KeepsTableRoom self.old self.new }
    {
        let count = self.ways.len();
        let at = slot(hash, self.heads.len());
        self.hashes[count] = hash;
        self.next[count] = self.heads[at];
        self.heads[at] = count as u32 + 1;
    }
}
