ghost use Rattle.std.specs.Prelude.{◌≡◌, ℕ, ℤ, List, [], ◌+◌, ◌-◌, ◌*◌, ◌^◌, ◌<◌, ◌≤◌, ◌↔◌, ◌++◌, length, replicate, count_by, is_none, take, drop, slice_get, slice_set, Some, None, IsNone, IfSome, IfNone, IfOk, OnErr, OnOk};
ghost use Rattle.std.specs.Borrow.{sem};
ghost use Rattle.row_region.specs.Region.{IsLive, IsRow, HasTaken, HasPut};
ghost use Rattle.row_region.specs.Lending.{LendsRow};

use crate::free_list::FreeList;
use crate::parting::part_of;
use std::alloc::{AllocError, Global};
use std::marker::Model;

/// The greatest number of rows of a region: a name has 32 bits.
const MOST_ROWS: usize = 0x1_0000_0000;

/// The name of a row of its region: its place, by which other arrays may be indexed too.
#[derive(Clone, Copy, Debug, PartialEq, Eq, Hash)]
pub struct RowId {
    pub place: u32,
}

/// Rows of one length in one block of cells. Each is live or free. The cells of a row are written when it is taken for the first
/// time, so that memory for rows that are never taken stays untouched.
#[derive(Debug, Drop)]
pub struct Region {
    // the first `free.made` rows, one after the other, with room for the others
    cells: Vec<i64>,
    words: usize,
    count: usize,
    free: FreeList,
}

impl Model for Region {
    ghost use Rattle.row_region.specs.Region.{RegionView};

    ghost Value = { RegionView };

    ghost use Rattle.std.specs.Prelude.{◌+◌, ◌-◌, ◌*◌, ◌≤◌, vec_capacity};
    ghost use Rattle.row_region.specs.Layout.{IsSound, places};

    ghost view = { λ r. record { words = r.words; rows = places r.cells.items r.words r.count r.free.fresh r.free.first r.free.given; spare = r.free.given + (r.count - r.free.fresh) } };

    ghost invariant = { λ r. IsSound r.cells.items r.words r.free.made r.count r.free.fresh r.free.first r.free.given × (r.count * r.words ≤ vec_capacity r.cells) };
}

impl Region {
    /// No rows, of this many cells each. It takes no memory.
    ///
    /// A row has at least one cell.
    pub fn empty(alloc: Global, words: usize) -> Region
        requires { 0 < words }
        ensures { result ≡ record { words = words; rows = []; spare = 0 } }
    {
        Region {
            cells: Vec::new(alloc),
            words,
            count: 0,
            free: FreeList {
                made: 0,
                fresh: 0,
                first: 0,
                given: 0,
            },
        }
    }

    /// A region of `rows` rows of `words` cells, all free. It fails only for want of memory.
    ///
    /// A row has at least one cell.
    pub fn new(alloc: Global, words: usize, rows: usize) -> Result<Region, AllocError>
        requires { 0 < words }
        ensures { IfOk result (λ r. r ≡ record { words = words; rows = replicate rows None; spare = rows }) }
    {
        let mut region = Region::empty(alloc, words);
        region.grow(rows)?;
        Ok(region)
    }

    /// Takes a free row with whatever stands in it.
    #[inline(always)]
    pub fn take_free(&mut self) -> RowId
        requires { 0 < self.old.spare }
        ensures { (row : List ℤ) × (length row ≡ self.old.words) × HasPut self.old result.place row self.new }
    {
        self.free
            .make_ready(&mut self.cells, self.words, self.count);
        let place = self.free.pop(&self.cells, self.words, self.count);
        RowId {
            place: place as u32,
        }
    }

    /// Takes a free row and writes zeros to it; `None` exactly where no row is free.
    pub fn take(&mut self) -> Option<RowId>
        ensures none { IsNone result ↔ (self.old.spare ≡ 0) }
        ensures same { IfNone result (self.new ≡ self.old) }
        ensures taken { IfSome result (λ id. HasTaken self.old id.place self.new) }
    {
        if self.spare() == 0 {
            return None;
        }
        let id = self.take_free();
        self.row_mut(id).fill(0);
        Some(id)
    }

    /// Gives a live row back: it is free from then on.
    pub fn give(&mut self, id: RowId)
        requires { IsLive self.old id.place }
        ensures { self.new ≡ record self.old { rows = slice_set self.old.rows id.place None; spare = self.old.spare + 1 } }
    {
        let place = id.place as usize;
        self.cells[place * self.words] = self.free.first as i64;
        self.free.first = place;
        self.free.given += 1;
    }

    /// The cells of a live row.
    pub fn row(&self, id: RowId) -> &[i64]
        requires { IsLive self.now id.place }
        ensures { IsRow self.now id.place result.now }
    {
        let at = id.place as usize * self.words;
        &self.cells[at..at + self.words]
    }

    /// All cells. A live row has those from its place times the cells of a row on.
    pub fn cells(&self) -> &[i64]
        ensures rows { (place : ℕ) (row : List ℤ) → slice_get self.now.rows place ≡ Some (Some row) → take self.now.words (drop (place * self.now.words) result.now) ≡ row }
        ensures fits { (place : ℕ) (row : List ℤ) → slice_get self.now.rows place ≡ Some (Some row) → place * self.now.words + self.now.words ≤ length result.now }
    {
        self.cells.as_slice()
    }

    /// The cells of a live row, to be written. What is left in them is the row from then on.
    pub fn row_mut(&mut self, id: RowId) -> &mut [i64]
        requires { IsLive self.old id.place }
        ensures* writes_back { sem 𝓛 (LendsRow self.entry id.place result) }
        ensures row { IsRow self.old id.place result.now }
    {
        let at = id.place as usize * self.words;
        let words = self.words;
        part_of(&mut self.cells, at, words)
    }

    /// How many rows are free.
    pub fn spare(&self) -> usize
        ensures spare { result ≡ self.now.spare }
        ensures counts { self.now.spare ≡ count_by is_none self.now.rows }
    {
        self.free.given + (self.count - self.free.fresh)
    }

    /// How many rows there are, the free ones among them: at most 2^32.
    pub fn rows(&self) -> usize
        ensures rows { result ≡ length self.now.rows }
        ensures most { result ≤ 2 ^ 32 }
    {
        self.count
    }

    /// How many cells a row has.
    pub fn words(&self) -> usize
        ensures words { result ≡ self.now.words }
        ensures positive { 0 < self.now.words }
    {
        self.words
    }

    /// Gives all rows back.
    pub fn clear(&mut self)
        ensures { self.new ≡ record self.old { rows = replicate (length self.old.rows) None; spare = length self.old.rows } }
    {
        self.free.fresh = 0;
        self.free.given = 0;
    }

    /// Adds this many free rows. It fails only for want of memory, and then changes nothing.
    pub fn grow(&mut self, rows: usize) -> Result<(), AllocError>
        ensures ok { OnOk result (self.new ≡ record self.old { rows = self.old.rows ++ replicate rows None; spare = self.old.spare + rows }) }
        ensures err { OnErr result (self.new ≡ self.old) }
    {
        if rows > MOST_ROWS - self.count {
            return Err(AllocError);
        }
        let count = self.count + rows;
        let Some(size) = count.checked_mul(self.words) else {
            return Err(AllocError);
        };
        self.cells.reserve(size - self.cells.len())?;
        self.count = count;
        Ok(())
    }
}
