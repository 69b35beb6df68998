//! The free rows: a chain of those that were given back, and those that were never taken.

ghost use Rattle.std.specs.Prelude.{◌≡◌, ℕ, ◌+◌, ◌-◌, ◌*◌, ◌^◌, ◌<◌, ◌≤◌, ◌≤ℤ◌, ◌++◌, length, take, drop, replicate, vec_len, vec_capacity, slice_index_or, pos};
ghost use Rattle.row_region.specs.Layout.{named, IsSound};
ghost use Rattle.row_region.specs.Popping.{HasPopped, HasMade};

/// Which rows of a region are free. The first cell of a row that was given back is the place of the next such row.
#[derive(Debug, Drop)]
pub struct FreeList {
    /// The number of rows whose cells are there.
    pub made: usize,
    /// The place of the first row that was never taken; no row after it was taken either.
    pub fresh: usize,
    /// The place of the first row of the chain, where there is one.
    pub first: usize,
    /// The number of rows in the chain.
    pub given: usize,
}

/// The free row after the one whose first cell is at the place.
#[inline(always)]
fn next(cells: &Vec<i64>, at: usize) -> usize
    requires within { at < vec_len cells.now }
    requires positive { pos 0 ≤ℤ slice_index_or cells.now.items at (pos 0) }
    requires small { named (slice_index_or cells.now.items at (pos 0)) ≤ 2 ^ 32 }
    ensures { result ≡ named (slice_index_or cells.now.items at (pos 0)) }
{
    cells[at] as usize
}

/// Adds the cells of the next row, which are zeros. There is room for them, so it takes no memory.
fn add_row(cells: &mut Vec<i64>, words: usize)
    requires { vec_len cells.old + words ≤ vec_capacity cells.old }
    ensures cells { cells.new.items ≡ cells.old.items ++ replicate words (pos 0) }
    ensures capacity { vec_capacity cells.old ≤ vec_capacity cells.new }
{
    let size = cells.len() + words;
    let _ = cells.resize(size, 0);
}

impl FreeList {
    /// Where no row was given back, the first one that was never taken has its cells afterwards. It takes no memory.
    #[inline(always)]
    pub fn make_ready(&mut self, cells: &mut Vec<i64>, words: usize, count: usize)
        requires some { 0 < self.old.given + (count - self.old.fresh) }
        requires room { count * words ≤ vec_capacity cells.old }
        requires whole { vec_len cells.old ≡ self.old.made * words }
        requires within { self.old.fresh ≤ self.old.made }
        requires few { count ≤ 2 ^ 32 }
        ensures made { IsSound cells.old.items words self.old.made count self.old.fresh self.old.first self.old.given
            → HasMade cells.old.items cells.new.items words self.new.made count self.old.fresh self.old.first self.old.given }
        ensures ready { self.old.given ≡ 0 → self.old.fresh < self.new.made }
        ensures kept { self.new ≡ record self.old { made = self.new.made } }
        ensures capacity { vec_capacity cells.old ≤ vec_capacity cells.new }
    {
        if self.given == 0 && self.fresh == self.made {
            add_row(cells, words);
            self.made += 1;
        }
    }

    /// The place of a free row, which is free no longer: the first one of the chain, or else the first one that was never taken.
    #[inline(always)]
    pub fn pop(&mut self, cells: &Vec<i64>, words: usize, count: usize) -> usize
        requires sound { IsSound cells.now.items words self.old.made count self.old.fresh self.old.first self.old.given }
        requires ready { self.old.given ≡ 0 → self.old.fresh < self.old.made }
        ensures popped { HasPopped cells.now.items words self.old.made count self.old.fresh self.old.first self.old.given result self.new.fresh self.new.first self.new.given }
        ensures made { self.new.made ≡ self.old.made }
    {
        if self.given == 0 {
            let place = self.fresh;
            self.fresh += 1;
            place
        } else {
            let place = self.first;
            self.first = next(cells, place * words);
            self.given -= 1;
            place
        }
    }
}
