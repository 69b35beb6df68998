//! The rows of a region as one block of cells, in which two of them are compared.

ghost use Rattle.std.specs.Prelude.{◌≡◌, ◌+◌, ◌*◌, ◌≤◌, length};

use row_region::Region;

/// The rows of a region, one after the other, each read from the first live cell on. There is at least one.
///
/// What it keeps lets a row be read with no test: of any place, since one after the last row reads that one.
#[derive(Clone, Copy)]
pub struct Block<'r> {
    cells: &'r [i64],
    words: usize,
    live: usize,
    // the place of the last row
    last: usize,
    ghost fits: { last * words + words ≤ length cells.now },
    ghost low: { live ≤ words },
}

impl<'r> Block<'r> {
    ghost use Rattle.std.specs.Prelude.{◌≡◌, ℕ, drop};
    ghost use Rattle.dp_model.specs.Rows.{row_smaller};
    ghost use Rattle.layer_candidates.specs.Blocks.{block_row};
    ghost use Rattle.layer_candidates.specs.HeldRows.{held_row};
    ghost use Rattle.layer_candidates.specs.Rows.{HasZeros};
    ghost use Rattle.row_region.specs.Region.{IsLive};

    /// The rows of a region that holds some row, and this many cells are zero first in that one.
    pub fn of(region: &'r Region, live: usize) -> Block<'r>
        requires some { (place : ℕ) × IsLive region.now place × HasZeros live (held_row region.now place) }
        ensures { (place : ℕ) → IsLive region.now place → block_row result place ≡ drop live (held_row region.now place) }
    {
        let cells = region.cells();
        let words = region.words();
        Block {
            cells,
            words,
            live,
            last: cells.len() / words - 1,
        }
    }

    /// The live cells of the row at the place, or of the last row where it is after that one.
    fn row(&self, place: u32) -> &'r [i64]
        ensures { result.now ≡ block_row self.now place }
    {
        let at = (place as usize).min(self.last) * self.words;
        let row = &self.cells[at..at + self.words];
        &row[self.live..]
    }

    /// Whether the first of two rows is the smaller one by the live cells. It is a call of its own, so that the code for keys
    /// that differ by value or rank stays short.
    #[inline(never)]
    pub fn is_smaller(&self, a: u32, b: u32) -> bool
        ensures { result ≡ row_smaller (block_row self.now a) (block_row self.now b) }
    {
        self.row(a).cmp(self.row(b)).is_lt()
    }
}
