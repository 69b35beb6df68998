//! A part of a slice, to be written.

ghost use Rattle.std.specs.Prelude.{◌≡◌, ℕ, ◌+◌, ◌≤◌, ◌++◌, length, take, drop, vec_len};
ghost use Rattle.std.specs.Borrow.{sem, Lends, Array, i64};
ghost use Rattle.row_region.specs.Region.{refilled};
ghost use Rattle.row_region.specs.Parts.{LendsWhole, LendsPart};

/// The `words` cells from the place on. What is left in them stands there afterwards.
pub fn part(cells: &mut [i64], at: usize, words: usize) -> &mut [i64]
    requires { at + words ≤ length cells.old }
    ensures* writes_back { sem 𝓛 (Lends (Array i64 0) (Array i64 0) cells.entry result (λ ws. take at cells.old ++ (refilled words (take words (drop at cells.old)) ws ++ drop words (drop at cells.old)))) }
    ensures value { result.now ≡ take words (drop at cells.old) }
{
    unsafe { std::slice::from_raw_parts_mut(cells.as_mut_ptr().add(at), words) }
}

/// All cells, to be written.
fn whole(cells: &mut Vec<i64>) -> &mut [i64]
    ensures* writes_back { sem 𝓛 (LendsWhole cells.entry result) }
    ensures value { result.now ≡ cells.old.items }
{
    cells.as_mut_slice()
}

/// The `words` cells from the place on, as `part` gives them.
pub fn part_of(cells: &mut Vec<i64>, at: usize, words: usize) -> &mut [i64]
    requires { at + words ≤ vec_len cells.old }
    ensures* writes_back { sem 𝓛 (LendsPart cells.entry at words result) }
    ensures value { result.now ≡ take words (drop at cells.old.items) }
{
    part(whole(cells), at, words)
}
