//! Prefixes are dealt out to parts in turn, by their bounds.

ghost use Rattle.std.specs.Prelude.{◌≡◌, ℕ, ◌<◌, ◌≤◌, ℤ, List, cond, length};
ghost use Rattle.dp_model.proofs.Members.{Has};
ghost use Rattle.frontier_parts.specs.Dealing.{goes_first, turn_of, part_of, is_dealt, dealt_to};

/// Whether one place is dealt out before another: the greater bound goes first, and of equal ones the first place.
fn goes_first(bounds: &[i64], place: usize, other: usize) -> bool
    requires place { place < length bounds.now }
    requires other { other < length bounds.now }
    ensures { result ≡ goes_first bounds.now place other }
{
    if bounds[other] == bounds[place] {
        other < place
    } else {
        bounds[place] < bounds[other]
    }
}

/// One where it is so, and else none.
fn one_if(is: bool) -> usize
    ensures count { result ≡ cond is 1 0 }
    ensures one { result ≤ 1 }
{
    if is { 1 } else { 0 }
}

/// How many places are dealt out before this one.
#[tactic(auto, using(crate::proofs::Turns::count_next))]
fn turn_of(bounds: &[i64], place: usize) -> usize
    requires { place < length bounds.now }
    ensures { result ≡ turn_of bounds.now place }
{
    let mut before = 0;
    for other in 0..bounds.len() {
        before += one_if(goes_first(bounds, place, other));
    }
    before
}

/// Whether the prefix at a place is dealt to the part with the number `index`, of `of` parts. A prefix has the bound at its place.
///
/// The prefix with the greatest bound is dealt to part 0, the next one to part 1, and so on in turn; of equal bounds the first place goes
/// first. The same bounds give the same parts. A call compares the bound of the place with each of the bounds.
pub fn is_dealt(bounds: &[i64], of: usize, index: usize, place: usize) -> bool
    requires some { 0 < of }
    requires place { place < length bounds.now }
    ensures { result ≡ is_dealt bounds.now of index place }
{
    turn_of(bounds, place) % of == index
}

/// Each place is dealt to its own part, which is one of the parts, and to no other.
pub fn dealt_to_one()
    ensures there { (bounds : List ℤ) (of i : ℕ) → 0 < of → part_of bounds of i < of }
    ensures own { (bounds : List ℤ) (of i : ℕ) → i < length bounds → Has i (dealt_to bounds of (part_of bounds of i)) }
    ensures alone { (bounds : List ℤ) (of index i : ℕ) → Has i (dealt_to bounds of index) → (i < length bounds) × (index ≡ part_of bounds of i) }
{}
