ghost use Rattle.std.specs.Prelude.{◌≡◌, ◌&&◌, ◌||◌, ◌+◌, ◌*◌, ◌^◌, ◌<◌, ◌≤◌, ℕ, ℤ, Option, [], length, false, is_some, IfOk, vec_capacity};
ghost use Rattle.dp_model.specs.Lists.{Each};
ghost use Rattle.dp_model.specs.Prefixes.{IsPrefix, state_of, value_of};
ghost use Rattle.layer_candidates.specs.Beaming.{HasBeamRows, HasLayers, HasMade, IsBuilt, IsNext, IsFirst, most_at, is_between};
ghost use Rattle.dp_laws.specs.Restricted.Beams.{beam, wide, first_of_all};
ghost use Rattle.layer_candidates.specs.HeldRows.{IsSameRegion, AreLive, HasExchanged};
ghost use Rattle.layer_candidates.specs.Layering.{HasMemory};
ghost use Rattle.layer_candidates.specs.Members.{member_rows, members_as, IsHeldAt};
ghost use Rattle.layer_candidates.specs.Steps.{path_at, AreBackward, IsReachedWithin};
ghost use Rattle.layer_candidates.specs.Ways.{IsNear};
ghost use Rattle.row_region.specs.Region.{RegionView};

use crate::candidates::Candidates;
use crate::holding::{give_rows, put_row};
use crate::limits::Limits;
use crate::member::Member;
use crate::start::Start;
use crate::step::Step;
use crate::walking::write_path;
use dp_model::{DpModel, OutOfMemory};
use row_region::Region;
use std::alloc::Global;

/// The newest layer of a restricted diagram, with the steps by which its members are reached. The rows of its members stand in a
/// region that the caller owns.
#[derive(Debug, Drop)]
pub struct Beam {
    candidates: Candidates,
    members: Vec<Member>,
    steps: Vec<Step>,
}

/// The value of a beam, or none where there is none, and whether the width took a member from a layer.
#[derive(Clone, Copy, Debug)]
pub struct Beamed {
    pub value: Option<i64>,
    pub reduced: bool,
}

/// Whether a layer that is made from the one at depth `k` is reduced to the width.
fn is_between(k: usize, first: usize, vars: usize) -> bool
    requires { k < vars }
    ensures { result ≡ is_between k first vars }
{
    first < k && k + 1 < vars
}

/// Whether the first holds, or the two others.
fn or_both(first: bool, second: bool, third: bool) -> bool
    ensures { result ≡ (first || (second && third)) }
{
    first || (second && third)
}

/// The greatest number of members of the layer below depth `k`: 1 for the last layer, the choices for the first one below the
/// prefix, and the width for the others.
fn most_at<M: DpModel>(model: &M, k: usize, first: usize, width: usize) -> usize
    requires layer { k < (M.meaning (M.numbers model.now)).vars }
    ensures { result ≡ most_at (M.meaning (M.numbers model.now)) k first width }
{
    if k + 1 == model.vars() {
        1
    } else if k == first {
        model.choices(k) as usize
    } else {
        width
    }
}

/// The member whose row stands at the place, without a step.
fn first_member(value: i64, rank: i64, hash: u64, row: u32) -> Member
    ensures { result ≡ record { value = value; rank = rank; hash = hash; row = row; step = 0 } }
{
    Member {
        value,
        rank,
        hash,
        row,
        step: 0,
    }
}

impl Beam {
    /// Makes the layer below the one at depth `k`, as many of its first members as `most`. The rows of the layer above are given
    /// back to the region, and those of the new members put into it.
    fn descend<M: DpModel>(
        &mut self,
        region: &mut Region,
        model: &M,
        k: usize,
        threshold: Option<i64>,
        most: usize,
    ) -> bool
        requires layer { k < (M.meaning (M.numbers model.now)).vars }
        requires held { Each (IsHeldAt (M.meaning (M.numbers model.now)) k region.old) self.old.members.items }
        requires near { Each (λ m. IsNear m.value) self.old.members.items }
        requires reached { Each (IsReachedWithin (length self.old.steps.items)) self.old.members.items }
        requires words { region.old.words ≡ (M.meaning (M.numbers model.now)).words }
        requires live { AreLive region.old (member_rows self.old.members.items) }
        requires memory { HasMemory (M.meaning (M.numbers model.now)).words (length self.old.members.items * (M.meaning (M.numbers model.now)).choices k) self.old.candidates }
        requires spare { length self.old.members.items * (M.meaning (M.numbers model.now)).choices k + 1 ≤ region.old.spare }
        requires members_room { most ≤ vec_capacity self.old.members }
        requires steps_room { length self.old.steps.items + most ≤ vec_capacity self.old.steps }
        requires small { length self.old.steps.items + most < 2 ^ 32 }
        ensures { IsNext (M.meaning (M.numbers model.now)) k threshold most self.old region.old self.new region.new result }
    {
        let limits = Limits {
            width: most,
            threshold,
        };
        self.candidates.next_layer(model, k, limits, region, &mut self.members, &mut self.steps)
    }

    /// Makes all layers below the prefix. `self` holds the layer with the prefix alone. Answers whether the width took a member from
    /// a layer. It takes no memory.
    fn compile<M: DpModel>(
        &mut self,
        region: &mut Region,
        model: &M,
        prefix: &[u32],
        width: usize,
        threshold: Option<i64>,
    ) -> bool
        requires prefix { IsPrefix (M.meaning (M.numbers model.now)) prefix.now }
        requires shorter { length prefix.now < (M.meaning (M.numbers model.now)).vars }
        requires start { IsBuilt (M.meaning (M.numbers model.now)) prefix.now width threshold (length prefix.now) self.old region.old false }
        ensures built { IsBuilt (M.meaning (M.numbers model.now)) prefix.now width threshold (M.meaning (M.numbers model.now)).vars self.new region.new result }
        ensures exchanged { HasExchanged region.old (member_rows self.old.members.items) region.new (member_rows self.new.members.items) }
    {
        let first = prefix.len();
        let vars = model.vars();
        let mut reduced = false;
        'layers: for k in first..vars {
            let most = most_at(model, k, first, width);
            let more = self.descend(region, model, k, threshold, most);
            reduced = or_both(reduced, more, is_between(k, first, vars));
        }
        reduced
    }

    /// Becomes the layer with the prefix alone. `row` and `value` are its state and its value.
    fn begin<M: DpModel>(
        &mut self,
        region: &mut Region,
        model: &M,
        prefix: &[u32],
        row: &[i64],
        value: i64,
    )
        requires prefix { IsPrefix (M.meaning (M.numbers model.now)) prefix.now }
        requires shorter { length prefix.now < (M.meaning (M.numbers model.now)).vars }
        requires row { row.now ≡ state_of (M.meaning (M.numbers model.now)) prefix.now }
        requires value { value ≡ value_of (M.meaning (M.numbers model.now)) prefix.now }
        requires region_words { region.old.words ≡ (M.meaning (M.numbers model.now)).words }
        requires region_room { 1 ≤ region.old.spare }
        requires members_room { 1 ≤ vec_capacity self.old.members }
        ensures built { (w : ℕ) (t : Option ℤ) → HasLayers (M.meaning (M.numbers model.now)) w self.old → HasBeamRows (M.meaning (M.numbers model.now)) w region.old.spare → IsBuilt (M.meaning (M.numbers model.now)) prefix.now w t (length prefix.now) self.new region.new false }
        ensures exchanged { HasExchanged region.old [] region.new (member_rows self.new.members.items) }
    {
        let rank = model.rank(prefix.len(), row);
        let hash = model.hash(prefix.len(), row);
        let place = put_row(region, row);
        self.steps.clear();
        self.members.clear();
        self.members
            .push_reserved(first_member(value, rank, hash, place));
    }

    /// The value of the first member, whose decisions are written, or none where there is no member.
    fn first(&self, prefix: &[u32], out: &mut [u32]) -> Option<i64>
        requires backward { AreBackward self.now.steps.items }
        requires reached { Each (IsReachedWithin (length self.now.steps.items)) self.now.members.items }
        requires size { Each (λ m. length out.old ≡ length (path_at prefix.now self.now.steps.items m.step)) self.now.members.items }
        ensures { (region : RegionView) → IsFirst (first_of_all (members_as (path_at prefix.now self.now.steps.items) region self.now.members.items)) result out.new }
    {
        if self.members.is_empty() {
            return None;
        }
        let member = self.members[0];
        write_path(self.steps.as_slice(), member.step as usize, prefix, out);
        Some(member.value)
    }

    /// The beam below a prefix with its state and value: its value, with its decisions in `out`, or none where there is none;
    /// and whether the width took a member from a layer. The region has free rows for the members of a layer and the candidates
    /// of the next one, and is as before afterwards. It takes no memory.
    pub fn beam<M: DpModel>(
        &mut self,
        region: &mut Region,
        model: &M,
        start: Start,
        limits: Limits,
        out: &mut [u32],
    ) -> Beamed
        requires prefix { IsPrefix (M.meaning (M.numbers model.now)) start.prefix.now }
        requires shorter { length start.prefix.now < (M.meaning (M.numbers model.now)).vars }
        requires row { start.row.now ≡ state_of (M.meaning (M.numbers model.now)) start.prefix.now }
        requires value { start.value ≡ value_of (M.meaning (M.numbers model.now)) start.prefix.now }
        requires layers { HasLayers (M.meaning (M.numbers model.now)) limits.width self.old }
        requires cells { length out.old ≡ (M.meaning (M.numbers model.now)).vars }
        requires region_words { region.old.words ≡ (M.meaning (M.numbers model.now)).words }
        requires region_room { HasBeamRows (M.meaning (M.numbers model.now)) limits.width region.old.spare }
        ensures beam { IsFirst (beam (M.meaning (M.numbers model.now)) start.entry.prefix.now limits.width limits.threshold) result.value out.new }
        ensures reduced { result.reduced ≡ is_some (wide (M.meaning (M.numbers model.now)) start.entry.prefix.now limits.width limits.threshold) }
        ensures layers { HasLayers (M.meaning (M.numbers model.now)) limits.width self.new }
        ensures region { IsSameRegion region.old region.new }
    {
        self.begin(region, model, start.prefix, start.row, start.value);
        let reduced = self.compile(region, model, start.prefix, limits.width, limits.threshold);
        let value = self.first(start.prefix, out);
        give_rows(region, self.members.as_slice());
        Beamed { value, reduced }
    }

    /// Memory for this many candidates a layer, this many members and this many steps, with rows of this many cells.
    pub fn prepare(
        alloc: Global,
        words: usize,
        room: usize,
        widest: usize,
        steps: usize,
    ) -> Result<Beam, OutOfMemory>
        requires small { room + 1 < 2 ^ 32 }
        ensures { IfOk result (λ b. HasMade words room widest steps b) }
    {
        Ok(Beam {
            candidates: Candidates::prepare(alloc, words, room)?,
            members: Vec::with_capacity(alloc, widest)?,
            steps: Vec::with_capacity(alloc, steps)?,
        })
    }
}
