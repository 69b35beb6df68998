ghost use Rattle.std.specs.Prelude.{◌≡◌, ℕ, ◌+◌, ◌*◌, ◌<◌, ◌≤◌, ◌^◌, nat_lt, List, IfOk, length, take, vec_capacity};
ghost use Rattle.dp_model.specs.Lists.{Each};
ghost use Rattle.dp_laws.specs.Restricted.Beam.{whole_layer};
ghost use Rattle.layer_candidates.specs.HeldRows.{AreLive, HasExchanged};
ghost use Rattle.layer_candidates.specs.Layering.{HasMemory, HasListed};
ghost use Rattle.layer_candidates.specs.Members.{member_rows, members_as, IsHeldAt, IsMemberOf};
ghost use Rattle.layer_candidates.specs.Steps.{path_at, AreBackward, IsReachedWithin};

use crate::descending::descend;
use crate::extending::extend_layer;
use crate::key::Key;
use crate::limits::Limits;
use crate::member::Member;
use crate::ordering::sort;
use crate::pruning::prune;
use crate::step::Step;
use crate::striking::list_unstruck;
use crate::table::WayTable;
use dp_model::{DpModel, OutOfMemory};
use row_region::Region;
use std::alloc::Global;

/// The memory in which a layer is made. All of it is made once and used again.
#[derive(Debug, Drop)]
pub struct Candidates {
    // the cells of the parent that is extended
    parent: Vec<i64>,
    table: WayTable,
    keys: Vec<Key>,
    kept: Vec<Key>,
}

impl Candidates {
    /// Memory for this many candidates, with rows of this many cells.
    pub fn prepare(alloc: Global, words: usize, room: usize) -> Result<Candidates, OutOfMemory>
        requires { room + 1 < 2 ^ 32 }
        ensures { IfOk result (λ c. HasMemory words room c) }
    {
        Ok(Candidates {
            parent: vec![in alloc; 0i64; words]?,
            table: WayTable::prepare(alloc, room)?,
            keys: Vec::with_capacity(alloc, room)?,
            kept: Vec::with_capacity(alloc, room)?,
        })
    }

    /// Lists the candidates for the layer below the one at depth `k` that are not struck, in the reduction order. The members' rows
    /// are given back, and so are those of the struck candidates.
    fn list_next<M: DpModel>(
        &mut self,
        model: &M,
        k: usize,
        threshold: Option<i64>,
        region: &mut Region,
        members: &[Member],
    )
        requires layer { k < (M.meaning (M.numbers model.now)).vars }
        requires words { region.old.words ≡ (M.meaning (M.numbers model.now)).words }
        requires members { Each (IsMemberOf (M.meaning (M.numbers model.now)) k region.old) members.now }
        requires live { AreLive region.old (member_rows members.now) }
        requires memory { HasMemory (M.meaning (M.numbers model.now)).words (length members.now * (M.meaning (M.numbers model.now)).choices k) self.old }
        requires spare { length members.now * (M.meaning (M.numbers model.now)).choices k + 1 ≤ region.old.spare }
        ensures listed { HasListed (M.meaning (M.numbers model.now)) k threshold region.old members.now region.new self.new }
        ensures memory { (words count : ℕ) → HasMemory words count self.old → HasMemory words count self.new }
    {
        extend_layer(
            model,
            k,
            members,
            region,
            self.parent.as_mut_slice(),
            &mut self.table,
        );
        list_unstruck(
            model,
            k + 1,
            threshold,
            region,
            self.table.ways.as_slice(),
            &mut self.keys,
        );
        sort(region, model.first_live(k + 1), &mut self.keys);
    }

    /// Makes the layer below the one at depth `k`, as many of its first members as the limits allow: the members are exchanged, and so
    /// are their rows in the region; each new one has a step of its own. Answers whether there are more. It takes no memory.
    pub fn next_layer<M: DpModel>(
        &mut self,
        model: &M,
        k: usize,
        limits: Limits,
        region: &mut Region,
        members: &mut Vec<Member>,
        steps: &mut Vec<Step>,
    ) -> bool
        requires layer { k < (M.meaning (M.numbers model.now)).vars }
        requires words { region.old.words ≡ (M.meaning (M.numbers model.now)).words }
        requires members { Each (IsMemberOf (M.meaning (M.numbers model.now)) k region.old) members.old.items }
        requires live { AreLive region.old (member_rows members.old.items) }
        requires reached { Each (IsReachedWithin (length steps.old.items)) members.old.items }
        requires memory { HasMemory (M.meaning (M.numbers model.now)).words (length members.old.items * (M.meaning (M.numbers model.now)).choices k) self.old }
        requires spare { length members.old.items * (M.meaning (M.numbers model.now)).choices k + 1 ≤ region.old.spare }
        requires members_room { limits.width ≤ vec_capacity members.old }
        requires steps_room { length steps.old.items + limits.width ≤ vec_capacity steps.old }
        requires small { length steps.old.items + limits.width < 2 ^ 32 }
        ensures list { (prefix : List ℕ) → members_as (path_at prefix steps.new.items) region.new members.new.items ≡ take limits.width (whole_layer (M.meaning (M.numbers model.now)) k limits.threshold (members_as (path_at prefix steps.old.items) region.old members.old.items)) }
        ensures more { (prefix : List ℕ) → result ≡ nat_lt limits.width (length (whole_layer (M.meaning (M.numbers model.now)) k limits.threshold (members_as (path_at prefix steps.old.items) region.old members.old.items))) }
        ensures held { Each (IsHeldAt (M.meaning (M.numbers model.now)) (k + 1) region.new) members.new.items }
        ensures exchanged { HasExchanged region.old (member_rows members.old.items) region.new (member_rows members.new.items) }
        ensures reached { Each (IsReachedWithin (length steps.new.items)) members.new.items }
        ensures few { length members.new.items ≤ limits.width }
        ensures steps { length steps.new.items ≡ length steps.old.items + length members.new.items }
        ensures backward { AreBackward steps.old.items → AreBackward steps.new.items }
        ensures memory { (words count : ℕ) → HasMemory words count self.old → HasMemory words count self.new }
        ensures members_capacity { vec_capacity members.new ≡ vec_capacity members.old }
        ensures steps_capacity { vec_capacity steps.new ≡ vec_capacity steps.old }
    {
        self.list_next(model, k, limits.threshold, region, members.as_slice());
        let more = prune(
            model,
            k + 1,
            limits.width,
            region,
            self.table.ways.as_slice(),
            self.keys.as_slice(),
            &mut self.kept,
        );
        descend(
            self.table.ways.as_slice(),
            self.kept.as_slice(),
            members,
            steps,
        );
        more
    }
}
