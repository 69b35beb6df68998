//! The members of a layer are extended by each allowed decision, and of each state the best way is kept.

ghost use Rattle.std.specs.Prelude.{◌≡◌, ℕ, ◌+◌, ◌*◌, ◌<◌, ◌≤◌, ◌+ℤ◌, [], ◌∷◌, List, length, vec_capacity, is_some, IsNone, IsSome, IfSome, IsTrue};
ghost use Rattle.dp_model.specs.Decisions.{below};
ghost use Rattle.dp_model.specs.Lists.{Each};
ghost use Rattle.dp_model.specs.Numbers.{IsSmall};
ghost use Rattle.dp_laws.specs.Restricted.Extensions.{candidates, all_joined};
ghost use Rattle.layer_candidates.specs.HeldRows.{AreLive, HasExchanged, HasWritten};
ghost use Rattle.layer_candidates.specs.Table.{IsPlaced};
ghost use Rattle.layer_candidates.specs.Ways.{way_row, all_reached, IsNear, AllHaveZeros, AreDistinct};
ghost use Rattle.layer_candidates.specs.Members.{member_rows, members_as, IsMemberOf};
ghost use Rattle.layer_candidates.specs.WayTables.{table_rows, HasTableRoom, IsWayTable, KeepsTableRoom, TookIn};
ghost use Rattle.row_region.specs.Region.{IsLive};

use crate::holding::{move_out, next_spot, take_row};
use crate::member::Member;
use crate::parent::Parent;
use crate::rows::row_of;
use crate::table::WayTable;
use crate::way::Way;
use dp_model::{DpModel, Extended};
use row_region::{Region, RowId};

/// Writes the state that a decision makes into a row; `None` exactly where it is not allowed.
#[inline(always)]
fn write_state<M: DpModel>(
    model: &M,
    k: usize,
    parent: Parent,
    decision: u32,
    region: &mut Region,
    spot: RowId,
) -> Option<Extended>
    requires layer { k < (M.meaning (M.numbers model.now)).vars }
    requires state { IsTrue ((M.meaning (M.numbers model.now)).is_state k parent.state.now) }
    requires rank { parent.rank ≡ (M.meaning (M.numbers model.now)).rank k parent.state.now }
    requires choice { decision < (M.meaning (M.numbers model.now)).choices k }
    requires live { IsLive region.old spot.place }
    requires words { region.old.words ≡ (M.meaning (M.numbers model.now)).words }
    ensures allowed { is_some result ≡ (M.meaning (M.numbers model.now)).allowed k parent.entry.state.now decision }
    ensures refused { IsNone result → region.new ≡ region.old }
    ensures written { IsSome result → HasWritten region.old spot.place ((M.meaning (M.numbers model.now)).step k parent.entry.state.now decision) region.new }
    ensures extended { IfSome result (λ e. (e.gain ≡ (M.meaning (M.numbers model.now)).gain k parent.entry.state.now decision)
        × (e.rank ≡ (M.meaning (M.numbers model.now)).rank (k + 1) ((M.meaning (M.numbers model.now)).step k parent.entry.state.now decision))) }
{
    model.extend(
        k,
        parent.state,
        parent.rank,
        decision,
        0,
        region.row_mut(spot),
    )
}

/// The way from a parent by a decision, with the hash and the row of its state.
fn way_of(parent: Parent, gained: Extended, hash: u64, decision: u32, row: u32) -> Way
    requires near { IsNear parent.value }
    requires small { IsSmall gained.gain }
    ensures value { result.value ≡ (parent.entry.value +ℤ gained.gain) }
    ensures rank { result.rank ≡ gained.rank }
    ensures hash { result.hash ≡ hash }
    ensures row { result.row ≡ row }
    ensures parent { result.parent ≡ parent.entry.step }
    ensures decision { result.decision ≡ decision }
{
    Way {
        value: parent.value + gained.gain,
        rank: gained.rank,
        hash,
        row,
        parent: parent.step,
        decision,
    }
}

/// Where a way was taken in, and what its decision gains.
#[derive(Clone, Copy, Debug)]
pub struct Taken {
    /// The place of the way to its state.
    pub place: usize,
    /// The gain.
    pub gain: i64,
}

/// Takes in the way from a parent in the layer at depth `k` by a decision: of each state the first way of greatest value is kept.
/// The state is written into the row at the spot: where it is new, its way keeps that row, and another free row is the spot from
/// then on. Answers `None` exactly where the decision is not allowed.
#[inline(always)]
pub fn extend_by<M: DpModel>(
    model: &M,
    k: usize,
    parent: Parent,
    decision: u32,
    region: &mut Region,
    spot: &mut RowId,
    table: &mut WayTable,
) -> Option<Taken>
    requires layer { k < (M.meaning (M.numbers model.now)).vars }
    requires state { IsTrue ((M.meaning (M.numbers model.now)).is_state k parent.state.now) }
    requires value { IsNear parent.value }
    requires rank { parent.rank ≡ (M.meaning (M.numbers model.now)).rank k parent.state.now }
    requires hash { parent.hash ≡ (M.meaning (M.numbers model.now)).hash k parent.state.now }
    requires choice { decision < (M.meaning (M.numbers model.now)).choices k }
    requires live { table.old.live ≤ (M.meaning (M.numbers model.now)).words }
    requires zeros { AllHaveZeros (M.meaning (M.numbers model.now)) (k + 1) table.old.live }
    requires words { region.old.words ≡ (M.meaning (M.numbers model.now)).words }
    requires spare { 0 < region.old.spare }
    requires held { AreLive region.old (spot.old.place ∷ table_rows table.old) }
    requires joined { IsWayTable (M.meaning (M.numbers model.now)) (k + 1) region.old table.old }
    requires room { HasTableRoom (length table.old.ways.items + 1) table.old }
    ensures allowed { is_some result ≡ (M.meaning (M.numbers model.now)).allowed k parent.entry.state.now decision }
    ensures extended { TookIn (M.meaning (M.numbers model.now)) k parent.entry.step parent.entry.state.now parent.entry.value (decision ∷ []) region.old table.old region.new table.new }
    ensures exchanged { HasExchanged region.old (spot.old.place ∷ table_rows table.old) region.new (spot.new.place ∷ table_rows table.new) }
    ensures before { (i : ℕ) → i < length table.old.ways.items → way_row region.new table.new.ways.items i ≡ way_row region.old table.old.ways.items i }
    ensures place { IfSome result (λ t. IsPlaced (way_row region.new table.new.ways.items) (length table.old.ways.items) (length table.new.ways.items) ((M.meaning (M.numbers model.now)).step k parent.entry.state.now decision) t.place) }
    ensures gain { IfSome result (λ t. t.gain ≡ (M.meaning (M.numbers model.now)).gain k parent.entry.state.now decision) }
    ensures live { table.new.live ≡ table.old.live }
    ensures room { KeepsTableRoom table.old table.new }
{
    let gained = write_state(model, k, parent, decision, region, *spot)?;
    let next = row_of(region, spot.place);
    let hash = model.next_hash(k, parent.state, parent.hash, decision, next);
    let way = way_of(parent, gained, hash, decision, spot.place);
    let count = table.ways.len();
    let place = table.take_in(region, way);
    next_spot(region, spot, place == count);
    Some(Taken {
        place,
        gain: gained.gain,
    })
}

/// Takes in the ways by all allowed decisions, the lesser first.
fn extend_member<M: DpModel>(
    model: &M,
    k: usize,
    member: Member,
    s: &[i64],
    region: &mut Region,
    spot: &mut RowId,
    table: &mut WayTable,
)
    requires layer { k < (M.meaning (M.numbers model.now)).vars }
    requires state { IsTrue ((M.meaning (M.numbers model.now)).is_state k s.now) }
    requires value { IsNear member.value }
    requires rank { member.rank ≡ (M.meaning (M.numbers model.now)).rank k s.now }
    requires hash { member.hash ≡ (M.meaning (M.numbers model.now)).hash k s.now }
    requires live { table.old.live ≤ (M.meaning (M.numbers model.now)).words }
    requires zeros { AllHaveZeros (M.meaning (M.numbers model.now)) (k + 1) table.old.live }
    requires words { region.old.words ≡ (M.meaning (M.numbers model.now)).words }
    requires spare { (M.meaning (M.numbers model.now)).choices k ≤ region.old.spare }
    requires held { AreLive region.old (spot.old.place ∷ table_rows table.old) }
    requires joined { IsWayTable (M.meaning (M.numbers model.now)) (k + 1) region.old table.old }
    requires room { HasTableRoom (length table.old.ways.items + (M.meaning (M.numbers model.now)).choices k) table.old }
    ensures extended { TookIn (M.meaning (M.numbers model.now)) k member.step s.now member.value (below ((M.meaning (M.numbers model.now)).choices k)) region.old table.old region.new table.new }
    ensures exchanged { HasExchanged region.old (spot.old.place ∷ table_rows table.old) region.new (spot.new.place ∷ table_rows table.new) }
    ensures live { table.new.live ≡ table.old.live }
    ensures room { KeepsTableRoom table.old table.new }
{
    let parent = Parent::of(member, s);
    let choices = model.choices(k);
    let mut decision = model.next_choice(k, s, 0);
    'decisions: while decision < choices {
        extend_by(model, k, parent, decision, region, spot, table);
        decision = model.next_choice(k, s, decision + 1);
    }
}

/// Extends the members of the layer at depth `k` by each allowed decision: of each state the first way of greatest value is
/// kept, whatever the paths to the members are. The members' rows are given back; each is copied to `cells` before.
pub fn extend_layer<M: DpModel>(
    model: &M,
    k: usize,
    members: &[Member],
    region: &mut Region,
    cells: &mut [i64],
    table: &mut WayTable,
)
    requires layer { k < (M.meaning (M.numbers model.now)).vars }
    requires words { region.old.words ≡ (M.meaning (M.numbers model.now)).words }
    requires cells { length cells.old ≡ (M.meaning (M.numbers model.now)).words }
    requires members { Each (IsMemberOf (M.meaning (M.numbers model.now)) k region.old) members.now }
    requires live { AreLive region.old (member_rows members.now) }
    requires spare { length members.now * (M.meaning (M.numbers model.now)).choices k + 1 ≤ region.old.spare }
    requires room { HasTableRoom (length members.now * (M.meaning (M.numbers model.now)).choices k) table.old }
    ensures distinct { AreDistinct (M.meaning (M.numbers model.now)) (k + 1) (way_row region.new table.new.ways.items) table.new.ways.items }
    ensures list { (paths : ℕ → List ℕ) → all_reached paths (way_row region.new table.new.ways.items) table.new.ways.items ≡ all_joined [] (candidates (M.meaning (M.numbers model.now)) k (members_as paths region.old members.now)) }
    ensures exchanged { HasExchanged region.old (member_rows members.now) region.new (table_rows table.new) }
    ensures few { length table.new.ways.items ≤ length members.now * (M.meaning (M.numbers model.now)).choices k }
    ensures room { KeepsTableRoom table.old table.new }
{
    let live = model.first_live(k + 1);
    table.clear(live, members.len() * model.choices(k) as usize);
    let mut spot = take_row(region);
    'members: for i in 0..members.len() {
        let member = members[i];
        move_out(region, member.row, cells);
        extend_member(model, k, member, cells, region, &mut spot, table);
    }
    region.give(spot);
}
