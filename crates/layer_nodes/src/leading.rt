//! Leaders: the first exact nodes of a layer that no leader before them dominates.

ghost use Rattle.std.specs.Prelude.{◌≡◌, ◌≤◌, ◌-ℤ◌, IfSome, length, vec_capacity};
ghost use Rattle.dp_model.specs.Gaps.{IsStateOf};
ghost use Rattle.dp_model.specs.Lists.{Each};
ghost use Rattle.dp_model.specs.Numbers.{IsSmall};
ghost use Rattle.dp_laws.specs.Rules.Pruning.{redirect_within, at_leader};
ghost use Rattle.dp_laws.specs.Rules.Reducing.{redirect_by};
ghost use Rattle.layer_candidates.specs.HeldRows.{held_row};
ghost use Rattle.layer_candidates.specs.Ways.{IsNearly};
ghost use Rattle.layer_nodes.specs.Redirecting.{IsShort};
ghost use Rattle.layer_nodes.specs.Leading.{IsIn, IsNodeIn, IsLeaderIn, leaders_of, led_at, print_of, bare};

use crate::node::Node;
use crate::redirecting::{LeaderAt, Redirect};
use dp_model::{DpModel, Fingerprint, MOST_LEADERS};
use layer_candidates::row_of;
use row_region::Region;

/// The rank and the hash of the node's state.
fn print_of(node: &Node) -> Fingerprint
    ensures { result ≡ print_of node.now }
{
    Fingerprint {
        rank: node.rank,
        hash: node.hash,
    }
}

/// A node that stays at the place becomes a leader where it is exact and there are fewer than `MOST_LEADERS`.
pub(crate) fn lead(leaders: &mut Vec<LeaderAt>, place: u32, node: &Node)
    requires room { MOST_LEADERS ≤ vec_capacity leaders.old }
    ensures leaders { leaders.new.items ≡ led_at leaders.old.items place node.now }
    ensures capacity { vec_capacity leaders.new ≡ vec_capacity leaders.old }
{
    if node.exact && leaders.len() < MOST_LEADERS {
        leaders.push_reserved(LeaderAt {
            place,
            row: node.row,
            value: node.value,
            print: print_of(node),
        });
    }
}

/// The redirect to the place, lengthened by the gap, or none where there is none.
pub(crate) fn redirect_by(place: u32, gap: Option<i64>) -> Option<Redirect>
    requires small { IfSome gap (λ g. IsSmall g) }
    ensures redirect { result ≡ redirect_by place gap }
    ensures short { IsShort result }
{
    let longer = gap?;
    Some(Redirect { place, longer })
}

/// By how much the leader's value is above the node's.
fn room(leader: LeaderAt, node: &Node) -> i64
    requires leader { IsNearly leader.value }
    requires node { IsNearly node.now.value }
    ensures { result ≡ (leader.value -ℤ node.now.value) }
{
    leader.value - node.value
}

/// The redirect to the leader, where it dominates the node: its state has a gap to the node's, within the values' difference. The
/// problem is asked by ranks and hashes first, so most nodes are refused before a row is read.
fn redirect_at<M: DpModel>(
    model: &M,
    k: usize,
    region: &Region,
    leader: LeaderAt,
    node: &Node,
) -> Option<Redirect>
    requires leader { IsLeaderIn (M.meaning (M.numbers model.now)) k region.now leader }
    requires node { IsNodeIn (M.meaning (M.numbers model.now)) k region.now node.now }
    ensures redirect { result ≡ redirect_within leader.place ((M.meaning (M.numbers model.now)).gap k (held_row region.now leader.row) (held_row region.now node.now.row)) leader.value node.now.value }
    ensures short { IsShort result }
{
    let most = room(leader, node);
    let a = row_of(region, leader.row);
    let s = row_of(region, node.row);
    if !model.may_cover(k, a, leader.print, s, print_of(node), most) {
        return None;
    }
    let gap = model.covers_within(k, a, leader.print.rank, s, node.rank, most);
    redirect_by(leader.place, gap)
}

/// The redirect to the first leader that dominates the node.
pub(crate) fn at_leader<M: DpModel>(
    model: &M,
    k: usize,
    region: &Region,
    leaders: &[LeaderAt],
    node: &Node,
) -> Option<Redirect>
    requires leaders { Each (IsLeaderIn (M.meaning (M.numbers model.now)) k region.now) leaders.now }
    requires node { IsNodeIn (M.meaning (M.numbers model.now)) k region.now node.now }
    ensures redirect { result ≡ at_leader (M.meaning (M.numbers model.now)) k (leaders_of (held_row region.now) leaders.now) (bare (held_row region.now) node.now) }
    ensures short { IsShort result }
{
    'leaders: for i in 0..leaders.len() {
        let redirect = redirect_at(model, k, region, leaders[i], node);
        if redirect.is_some() {
            return redirect;
        }
    }
    None
}
