//! A tour in the problem's own words.

ghost use Rattle.std.specs.Prelude.{◌≡◌, ◌≤◌, IfSome, true, pos, neg_ℤ, nat_lt, nat_eq};
ghost use Rattle.std.specs.List.{list_all};
ghost use Rattle.dp_model.specs.Solution.{SolutionGives};
ghost use Rattle.tsp_windows.specs.OwnWords as words;
ghost use Rattle.tsp_windows.specs.Shown.{instance_in, program_in};
ghost use Rattle.tsp_windows.specs.Instance.{opening};

use crate::instance::TspWindows;
use pending_rows::{are_below, are_different};

/// Whether the last node of the list is node 0.
fn ends_at_home(visits: &[u32]) -> bool
    ensures { result ≡ words.ends_at_home visits.now }
{
    let mut rest = visits;
    'visits: while let [first, after @ ..] = rest {
        if after.is_empty() {
            return *first == 0;
        }
        rest = after;
    }
    false
}

/// Whether each of this many nodes stands in the list once, and node 0 is the last.
fn is_order(visits: &[u32], nodes: usize) -> bool
    ensures { result ≡ words.is_order nodes visits.now }
{
    visits.len() == nodes
        && are_below(visits, nodes)
        && are_different(visits)
        && ends_at_home(visits)
}

/// When the last node is left, or none where one is reached too late.
fn end_time(model: &TspWindows, visits: &[u32]) -> Option<u64>
    requires { list_all (λ v. nat_lt v model.now.nodes) visits.now ≡ true }
    ensures time { result ≡ words.end_time (instance_in model.now) 0 (opening (instance_in model.now) 0) visits.now }
    ensures early { IfSome result (λ time. time ≤ 1000000000000) }
{
    let mut here = 0;
    let mut time = model.windows[0].opening;
    let mut rest = visits;
    'visits: while let [first, after @ ..] = rest {
        let node = *first as usize;
        let arrival = time + u64::from(model.distances[here * model.nodes + node]);
        let window = model.windows[node];
        if arrival > window.closing {
            return None;
        }
        time = arrival.max(window.opening);
        here = node;
        rest = after;
    }
    Some(time)
}

/// A time, negated.
fn negated(time: u64) -> i64
    requires { time ≤ 1000000000000 }
    ensures { result ≡ neg_ℤ (pos time) }
{
    -(time as i64)
}

/// The value of a tour in the problem's own words.
fn tour_value(model: &TspWindows, visits: &[u32]) -> Option<i64>
    ensures { result ≡ words.tour_value (instance_in model.now) visits.now }
{
    if !is_order(visits, model.nodes) {
        return None;
    }
    match end_time(model, visits) {
        Some(time) => Some(negated(time)),
        None => None,
    }
}

/// The negated time of return of a tour that leaves node 0 at its opening, visits each other node once in the order of the
/// list, waits where it is early, and returns to node 0, which stands last.
///
/// `None` exactly where the list is no such order or a node is reached after its closing: then it is no solution.
pub fn value_of(model: &TspWindows, decisions: &[u32]) -> Option<i64>
    ensures own_words { result ≡ words.tour_value (instance_in model.now) decisions.now }
    ensures solution { SolutionGives (program_in model.now) decisions.now result }
{
    tour_value(model, decisions)
}
