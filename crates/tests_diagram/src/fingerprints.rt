//! Which states of a cut may cover others, as far as their ranks and hashes tell, beside what their rows tell.

ghost use Rattle.std.specs.Prelude.{◌≡◌, true};
ghost use Rattle.dp_model.specs.Gaps.{IsStateOf};
ghost use Rattle.dp_model.specs.Fingerprints.{IsFingerprint};

use crate::roots::instance;
use dp_model::{DpModel, Fingerprint};
use max_cut::MaxCut;
use pair_problem::PairModel;
use std::process::Abort;

/// Two states of depth 1, the greatest gap that is asked for, whether there may be one by the fingerprints, and the gap by the rows.
type Case = ([i64; 3], [i64; 3], i64, bool, Option<i64>);

/// States of a triangle. The sums of the third two are nearer than their rows, and the ranks alone tell of the last two.
const CASES: &[Case] = &[
    ([0, 3, 2], [0, -3, -2], 5, true, Some(5)),
    ([0, 3, 2], [0, -3, -2], 4, false, None),
    ([0, 3, -2], [0, -3, 2], 4, true, None),
    ([0, 0, 0], [0, 3, 2], 4, false, None),
];

/// Whether the row is a state of depth 1.
fn is_state<M: DpModel>(model: &M, row: &[i64]) -> bool
    ensures { result ≡ true → IsStateOf (M.meaning (M.numbers model.now)) 1 row.now }
{
    model.vars() >= 1 && row.len() == model.words() && model.is_state(1, row)
}

/// What is known of a state of depth 1 without its row.
fn print_of<M: DpModel>(model: &M, row: &[i64]) -> Fingerprint
    requires { IsStateOf (M.meaning (M.numbers model.now)) 1 row.now }
    ensures { IsFingerprint (M.meaning (M.numbers model.now)) 1 row.now result }
{
    Fingerprint {
        rank: model.rank(1, row),
        hash: model.hash(1, row),
    }
}

/// The fingerprints and the rows of the case answer so.
fn answer<M: DpModel>(rt: &impl Abort, model: &M, case: Case) {
    let (a, s, most, may, gap) = case;
    assert!(rt; is_state(model, &a), "{a:?}");
    assert!(rt; is_state(model, &s), "{s:?}");
    let of_a = print_of(model, &a);
    let of_s = print_of(model, &s);
    let may_cover = model.may_cover(1, &a, of_a, &s, of_s, most);
    let covers = model.covers_within(1, &a, of_a.rank, &s, of_s.rank, most);
    assert_eq!(rt; (may_cover, covers), (may, gap), "{a:?} and {s:?}");
}

#[test]
fn fingerprints_rule_gaps_out(rt: HostRuntime) {
    let model: PairModel<MaxCut> = instance(&rt, rt.alloc(), b"3 3\n1 2 3\n2 3 1\n1 3 2\n");
    for case in CASES.iter().copied() {
        answer(&rt, &model, case);
    }
}
