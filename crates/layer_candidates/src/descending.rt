//! The kept keys become the members of the next layer.

ghost use Rattle.std.specs.Prelude.{◌≡◌, ◌+◌, ◌<◌, ◌≤◌, ◌^◌, ◌++◌, length, map, vec_capacity};
ghost use Rattle.dp_model.specs.Lists.{Each};
ghost use Rattle.layer_candidates.specs.Steps.{step_of, entered};

use crate::key::Key;
use crate::member::Member;
use crate::step::Step;
use crate::way::Way;

/// The step by a way.
fn step_by(way: Way) -> Step
    ensures { result ≡ record { before = way.parent; decision = way.decision } }
{
    Step {
        before: way.parent,
        decision: way.decision,
    }
}

/// The key as a member with the hash of its state, which the step reaches.
fn member_by(key: Key, hash: u64, step: u32) -> Member
    ensures { result ≡ record { value = key.value; rank = key.rank; hash = hash; row = key.row; step = step } }
{
    Member {
        value: key.value,
        rank: key.rank,
        hash,
        row: key.row,
        step,
    }
}

/// Each kept key becomes a member, by a step of its own.
pub fn descend(ways: &[Way], kept: &[Key], members: &mut Vec<Member>, steps: &mut Vec<Step>)
    requires within { Each (λ key. key.place < length ways.now) kept.now }
    requires members_room { length kept.now ≤ vec_capacity members.old }
    requires steps_room { length steps.old.items + length kept.now ≤ vec_capacity steps.old }
    requires small { length steps.old.items + length kept.now < 2 ^ 32 }
    ensures members { members.new.items ≡ entered ways.now (length steps.old.items) kept.now }
    ensures steps { steps.new.items ≡ steps.old.items ++ map (step_of ways.now) kept.now }
    ensures members_capacity { vec_capacity members.new ≡ vec_capacity members.old }
    ensures steps_capacity { vec_capacity steps.new ≡ vec_capacity steps.old }
{
    members.clear();
    'kept: for i in 0..kept.len() {
        let key = kept[i];
        let way = ways[key.place as usize];
        steps.push_reserved(step_by(way));
        members.push_reserved(member_by(key, way.hash, steps.len() as u32));
    }
}
