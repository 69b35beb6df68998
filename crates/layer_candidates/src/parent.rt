ghost use Rattle.std.specs.Prelude.{◌≡◌};

use crate::member::Member;

/// A prefix by its last step, with its value and state, while its ways are taken in.
#[derive(Clone, Copy, Debug)]
pub struct Parent<'s> {
    /// The step by which the prefix is reached.
    pub step: u32,
    /// The value of the prefix.
    pub value: i64,
    /// The rank of the state in its layer.
    pub rank: i64,
    /// The hash of the state in its layer.
    pub hash: u64,
    /// The state.
    pub state: &'s [i64],
}

impl<'s> Parent<'s> {
    /// The member as a parent, whose state this is.
    pub fn of(member: Member, state: &'s [i64]) -> Parent<'s>
        ensures step { result.step ≡ member.step }
        ensures value { result.value ≡ member.value }
        ensures rank { result.rank ≡ member.rank }
        ensures hash { result.hash ≡ member.hash }
        ensures state { result.state.now ≡ state.now }
    {
        Parent {
            step: member.step,
            value: member.value,
            rank: member.rank,
            hash: member.hash,
            state,
        }
    }
}
