//! A row at its place in a cover, and what a decision of it leads to.

ghost use Rattle.std.specs.Prelude.{◌≡◌};
ghost use Rattle.bound_cover.specs.declared.cover.Why.TheVariants.{Arc, Target};
ghost use Rattle.bound_cover.specs.Tests.{unless};

use crate::cover::Why;
use crate::storing::RowRef;

/// A row at its place in a cover, with the rank of its words, which are a state.
#[derive(Clone, Copy)]
pub struct PlacedRow<'c> {
    pub layer: u32,
    /// The row's number in the layer.
    pub number: u32,
    pub row: RowRef<'c>,
    pub rank: i64,
}

/// What an allowed decision gains, and the state that it leads to with the rank of it.
#[derive(Clone, Copy)]
pub struct Transition<'s> {
    pub decision: u32,
    pub gain: i64,
    pub state: &'s [i64],
    pub rank: i64,
}

impl<'c> PlacedRow<'c> {
    /// The failure of a decision that is not allowed, has no arc, or leads to a row that does not serve.
    #[inline(always)]
    pub fn why_target(&self, decision: u32) -> Why
        ensures { result ≡ Target self.now.layer self.now.number decision }
    {
        Why::Target {
            layer: self.layer,
            row: self.number,
            decision,
        }
    }

    /// The failure of a decision whose arc is not within the row's bound; none where it is.
    #[inline(always)]
    pub fn bound_fault(&self, decision: u32, within: bool) -> Option<Why>
        ensures { result ≡ unless within (Arc self.now.layer self.now.number decision) }
    {
        if within {
            return None;
        }
        Some(Why::Arc {
            layer: self.layer,
            row: self.number,
            decision,
        })
    }
}
