ghost use Rattle.std.specs.Prelude.{◌≡◌, ◌<◌, ◌≤◌};
ghost use Rattle.dp_model.specs.declared.limits.TheConstants.{MOST_LAYER_PARTS};

use std::alloc::Global;
use std::marker::Model;
use std::thread::Threads;
use wide_layers::Expander;

/// In how many parts a layer of a relaxed diagram is made: from 1 to `MOST_LAYER_PARTS`. With 1 it is made by the worker alone.
#[derive(Clone, Copy, Debug)]
pub struct Parts {
    count: u32,
}

impl Model for Parts {
    ghost use Rattle.std.specs.Prelude.{ℕ, ◌<◌, ◌≤◌};
    ghost use Rattle.dp_model.specs.declared.limits.TheConstants.{MOST_LAYER_PARTS};

    ghost Value = { ℕ };

    ghost view = { λ p. p.count };

    ghost invariant = { λ p. (0 < p.count) × (p.count ≤ MOST_LAYER_PARTS) };

    ghost inverse = { λ n. record { count = n } };
}

impl Parts {
    /// Parts of this number.
    pub fn new(count: u32) -> Parts
        requires some { 0 < count }
        requires few { count ≤ MOST_LAYER_PARTS }
        ensures { result ≡ count }
    {
        Parts { count }
    }

    /// What expands layers in this many parts, each by a thread of the runtime where one can be made. It takes no memory.
    pub(crate) fn expander<'r, R: Threads + Sync>(
        self,
        rt: &'r R,
        alloc: Global,
    ) -> Expander<'r, R> {
        Expander::in_parts(rt, alloc, self.count)
    }
}
