ghost use Rattle.std.specs.Prelude.{◌≡◌, ◌↔◌, None, IsTrue};
ghost use Rattle.disk.specs.Counts.{next_count};
ghost use Rattle.disk.specs.Memory.{Fails, fewer};

/// The calls of a disk in memory, of which some fail: the first call is number 0.
#[derive(Debug, Drop)]
pub(crate) struct ListedCalls {
    pub(crate) failing: Vec<u64>,
    /// How many calls were made. The count stops at `u64::MAX`, which is then the number of each later call.
    pub(crate) made: u64,
    /// How many calls pass before each one fails, where a fuse is set.
    pub(crate) fuse: Option<u64>,
}

impl ListedCalls {
    /// No call was made yet, and no fuse is set.
    pub(crate) fn new(failing: Vec<u64>) -> ListedCalls
        ensures { result ≡ record { failing = failing; made = 0; fuse = None } }
    {
        ListedCalls {
            failing,
            made: 0,
            fuse: None,
        }
    }

    /// Counts a call, and tells whether it is to fail.
    pub(crate) fn next_fails(&mut self) -> bool
        ensures fails { IsTrue result ↔ Fails self.old.failing.items self.old.made self.old.fuse }
        ensures counted { self.new ≡ record self.old { made = next_count self.old.made; fuse = fewer self.old.fuse } }
    {
        let number = self.made;
        self.made = number.saturating_add(1);
        let blown = self.fuse == Some(0);
        if let Some(left) = self.fuse {
            self.fuse = Some(left.saturating_sub(1));
        }
        self.failing.contains(&number) || blown
    }
}
