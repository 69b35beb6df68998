ghost use Rattle.std.specs.Prelude.{◌≡◌, ◌↔◌, true, Contains, IsErr, is_err, OnOk, OnErr};
ghost use Rattle.streams.specs.Counts.{next_count, Counts};

use super::Failed;

/// The calls of a source or a sink in memory, of which the listed ones fail: the first call is number 0.
#[derive(Debug, Drop)]
pub(crate) struct ListedCalls {
    failing: Vec<u64>,
    // How many calls were made. The count stops at `u64::MAX`, which is then the number of each later call.
    made: u64,
    faults: u64,
}

impl ListedCalls {
    /// No call was made yet.
    pub(crate) fn new(failing: Vec<u64>) -> ListedCalls
        ensures { result ≡ record { failing = failing; made = 0; faults = 0 } }
    {
        ListedCalls {
            failing,
            made: 0,
            faults: 0,
        }
    }

    /// How many calls were made.
    pub(crate) fn made(&self) -> u64
        ensures { result ≡ self.now.made }
    {
        self.made
    }

    /// How many calls have failed.
    pub(crate) fn faults(&self) -> u64
        ensures { result ≡ self.now.faults }
    {
        self.faults
    }

    /// Begins the next call, which fails where its number is listed.
    pub(crate) fn begin(&mut self) -> Result<(), Failed>
        ensures fails { IsErr result ↔ Contains self.old.failing.items self.old.made }
        ensures ok { OnOk result (self.new ≡ record self.old { made = next_count self.old.made }) }
        ensures err { OnErr result (self.new ≡
            record self.old { made = next_count self.old.made; faults = next_count self.old.faults }) }
        ensures faults { Counts (is_err result) self.old.faults self.new.faults }
    {
        let number = self.made;
        self.made = number.saturating_add(1);
        if self.failing.contains(&number) {
            return Err(self.fail());
        }
        Ok(())
    }

    /// The answer of a call that fails, after it was counted.
    pub(crate) fn fail(&mut self) -> Failed
        ensures count { self.new ≡ record self.old { faults = next_count self.old.faults } }
        ensures rose { Counts true self.old.faults self.new.faults }
    {
        Failed::counted(&mut self.faults)
    }
}
