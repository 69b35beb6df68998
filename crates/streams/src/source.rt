ghost use Rattle.std.specs.Prelude.{◌≡◌, ℕ, ◌<◌, ◌≤◌, List, Option, length, take, is_err, IfOk, OnErr};
ghost use Rattle.std.specs.Io.KnownBytes.{prepend_known, IsAtEnd};
ghost use Rattle.streams.specs.Counts.{Counts};

use super::Failed;

/// What gives bytes up to an end, and counts the calls that failed.
pub trait Source {
    /// The bytes that are left, where the source tells them.
    ghost left: { Self → Option (List ℕ) };

    /// How many calls have failed. It never falls.
    ghost faults: { Self → ℕ };

    /// Puts the next bytes at the start of `into`, and returns how many. It gives none to a nonempty `into` only at the end.
    ///
    /// # Errors
    ///
    /// `Failed`, where the count of faults rose. The bytes that are left stay.
    fn read(&mut self, into: &mut [u8]) -> Result<usize, Failed>
        ensures bound { IfOk result (λ n. n ≤ length into.new) }
        ensures bytes { IfOk result (λ n. left self.old ≡ prepend_known (take n into.new) (left self.new)) }
        ensures end { IfOk result (λ n. n ≡ 0 → 0 < length into.new → IsAtEnd (left self.new)) }
        ensures err { OnErr result (left self.new ≡ left self.old) }
        ensures faults { Counts (is_err result) (faults self.old) (faults self.new) };
}
