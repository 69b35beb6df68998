ghost use Rattle.std.specs.Prelude.{◌≡◌, ℕ, ◌≤◌, List, Option, length, take, is_err, IfOk, OnErr};
ghost use Rattle.std.specs.Io.KnownBytes.{append_known};
ghost use Rattle.streams.specs.Counts.{Counts};
ghost use Rattle.streams.specs.WriteErrors.{is_idle};

use super::Failed;

/// What takes bytes, and counts the calls that failed and those that took nothing.
pub trait Sink {
    /// The bytes that were taken, in order, where the sink tells them.
    ghost taken: { Self → Option (List ℕ) };

    /// How many calls have failed. It never falls.
    ghost faults: { Self → ℕ };

    /// How many calls took nothing of a nonempty piece. It never falls.
    ghost idle: { Self → ℕ };

    /// Takes bytes from the start of `piece`, and returns how many. It takes none of a nonempty one only where `idle` rose.
    ///
    /// # Errors
    ///
    /// `Failed`, where the count of faults rose. Nothing was taken.
    fn write(&mut self, piece: &[u8]) -> Result<usize, Failed>
        ensures bound { IfOk result (λ n. n ≤ length piece.now) }
        ensures bytes { IfOk result (λ n. taken self.new ≡ append_known (taken self.old) (take n piece.now)) }
        ensures err { OnErr result (taken self.new ≡ taken self.old) }
        ensures faults { Counts (is_err result) (faults self.old) (faults self.new) }
        ensures idle { Counts (is_idle result piece.now) (idle self.old) (idle self.new) };
}
