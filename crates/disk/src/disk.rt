ghost use Rattle.std.specs.Prelude.{◌≡◌, ◌≤◌, ◌+◌, ℕ, Bool, List, Option, None, [], ◌∷◌, ◌++◌, length, take, drop, if◌then◌else◌, is_ok, is_err, IsTrue, IfOk, OnOk, OnErr};
ghost use Rattle.disk.specs.Counts.{Counts};
ghost use Rattle.disk.specs.Disk.{Holds, Torn, Partly, Follows, Only, SameOutcomes, Elapses, Keeps, FirstSync, first_sync};

use super::DiskFailed;

/// One file, and what a crash may leave of it.
///
/// Every call but `attach` wants a file to be attached. A call that fails says so, and its count of faults has risen.
/// `len`, `read_at` and `sync` change no byte that a read gives, and where they fail nothing that a crash may leave.
pub trait Disk {
    /// A file is attached.
    ghost attached: { Self → Bool };

    /// The disk tells its bytes. Of one that does not, as a real file, nothing is said of content.
    ghost tells: { Self → Bool };

    /// What a read gives.
    ghost seen: { Self → List ℕ };

    /// What a crash at this moment may leave.
    ghost may_leave: { Self → List ℕ → Type 0 };

    /// The moment, as a number that does not fall.
    ghost moment: { Self → ℕ };

    /// What a crash at some moment from that one on might have left, inside a call or between two.
    ghost left_since: { Self → ℕ → List ℕ → Type 0 };

    /// The first sync since the attaching that succeeded.
    ghost start: { Self → Option FirstSync };

    /// The names of the files that were attached, the first one first.
    ghost names: { Self → List (List ℕ) };

    /// What a read gave at the last try to attach a file.
    ghost found: { Self → List ℕ };

    /// How many calls have failed. It never falls.
    ghost faults: { Self → ℕ };

    /// Attaches the named file, and makes an empty one where there is none.
    ///
    /// # Errors
    ///
    /// `DiskFailed`; a file that was attached stays so, and no name is added.
    fn attach(&mut self, name: &str) -> Result<(), DiskFailed>
        ensures attached { OnOk result (IsTrue (attached self.new)) }
        ensures attached_err { OnErr result (attached self.new ≡ attached self.old) }
        ensures tells { tells self.new ≡ tells self.old }
        ensures names { names self.new ≡ (if is_ok result
            then names self.old ++ name.now ∷ []
            else names self.old) }
        ensures found { found self.new ≡ seen self.new }
        ensures start { start self.new ≡ None }
        ensures later { moment self.old ≤ moment self.new }
        ensures faults { Counts (is_err result) (faults self.old) (faults self.new) };

    /// The length of the file in bytes.
    ///
    /// # Errors
    ///
    /// `DiskFailed`.
    fn len(&mut self) -> Result<u64, DiskFailed>
        requires { IsTrue (attached self.old) }
        ensures len { IfOk result (λ n. IsTrue (tells self.old) → n ≡ length (seen self.old)) }
        ensures seen { seen self.new ≡ seen self.old }
        ensures crash { SameOutcomes (may_leave self.old) (may_leave self.new) }
        ensures time { Elapses (moment self.old) (moment self.new)
            (left_since self.old) (left_since self.new) (may_leave self.new) }
        ensures start { start self.new ≡ start self.old }
        ensures keeps { Keeps attached tells names found self.old self.new }
        ensures faults { Counts (is_err result) (faults self.old) (faults self.new) };

    /// Fills `into` with the bytes that stand at `at` and after it. The range lies in the file.
    ///
    /// # Errors
    ///
    /// `DiskFailed`; `into` then holds any bytes.
    fn read_at(&mut self, at: u64, into: &mut [u8]) -> Result<(), DiskFailed>
        requires attached { IsTrue (attached self.old) }
        requires range { IsTrue (tells self.old) → at + length into.old ≤ length (seen self.old) }
        ensures read { OnOk result (IsTrue (tells self.old) →
            into.new ≡ take (length into.old) (drop at (seen self.old))) }
        ensures seen { seen self.new ≡ seen self.old }
        ensures crash { SameOutcomes (may_leave self.old) (may_leave self.new) }
        ensures time { Elapses (moment self.old) (moment self.new)
            (left_since self.old) (left_since self.new) (may_leave self.new) }
        ensures start { start self.new ≡ start self.old }
        ensures keeps { Keeps attached tells names found self.old self.new }
        ensures faults { Counts (is_err result) (faults self.old) (faults self.new) };

    /// Writes `bytes` at `at`, over what is there and past the end; `at` is at most the length. Until a sync succeeds, a crash
    /// may leave any bytes in the range and past the old end.
    ///
    /// # Errors
    ///
    /// `DiskFailed`; a read then gives in the range, byte by byte, the old or the written one.
    fn write_at(&mut self, at: u64, bytes: &[u8]) -> Result<(), DiskFailed>
        requires attached { IsTrue (attached self.old) }
        requires range { IsTrue (tells self.old) → at ≤ length (seen self.old) }
        ensures written { OnOk result (IsTrue (tells self.old) →
            Holds (seen self.old) at bytes.now (seen self.new)) }
        ensures partly { OnErr result (IsTrue (tells self.old) →
            Partly at bytes.now (seen self.old) (seen self.new)) }
        ensures crash { Follows (Torn at (length bytes.now)) (may_leave self.old) (may_leave self.new) }
        ensures time { Elapses (moment self.old) (moment self.new)
            (left_since self.old) (left_since self.new) (may_leave self.new) }
        ensures start { start self.new ≡ start self.old }
        ensures keeps { Keeps attached tells names found self.old self.new }
        ensures faults { Counts (is_err result) (faults self.old) (faults self.new) };

    /// Puts all that was written on the disk: from then on a crash leaves what a read gives.
    ///
    /// # Errors
    ///
    /// `DiskFailed`; a crash may then leave what it might have left before.
    fn sync(&mut self) -> Result<(), DiskFailed>
        requires { IsTrue (attached self.old) }
        ensures durable { OnOk result (IsTrue (tells self.old) → Only (seen self.old) (may_leave self.new)) }
        ensures seen { seen self.new ≡ seen self.old }
        ensures crash_err { OnErr result (SameOutcomes (may_leave self.old) (may_leave self.new)) }
        ensures time { Elapses (moment self.old) (moment self.new)
            (left_since self.old) (left_since self.new) (may_leave self.new) }
        ensures start { start self.new ≡ (if is_ok result
            then first_sync (start self.old) (moment self.new) (seen self.old) (faults self.old)
            else start self.old) }
        ensures keeps { Keeps attached tells names found self.old self.new }
        ensures faults { Counts (is_err result) (faults self.old) (faults self.new) };

    /// This moment is one of those since an earlier one.
    ghost counts_now: { (disk : Self) (t : ℕ) (c : List ℕ) → t ≤ moment disk → may_leave disk c → left_since disk t c };

    /// Since this moment there is no other.
    ghost only_now: { (disk : Self) (c : List ℕ) → left_since disk (moment disk) c → may_leave disk c };
}
