ghost use Rattle.std.specs.Prelude.{◌≡◌, ℕ, ◌^◌, ◌-◌, ◌<◌, ◌≤◌, ℤ, List, length, Ok, Some, IfOk};
ghost use Rattle.pair_rows.specs.Instance.{Instance};
ghost use Rattle.pair_rows.specs.Limits.{IsInstance};
ghost use Rattle.pair_rows.specs.Program.{program_of};
ghost use Rattle.pair_rows.specs.Shown.{instance_in};
ghost use Rattle.problem_theory.specs.Theory.{Theory, Agrees, CanDraw, IsRead, drawn};

use dp_model::OutOfMemory;
use pair_rows::PairRows;
use problem_theory::ReadInstanceError;
use std::alloc::Global;

/// A problem whose instances list variables of two values, and what each and each two of them give.
pub trait PairProblem: Send + Sync + Drop {
    /// The numbers that describe the instance.
    ghost numbers: { Self → List ℤ };

    /// The variables and pairs of the instance that such numbers spell.
    ghost listed: { List ℤ → Instance };

    /// What the problem is: the texts of its instances, the program of an instance, its own words, and the instances that are drawn.
    ghost theory: { Theory };

    /// The rows of the variables and pairs of the instance. Fails only for want of memory.
    fn rows(alloc: Global, problem: &Self) -> Result<PairRows, OutOfMemory>
        ensures { IfOk result (λ rows. instance_in rows ≡ listed (numbers problem.now)) };

    /// The instance that the text, of less than 2^32 - 1 bytes, spells.
    ///
    /// # Errors
    ///
    /// `Refused` with the first fault, exactly if the text spells no instance. `OutOfMemory` for want of memory.
    fn read(alloc: Global, bytes: &[u8]) -> Result<Self, ReadInstanceError>
        requires { length bytes.now < 2 ^ 32 - 1 }
        ensures { IsRead numbers result (theory.spelled bytes.now) };

    /// The canonical text of the instance, which has at most 2^30 bytes and spells the instance. Fails only for want of memory.
    fn print(alloc: Global, problem: &Self) -> Result<Vec<u8>, OutOfMemory>
        ensures text { IfOk result (λ text. text.items ≡ theory.canonical (numbers problem.now)) }
        ensures short { IfOk result (λ text. length text.items ≤ 2 ^ 30) }
        ensures reads_back { IfOk result (λ text. theory.spelled text.items ≡ Ok (numbers problem.now)) };

    /// The value of the decisions in the problem's own words, or `None` exactly if they are no solution.
    fn value_of(problem: &Self, decisions: &[u32]) -> Option<i64>
        ensures { result ≡ theory.own_value (numbers problem.now) decisions.now };

    /// The instance of size `n` that is drawn from a seed below 2^31. It depends on the size and the seed alone. Fails only for want of
    /// memory.
    fn generate(alloc: Global, n: u32, seed: u32) -> Result<Self, OutOfMemory>
        requires size { CanDraw theory.drawing n }
        requires seed { seed < 2 ^ 31 }
        ensures { IfOk result (λ problem. Some (numbers problem) ≡ drawn theory.drawing n seed) };

    /// What is listed keeps to the limits.
    ghost kept: { (p : Self) → IsInstance (listed (numbers p)) };

    /// The program of what is listed is that of the theory.
    ghost same_program: { (list : List ℤ) → program_of (listed list) ≡ theory.program list };

    /// The own words and the dynamic program speak of the same solutions.
    ghost agrees: { (p : Self) → Agrees (program_of (listed (numbers p))) (theory.own_value (numbers p)) };
}
