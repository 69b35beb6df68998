ghost use Rattle.std.specs.Prelude.{◌≡◌, ℕ, ◌^◌, ◌-◌, ◌<◌, ◌≤◌, ℤ, List, length, Ok, IfOk, option_map};
ghost use Rattle.problem_theory.specs.Theory.{Theory, Agrees, CanDraw, IsRead, drawn};

use crate::read_error::ReadInstanceError;
use dp_model::{DpModel, OutOfMemory};
use std::alloc::Global;

/// A problem with texts for its instances and words of its own for its solutions.
pub trait Problem: DpModel {
    /// What the problem is: the texts of its instances, the program of an instance, its own words, and the instances that are drawn.
    ghost theory: { Theory };

    /// The instance that the text, of less than 2^32 - 1 bytes, spells.
    ///
    /// # Errors
    ///
    /// `Refused` with the first fault, exactly if the text spells no instance. `OutOfMemory` for want of memory.
    fn read(alloc: Global, bytes: &[u8]) -> Result<Self, ReadInstanceError>
        requires { length bytes.now < 2 ^ 32 - 1 }
        ensures { IsRead Self.numbers result (theory.spelled bytes.now) };

    /// The canonical text of the instance, which has at most 2^30 bytes and spells the instance. Fails only for want of memory.
    fn print(alloc: Global, model: &Self) -> Result<Vec<u8>, OutOfMemory>
        ensures text { IfOk result (λ text. text.items ≡ theory.canonical (Self.numbers model.now)) }
        ensures short { IfOk result (λ text. length text.items ≤ 2 ^ 30) }
        ensures reads_back { IfOk result (λ text. theory.spelled text.items ≡ Ok (Self.numbers model.now)) };

    /// The value of the decisions in the problem's own words, or `None` exactly if they are no solution.
    fn value_of(model: &Self, decisions: &[u32]) -> Option<i64>
        ensures { result ≡ theory.own_value (Self.numbers model.now) decisions.now };

    /// The instance of size `n` that is drawn from a seed below 2^31. It depends on the size and the seed alone. `None` exactly if the
    /// problem has no drawn instances. Fails only for want of memory.
    fn generate(alloc: Global, n: u32, seed: u32) -> Result<Option<Self>, OutOfMemory>
        requires size { CanDraw theory.drawing n }
        requires seed { seed < 2 ^ 31 }
        ensures { IfOk result (λ model. option_map Self.numbers model ≡ drawn theory.drawing n seed) };

    /// The program of the interface is that of the theory.
    ghost same_program: { (numbers : List ℤ) → Self.meaning numbers ≡ theory.program numbers };

    /// The own words and the dynamic program speak of the same solutions.
    ghost agrees: { (m : Self) → Agrees (Self.meaning (Self.numbers m)) (theory.own_value (Self.numbers m)) };
}
