//! Numbers that are drawn from a seed, for instances that are made and not read.
//!
//! It stands on std alone. `Draws` is a linear congruential generator modulo 2^31, of which a draw gives the upper 15 bits: the same
//! seed gives the same numbers everywhere. `specs/Draws.antt` says which, and what steps that draw make one after another, so that
//! each problem says what it makes of its draws and nothing more.
//!
//! ```
//! let mut draws = Draws::from_seed(7);
//! let weight = 1 + draws.draw() % 100;
//! ```
#![tactic(auto)]

ghost use Rattle.std.specs.Prelude.{◌≡◌, ◌<◌, ◌^◌};
ghost use Rattle.draws.specs.Draws.{next, drawn};

use std::marker::Model;

const MULTIPLIER: u64 = 1_103_515_245;

const INCREMENT: u64 = 12_345;

/// States are below this.
const MODULUS: u64 = 1 << 31;

/// A draw leaves out the lower 16 bits of the state.
const DROPPED: u32 = 1 << 16;

/// Where drawing stands: a state below 2^31, which is all that the numbers to come depend on.
#[derive(Debug, Drop)]
pub struct Draws {
    state: u32,
}

impl Model for Draws {
    ghost use Rattle.std.specs.Prelude.{ℕ, ◌<◌, ◌^◌};

    ghost Value = { ℕ };

    ghost view = { λ d. d.state };

    ghost invariant = { λ d. d.state < 2 ^ 31 };
}

impl Draws {
    /// Draws that begin at the seed.
    pub fn from_seed(seed: u32) -> Draws
        requires { seed < 2 ^ 31 }
        ensures { result ≡ seed }
    {
        Draws { state: seed }
    }

    /// The next number, from 0 to 32,767: the state is multiplied by 1,103,515,245, 12,345 is added, and of the remainder by 2^31
    /// the upper 15 bits are taken.
    #[tactic(auto, unfolding(crate::specs::Draws::next, crate::specs::Draws::drawn))]
    pub fn draw(&mut self) -> u32
        ensures number { result ≡ drawn self.old }
        ensures state { self.new ≡ next self.old }
        ensures below { result < 32768 }
    {
        let state = (u64::from(self.state) * MULTIPLIER + INCREMENT) % MODULUS;
        self.state = state as u32;
        self.state / DROPPED
    }
}

#[cfg(test)]
mod tests {
    use super::*;
    use std::test::Fail;

    #[test]
    fn draws_from_seed_0(rt: HostRuntime) -> Result<(), Fail> {
        let mut draws = Draws::from_seed(0);
        for wanted in [0u32, 21_468, 9_988, 22_117, 3_498, 16_927] {
            assert_eq!(rt; draws.draw(), wanted);
        }
        Ok(())
    }
}
