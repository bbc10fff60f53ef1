//! Numbers that look random, the same in each run.
ghost use Rattle.std.specs.Prelude.{◌<◌};

use rand_core::{Rng, SeedableRng};
use rand_xoshiro::Xoshiro128PlusPlus;

/// A source of numbers.
#[derive(Drop)]
pub struct Dice {
    generator: Xoshiro128PlusPlus,
}

impl Dice {
    /// The numbers of a seed.
    pub fn new(seed: u32) -> Dice {
        Dice {
            generator: Xoshiro128PlusPlus::seed_from_u64(u64::from(seed)),
        }
    }

    /// Any word.
    pub fn word(&mut self) -> u32 {
        self.generator.next_u32()
    }

    /// A number below another.
    pub fn below(&mut self, count: u32) -> u32
        requires { 0 < count }
        ensures { result < count }
    {
        self.generator.next_u32() % count
    }
}
