//! Random bytes from a seed.
ghost use Rattle.std.specs.Prelude.{None};

use push_outside::Draw;
use rand_chacha::ChaCha20Rng;
use rand_core::{Rng, SeedableRng};
use std::random::RandomSource;

/// The bytes of a ChaCha20 generator (RFC 8439) with this seed. A fork has a seed of its own, which the generator draws.
#[derive(Drop)]
pub struct SeededDraw {
    generator: ChaCha20Rng,
    // bytes of the last word that weren't given yet, the least first, and how many they are
    word: u32,
    left: u8,
}

impl SeededDraw {
    /// The bytes of that seed, from the first on.
    pub fn new(seed: [u8; 32]) -> SeededDraw {
        SeededDraw {
            generator: ChaCha20Rng::from_seed(seed),
            word: 0,
            left: 0,
        }
    }

    /// The bytes of a seed that this machine draws, or `None` where it gives none.
    pub fn seeded(machine: &impl RandomSource) -> Option<SeededDraw> {
        let mut seed = [0; 32];
        match machine.fill_bytes(&mut seed) {
            Ok(()) => Some(SeededDraw::new(seed)),
            Err(_) => None,
        }
    }
}

impl Draw for SeededDraw {
    ghost given = { λ _. None };

    fn next(&mut self) -> u8 {
        if self.left == 0 {
            self.word = self.generator.next_u32();
            self.left = 4;
        }
        let byte = (self.word % 256) as u8;
        self.word /= 256;
        self.left -= 1;
        byte
    }

    fn fork(&mut self) -> SeededDraw {
        let mut seed = [0; 32];
        self.generator.fill_bytes(&mut seed);
        SeededDraw::new(seed)
    }
}
