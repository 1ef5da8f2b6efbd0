//! Bytes for users and tokens.
ghost use Rattle.std.specs.Prelude.{None};

use push_outside::Draw;

/// The upper bytes of a linear congruential sequence, the same in each run. They are for measuring alone: anyone can tell the
/// next.
#[derive(Clone, Copy)]
pub struct MixedDraw {
    state: u64,
}

impl MixedDraw {
    /// The sequence from its first number on.
    pub fn new() -> MixedDraw {
        MixedDraw { state: 1 }
    }
}

impl Draw for MixedDraw {
    ghost given = { λ _. None };

    fn next(&mut self) -> u8 {
        let product = self.state.wrapping_mul(6_364_136_223_846_793_005);
        self.state = product.wrapping_add(1_442_695_040_888_963_407);
        (self.state >> 56) as u8
    }

    fn fork(&mut self) -> MixedDraw {
        *self
    }
}
