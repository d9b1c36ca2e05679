//! The generator.
ghost use Rattle.std.specs.Prelude.{◌≡◌, ◌<◌, ◌^◌};
ghost use Rattle.soak_input.specs.Generator.{draw_at, next};

use std::marker::Model;

/// A linear congruential generator, that of Knuth's MMIX. Contracts see its number.
#[derive(Clone, Copy)]
pub struct Generator {
    number: u64,
}

impl Model for Generator {
    ghost use Rattle.std.specs.Prelude.{ℕ};

    ghost Value = { ℕ };

    ghost view = { λ g. g.number };

    ghost inverse = { λ n. record { number = n } };
}

impl Generator {
    /// A generator that begins with this number.
    pub fn new(number: u64) -> Generator
        ensures { result ≡ number }
    {
        Generator { number }
    }

    /// Goes on to the next number, and gives its upper 31 bits.
    pub fn draw(&mut self) -> u32
        ensures next { self.new ≡ next self.old }
        ensures draw { result ≡ draw_at (next self.old) }
    {
        self.number = self
            .number
            .wrapping_mul(6_364_136_223_846_793_005)
            .wrapping_add(1_442_695_040_888_963_407);
        (self.number >> 33) as u32
    }
}
