//! The generator of the load.

ghost use Rattle.std.specs.Prelude.{◌≡◌, ◌<◌, ◌%◌, ◌^◌};
ghost use Rattle.relation_demo.specs.Draws.{after, draw};

use std::marker::Model;

/// A linear congruential generator, of which the upper 31 bits are drawn.
#[derive(Drop)]
pub(crate) struct Draws {
    number: u64,
}

impl Model for Draws {
    ghost use Rattle.std.specs.Prelude.{ℕ};

    ghost Value = { ℕ };

    ghost view = { λ d. d.number };
}

impl Draws {
    /// The draws from a seed on.
    pub(crate) fn new(seed: u64) -> Draws
        ensures { result ≡ seed }
    {
        Draws { number: seed }
    }

    /// The next draw.
    pub(crate) fn draw(&mut self) -> u32
        ensures draw { result ≡ draw self.old 0 }
        ensures below { result < 2 ^ 31 }
        ensures after { self.new ≡ after self.old 1 }
    {
        self.number = stepped(self.number);
        (self.number >> 33) as u32
    }

    /// The next draw modulo a number.
    pub(crate) fn below(&mut self, bound: u32) -> u32
        requires { 0 < bound }
        ensures draw { result ≡ draw self.old 0 % bound }
        ensures after { self.new ≡ after self.old 1 }
    {
        self.draw() % bound
    }
}

/// The generator's number after a step.
fn stepped(number: u64) -> u64
    ensures { result ≡ after number 1 }
{
    number
        .wrapping_mul(6_364_136_223_846_793_005)
        .wrapping_add(1_442_695_040_888_963_407)
}
