ghost use Rattle.std.specs.Prelude.{◌≡◌, ◌≤◌, ◌/◌, ◌^◌, ℕ, decimal, length};
ghost use Rattle.load_gen.specs.Generator.{next_state, number_in};

use std::marker::Model;

/// What the state is multiplied by at each draw.
const MULTIPLIER: u64 = 6_364_136_223_846_793_005;

/// What is added to the state at each draw.
const INCREMENT: u64 = 1_442_695_040_888_963_407;

/// There are words of this many numbers.
const NUMBERS: u64 = 4096;

/// A number is shifted down by less than this many places, so that low numbers come more often.
const SHIFTS: u64 = 12;

/// A linear congruential generator of 64 bits. Contracts see it as its state.
#[derive(Debug, Drop)]
pub(crate) struct Generator {
    state: u64,
}

impl Model for Generator {
    ghost Value = { ℕ };

    ghost view = { λ g. g.state };
}

impl Generator {
    pub(crate) fn new(seed: u64) -> Self
        ensures { result ≡ seed }
    {
        Generator { state: seed }
    }

    /// Makes one draw, and gives the number of its word.
    pub(crate) fn draw(&mut self) -> u64
        ensures state { self.new ≡ next_state self.old }
        ensures number { result ≡ number_in (self.new / 2 ^ 33) }
        ensures short { length (decimal result) ≤ 4 }
    {
        self.state = self.state.wrapping_mul(MULTIPLIER).wrapping_add(INCREMENT);
        number_of(self.state >> 33)
    }
}

/// The number that is cut from what a draw gives.
fn number_of(value: u64) -> u64
    ensures { result ≡ number_in value }
{
    (value % NUMBERS) >> (value / NUMBERS % SHIFTS)
}
