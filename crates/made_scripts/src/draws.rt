//! The numbers that a made script draws.

ghost use Rattle.std.specs.Prelude.{◌≡◌, ◌<◌};
ghost use Rattle.made_scripts.specs.Draws.{drawn, next_state};

use std::marker::Model;

const FACTOR: u64 = 6_364_136_223_846_793_005;

const SUMMAND: u64 = 1_442_695_040_888_963_407;

/// A source of numbers: a linear congruence modulo 2^64. Contracts see its state.
#[derive(Clone, Debug, Drop)]
pub struct Draws {
    state: u64,
}

impl Model for Draws {
    ghost use Rattle.std.specs.Prelude.{ℕ};

    ghost Value = { ℕ };

    ghost view = { λ a. a.state };
}

impl Draws {
    /// The draws that a seed gives.
    pub fn new(seed: u64) -> Draws
        ensures { result ≡ seed }
    {
        Draws { state: seed }
    }

    /// Draws a number below this one, which is not 0.
    #[tactic(auto, using(crate::proofs::Numbers::next_computed, crate::proofs::Numbers::not_more), unfolding(crate::specs::Draws::drawn))]
    pub fn draw(&mut self, below: usize) -> u32
        requires { 0 < below }
        ensures after { self.new ≡ next_state self.old }
        ensures drawn { result ≡ drawn (next_state self.old) below }
        ensures small { result < below }
    {
        self.state = self.state.wrapping_mul(FACTOR).wrapping_add(SUMMAND);
        ((self.state >> 33) as usize % below) as u32
    }
}
