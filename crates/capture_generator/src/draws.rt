// The numbers that are drawn from a seed.
ghost use Rattle.std.specs.Prelude.{◌≡◌, length, IfOk};
ghost use Rattle.capture_generator.specs.Draws.{given_by, letter_of, letters, next_state, state_after};

use std::alloc::{AllocError, Global};

const MULTIPLIER: u64 = 6_364_136_223_846_793_005;

const INCREMENT: u64 = 1_442_695_040_888_963_407;

/// Numbers drawn one behind the other. The seed is the state that they begin with.
#[derive(Clone, Copy, Debug)]
pub struct Draws {
    /// What the next draw is made from.
    pub state: u64,
}

impl Draws {
    /// The next number, which is below 2^31. Equal seeds give equal numbers.
    pub fn draw(&mut self) -> u32
        ensures state { self.new.state ≡ next_state self.old.state }
        ensures number { result ≡ given_by (next_state self.old.state) }
    {
        self.state = self.state.wrapping_mul(MULTIPLIER).wrapping_add(INCREMENT);
        (self.state >> 33) as u32
    }

    /// A letter from `a` to `z` by one draw.
    pub fn letter(&mut self) -> u8
        ensures state { self.new.state ≡ next_state self.old.state }
        ensures letter { result ≡ letter_of (given_by (next_state self.old.state)) }
    {
        b'a' + (self.draw() % 26) as u8
    }

    /// So many letters, by as many draws.
    #[tactic(auto, unfolding(crate::specs::Draws::letters, crate::specs::Draws::state_after))]
    pub(crate) fn letters(&mut self, alloc: Global, number: u32) -> Result<Vec<u8>, AllocError>
        ensures state { IfOk result (λ _. self.new.state ≡ state_after self.old.state number) }
        ensures letters { IfOk result (λ drawn. drawn.items ≡ letters self.old.state number) }
        ensures count { IfOk result (λ drawn. length drawn.items ≡ number) }
    {
        let mut drawn = Vec::with_capacity(alloc, number as usize)?;
        for _ in 0..number {
            drawn.push(self.letter())?;
        }
        Ok(drawn)
    }
}
