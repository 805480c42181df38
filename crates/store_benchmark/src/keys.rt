//! The keys that a thread's transactions are for.
ghost use Rattle.std.specs.Prelude.{◌+◌, ◌<◌};

use rand_core::{Rng, SeedableRng};
use rand_xoshiro::Xoshiro256PlusPlus;

// The keys that a thread has for its own, of which there are 16 times as many.
const OWN_KEYS: u32 = 4_096;

/// The keys of one thread alone, one after another.
#[derive(Drop)]
pub(crate) struct OwnKeys {
    thread: u32,
    last: u32,
}

impl OwnKeys {
    /// Those of the thread with this number, counted by 16.
    pub(crate) fn of(thread: u32) -> OwnKeys {
        OwnKeys { thread, last: 0 }
    }

    /// The next four.
    pub(crate) fn next_four(&mut self) -> [u16; 4] {
        [self.next(), self.next(), self.next(), self.next()]
    }

    /// The next two.
    pub(crate) fn next_two(&mut self) -> [u16; 2] {
        [self.next(), self.next()]
    }

    fn next(&mut self) -> u16 {
        self.last = (self.last % OWN_KEYS + 1) % OWN_KEYS;
        (self.thread % 16 * OWN_KEYS + self.last) as u16
    }
}

/// Keys at random. Each word that is drawn gives four.
#[derive(Drop)]
pub(crate) struct RandomKeys {
    random: Xoshiro256PlusPlus,
    word: u64,
    left: u32,
}

impl RandomKeys {
    /// Those of a thread, drawn by this seed.
    pub(crate) fn of(seed: u64, thread: u32) -> RandomKeys {
        RandomKeys {
            random: Xoshiro256PlusPlus::seed_from_u64(seed.wrapping_add(u64::from(thread))),
            word: 0,
            left: 0,
        }
    }

    /// The next four.
    pub(crate) fn next_four(&mut self) -> [u16; 4] {
        [self.next(), self.next(), self.next(), self.next()]
    }

    /// The next two.
    pub(crate) fn next_two(&mut self) -> [u16; 2] {
        [self.next(), self.next()]
    }

    /// The next ten.
    pub(crate) fn next_ten(&mut self) -> [u16; 10] {
        let [a, b, c, d] = self.next_four();
        let [e, f, g, h] = self.next_four();
        [a, b, c, d, e, f, g, h, self.next(), self.next()]
    }

    fn next(&mut self) -> u16 {
        if self.left == 0 {
            self.word = self.random.next_u64();
            self.left = 4;
        }
        let key = (self.word % 65_536) as u16;
        self.word /= 65_536;
        self.left -= 1;
        key
    }
}
