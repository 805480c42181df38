// A number for each caller.
ghost use Rattle.std.specs.Prelude.{◌≡◌, ◌<◌, ◌==◌, ℕ, if◌then◌else◌};
ghost use Rattle.history_audit.specs.Counts.{count_of};

/// How many callers a run has at most.
pub(crate) const CALLERS: u32 = 16;

/// A number for each caller, at first 0.
#[derive(Drop)]
pub(crate) struct Counts {
    of: [u64; 16],
}

impl Counts {
    pub(crate) fn new() -> Counts
        ensures { (k : ℕ) → k < 16 → count_of result k ≡ 0 }
    {
        Counts { of: [0; 16] }
    }

    pub(crate) fn get(&self, caller: u32) -> u64
        requires { caller < 16 }
        ensures { result ≡ count_of self.now caller }
    {
        self.of[caller as usize]
    }

    pub(crate) fn set(&mut self, caller: u32, number: u64)
        requires { caller < 16 }
        ensures { (k : ℕ) → k < 16 → count_of self.new k ≡ (if caller == k then number else count_of self.old k) }
    {
        self.of[caller as usize] = number;
    }
}
