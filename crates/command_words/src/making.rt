// A capture to make.
ghost use Rattle.std.specs.Prelude.{◌≤◌};

/// A capture that is to be generated.
#[derive(Clone, Copy, Debug)]
pub struct Making {
    /// What it is drawn from.
    pub seed: u64,
    /// How many frames it has, at most 262,144.
    pub frames: u32,
    ghost few: { frames ≤ 262144 },
}
