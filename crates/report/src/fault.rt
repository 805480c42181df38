ghost use Rattle.std.specs.Prelude.{◌≡◌};
ghost use Rattle.report.specs.Fault.{cause_of, status_of};

use capture_terms::CaptureFault;

/// Why a run ended without writing all of its output.
#[derive(Clone, Copy, Debug)]
pub enum Fault<'a> {
    /// The words of the command line are none that the program knows.
    Usage,
    /// The file of this name couldn't be read.
    Read(&'a str),
    /// The output couldn't be written.
    Write,
    /// This line of the rules, counted from 1, is the first that is none.
    Rules { line: u32 },
    /// The capture is refused.
    Capture(CaptureFault),
    /// The file of this name is longer than 67,108,864 bytes.
    LimitFile(&'a str),
    /// The capture has more than 262,144 frames.
    LimitFrames,
    /// There are more than 1,024 rules.
    LimitRules,
    /// There are more findings than a report may have.
    LimitFindings,
    /// Memory ran out.
    Memory,
    /// The journal is no legal one, and this line, counted from 1, is the first up to which it begins none.
    NotLegal { line: u64 },
}

impl Fault<'_> {
    /// The status that the program ends with.
    pub fn status(&self) -> u8
        ensures { result ≡ status_of (cause_of self.now) }
    {
        match self {
            Fault::Usage => 1,
            Fault::Read(_) => 2,
            Fault::Write => 3,
            Fault::Rules { .. } => 4,
            Fault::Capture(_) => 5,
            Fault::LimitFile(_) | Fault::LimitFrames | Fault::LimitRules | Fault::LimitFindings =>
                6,
            Fault::Memory => 7,
            Fault::NotLegal { .. } => 9,
        }
    }
}

/// The part of a fault's line that differs from one fault of its kind to another.
#[derive(Clone, Copy)]
pub(crate) enum Detail<'a> {
    Text(&'a [u8]),
    Number(u64),
    NumberAt { number: u64, at: u64 },
}
