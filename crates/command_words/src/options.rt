// The options of an inspection.
ghost use Rattle.std.specs.Prelude.{◌≡◌, ℕ, ◌<◌, ◌≤◌, ◌^◌, None, IfSome};
ghost use Rattle.std.specs.Fmt.{decimal};
ghost use Rattle.command_words.specs.Words.{number_in, with_option};
ghost use Rattle.command_words.specs.Limits.{IsOptionsWithin};

use itoa::Buffer;

/// The longest window: a day, in seconds.
const MAX_WINDOW: u64 = 86_400;

/// The most findings that may be asked for.
const MAX_FINDINGS: u64 = 1_048_576;

/// The most workers that may be asked for.
pub(crate) const MAX_WORKERS: u64 = 16;

/// The options that were given so far, each with its value.
#[derive(Clone, Copy, Debug)]
pub struct Options {
    /// The window in seconds.
    pub window: Option<u32>,
    /// The most findings.
    pub findings: Option<u32>,
    /// The number of workers.
    pub workers: Option<u32>,
}

/// No option.
pub(crate) const NO_OPTIONS: Options = Options {
    window: None,
    findings: None,
    workers: None,
};

// The number whose decimal digits the word is, if it is one below 2^64.
fn written(word: &str) -> Option<u64>
    ensures number { IfSome result (λ number. (number < 2 ^ 64) × (word.now ≡ decimal number)) }
    ensures none { result ≡ None → (number : ℕ) → number < 2 ^ 64 → word.now ≡ decimal number → ⊥ }
{
    let Ok(number) = word.parse::<u64>() else {
        return None;
    };
    let mut buffer = Buffer::new();
    if buffer.format(number).as_bytes() == word.as_bytes() {
        Some(number)
    } else {
        None
    }
}

/// The number that a word writes in decimal digits, without a sign or a zero in front, if it is from
/// `least` up to `most`.
pub(crate) fn number_in(word: &str, least: u64, most: u64) -> Option<u64>
    ensures number { result ≡ number_in least most word.now }
    ensures least { IfSome result (λ number. least ≤ number) }
    ensures most { IfSome result (λ number. number ≤ most) }
{
    let number = written(word)?;
    if least <= number && number <= most {
        Some(number)
    } else {
        None
    }
}

impl Options {
    /// These with one more, of this word and value. There is none where the word is no option, or one
    /// that was given already, or where the value is none of the option's.
    #[tactic(auto, unfolding(crate::specs::Words::with_option))]
    pub fn with(self, word: &str, value: &str) -> Option<Options>
        ensures with { result ≡ with_option self word.now value.now }
        ensures within { IsOptionsWithin self → IfSome result IsOptionsWithin }
    {
        if word == "--window" && self.window.is_none() {
            let window = number_in(value, 1, MAX_WINDOW)?;
            Some(Options {
                window: Some(window as u32),
                ..self
            })
        } else if word == "--findings" && self.findings.is_none() {
            let findings = number_in(value, 1, MAX_FINDINGS)?;
            Some(Options {
                findings: Some(findings as u32),
                ..self
            })
        } else if word == "--workers" && self.workers.is_none() {
            let workers = number_in(value, 1, MAX_WORKERS)?;
            Some(Options {
                workers: Some(workers as u32),
                ..self
            })
        } else {
            None
        }
    }
}
