ghost use Rattle.std.specs.Prelude.{◌≡◌, ℕ, List};
ghost use Rattle.capture_terms.specs.Capture.{Answer, Contents, captured};
ghost use Rattle.pcapng_blocks.specs.Answer.{IsBlocksAnswer, IsSound};

/// No two answers are right about one file. So a file is at most one capture, it is not both a
/// capture and refused, and there is only one reason for which it is refused.
pub fn one_answer_law()
    ensures { (bytes : List ℕ) (one two : Answer) → IsBlocksAnswer bytes one → IsBlocksAnswer bytes two → one ≡ two }
{}

/// Each file has a right answer: it is a capture, or there is a reason to refuse it.
pub fn some_answer_law()
    ensures { (bytes : List ℕ) → (answer : Answer) × IsBlocksAnswer bytes answer }
{}

/// The capture that a file is has at most 262,144 frames, all of one accepted link type, with their
/// bytes in the file and their times below 2^32 seconds and a fraction below a second.
pub fn sound_law()
    ensures { (bytes : List ℕ) (contents : Contents) → IsBlocksAnswer bytes (captured contents) → IsSound bytes contents }
{}
