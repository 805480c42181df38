ghost use Rattle.std.specs.Prelude.{◌≡◌, ℕ, List, All};
ghost use Rattle.capture_terms.specs.Capture.{Answer, Contents, IsAnswer, IsWithin, Says};

/// No two answers are right about one file. So a file is at most one capture, it is not both a
/// capture and refused, and there is only one reason for which it is refused.
#[tactic(auto, using(crate::proofs::Answers::same_answer))]
pub fn one_answer()
    ensures { (bytes : List ℕ) (one two : Answer) → IsAnswer bytes one → IsAnswer bytes two → one ≡ two }
{}

/// The bytes of each frame of a capture lie in the file.
#[tactic(auto, using(crate::proofs::Records::frames_within))]
pub fn frames_lie_within()
    ensures { (bytes : List ℕ) (contents : Contents) → Says bytes contents → All (IsWithin bytes) contents.frames }
{}

/// Each file has a right answer: it is a capture, or there is a reason to refuse it.
#[tactic(auto, using(crate::proofs::Exists::right_answer))]
pub fn some_answer()
    ensures { (bytes : List ℕ) → (answer : Answer) × IsAnswer bytes answer }
{}
