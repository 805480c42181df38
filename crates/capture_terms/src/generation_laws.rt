ghost use Rattle.std.specs.Prelude.{◌≡◌, ℕ, ◌<◌, ◌≤◌, List, [], ◌∷◌, ◌++◌, length, true};
ghost use Rattle.capture_terms.specs.Generations.{Timed, in_generations, kind_behind, generation_at, begins, beginnings, with_beginning};
ghost use Rattle.capture_terms.specs.Kept.{clash};
ghost use Rattle.capture_terms.specs.Worked.{CookedStarts, Generations, ClashesWithin};
ghost use Rattle.capture_terms.specs.declared.datagram.Piece.{Piece};

/// What one frame more, or one fragment more of a key, adds to what is known of those before it.
pub fn generation_law()
    ensures frame { (window : ℕ) (before : List Timed) (frame : Timed) → in_generations window (before ++ frame ∷ []) ≡ in_generations window before ++ kind_behind window before frame.time frame.kind ∷ [] }
    ensures beginning { (window : ℕ) (times : List ℕ) (time : ℕ) → beginnings window (times ++ time ∷ []) ≡ with_beginning window (beginnings window times) time }
{}

/// Fragments of different generations don't clash.
pub fn clash_law()
    ensures { (p q : Piece) → clash p q ≡ true → p.generation ≡ q.generation }
{}

/// Worked cases, each of which a definition that is wrong in one point would miss.
pub fn worked_law()
    ensures cooked { CookedStarts }
    ensures generations { Generations }
    ensures clashes { ClashesWithin }
{}
