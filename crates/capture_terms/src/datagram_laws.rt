ghost use Rattle.std.specs.Prelude.{◌≡◌, ◌↔◌, ℕ, ◌<◌, ◌≤◌, List, count_by, sum_by, All, AllPairs, length, take, drop, None, [], ◌∷◌, ◌+◌};
ghost use Rattle.capture_terms.specs.declared.plan.Task.{Task};
ghost use Rattle.capture_terms.specs.Datagram.{ArePacked, holds, end_of_task, payload_of, IsDatagramAt, IsSound};
ghost use Rattle.capture_terms.specs.Groups.{NumbersAreOfTasks};
ghost use Rattle.capture_terms.specs.Plan.{IsClassifiable, IsPlan};
ghost use Rattle.capture_terms.specs.declared.capture.Capture.{Capture};
ghost use Rattle.capture_terms.specs.declared.plan.Plan.{Plan};

/// Ranges that share no place and lie below an end: their lengths sum to at most that end, and to
/// the end exactly where each place below it is in one of them, and then in one alone.
pub fn packing_law()
    ensures most { (end : ℕ) (tasks : List Task) → ArePacked end tasks → sum_by (λ t. t.length) tasks ≤ end }
    ensures exact { (end : ℕ) (tasks : List Task) → ArePacked end tasks → ((sum_by (λ t. t.length) tasks ≡ end) ↔ ((place : ℕ) → place < end → count_by (holds place) tasks ≡ 1)) }
{}

/// The tasks of a plan's datagram lie in the file and fill its data.
pub fn datagram_law()
    ensures { (bytes : List ℕ) (capture : Capture) (window : ℕ) (plan : Plan) (numbers : List ℕ) (datagram : List Task) → IsClassifiable bytes capture → IsPlan bytes capture window plan → IsDatagramAt plan.tasks.items numbers datagram → IsSound bytes datagram }
{}

/// The numbers by which a datagram is asked for are those of its tasks, and of no others.
pub fn numbers_law()
    ensures { NumbersAreOfTasks }
{}

/// Each task's data lies in the file, the tasks stand in the order of their frames, and the data of a
/// whole datagram is a piece of the file.
pub fn task_law()
    ensures inside { (bytes : List ℕ) (capture : Capture) (window : ℕ) (plan : Plan) → IsClassifiable bytes capture → IsPlan bytes capture window plan → All (λ task. task.from + task.length ≤ length bytes) plan.tasks.items }
    ensures short { (bytes : List ℕ) (capture : Capture) (window : ℕ) (plan : Plan) → IsClassifiable bytes capture → IsPlan bytes capture window plan → All (λ task. end_of_task task ≤ 65535) plan.tasks.items }
    ensures ascending { (bytes : List ℕ) (capture : Capture) (window : ℕ) (plan : Plan) → IsPlan bytes capture window plan → AllPairs (λ s t. s.frame < t.frame) plan.tasks.items }
    ensures whole { (bytes : List ℕ) (capture : Capture) (window : ℕ) (plan : Plan) → IsClassifiable bytes capture → IsPlan bytes capture window plan → All (λ task. task.group ≡ None → payload_of bytes (task ∷ []) ≡ take task.length (drop task.from bytes)) plan.tasks.items }
{}
