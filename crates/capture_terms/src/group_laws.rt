ghost use Rattle.std.specs.Prelude.{◌≡◌, List, ℕ, true, Some, Contains, slice_get};
ghost use Rattle.capture_terms.specs.Groups.{AreGrouped, LeastIsFirst};
ghost use Rattle.capture_terms.specs.Plan.{IsClassifiable, IsPlan};
ghost use Rattle.capture_terms.specs.declared.capture.Capture.{Capture};
ghost use Rattle.capture_terms.specs.Datagram.{end_of_task, size_of, is_member, is_complete, members};
ghost use Rattle.capture_terms.specs.declared.plan.Plan.{Plan};
ghost use Rattle.capture_terms.specs.declared.plan.Task.{Task};

/// The tasks of a plan are grouped by its groups, and those of a group can stand in one datagram.
pub fn group_law()
    ensures { (bytes : List ℕ) (capture : Capture) (window : ℕ) (plan : Plan) → IsClassifiable bytes capture → IsPlan bytes capture window plan → AreGrouped plan.tasks.items plan.groups.items }
{}

/// The members of a group are the tasks that name it, and a complete group has a task that is last
/// and ends where the group's bytes are as many as the places before it.
pub fn member_law()
    ensures named { (number : ℕ) (task : Task) → is_member number task ≡ true → task.group ≡ Some number }
    ensures each { (tasks : List Task) (number i : ℕ) (task : Task) → slice_get tasks i ≡ Some task → task.group ≡ Some number → Contains (members tasks number) task }
    ensures only { (tasks : List Task) (number : ℕ) (task : Task) → Contains (members tasks number) task → (i : ℕ) × (slice_get tasks i ≡ Some task) × (task.group ≡ Some number) }
    ensures complete { (tasks : List Task) → is_complete tasks ≡ true → (task : Task) × Contains tasks task × (task.last ≡ true) × (size_of tasks ≡ end_of_task task) }
{}

/// A datagram that is asked for by the numbers of its tasks begins with the task of the least number.
pub fn first_law()
    ensures { LeastIsFirst }
{}
