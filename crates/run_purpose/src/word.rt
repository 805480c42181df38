//! The words of groups.
ghost use Rattle.std.specs.Prelude.{◌≡◌, ◌+◌, ◌<◌, ◌^◌, ◌==◌, ◌&&◌, not, true, if◌then◌else◌, length};
ghost use Rattle.run_stages.specs.FromCapture.{work_of_plan};
ghost use Rattle.run_stages.specs.Work.{group_word};
ghost use Rattle.run_purpose.specs.Heads.{old_head, old_bytes, old_end};

use crate::purpose::RunPurpose;
use capture_terms::Task;
use run_stages::from_capture::tasks_have_facts_law;

/// What a group's word says of the fragments that were added to it.
#[derive(Clone, Copy, Debug, PartialEq, Eq)]
pub struct GroupWord {
    /// The number of the task that was added last.
    pub head: u32,
    /// How many bytes were added.
    pub bytes: u16,
    /// The end of the last fragment where it was added, else 0.
    pub total: u16,
}

/// What is to be done for a fragment that is added to its group.
#[derive(Clone, Copy, Debug, PartialEq, Eq)]
pub struct Adding {
    /// The word that the group has from now on.
    pub word: u64,
    /// The task that was added before it, to which it is linked.
    pub link: Option<u64>,
    /// Whether the group is ready to be matched.
    pub ready: bool,
}

impl GroupWord {
    ghost use Rattle.run_purpose.specs.Words.{AreParts};

    /// The parts of a word.
    pub fn of(word: u64) -> GroupWord
        ensures { AreParts word result }
    {
        GroupWord {
            head: (word / 0x1_0000_0000) as u32,
            bytes: (word / 0x1_0000 % 0x1_0000) as u16,
            total: (word % 0x1_0000) as u16,
        }
    }

    /// The word of these parts.
    pub fn number(self) -> u64
        ensures { result ≡ group_word self.head self.bytes self.total }
    {
        u64::from(self.head) * 0x1_0000_0000
            + u64::from(self.bytes) * 0x1_0000
            + u64::from(self.total)
    }
}

impl<'b> RunPurpose<'b> {
    ghost use Rattle.run_purpose.specs.Words.{FitsWord, IsAdding};

    /// What is to be done for a fragment, by the number of its task, that is added to a group with this word, if it has one.
    pub fn adding(&self, number: u32, old: Option<u64>) -> Adding
        requires there { number < length self.now.plan.now.tasks.items }
        requires fits { FitsWord (work_of_plan self.now.rules.now self.now.bytes.now self.now.plan.now) number old }
        ensures { IsAdding (work_of_plan self.now.rules.now self.now.bytes.now self.now.plan.now) number old result }
    {
        tasks_have_facts_law();
        let task = &self.plan.tasks[number as usize];
        let (link, before) = parts_of(old);
        let bytes = before.bytes + task.length as u16;
        let total = total_with(task, before.total);
        let word = GroupWord {
            head: number,
            bytes,
            total,
        };
        Adding {
            word: word.number(),
            link,
            ready: is_whole(bytes, total),
        }
    }
}

// The end of the last fragment, where it is the task or was added before, else 0.
fn total_with(task: &Task, before: u16) -> u16
    requires { task.now.last ≡ true → task.now.start + task.now.length < 2 ^ 16 }
    ensures { result ≡ if task.now.last then task.now.start + task.now.length else before }
{
    if task.last {
        (task.start + task.length) as u16
    } else {
        before
    }
}

// Whether so many bytes are all that end there, if the end is known.
fn is_whole(bytes: u16, total: u16) -> bool
    ensures { result ≡ (bytes == total && not (total == 0)) }
{
    bytes == total && total != 0
}

// The old head, if there was one, and the parts of the old word, which are 0 where there was none.
fn parts_of(old: Option<u64>) -> (Option<u64>, GroupWord)
    ensures link { result.0 ≡ old_head old }
    ensures bytes { result.1.bytes ≡ old_bytes old }
    ensures total { result.1.total ≡ old_end old }
{
    match old {
        None => (
            None,
            GroupWord {
                head: 0,
                bytes: 0,
                total: 0,
            },
        ),
        Some(word) => {
            let parts = GroupWord::of(word);
            (Some(u64::from(parts.head)), parts)
        }
    }
}
