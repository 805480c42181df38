ghost use Rattle.std.specs.Prelude.{◌≡◌, ℕ, ◌+◌, ◌-◌, ◌^◌, ◌<◌, ◌≤◌, List, [], ◌∷◌, ◌++◌, length, IfOk, OnOk, option_to_list, vec_len, Option};
ghost use Rattle.capture_terms.specs.declared.datagram.Piece.{Piece};
ghost use Rattle.capture_terms.specs.declared.datagram.Kind.{Kind};
ghost use Rattle.capture_terms.specs.declared.plan.Group.{Group};
ghost use Rattle.capture_terms.specs.declared.plan.Task as declared;
ghost use Rattle.capture_terms.specs.Generations.{Timed, kind_behind};
ghost use Rattle.capture_terms.specs.Kept.{class_behind, kept_piece};
ghost use Rattle.capture_terms.specs.Plan.{task_of, task_at, IsClassifiable, IsPlan};
ghost use Rattle.ipv4_fragments.specs.Generations.{frame_at, Tells};
ghost use Rattle.ipv4_fragments.specs.GroupNumbers.{AreNumbered, HasPlaceIn, with_group_in};
ghost use Rattle.ipv4_fragments.specs.Groups.{Follows};
ghost use Rattle.ipv4_fragments.specs.Header.{HasPlaces};
ghost use Rattle.ipv4_fragments.specs.Sorting.{Holds};

use crate::generations::Generations;
use crate::groups::Groups;
use crate::header::kind_of;
use capture_terms::{Capture, Class, Kind, Link, Piece, Plan, Task, generation_law};
use std::alloc::{AllocError, Global};

/// What is made of the frames so far.
#[derive(Drop)]
pub struct Sorting {
    pub classes: Vec<Class>,
    pub tasks: Vec<Task>,
    pub generations: Generations,
    pub groups: Groups,
}

fn make_task(frame: u32, group: Option<u32>, piece: &Piece) -> Task
    ensures { result ≡ task_of frame group piece.now }
{
    Task {
        frame,
        group,
        header: piece.header,
        start: piece.start,
        from: piece.from,
        length: piece.length,
        last: piece.last,
    }
}

// What a further frame is that was captured at a time in nanoseconds, a fragment in its generation; and
// the number of the fragment's group, which is `next` where it is a new one.
fn in_generation(
    generations: &mut Generations,
    kind: &Kind,
    time: u64,
    next: u32,
) -> Result<(Kind, u32), AllocError>
    requires places { HasPlaces kind.now }
    requires tells { (frames : List Timed) × Tells generations.old frames × (length frames < 2 ^ 32 - 1) }
    ensures places { IfOk result (λ found. HasPlaces found.0) }
    ensures kind { IfOk result (λ found. (frames : List Timed) → Tells generations.old frames → found.0 ≡ kind_behind generations.old.window frames time kind.now) }
    ensures tells { OnOk result ((frames : List Timed) → Tells generations.old frames → Tells generations.new (frames ++ frame_at time kind.now ∷ [])) }
    ensures group { IfOk result (λ found. (frames : List Timed) (groups : List Group) → Tells generations.old frames → AreNumbered generations.old groups → next ≡ length groups → HasPlaceIn groups found.0 found.1 × AreNumbered generations.new (with_group_in groups found.0)) }
    ensures window { generations.new.window ≡ generations.old.window }
{
    let Kind::Fragment(piece) = kind else {
        return Ok((*kind, 0));
    };
    let newest = generations.tell(piece, time, next)?;
    let piece = Piece {
        generation: newest.generation,
        ..*piece
    };
    Ok((Kind::Fragment(piece), newest.group))
}

// Tells the class of a further frame, and adds its task, if it has one. The group is that of the
// fragment that it carries, if it carries one.
fn settle(
    alloc: Global,
    groups: &mut Groups,
    tasks: &mut Vec<Task>,
    number: u32,
    group: u32,
    kind: &Kind,
) -> Result<Class, AllocError>
    requires places { HasPlaces kind.now }
    requires place { HasPlaceIn groups.old.known kind.now group }
    requires long { vec_len groups.old.ranges ≡ length groups.old.known }
    ensures long { OnOk result (vec_len groups.new.ranges ≡ length groups.new.known) }
    ensures groups { OnOk result (groups.new.known ≡ with_group_in groups.old.known kind.now) }
    ensures class { IfOk result (λ class. (kept : List Piece) → Follows groups.old kept → (class ≡ class_behind kept kind.now) × Follows groups.new (kept ++ option_to_list (kept_piece class kind.now))) }
    ensures task { IfOk result (λ class. (task : Option declared.Task) × (tasks.new.items ≡ tasks.old.items ++ option_to_list task) × ((more : List Group) → task ≡ task_at (groups.new.known ++ more) number class kind.now)) }
{
    match kind {
        Kind::Other => Ok(Class::Other),
        Kind::Bad => Ok(Class::Bad),
        Kind::Cut => Ok(Class::Cut),
        Kind::Whole(piece) => {
            tasks.push(make_task(number, None, piece))?;
            Ok(Class::Whole)
        }
        Kind::Fragment(piece) => {
            if !groups.keep(alloc, piece, group)? {
                return Ok(Class::Aside);
            }
            tasks.push(make_task(number, Some(group), piece))?;
            Ok(Class::Kept)
        }
    }
}

impl Sorting {
    /// What is made of no frames, with room for what is made of so many. Generations are parted by a
    /// window in nanoseconds.
    pub fn with_room(alloc: Global, frames: usize, window: u64) -> Result<Sorting, AllocError>
        ensures holds { IfOk result (λ sorting. Holds sorting []) }
        ensures window { IfOk result (λ sorting. sorting.generations.window ≡ window) }
        ensures empty { IfOk result (λ sorting. length sorting.groups.known ≡ 0) }
    {
        let classes = Vec::with_capacity(alloc, frames)?;
        let tasks = Vec::with_capacity(alloc, frames)?;
        Ok(Sorting {
            classes,
            tasks,
            generations: Generations::new(alloc, window),
            groups: Groups::new(alloc),
        })
    }

    /// Adds what is made of a further frame, which was captured at a time in nanoseconds.
    pub fn add(
        &mut self,
        alloc: Global,
        number: u32,
        time: u64,
        kind: &Kind,
    ) -> Result<(), AllocError>
        requires places { HasPlaces kind.now }
        requires few { length self.old.groups.known < 2 ^ 32 - 1 }
        requires long { vec_len self.old.groups.ranges ≡ length self.old.groups.known }
        requires tells { (frames : List Timed) × Tells self.old.generations frames × (length frames < 2 ^ 32 - 1) }
        requires numbered { AreNumbered self.old.generations self.old.groups.known }
        ensures long { OnOk result (vec_len self.new.groups.ranges ≡ length self.new.groups.known) }
        ensures grows { OnOk result (length self.new.groups.known ≤ length self.old.groups.known + 1) }
        ensures window { self.new.generations.window ≡ self.old.generations.window }
        ensures holds { OnOk result ((frames : List Timed) → number ≡ length frames → Holds self.old frames → Holds self.new (frames ++ frame_at time kind.now ∷ [])) }
    {
        generation_law();
        let next = self.groups.known.len() as u32;
        let (kind, group) = in_generation(&mut self.generations, kind, time, next)?;
        let class = settle(
            alloc,
            &mut self.groups,
            &mut self.tasks,
            number,
            group,
            &kind,
        )?;
        self.classes.push(class)?;
        Ok(())
    }
}

/// Tells the class of each frame of a capture, and plans the work on its datagrams.
///
/// The fragments of one source, destination, protocol and identification are cut into generations: a
/// generation begins with the first of them, and with each that is later than the last beginning by
/// more than the window, in seconds. A fragment is kept unless it clashes with a kept fragment before
/// it of the same generation. The tasks are the whole datagrams and the kept fragments, and the
/// groups are those of the kept fragments, all in capture order.
///
/// The one error is want of memory.
pub fn classify(
    alloc: Global,
    capture: &Capture,
    bytes: &[u8],
    window: u32,
) -> Result<Plan, AllocError>
    requires { IsClassifiable bytes.now capture.now }
    ensures { IfOk result (λ plan. IsPlan bytes.now capture.now window plan) }
{
    let link = Link::numbered(capture.link);
    let nanoseconds = u64::from(window) * 1_000_000_000;
    let mut sorting = Sorting::with_room(alloc, capture.frames.len(), nanoseconds)?;
    for (number, frame) in capture.frames.iter().enumerate() {
        let kind = kind_of(link, bytes, frame);
        sorting.add(alloc, number as u32, frame.time(capture.nanos), &kind)?;
    }
    Ok(Plan {
        classes: sorting.classes,
        tasks: sorting.tasks,
        groups: sorting.groups.into_groups(),
    })
}
