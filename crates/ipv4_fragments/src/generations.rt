ghost use Rattle.std.specs.Prelude.{◌≡◌, ℕ, ◌-◌, ◌+◌, ◌^◌, ◌<◌, List, [], ◌∷◌, ◌++◌, length, Some, IfSome, IfOk, OnOk};
ghost use Rattle.std.specs.BTreeMap.{get};
ghost use Rattle.capture_terms.specs.Generations.{Timed, generation_at, times_of};
ghost use Rattle.capture_terms.specs.declared.plan.Group.{Group};
ghost use Rattle.ipv4_fragments.specs.Maps.{HasPut};
ghost use Rattle.ipv4_fragments.specs.Generations.{fragment_at, Tells, IsStill, is_later, newest_behind};
ghost use Rattle.ipv4_fragments.specs.GroupNumbers.{AreNumbered, IsNumberedWith};

use capture_terms::{Header, Piece, generation_law};
use std::alloc::{AllocError, Global};
use std::collections::BTreeMap;

/// What the fragments of one datagram have in common, and those of each later datagram for which the
/// identification is used again.
#[derive(Clone, Copy, Debug, PartialEq, Eq, PartialOrd, Ord)]
pub struct Key {
    header: Header,
    id: u16,
}

/// The newest generation of a key.
#[derive(Clone, Copy, Debug, PartialEq, Eq)]
pub struct Newest {
    /// When it began, in nanoseconds.
    began: u64,
    /// Its number, counted from 0.
    pub generation: u32,
    /// The number of its group.
    pub group: u32,
}

/// The newest generation of each key so far.
#[derive(Drop)]
pub struct Generations {
    /// How much later than the beginning of its generation a fragment may be, in nanoseconds.
    window: u64,
    newest: BTreeMap<Key, Newest>,
    /// The one that was told last. Most fragments follow one of their own datagram.
    last: Option<(Key, Newest)>,
}

// Whether a fragment is too late for this generation.
fn is_too_late(newest: &Newest, window: u64, time: u64) -> bool
    ensures { result ≡ is_later newest.now window time }
{
    time.saturating_sub(newest.began) > window
}

// Puts a fragment at a time behind those of its key, and tells the generation that is newest then. Its
// group is the next one where it begins with the fragment.
fn put<K: Ord + Drop>(
    newest: &mut BTreeMap<K, Newest>,
    key: K,
    window: u64,
    time: u64,
    next: u32,
) -> Result<Newest, AllocError>
    requires { IfSome (get K.cmp newest.old key) (λ n. n.generation < 2 ^ 32 - 1) }
    ensures told { IfOk result (λ told. told ≡ newest_behind (get K.cmp newest.old key) window time next) }
    ensures put { IfOk result (λ told. HasPut K.cmp newest.old newest.new key told) }
{
    let first = Newest {
        began: time,
        generation: 0,
        group: next,
    };
    let told = newest.entry(key)?.or_insert(first);
    if is_too_late(told, window, time) {
        *told = Newest {
            began: time,
            generation: told.generation + 1,
            group: next,
        };
    }
    Ok(*told)
}

impl Generations {
    /// No generations, which are to be parted by a window in nanoseconds.
    pub fn new(alloc: Global, window: u64) -> Generations
        ensures tells { Tells result [] }
        ensures numbered { AreNumbered result [] }
        ensures window { result.window ≡ window }
    {
        Generations {
            window,
            newest: BTreeMap::new(alloc),
            last: None,
        }
    }

    // The generation that was told last, if a fragment of this key at this time belongs to it.
    fn told_last(&self, key: &Key, time: u64) -> Option<Newest>
        ensures { IfSome result (IsStill self.now key.now time) }
    {
        let Some((last, newest)) = &self.last else {
            return None;
        };
        if last != key || is_too_late(newest, self.window, time) {
            return None;
        }
        Some(*newest)
    }

    /// The generation of a further fragment, which was captured at a time in nanoseconds, and the number
    /// of its group among those of the fragments so far, of which the next one has this number.
    pub fn tell(&mut self, piece: &Piece, time: u64, next: u32) -> Result<Newest, AllocError>
        requires { (frames : List Timed) × Tells self.old frames × (length frames < 2 ^ 32 - 1) }
        ensures generation { IfOk result (λ told. (frames : List Timed) → Tells self.old frames → told.generation ≡ generation_at self.old.window (times_of piece.now frames ++ time ∷ [])) }
        ensures tells { OnOk result ((frames : List Timed) → Tells self.old frames → Tells self.new (frames ++ fragment_at time piece.now ∷ [])) }
        ensures group { IfOk result (λ told. (frames : List Timed) (groups : List Group) → Tells self.old frames → AreNumbered self.old groups → next ≡ length groups → IsNumberedWith self.new groups piece.now told) }
        ensures window { self.new.window ≡ self.old.window }
    {
        generation_law();
        let key = Key {
            header: piece.header,
            id: piece.id,
        };
        if let Some(newest) = self.told_last(&key, time) {
            return Ok(newest);
        }
        let newest = put(&mut self.newest, key, self.window, time, next)?;
        self.last = Some((key, newest));
        Ok(newest)
    }
}
