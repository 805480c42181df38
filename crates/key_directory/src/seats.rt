//! How seats at the table are cut in two and made one.
ghost use Rattle.std.specs.Prelude.{◌≡◌, ◌<◌, []};
ghost use Rattle.key_directory.specs.Moves.{Knows, with_step, kept_part, moved_part, both_parts};
ghost use Rattle.key_directory.specs.declared.view.Step.TheVariants.{Meeting};

use crate::key_test::KeyTest;
use crate::plays::{CutBy, Moved, Rejoin, TellMeeting};
use crate::rule::{Place, Words};

/// A seat for n of the callers.
pub fn split_off<K: KeyTest, N: Moved>(words: &Words<K>, place: &mut Place, n: u32) -> Place
    requires pick { N.callers ≡ n }
    requires table { (place.old.table_id ≡ words.now.table_id) × (0 < words.now.table_id.words) }
    requires callers { (0 < n) × (n < place.old.me.0.callers) }
    ensures kept { (place.new.table_id ≡ place.old.table_id) × (place.new.id ≡ place.old.id) × (place.new.me ≡ (kept_part n place.old.me.0, place.old.me.1)) }
    ensures moved { (result.table_id ≡ place.old.table_id) × (result.me ≡ (moved_part n place.old.me.0, [])) }
{
    let _ = n;
    words.split_seat::<CutBy<N>>(place)
}

fn merge<K: KeyTest>(words: &Words<K>, place: &mut Place, other: Place)
    requires table { (place.old.table_id ≡ words.now.table_id) × (other.table_id ≡ words.now.table_id) × (0 < words.now.table_id.words) }
    requires slots { other.me.1 ≡ [] }
    requires callers { 0 < place.old.me.0.callers }
    ensures { (place.new.table_id ≡ place.old.table_id) × (place.new.id ≡ place.old.id) × (place.new.me ≡ (both_parts place.old.me.0 other.me.0, place.old.me.1)) }
{
    words.join_seat::<Rejoin>(place, other);
}

/// A join tells nothing of the table, so a load of word 0 follows, which tells that the claims of both stand together.
pub fn rejoin<K: KeyTest>(words: &Words<K>, place: &mut Place, other: Place)
    requires table { (place.old.table_id ≡ words.now.table_id) × (other.table_id ≡ words.now.table_id) × (0 < words.now.table_id.words) }
    requires slots { other.me.1 ≡ [] }
    requires callers { 0 < place.old.me.0.callers }
    ensures place { (place.new.table_id ≡ place.old.table_id) × (place.new.id ≡ place.old.id) × (place.new.me.1 ≡ place.old.me.1) }
    ensures view { place.new.me.0 ≡ with_step Meeting (both_parts place.old.me.0 other.me.0) }
    ensures knows { Knows K.passes place.new.me.0 }
{
    merge(words, place, other);
    words.load::<TellMeeting<K>>(place, 0);
}
