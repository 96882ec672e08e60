// What is written into the slots.
ghost use Rattle.std.specs.Prelude.{◌≡◌, ◌+◌, ◌-◌, ◌<◌, ◌≤◌, ◌++◌, length, take, drop, replicate};
ghost use Rattle.std.specs.List.{insert};
ghost use Rattle.versions.specs.Slots.{rest_version};
ghost use Rattle.versions.specs.Plans.{Stored};

use crate::spot::spot_for;
use crate::version::Version;
use kinds::Kind;

// Puts every slot from `end` on to rest. No `fill`: it asks that a clone cannot fail, which nothing says of a kind.
fn clear_from<K: Kind>(slots: &mut [Version<K>], end: usize)
    requires { end ≤ length slots.old }
    ensures { slots.new ≡ take end slots.old ++ replicate (length slots.old - end) (rest_version K.REST) }
{
    let rest = Version::at_rest();
    slots[end..].fill_with(|| rest);
}

// Puts a version in at an index, and moves those behind it, up to `keep`, down by one.
fn insert_at<S: Copy>(slots: &mut [Version<S>], at: usize, keep: usize, new: Version<S>)
    requires within { at ≤ keep }
    requires room { keep < length slots.old }
    ensures { slots.new ≡ insert (take keep slots.old) at new ++ drop (keep + 1) slots.old }
{
    slots[at..=keep].rotate_right(1);
    slots[at] = new;
}

// Puts all slots to rest.
pub fn lay_at_rest<K: Kind>(slots: &mut [Version<K>])
    ensures { slots.new ≡ replicate (length slots.old) (rest_version K.REST) }
{
    clear_from(slots, 0);
}

// Removes the versions below the anchor and puts a new one in by its place, unless its place is taken. Where there is no room, nothing changes.
pub fn store<K: Kind>(slots: &mut [Version<K>], new: Version<K>, least: u32)
    ensures { Stored K.state K.coded K.REST slots.old slots.new new least }
{
    let spot = spot_for(slots, least, new.place);
    match spot.at {
        None => clear_from(slots, spot.keep),
        Some(at) if spot.keep < slots.len() => {
            insert_at(slots, at, spot.keep, new);
            clear_from(slots, spot.keep + 1);
        }
        Some(_) => {}
    }
}
