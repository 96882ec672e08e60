// Where a new version goes in, and whether there is room for it.
ghost use Rattle.std.specs.Prelude.{◌≡◌, ℕ, ◌≤◌, length, take, nat_le};
ghost use Rattle.history.specs.State.{Version as Kept};
ghost use Rattle.history.specs.Steps.{down_to_anchor, insert_version};
ghost use Rattle.versions.specs.Slots.{as_codes};
ghost use Rattle.versions.specs.Plans.{Spotted};

use crate::sight::{Sight, find};
use crate::version::Version;

// Where a new version would go: how many versions stay, and the index among them, or none where its place is taken there.
#[derive(Clone, Copy)]
pub(crate) struct Spot {
    pub(crate) keep: usize,
    pub(crate) at: Option<usize>,
}

// How many versions there are down to the anchor, the newest one whose natural number is not above the least start.
fn kept<S>(slots: &[Version<S>], least: u32) -> usize
    ensures within { result ≤ length slots.now }
    ensures list { (coded : S → ℕ) → as_codes coded (take result slots.now) ≡ down_to_anchor least (as_codes coded slots.now) }
{
    find(slots, Sight::ByNatural, least).map_or(slots.len(), |anchor| anchor + 1)
}

pub(crate) fn spot_for<S>(slots: &[Version<S>], least: u32, place: u32) -> Spot
    ensures { Spotted result slots.now least place }
{
    let keep = kept(slots, least);
    let stay = &slots[..keep];
    let at = match find(stay, Sight::ByPlace, place) {
        Some(at) if stay[at].place == place => None,
        Some(at) => Some(at),
        None => Some(keep),
    };
    Spot { keep, at }
}

// Whether the versions that would be there, with a new one at the place, are no more than the slots.
pub fn has_room<S>(slots: &[Version<S>], least: u32, place: u32) -> bool
    ensures { (coded : S → ℕ) (n : Kept) → n.place ≡ place → result ≡ nat_le (length (insert_version n (down_to_anchor least (as_codes coded slots.now)))) (length slots.now) }
{
    let spot = spot_for(slots, least, place);
    spot.at.is_none() || spot.keep < slots.len()
}
