// Version memory whose every slot is marked, so that a slot that was touched can be told.
use kinds::{Kind, Turnout};
use std::alloc::{AllocError, Global};
use std::process::Abort;
use versions::Version;

// No board of these tests locks a turnout for this seat, or gets to such numbers: they are odd, far above its clock, and differ from slot to
// slot.
fn mark(slot: u32) -> Version<Turnout> {
    Version {
        state: Turnout::Locked { seat: 31 },
        natural: slot.saturating_mul(4).saturating_add(2_000_001),
        place: slot.saturating_mul(4).saturating_add(2_000_003),
    }
}

pub(crate) fn marked(heap: Global, slots: u32) -> Result<Vec<Version<Turnout>>, AllocError> {
    (0..slots).map(mark).collect(heap)
}

// The code, the natural number and the place of a version.
pub(crate) fn parts(version: &Version<Turnout>) -> (u32, u32, u32) {
    (version.state.code(), version.natural, version.place)
}

// That all slots from this one on are as `marked` made them.
pub(crate) fn check_marked(rt: &impl Abort, memory: &[Version<Turnout>], from: usize) {
    for (slot, version) in (0u32..).zip(memory).skip(from) {
        assert_eq!(rt; *version, mark(slot), "slot {slot}");
    }
}
