// Missed versions: those newer than the one that an update has read.
ghost use Rattle.std.specs.Prelude.{◌≡◌, ℕ, List, [], ◌++◌};
ghost use Rattle.history.specs.State.{Version as Kept};
ghost use Rattle.history.specs.Steps.{newer};
ghost use Rattle.versions.specs.Slots.{as_codes};
ghost use Rattle.versions.specs.Plans.{Tells, missed_with};

use crate::version::Version;

// What is known of missed versions: two fields of a rule's findings, which stand side by side there. The other fields are not known here.
#[derive(Clone, Copy, Debug, PartialEq, Eq)]
pub struct Missed {
    pub earliest: Option<u32>,
    pub warped: bool,
}

impl Missed {
    // What is known where no version was missed.
    pub fn nothing() -> Missed
        ensures { Tells result [] }
    {
        Missed {
            earliest: None,
            warped: false,
        }
    }

    // One missed version more.
    fn and<S>(self, version: &Version<S>) -> Missed
        ensures { result ≡ missed_with self version.now }
    {
        let place = version.place;
        Missed {
            earliest: Some(self.earliest.map_or(place, |before| before.min(place))),
            warped: self.warped || version.is_warped(),
        }
    }
}

// Adds the versions that are newer than the newest one whose natural number is not above the start.
pub fn count_missed<S>(slots: &[Version<S>], start: u32, before: Missed) -> Missed
    ensures { (coded : S → ℕ) (vs : List Kept) → Tells before vs → Tells result (vs ++ newer start (as_codes coded slots.now)) }
{
    slots
        .iter()
        .take_while(|version| version.natural > start)
        .fold(before, |missed, version| missed.and(version))
}
