// Versions of an item.
ghost use Rattle.std.specs.Prelude.{◌≡◌, not, ◌==◌};
ghost use Rattle.versions.specs.Codes.{CodesTellVersions};

use kinds::Kind;

// A past state of an item, with the natural number and the place of the commit that stored it.
#[derive(Clone, Copy, Debug, PartialEq, Eq)]
pub struct Version<S> {
    pub state: S,
    pub natural: u32,
    pub place: u32,
}

impl<S> Version<S> {
    // Whether it stands at another place than its natural number.
    pub(crate) fn is_warped(&self) -> bool
        ensures { result ≡ not (self.now.place == self.now.natural) }
    {
        self.place != self.natural
    }
}

impl<K: Kind> Version<K> {
    ghost use Rattle.versions.specs.Slots.{rest_version};

    // The version of an item that nobody has changed yet.
    pub fn at_rest() -> Version<K>
        ensures { result ≡ rest_version K.REST }
    {
        Version {
            state: K::REST,
            natural: 0,
            place: 0,
        }
    }
}

// Versions that are told by their codes are told whole: no two states of a kind have one code. A board's contracts tell its slots so.
pub fn codes_tell_versions<K: Kind>()
    ensures { CodesTellVersions K.state K.coded }
{}
