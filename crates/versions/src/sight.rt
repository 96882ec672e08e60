// The walk down an item's slots, and what is seen by it.
ghost use Rattle.std.specs.Prelude.{◌≡◌, true, option_copied, position};
ghost use Rattle.std.specs.Option.{option_map_or};
ghost use Rattle.history.specs.State.{Setup};
ghost use Rattle.history.specs.Steps.{newest};
ghost use Rattle.versions.specs.Slots.{as_codes, in_sight, sees, number_of};

use crate::version::Version;
use kinds::Kind;

// By which number a version is in sight: an update looks at natural numbers, a reader at places.
// An enum, and no closure in its place: `find` is public and would have to require that the closure can be called, and a private walk with a closure would still begin with this choice.
#[derive(Clone, Copy, Debug, PartialEq, Eq)]
pub enum Sight {
    ByNatural,
    ByPlace,
}

impl Sight {
    fn number<S>(self, version: &Version<S>) -> u32
        ensures { result ≡ number_of self version.now }
    {
        match self {
            Sight::ByNatural => version.natural,
            Sight::ByPlace => version.place,
        }
    }
}

// Walks down from the head to the newest version whose number is not above the limit, and tells its index.
// The form of this walk is asked for: a loop that ends by break with the found index.
pub fn find<S>(slots: &[Version<S>], sight: Sight, limit: u32) -> Option<usize>
    ensures { result ≡ position (in_sight sight limit) slots.now }
{
    let mut at = 0;
    loop {
        match slots.get(at) {
            Some(version) if sight.number(version) <= limit => break Some(at),
            Some(_) => at += 1,
            None => break None,
        }
    }
}

// The code of a version, or of the rest state where there is none.
fn code_of<K: Kind>(version: Option<&Version<K>>) -> u32
    ensures { result ≡ option_map_or (λ (v : Version K). K.coded v.state) (option_copied version.entry) (K.coded K.REST) }
{
    match version {
        Some(version) => version.state.code(),
        None => K::REST.code(),
    }
}

// The code of the newest version in sight.
pub fn code_in_sight<K: Kind>(slots: &[Version<K>], sight: Sight, limit: u32) -> u32
    ensures { (b : Setup) → b.rest ≡ K.coded K.REST → result ≡ (newest b (sees sight limit) (as_codes K.coded slots.now)).code }
{
    code_of(find(slots, sight, limit).map(|at| &slots[at]))
}

// The code of the newest version.
pub fn head_code<K: Kind>(slots: &[Version<K>]) -> u32
    ensures { (b : Setup) → b.rest ≡ K.coded K.REST → result ≡ (newest b (λ _. true) (as_codes K.coded slots.now)).code }
{
    code_of(slots.first())
}
