// How a run ends.
ghost use Rattle.std.specs.Prelude.{◌≡◌};
ghost use Rattle.station.specs.Status.{status_of};
ghost use Rattle.station.specs.declared.status.Unplayed.TheVariants.{NoMemory};

use std::alloc::AllocError;

// Why no request was answered.
#[derive(Clone, Copy, Debug, PartialEq, Eq)]
pub(crate) enum Unplayed {
    // The kind or the rule is not known, or a count is out of range.
    BadSetup,
    // There are not as many answers as requests.
    Uneven,
    // The heap has no room for the versions.
    NoMemory,
}

impl From<AllocError> for Unplayed {
    ghost from_gives = { λ _ why. why ≡ NoMemory };

    fn from(_: AllocError) -> Unplayed {
        Unplayed::NoMemory
    }
}

// The number by which C is told how a run ended.
pub(crate) fn status_of(ended: Result<(), Unplayed>) -> u32
    ensures { result ≡ status_of ended }
{
    match ended {
        Ok(()) => 0,
        Err(Unplayed::BadSetup) => 1,
        Err(Unplayed::Uneven) => 2,
        Err(Unplayed::NoMemory) => 3,
    }
}
