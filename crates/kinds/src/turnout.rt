// A turnout: which way it is set, or for whom it is locked.
ghost use Rattle.std.specs.Prelude.{◌≡◌, Some};
ghost use Rattle.kinds.specs.Lawful.{LawfulKind};
ghost use Rattle.kinds.specs.Turnouts.{IsTurnout, turnout_code, turnout_of};
ghost use Rattle.kinds.specs.Words.{turnout_words};
ghost use Rattle.kinds.specs.declared.turnout.Turnout.TheVariants.{Unknown};
ghost use Rattle.std.proofs.Common.{rules};

use crate::kind::{Kind, kind_is_lawful};
use std::fmt;

#[derive(Clone, Copy, Debug, PartialEq, Eq)]
pub enum Turnout {
    Unknown,
    Straight,
    Diverging,
    // Locked in its position for a seat, 0 to 31.
    Locked { seat: u8 },
}

impl Kind for Turnout {
    const COUNT: u32 = 35;

    const REST: Self = Turnout::Unknown;

    ghost COUNT = { 35 };

    ghost REST = { Unknown };

    ghost state = { IsTurnout };

    ghost coded = { turnout_code };

    ghost decoded = { turnout_of };

    ghost code_gives_state_back = { Prim.search rules };

    ghost state_gives_code_back = { Prim.search rules };

    ghost code_is_below_count = { Prim.search rules };

    ghost code_below_count_gives_state = { Prim.search rules };

    ghost rest_is_state = { Prim.search rules };

    ghost two_codes_at_least = { Prim.search rules };

    ghost count_fits = { Prim.search rules };

    // The three positions, and then a lock for each seat.
    fn code(self) -> u32 {
        match self {
            Turnout::Unknown => 0,
            Turnout::Straight => 1,
            Turnout::Diverging => 2,
            Turnout::Locked { seat } => 3 + u32::from(seat),
        }
    }

    // A code that is not below the count gives the state at rest.
    fn from_code(code: u32) -> Self {
        match code {
            1 => Turnout::Straight,
            2 => Turnout::Diverging,
            3..=34 => Turnout::Locked {
                seat: (code - 3) as u8,
            },
            _ => Turnout::Unknown,
        }
    }
}

pub fn turnouts_are_lawful()
    ensures { LawfulKind IsTurnout turnout_code turnout_of 35 Unknown }
{
    kind_is_lawful::<Turnout>()
}

impl fmt::Display for Turnout {
    ghost output = { λ t. Some (turnout_words t) };

    fn fmt<W: fmt::Write>(&self, f: &mut fmt::Formatter<W>) -> fmt::Result {
        match *self {
            Turnout::Unknown => f.write_str("unknown"),
            Turnout::Straight => f.write_str("straight"),
            Turnout::Diverging => f.write_str("diverging"),
            Turnout::Locked { seat } => write!(f, "locked for seat {seat}"),
        }
    }
}
