// A locomotive: how fast it goes, which way, and who holds it.
ghost use Rattle.std.specs.Prelude.{◌≡◌, Some};
ghost use Rattle.kinds.specs.Lawful.{LawfulKind};
ghost use Rattle.kinds.specs.Locomotives.{IsLocomotive, locomotive_code, locomotive_of, resting};
ghost use Rattle.kinds.specs.Words.{direction_words, locomotive_words};
ghost use Rattle.std.proofs.Common.{rules};

use crate::kind::{Kind, kind_is_lawful};
use std::fmt;

#[derive(Clone, Copy, Debug, PartialEq, Eq)]
pub enum Direction {
    Forward,
    Backward,
}

#[derive(Clone, Copy, Debug, PartialEq, Eq)]
pub struct Locomotive {
    // 0 to 126.
    pub speed: u8,
    pub direction: Direction,
    // The seat that holds it, 0 to 31, if one does.
    pub holder: Option<u8>,
}

const SPEEDS: u32 = 127;

const DIRECTIONS: u32 = 2;

// Nobody, and 32 seats.
const HOLDERS: u32 = 33;

impl Kind for Locomotive {
    const COUNT: u32 = HOLDERS * DIRECTIONS * SPEEDS;

    const REST: Self = Locomotive {
        speed: 0,
        direction: Direction::Forward,
        holder: None,
    };

    ghost COUNT = { 8382 };

    ghost REST = { resting };

    ghost state = { IsLocomotive };

    ghost coded = { locomotive_code };

    ghost decoded = { locomotive_of };

    ghost code_gives_state_back = { Prim.search rules };

    ghost state_gives_code_back = { Prim.search rules };

    ghost code_is_below_count = { Prim.search rules };

    ghost code_below_count_gives_state = { Prim.search rules };

    ghost rest_is_state = { Prim.search rules };

    ghost two_codes_at_least = { Prim.search rules };

    ghost count_fits = { Prim.search rules };

    // The same sum at a value that is no state.
    fn code(self) -> u32 {
        let holder = match self.holder {
            None => 0,
            Some(seat) => u32::from(seat) + 1,
        };
        let direction = match self.direction {
            Direction::Forward => 0,
            Direction::Backward => 1,
        };
        (holder * DIRECTIONS + direction) * SPEEDS + u32::from(self.speed)
    }

    // The state at rest where the code is not below the count.
    fn from_code(code: u32) -> Self {
        if code >= Self::COUNT {
            return Self::REST;
        }
        let rest = code / SPEEDS;
        let direction = match rest % DIRECTIONS {
            0 => Direction::Forward,
            _ => Direction::Backward,
        };
        let holder = match rest / DIRECTIONS {
            0 => None,
            above => Some((above - 1) as u8),
        };
        Locomotive {
            speed: (code % SPEEDS) as u8,
            direction,
            holder,
        }
    }
}

pub fn locomotives_are_lawful()
    ensures { LawfulKind IsLocomotive locomotive_code locomotive_of 8382 resting }
{
    kind_is_lawful::<Locomotive>()
}

impl fmt::Display for Direction {
    ghost output = { λ d. Some (direction_words d) };

    fn fmt<W: fmt::Write>(&self, f: &mut fmt::Formatter<W>) -> fmt::Result {
        match *self {
            Direction::Forward => f.write_str("forward"),
            Direction::Backward => f.write_str("backward"),
        }
    }
}

impl fmt::Display for Locomotive {
    ghost output = { λ l. Some (locomotive_words l) };

    fn fmt<W: fmt::Write>(&self, f: &mut fmt::Formatter<W>) -> fmt::Result {
        let Locomotive {
            speed,
            direction,
            holder,
        } = *self;
        write!(f, "speed {speed} {direction}, held by ")?;
        match holder {
            None => f.write_str("nobody"),
            Some(seat) => write!(f, "seat {seat}"),
        }
    }
}
