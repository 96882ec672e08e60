// An answer as C reads it.
ghost use Rattle.std.specs.Prelude.{◌≡◌};
ghost use Rattle.station.specs.Answers.{answer_of};

use calls::{Fault, Reply};
use script::answer_numbers;

// The numbers of an answer line, without the line's own.
#[repr(C)]
#[derive(Clone, Copy, Debug, PartialEq, Eq)]
pub struct Answer {
    // 0 where the request was accepted.
    pub refusal: u32,
    pub first: u32,
    pub second: u32,
}

impl From<Result<Reply, Fault>> for Answer {
    ghost from_gives = { λ outcome answer. answer ≡ answer_of outcome };

    fn from(outcome: Result<Reply, Fault>) -> Answer {
        let (refusal, first, second) = answer_numbers(&outcome);
        Answer {
            refusal,
            first,
            second,
        }
    }
}
