// What is wrong with a line of a script: the line itself, or the call that it stands for.
ghost use Rattle.std.specs.Prelude.{◌≡◌};
ghost use Rattle.calls.specs.Numbers.{fault_number, fault_named};
ghost use Rattle.calls.specs.declared.fault.Fault.TheVariants.{Refused};

use crate::refusal::Refusal;

#[derive(Clone, Copy, Debug, PartialEq, Eq)]
pub enum Fault {
    // 16: the line has more than 96 bytes, or the script more than 32,768.
    TooLong,
    // 17: the part that starts at this byte is not the one expected, or is missing there.
    WrongPart { at: u32 },
    // 18: the value that starts at this byte has not the form of a number.
    BadNumber { at: u32 },
    // The line is good, and the board refuses its call.
    Refused(Refusal),
}

impl Fault {
    // The number by which an answer line tells it.
    pub fn number(&self) -> u32
        ensures { result ≡ fault_number self.now }
    {
        match self {
            Fault::TooLong => 16,
            Fault::WrongPart { .. } => 17,
            Fault::BadNumber { .. } => 18,
            Fault::Refused(refusal) => refusal.number(),
        }
    }

    // What it names, or 0 where it names nothing.
    pub fn named(&self) -> u32
        ensures { result ≡ fault_named self.now }
    {
        match self {
            Fault::TooLong => 0,
            Fault::WrongPart { at } | Fault::BadNumber { at } => *at,
            Fault::Refused(refusal) => refusal.named(),
        }
    }
}

impl From<Refusal> for Fault {
    ghost from_gives = { λ why fault. fault ≡ Refused why };

    fn from(why: Refusal) -> Fault {
        Fault::Refused(why)
    }
}
