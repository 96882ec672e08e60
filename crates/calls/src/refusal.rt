// Why a board refuses a call: a closed list, each with a number of its own.
ghost use Rattle.std.specs.Prelude.{◌≡◌};
ghost use Rattle.calls.specs.Numbers.{number, named};

// In the order of the questions that a board asks. The first "no" decides.
#[derive(Clone, Copy, Debug, PartialEq, Eq)]
pub enum Refusal {
    // 1: a count of items or seats is out of range, or the lent memory is too short.
    BadSetup,
    // 2: there is no such seat.
    UnknownSeat,
    // 3: the seat to be given is held.
    SeatHeld,
    // 4: a million passes have been given.
    PassesSpent,
    // 5: the seat is empty.
    SeatEmpty,
    // 6: the pass shown is not the seat's.
    WrongPass,
    // 7: the seat has an open transaction.
    AlreadyBegun,
    // 8: the seat has no open transaction.
    NotBegun,
    // 9: there is no such item.
    UnknownItem,
    // 10: a reader cannot write.
    ReaderWrites,
    // 11: the kind has no such code.
    UnknownCode,
    // 12: eight other items are listed.
    WriteListFull,
    // 13: the clock has reached its end.
    ClockSpent,
    // 14: the rule refuses. It names the lowest marked item with a missed version.
    RuleRefuses { item: u32 },
    // 15: an item's list has no room. It names the lowest such item.
    VersionsFull { item: u32 },
}

impl Refusal {
    // The number by which an answer line tells it.
    pub fn number(&self) -> u32
        ensures { result ≡ number self.now }
    {
        match *self {
            Refusal::BadSetup => 1,
            Refusal::UnknownSeat => 2,
            Refusal::SeatHeld => 3,
            Refusal::PassesSpent => 4,
            Refusal::SeatEmpty => 5,
            Refusal::WrongPass => 6,
            Refusal::AlreadyBegun => 7,
            Refusal::NotBegun => 8,
            Refusal::UnknownItem => 9,
            Refusal::ReaderWrites => 10,
            Refusal::UnknownCode => 11,
            Refusal::WriteListFull => 12,
            Refusal::ClockSpent => 13,
            Refusal::RuleRefuses { .. } => 14,
            Refusal::VersionsFull { .. } => 15,
        }
    }

    // What it names, or 0 where it names nothing.
    pub fn named(&self) -> u32
        ensures { result ≡ named self.now }
    {
        match *self {
            Refusal::RuleRefuses { item } | Refusal::VersionsFull { item } => item,
            _ => 0,
        }
    }
}
