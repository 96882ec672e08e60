// What a script's first line asks for.

// The kind of item that a board holds.
#[derive(Clone, Copy, Debug, PartialEq, Eq)]
pub enum BoardKind {
    // Locomotives.
    Drive,
    // Turnouts.
    Switch,
}

// The admission rules that have a name in scripts.
#[derive(Clone, Copy, Debug, PartialEq, Eq)]
pub enum RuleName {
    Now,
    Warp,
    HomeNow,
    HomeWarp,
}

// Any number may stand for a count: the board's setup refuses what is out of range.
#[derive(Clone, Copy, Debug, PartialEq, Eq)]
pub struct Header {
    pub board: BoardKind,
    pub items: u32,
    pub seats: u32,
    pub rule: RuleName,
}
