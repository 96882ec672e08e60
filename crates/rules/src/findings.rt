// What a board finds of a transaction that asks to be granted.
use calls::Class;

// A rule's meaning is its answer to all findings, also to such as no board gives, so `warped` stands beside `missed` and not within it.
#[derive(Clone, Copy, Debug, PartialEq, Eq)]
pub struct Findings {
    // The transaction's start.
    pub start: u32,
    // The place of a commit that happens now.
    pub next: u32,
    // Who asks: a member or a guest.
    pub class: Class,
    // Whether the transaction was overtaken.
    pub overtaken: bool,
    // The earliest place of the versions that it missed, if it missed any.
    pub missed: Option<u32>,
    // Whether a version that it missed is warped.
    pub warped: bool,
}
