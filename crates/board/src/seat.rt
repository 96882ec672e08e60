// A place from which somebody uses the board.
use crate::transaction::Transaction;
use calls::Class;

// What is kept of a held seat.
#[derive(Clone, Copy)]
pub struct Held {
    pub(crate) pass: u32,
    pub(crate) class: Class,
    pub(crate) running: Option<Transaction>,
}

// A held seat that a look-up found, and its index.
#[derive(Clone, Copy)]
pub struct HeldSeat {
    pub(crate) at: usize,
    pub(crate) held: Held,
}
