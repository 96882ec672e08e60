// What can be asked of a board.

// The class of a seat's holder.
#[derive(Clone, Copy, Debug, PartialEq, Eq)]
pub enum Class {
    Member,
    Guest,
}

// What a transaction may do: a reader only reads.
#[derive(Clone, Copy, Debug, PartialEq, Eq)]
pub enum Mode {
    Reader,
    Update,
}

// The eight calls. Any number may stand in any place: the board refuses what it cannot do.
#[derive(Clone, Copy, Debug, PartialEq, Eq)]
pub enum Call {
    // Gives an empty seat to somebody, under a new pass.
    Admit {
        seat: u32,
        class: Class,
    },
    // Empties a seat and drops its open transaction.
    Revoke {
        seat: u32,
    },
    // Opens a transaction at a seat.
    Begin {
        seat: u32,
        pass: u32,
        mode: Mode,
    },
    // Reads the code of an item within the open transaction.
    Read {
        seat: u32,
        pass: u32,
        item: u32,
    },
    // Lists a code to be stored for an item if the transaction is granted.
    Write {
        seat: u32,
        pass: u32,
        item: u32,
        code: u32,
    },
    // Ends the transaction and asks for it to be granted.
    Commit {
        seat: u32,
        pass: u32,
    },
    // Ends the transaction without a trace.
    Abandon {
        seat: u32,
        pass: u32,
    },
    // Tells the newest code of an item, outside any transaction.
    Show {
        item: u32,
    },
}
