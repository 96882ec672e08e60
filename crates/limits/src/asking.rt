// Calls of somebody at a seat, and the board's answers in a form that can be compared.
use board::Board;
use calls::{Call, Class, Mode};
use kinds::Turnout;
use rules::Warp;
use std::process::Abort;
use std::test::Fail;
use versions::Version;

// A board of these tests.
pub(crate) type Turnouts<'m> = Board<'m, Turnout, Warp>;

pub(crate) fn turnouts(
    items: u32,
    seats: u32,
    memory: &mut [Version<Turnout>],
) -> Result<Turnouts<'_>, Fail> {
    // `map_err` is refused here: "the borrow checker does not cover this function yet", since a refused setup holds the memory.
    match Board::new(items, seats, Warp, memory) {
        Ok(board) => Ok(board),
        Err(_) => Err(Fail::new("refused setup")),
    }
}

// What it answers: the first and the second number of the answer line, or the number of the refusal.
pub(crate) type Told = Result<(u32, u32), u32>;

// Accepted, with nothing to tell.
pub(crate) const DONE: Told = Ok((0, 0));

fn ask(board: &mut Turnouts<'_>, call: Call) -> Told {
    board
        .call(call)
        .map(|reply| (reply.first(), reply.second()))
        .map_err(|refusal| refusal.number())
}

// Makes calls one after the other; each must be answered as it says.
pub(crate) fn check_calls(rt: &impl Abort, board: &mut Turnouts<'_>, steps: &[(Call, Told)]) {
    for (i, (call, told)) in steps.iter().enumerate() {
        assert_eq!(rt; ask(board, *call), *told, "call {i}: {call:?}");
    }
}

pub(crate) fn admit(seat: u32) -> Call {
    Call::Admit {
        seat,
        class: Class::Member,
    }
}

// Somebody at a seat, with the pass that they show.
#[derive(Clone, Copy)]
pub(crate) struct Operator {
    pub(crate) seat: u32,
    pub(crate) pass: u32,
}

impl Operator {
    pub(crate) fn update(self) -> Call {
        self.begin(Mode::Update)
    }

    pub(crate) fn reader(self) -> Call {
        self.begin(Mode::Reader)
    }

    fn begin(self, mode: Mode) -> Call {
        Call::Begin {
            seat: self.seat,
            pass: self.pass,
            mode,
        }
    }

    pub(crate) fn read(self, item: u32) -> Call {
        Call::Read {
            seat: self.seat,
            pass: self.pass,
            item,
        }
    }

    pub(crate) fn write(self, item: u32, code: u32) -> Call {
        Call::Write {
            seat: self.seat,
            pass: self.pass,
            item,
            code,
        }
    }

    pub(crate) fn commit(self) -> Call {
        Call::Commit {
            seat: self.seat,
            pass: self.pass,
        }
    }
}
