// A request as C writes it.
ghost use Rattle.std.specs.Prelude.{◌≡◌};
ghost use Rattle.station.specs.Requests.{call_of};

use crate::numbers::numbered;
use calls::{Call, Fault};
use script::Op;

// A call by numbers. What a call has no use for is not looked at.
#[repr(C)]
#[derive(Clone, Copy, Debug, PartialEq, Eq)]
pub struct Request {
    // Admit 0, revoke 1, begin 2, read 3, write 4, commit 5, abandon 6, show 7.
    pub op: u32,
    pub seat: u32,
    pub pass: u32,
    pub item: u32,
    // Admit's class (member 0, guest 1), begin's mode (reader 0, update 1), write's code.
    pub value: u32,
}

// The call that it stands for, or the field that is wrong, counted from 0.
impl TryFrom<Request> for Call {
    type Error = Fault;

    ghost try_from_gives = { λ request call. call ≡ call_of request };

    fn try_from(request: Request) -> Result<Call, Fault> {
        let Request {
            op,
            seat,
            pass,
            item,
            value,
        } = request;
        match numbered(op).ok_or(Fault::WrongPart { at: 0 })? {
            Op::Admit => Ok(Call::Admit {
                seat,
                class: numbered(value).ok_or(Fault::WrongPart { at: 4 })?,
            }),
            Op::Revoke => Ok(Call::Revoke { seat }),
            Op::Begin => Ok(Call::Begin {
                seat,
                pass,
                mode: numbered(value).ok_or(Fault::WrongPart { at: 4 })?,
            }),
            Op::Read => Ok(Call::Read { seat, pass, item }),
            Op::Write => Ok(Call::Write {
                seat,
                pass,
                item,
                code: value,
            }),
            Op::Commit => Ok(Call::Commit { seat, pass }),
            Op::Abandon => Ok(Call::Abandon { seat, pass }),
            Op::Show => Ok(Call::Show { item }),
        }
    }
}
