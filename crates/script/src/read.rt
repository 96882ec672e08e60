// From a line to what it stands for. A line is read pair by pair from the left, and its first fault decides.
ghost use Rattle.std.specs.Prelude.{◌≡◌};
ghost use Rattle.script.specs.Reading.{Argued, command_of, header_of};

use crate::scan::Scanner;
use crate::words::Op;
use calls::{Call, Fault, Header};

// The call of a line whose op was read: each arm has its keys, in their order. What is behind them is not looked at.
fn arguments(op: Op, scan: &mut Scanner<'_>) -> Result<Call, Fault>
    ensures { Argued op scan.old scan.new result }
{
    Ok(match op {
        Op::Admit => Call::Admit {
            seat: scan.number(b"seat")?,
            class: scan.word(b"class")?,
        },
        Op::Revoke => Call::Revoke {
            seat: scan.number(b"seat")?,
        },
        Op::Begin => Call::Begin {
            seat: scan.number(b"seat")?,
            pass: scan.number(b"pass")?,
            mode: scan.word(b"mode")?,
        },
        Op::Read => Call::Read {
            seat: scan.number(b"seat")?,
            pass: scan.number(b"pass")?,
            item: scan.number(b"item")?,
        },
        Op::Write => Call::Write {
            seat: scan.number(b"seat")?,
            pass: scan.number(b"pass")?,
            item: scan.number(b"item")?,
            code: scan.number(b"code")?,
        },
        Op::Commit => Call::Commit {
            seat: scan.number(b"seat")?,
            pass: scan.number(b"pass")?,
        },
        Op::Abandon => Call::Abandon {
            seat: scan.number(b"seat")?,
            pass: scan.number(b"pass")?,
        },
        Op::Show => Call::Show {
            item: scan.number(b"item")?,
        },
    })
}

// The call that a line stands for.
pub fn read_command(line: &[u8]) -> Result<Call, Fault>
    ensures { result ≡ command_of line.now }
{
    let mut scan = Scanner::new(line)?;
    let op = scan.word(b"op")?;
    let call = arguments(op, &mut scan)?;
    scan.end()?;
    Ok(call)
}

// What a script's first line asks for.
pub fn read_header(line: &[u8]) -> Result<Header, Fault>
    ensures { result ≡ header_of line.now }
{
    let mut scan = Scanner::new(line)?;
    let header = Header {
        board: scan.word(b"board")?,
        items: scan.number(b"items")?,
        seats: scan.number(b"seats")?,
        rule: scan.word(b"rule")?,
    };
    scan.end()?;
    Ok(header)
}
