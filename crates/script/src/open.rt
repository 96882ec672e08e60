// How a script is opened: its header is read, and its other lines are left.
ghost use Rattle.std.specs.Prelude.{◌≡◌};
ghost use Rattle.script.specs.Opening.{line_told, fault_told, Opened};

use crate::lines::{Lines, script_fits};
use crate::read::read_header;
use calls::{Fault, Header};

// Why a script can't be opened.
#[derive(Clone, Copy, Debug, PartialEq, Eq)]
pub enum Unopened {
    // It has more bytes than a script may have.
    TooLong,
    // Its first line is no header.
    NoHeader(Fault),
}

impl Unopened {
    // The line that is answered, and the script's only answer is to it: 0 stands for the whole script.
    pub fn line(&self) -> u32
        ensures { result ≡ line_told self.now }
    {
        match self {
            Unopened::TooLong => 0,
            Unopened::NoHeader(_) => 1,
        }
    }

    // The fault that the answer tells.
    pub fn fault(&self) -> Fault
        ensures { result ≡ fault_told self.now }
    {
        match *self {
            Unopened::TooLong => Fault::TooLong,
            Unopened::NoHeader(fault) => fault,
        }
    }
}

// What a script's header asks for, and the lines after it.
pub fn open_script(script: &[u8]) -> Result<(Header, Lines<'_>), Unopened>
    ensures { Opened script.now result }
{
    if !script_fits(script) {
        return Err(Unopened::TooLong);
    }
    let mut lines = Lines::new(script);
    let first = lines.next_line().unwrap();
    let header = read_header(first).map_err(Unopened::NoHeader)?;
    Ok((header, lines))
}
