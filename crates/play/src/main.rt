//! Plays a script from standard input on a new board and answers each of its lines.
#![tactic(auto)]

use player::play_script;
use script::read_script;
use std::io;
use std::io::Write;

fn main(rt: HostRuntime) -> io::Result<()> {
    let script = read_script(rt.alloc(), rt.stdin())?;
    let answers = play_script(rt.alloc(), &script)?;
    rt.stdout().write_all(&answers)
}
