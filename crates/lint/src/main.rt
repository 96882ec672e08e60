//! Reads a script from standard input and answers each of its lines: whether it is well formed, and if not, why and where. Nothing is
//! played.
#![tactic(auto)]

mod answers;

use crate::answers::answer_script;
use script::read_script;
use std::io;
use std::io::Write;

fn main(rt: HostRuntime) -> io::Result<()> {
    let script = read_script(rt.alloc(), rt.stdin())?;
    let answers = answer_script(rt.alloc(), &script)?;
    rt.stdout().write_all(&answers)
}
