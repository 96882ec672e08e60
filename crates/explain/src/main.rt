//! Reads a script from standard input and tells in words what each of its writes would store. Nothing is played.
#![tactic(auto)]

mod text;
mod words;

use crate::text::explain_script;
use script::read_script;
use std::io;
use std::io::Write;

fn main(rt: HostRuntime) -> io::Result<()> {
    let script = read_script(rt.alloc(), rt.stdin())?;
    let text = explain_script(rt.alloc(), &script)?;
    rt.stdout().write_all(text.as_bytes())
}
