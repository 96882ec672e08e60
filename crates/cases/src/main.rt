//! Plays the stored scripts and compares what they are answered with the stored answers, which the reference program gave.
#![tactic(auto)]

mod answers;
mod compare;
mod tally;

use crate::compare::{first_difference, line_at};
use crate::tally::Tally;
use anyhow::bail;
use player::play_script;
use std::io::Write;
use std::{fs, io};

// Prints a line of a text, which may hold any bytes, after what is said of it.
fn print_line(rt: &HostRuntime, what: &str, text: &[u8], index: usize) -> io::Result<()> {
    print!(rt; "{what}: ")?;
    rt.stdout().write_all(line_at(text, index))?;
    println!(rt; "")
}

fn play_case(rt: &HostRuntime, name: &str, tally: &mut Tally) -> anyhow::Result<()> {
    let heap = rt.alloc();
    let script = fs::read(rt, format!(in heap; "{name}.script")?)?;
    let stored = fs::read(rt, format!(in heap; "{name}.answers")?)?;
    let played = play_script(heap, &script)?;
    if let Some(line) = first_difference(&stored, &played) {
        println!(rt; "{name}: answer {} differs", line.saturating_add(1))?;
        print_line(rt, "stored", &stored, line)?;
        print_line(rt, "played", &played, line)?;
        bail!("a script is not answered as stored");
    }
    tally.note_script();
    if let Err(no_answers) = tally.note_all(&stored) {
        println!(rt; "{name}: not a list of answers")?;
        return Err(no_answers.into());
    }
    Ok(())
}

fn play_all(rt: &HostRuntime) -> anyhow::Result<()> {
    let index = fs::read_to_string(rt, "index")?;
    let mut tally = Tally::new();
    for name in index.lines() {
        play_case(rt, name, &mut tally)?;
    }
    println!(rt; "{tally}")?;
    Ok(())
}

fn main(rt: HostRuntime) -> anyhow::Result<()> {
    play_all(&rt)
}
