// What is told of a script, line by line.
ghost use Rattle.std.specs.Prelude.{◌≡◌, IfOk, string_bytes};
ghost use Rattle.script.specs.Reading.{command_of};
ghost use Rattle.explain.specs.Words.{written, line_told, told_from, explain_of};

use crate::words::words_of;
use calls::{BoardKind, Call, Write};
use script::{Lines, Unopened, next_line_number, open_script, read_command};
use std::alloc::{AllocError, Global};

// What a line writes, if it is a write's.
fn written(line: &[u8]) -> Option<Write>
    ensures { result ≡ written (command_of line.now) }
{
    match read_command(line) {
        Ok(Call::Write { item, code, .. }) => Some(Write { item, code }),
        _ => None,
    }
}

// What is told of a line: nothing, unless it is a write's.
fn explain_line(
    heap: Global,
    board: BoardKind,
    number: u32,
    line: &[u8],
) -> Result<String, AllocError>
    ensures { IfOk result (λ s. string_bytes s ≡ line_told board number (written (command_of line.now))) }
{
    let Some(Write { item, code }) = written(line) else {
        return Ok(String::new(heap));
    };
    let words = words_of(heap, board, code)?;
    format!(in heap; "{number}: item {item}: {words}\n")
}

// What is told of a script's commands, which are all its lines but the first.
fn explain_commands(heap: Global, board: BoardKind, lines: Lines<'_>) -> Result<String, AllocError>
    ensures { IfOk result (λ s. string_bytes s ≡ told_from board 2 lines.entry) }
{
    let mut text = String::new(heap);
    let mut number = 2;
    for line in lines {
        let told = explain_line(heap, board, number, line)?;
        text.push_str(&told)?;
        number = next_line_number(number);
    }
    Ok(text)
}

// What is told of a script.
pub fn explain_script(heap: Global, script: &[u8]) -> Result<String, AllocError>
    ensures { IfOk result (λ s. string_bytes s ≡ explain_of script.now) }
{
    match open_script(script) {
        Ok((header, lines)) => explain_commands(heap, header.board, lines),
        Err(Unopened::TooLong) => String::from_str(heap, "the script is too long\n"),
        Err(Unopened::NoHeader(_)) => String::from_str(heap, "line 1 is no header\n"),
    }
}
