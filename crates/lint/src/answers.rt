// The answers to a script's lines.
ghost use Rattle.std.specs.Prelude.{◌≡◌, IfOk};
ghost use Rattle.script.specs.Reading.{command_of};
ghost use Rattle.lint.specs.Answers.{verdict, answers_from, lint_of};

use calls::{Fault, Reply};
use script::{Lines, next_line_number, only_answer, open_script, push_answer, read_command};
use std::alloc::{AllocError, Global};

// What is said of a command's line.
fn verdict(line: &[u8]) -> Result<Reply, Fault>
    ensures { result ≡ verdict (command_of line.now) }
{
    read_command(line)?;
    Ok(Reply::Done)
}

// The answers to a script's commands, which are all its lines but the first. (`player` and `explain` go over them alike: a function for all
// would take a closure, and require of its caller that it can be called.)
fn answer_commands(heap: Global, lines: Lines<'_>) -> Result<Vec<u8>, AllocError>
    ensures { IfOk result (λ v. v.items ≡ answers_from 2 lines.entry) }
{
    let mut answers = Vec::new(heap);
    let mut number = 2;
    for line in lines {
        push_answer(&mut answers, number, &verdict(line))?;
        number = next_line_number(number);
    }
    Ok(answers)
}

// The answers to a script's lines, one after the other.
pub fn answer_script(heap: Global, script: &[u8]) -> Result<Vec<u8>, AllocError>
    ensures { IfOk result (λ v. v.items ≡ lint_of script.now) }
{
    match open_script(script) {
        Ok((_, lines)) => answer_commands(heap, lines),
        Err(unopened) => only_answer(heap, unopened.line(), unopened.fault()),
    }
}
