// A whole script, played on a new board.
ghost use Rattle.std.specs.Prelude.{◌≡◌, IfOk};
ghost use Rattle.rules.specs.NamedAnswers.{named_answers};
ghost use Rattle.board.specs.Contents.{setup_for};
ghost use Rattle.player.specs.Lines.{LinesAnswered};
ghost use Rattle.player.specs.Scripts.{BoardAnswered, ScriptAnswered};

use crate::lines::play_line;
use crate::memory::slots;
use board::Board;
use calls::{BoardKind, Fault, Header, Refusal};
use kinds::{Kind, Locomotive, Turnout};
use rules::Rule;
use script::{Lines, next_line_number, only_answer, open_script};
use std::alloc::{AllocError, Global};

// The answers to a script's commands, which are all its lines but the first: each as the public call for one line writes it.
fn play_commands<K: Kind, R: Rule>(
    heap: Global,
    board: &mut Board<'_, K, R>,
    lines: Lines<'_>,
) -> Result<Vec<u8>, AllocError>
    ensures { IfOk result (λ v. LinesAnswered R.answers board.old board.new lines.entry v.items) }
{
    board.is_lawful();
    let mut answers = Vec::new(heap);
    let mut number = 2;
    let mut out = [0; 32];
    for line in lines {
        let len = play_line(board, number, line, &mut out);
        answers.extend_from_slice(&out[..len])?;
        number = next_line_number(number);
    }
    Ok(answers)
}

// The answers of a new board, or the refusal of its setup. (`station` makes one alike for requests: what they share is two calls.)
fn play_on<K: Kind>(heap: Global, header: Header, lines: Lines<'_>) -> Result<Vec<u8>, AllocError>
    ensures { IfOk result (λ v. BoardAnswered (setup_for K.coded K.REST K.COUNT named_answers header.items header.seats header.rule) lines.entry v.items) }
{
    let mut memory = slots::<K>(heap)?;
    match Board::new(header.items, header.seats, header.rule, &mut memory[..]) {
        Ok(mut board) => play_commands(heap, &mut board, lines),
        Err(_) => only_answer(heap, 1, Fault::Refused(Refusal::BadSetup)),
    }
}

// The answers to a script's lines, one after the other.
pub fn play_script(heap: Global, script: &[u8]) -> Result<Vec<u8>, AllocError>
    ensures { IfOk result (λ v. ScriptAnswered script.now v.items) }
{
    match open_script(script) {
        Ok((header, lines)) => match header.board {
            BoardKind::Drive => play_on::<Locomotive>(heap, header, lines),
            BoardKind::Switch => play_on::<Turnout>(heap, header, lines),
        },
        Err(unopened) => only_answer(heap, unopened.line(), unopened.fault()),
    }
}
