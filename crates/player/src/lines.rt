// One line of a script, played on a board.
ghost use Rattle.std.specs.Prelude.{◌≡◌};
ghost use Rattle.player.specs.Lines.{LineTold, LineAnswered};

use board::Board;
use calls::{Fault, Reply};
use kinds::Kind;
use rules::Rule;
use script::{read_command, write_answer};

// What the board says to a line.
fn outcome_of<K: Kind, R: Rule>(board: &mut Board<'_, K, R>, line: &[u8]) -> Result<Reply, Fault>
    ensures { LineTold R.answers board.old board.new line.now result }
{
    board.is_lawful();
    let call = read_command(line)?;
    let reply = board.call(call)?;
    Ok(reply)
}

// Plays a line on a board. The answer to it goes to the front of `out`, zeros after it, and its length is given back: no memory is taken.
pub fn play_line<K: Kind, R: Rule>(
    board: &mut Board<'_, K, R>,
    number: u32,
    line: &[u8],
    out: &mut [u8; 32],
) -> usize
    ensures { LineAnswered R.answers board.old board.new number line.now out.new result }
{
    let outcome = outcome_of(board, line);
    write_answer(out, number, &outcome)
}
