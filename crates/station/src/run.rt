// Playing a list of requests on a new board.
ghost use Rattle.std.specs.Prelude.{◌≡◌, true, length};
ghost use Rattle.rules.specs.NamedAnswers.{named_answers};
ghost use Rattle.board.specs.Contents.{setup_for};
ghost use Rattle.board.specs.Sizes.{fits};
ghost use Rattle.station.specs.Setups.{header_of};
ghost use Rattle.station.specs.Status.{status_of};
ghost use Rattle.player.specs.Scripts.{slots_lent};
ghost use Rattle.station.specs.Playing.{Told, AnswersAll, Played, Ran};

use crate::answer::Answer;
use crate::request::Request;
use crate::setup::header_of;
use crate::status::{Unplayed, status_of};
use board::Board;
use calls::{BoardKind, Call, Fault, Header, Reply};
use kinds::{Kind, Locomotive, Turnout};
use player::slots;
use rules::Rule;
use std::alloc::Global;

// The reply to a request's call, or what is wrong. (`player` does the same of a line: what they share is the call.)
fn outcome_of<K: Kind, R: Rule>(
    board: &mut Board<'_, K, R>,
    request: Request,
) -> Result<Reply, Fault>
    ensures { Told R.answers board.old board.new request result }
{
    let call = Call::try_from(request)?;
    Ok(board.call(call)?)
}

fn answer_all<K: Kind, R: Rule>(
    board: &mut Board<'_, K, R>,
    requests: &[Request],
    answers: &mut [Answer],
)
    requires { length requests.now ≡ length answers.old }
    ensures { AnswersAll R.answers board.old requests.now answers.new }
{
    // No `zip`: what stands behind an `iter_mut` in one is not known after the loop, and `returns` stays open.
    for (i, request) in requests.iter().enumerate() {
        answers[i] = outcome_of(board, *request).into();
    }
}

fn play<K: Kind>(
    heap: Global,
    header: Header,
    requests: &[Request],
    answers: &mut [Answer],
) -> Result<(), Unplayed>
    requires even { length requests.now ≡ length answers.old }
    requires fit { fits header.items header.seats slots_lent ≡ true }
    ensures { Played (setup_for K.coded K.REST K.COUNT named_answers header.items header.seats header.rule) requests.now answers.old answers.new (status_of result) }
{
    let mut memory = slots::<K>(heap)?;
    // An `unwrap` here: "the borrow checker does not cover this function yet", since a refused setup holds the lent memory.
    let Ok(mut board) = Board::new(header.items, header.seats, header.rule, &mut memory[..]) else {
        unreachable();
    };
    answer_all(&mut board, requests, answers);
    Ok(())
}

// The numbers of the C interface, with a `Result` in place of the status.
fn run(
    heap: Global,
    kind: u32,
    rule: u32,
    items: u32,
    seats: u32,
    requests: &[Request],
    answers: &mut [Answer],
) -> Result<(), Unplayed>
    ensures { Ran (header_of kind rule items seats) requests.now answers.old answers.new (status_of result) }
{
    let header = header_of(kind, rule, items, seats).ok_or(Unplayed::BadSetup)?;
    if requests.len() != answers.len() {
        return Err(Unplayed::Uneven);
    }
    match header.board {
        BoardKind::Drive => play::<Locomotive>(heap, header, requests, answers),
        BoardKind::Switch => play::<Turnout>(heap, header, requests, answers),
    }
}

// Plays requests on a new board of locomotives (kind 0) or turnouts (kind 1), under the rule now (0), warp (1), home-now (2) or home-warp (3).
#[unsafe(no_mangle)]
pub extern "C" fn station_run(
    heap: Global,
    kind: u32,
    rule: u32,
    items: u32,
    seats: u32,
    requests: &[Request],
    answers: &mut [Answer],
) -> u32
    ensures { Ran (header_of kind rule items seats) requests.now answers.old answers.new result }
{
    status_of(run(heap, kind, rule, items, seats, requests, answers))
}
