// Where the passes and the clock end. A script has at most 32,768 bytes, so none comes so far.
use crate::asking::{DONE, Operator, Turnouts, admit, check_calls, turnouts};
use crate::marked::marked;
use calls::Call;
use std::process::Abort;
use std::test::Fail;

// The last pass, and where the clock stops.
const MILLION: u32 = 1_000_000;

// Gives the passes from 2 to the last but one to seat 0, which is emptied each time.
fn spend_passes(rt: &impl Abort, board: &mut Turnouts<'_>) {
    for pass in 2..MILLION {
        check_calls(
            rt,
            board,
            &[(admit(0), Ok((pass, 0))), (Call::Revoke { seat: 0 }, DONE)],
        );
    }
}

#[test]
fn passes_end_at_a_million(rt: HostRuntime) -> Result<(), Fail> {
    let mut memory = marked(rt.alloc(), 8)?;
    let mut board = turnouts(1, 3, &mut memory[..])?;
    check_calls(&rt, &mut board, &[(admit(1), Ok((1, 0)))]);
    spend_passes(&rt, &mut board);
    let first = Operator { seat: 1, pass: 1 };
    let last = Operator {
        seat: 0,
        pass: MILLION,
    };
    check_calls(
        &rt,
        &mut board,
        &[
            (admit(0), Ok((MILLION, 0))),
            (admit(2), Err(4)),
            // What is asked before is still refused before.
            (admit(3), Err(2)),
            (admit(1), Err(3)),
            // Seat 2 stayed empty, and the first and the last pass are good.
            (Call::Revoke { seat: 2 }, Err(5)),
            (first.update(), Ok((1, 0))),
            (first.write(0, 2), DONE),
            (last.reader(), Ok((1, 0))),
            (first.commit(), Ok((2, 2))),
            (last.read(0), Ok((0, 0))),
            (last.commit(), Ok((0, 1))),
            // A seat can be emptied, and cannot be given again.
            (Call::Revoke { seat: 0 }, DONE),
            (last.update(), Err(5)),
            (admit(0), Err(4)),
            (Call::Show { item: 0 }, Ok((2, 0))),
        ],
    );
    Ok(())
}

// Grants updates that write nothing, from where the clock stands to its end.
fn run_down_the_clock(rt: &impl Abort, board: &mut Turnouts<'_>, operator: Operator, from: u32) {
    for clock in from..MILLION {
        check_calls(
            rt,
            board,
            &[
                (operator.update(), Ok((clock, 0))),
                (operator.commit(), Ok((clock + 1, clock + 1))),
            ],
        );
    }
}

#[test]
fn the_clock_ends_at_a_million(rt: HostRuntime) -> Result<(), Fail> {
    let mut memory = marked(rt.alloc(), 16)?;
    let mut board = turnouts(2, 2, &mut memory[..])?;
    let early = Operator { seat: 0, pass: 1 };
    let late = Operator { seat: 1, pass: 2 };
    check_calls(
        &rt,
        &mut board,
        &[
            (admit(0), Ok((1, 0))),
            (admit(1), Ok((2, 0))),
            (late.update(), Ok((1, 0))),
            (late.write(1, 2), DONE),
            (late.commit(), Ok((2, 2))),
            // An update that stays open until the clock has ended.
            (early.update(), Ok((2, 0))),
            (early.write(0, 1), DONE),
        ],
    );
    run_down_the_clock(&rt, &mut board, late, 2);
    check_calls(
        &rt,
        &mut board,
        &[
            // Every update is refused and dropped: its seat has nothing more to commit.
            (late.update(), Ok((MILLION, 0))),
            (late.read(1), Ok((2, 0))),
            (late.write(1, 1), DONE),
            (late.commit(), Err(13)),
            (late.commit(), Err(8)),
            (early.commit(), Err(13)),
            (early.commit(), Err(8)),
            (late.update(), Ok((MILLION, 0))),
            (late.commit(), Err(13)),
            // Nothing was stored. Whether a stamp was raised no call can show from now on: only the commit of an update looks at stamps.
            (Call::Show { item: 0 }, Ok((0, 0))),
            (Call::Show { item: 1 }, Ok((2, 0))),
            // A reader begins, sees the same and is granted.
            (late.reader(), Ok((MILLION, 0))),
            (late.read(0), Ok((0, 0))),
            (late.read(1), Ok((2, 0))),
            (late.commit(), Ok((0, MILLION))),
        ],
    );
    Ok(())
}
