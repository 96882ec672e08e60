// What a board does to the memory that it is lent.
use crate::asking::{DONE, Operator, Turnouts, admit, check_calls, turnouts};
use crate::marked::{check_marked, marked, parts};
use board::Board;
use kinds::Turnout;
use rules::Warp;
use std::process::Abort;
use std::test::Fail;
use versions::Version;

// Grants an update that writes a code of its own to item 2.
fn change_item_2(rt: &impl Abort, board: &mut Turnouts<'_>, operator: Operator, clock: u32) {
    let next = clock.saturating_add(1);
    check_calls(
        rt,
        board,
        &[
            (operator.update(), Ok((clock, 0))),
            (operator.write(2, clock), DONE),
            (operator.commit(), Ok((next, next))),
        ],
    );
}

// Fills the version list of the last of three items, while an open transaction keeps every version.
fn fill_the_last_list(rt: &impl Abort, memory: &mut [Version<Turnout>]) -> Result<(), Fail> {
    let mut board = turnouts(3, 2, memory)?;
    let open = Operator { seat: 0, pass: 1 };
    let busy = Operator { seat: 1, pass: 2 };
    check_calls(
        rt,
        &mut board,
        &[
            (admit(0), Ok((1, 0))),
            (admit(1), Ok((2, 0))),
            (open.update(), Ok((1, 0))),
        ],
    );
    for clock in 1..8 {
        change_item_2(rt, &mut board, busy, clock);
    }
    check_calls(
        rt,
        &mut board,
        &[
            // A ninth version finds no room, and one of another item does.
            (busy.update(), Ok((8, 0))),
            (busy.write(2, 1), DONE),
            (busy.commit(), Err(15)),
            (busy.update(), Ok((8, 0))),
            (busy.write(0, 34), DONE),
            (busy.commit(), Ok((9, 9))),
        ],
    );
    Ok(())
}

// What slots 0 to 23 then hold: item 0 has two versions, item 1 the rest version, and item 2 all eight, the newest first.
const LEFT: [(u32, u32, u32); 24] = [
    (34, 9, 9),
    (0, 0, 0),
    (0, 0, 0),
    (0, 0, 0),
    (0, 0, 0),
    (0, 0, 0),
    (0, 0, 0),
    (0, 0, 0),
    (0, 0, 0),
    (0, 0, 0),
    (0, 0, 0),
    (0, 0, 0),
    (0, 0, 0),
    (0, 0, 0),
    (0, 0, 0),
    (0, 0, 0),
    (7, 8, 8),
    (6, 7, 7),
    (5, 6, 6),
    (4, 5, 5),
    (3, 4, 4),
    (2, 3, 3),
    (1, 2, 2),
    (0, 0, 0),
];

#[test]
fn memory_behind_a_board_stays(rt: HostRuntime) -> Result<(), Fail> {
    let mut memory = marked(rt.alloc(), 40)?;
    fill_the_last_list(&rt, &mut memory[..])?;
    assert_eq!(rt; memory.len(), 40);
    for (slot, (version, left)) in memory.iter().zip(LEFT.iter()).enumerate() {
        assert_eq!(rt; parts(version), *left, "slot {slot}");
    }
    check_marked(&rt, &memory[..], LEFT.len());
    Ok(())
}

#[derive(Clone, Copy)]
struct BadSetup {
    items: u32,
    seats: u32,
    slots: u32,
}

const BAD_SETUPS: [BadSetup; 6] = [
    BadSetup {
        items: 0,
        seats: 1,
        slots: 8,
    },
    BadSetup {
        items: 257,
        seats: 1,
        slots: 2056,
    },
    BadSetup {
        items: 1,
        seats: 0,
        slots: 8,
    },
    BadSetup {
        items: 1,
        seats: 33,
        slots: 8,
    },
    BadSetup {
        items: 3,
        seats: 2,
        slots: 23,
    },
    BadSetup {
        items: 256,
        seats: 32,
        slots: 2047,
    },
];

#[test]
fn a_refused_setup_hands_the_memory_back(rt: HostRuntime) -> Result<(), Fail> {
    for setup in BAD_SETUPS.iter() {
        let mut memory = marked(rt.alloc(), setup.slots)?;
        let len = memory.len();
        match Board::new(setup.items, setup.seats, Warp, &mut memory[..]) {
            Ok(_) => return Err(Fail::new("a bad setup was taken")),
            Err(unfit) => {
                assert_eq!(rt; unfit.memory.len(), len);
                check_marked(&rt, unfit.memory, 0);
            }
        }
        check_marked(&rt, &memory[..], 0);
    }
    Ok(())
}

// The same with one slot more, or with the counts at their ends: such a setup is taken.
#[test]
fn a_setup_at_the_ends_is_taken(rt: HostRuntime) -> Result<(), Fail> {
    let mut memory = marked(rt.alloc(), 2048)?;
    assert!(rt; Board::new(256, 32, Warp, &mut memory[..]).is_ok());
    assert!(rt; Board::new(1, 1, Warp, &mut memory[0..8]).is_ok());
    Ok(())
}
