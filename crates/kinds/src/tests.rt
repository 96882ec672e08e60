use crate::kind::Kind;
use crate::locomotive::{Direction, Locomotive};
use crate::turnout::Turnout;
use std::test::Fail;

fn locomotive(speed: u8, direction: Direction, holder: Option<u8>) -> Locomotive {
    Locomotive {
        speed,
        direction,
        holder,
    }
}

#[test]
fn locomotives(rt: HostRuntime) -> Result<(), Fail> {
    let table = [
        (
            0,
            locomotive(0, Direction::Forward, None),
            "speed 0 forward, held by nobody",
        ),
        (
            126,
            locomotive(126, Direction::Forward, None),
            "speed 126 forward, held by nobody",
        ),
        (
            127,
            locomotive(0, Direction::Backward, None),
            "speed 0 backward, held by nobody",
        ),
        (
            253,
            locomotive(126, Direction::Backward, None),
            "speed 126 backward, held by nobody",
        ),
        (
            254,
            locomotive(0, Direction::Forward, Some(0)),
            "speed 0 forward, held by seat 0",
        ),
        (
            1056,
            locomotive(40, Direction::Forward, Some(3)),
            "speed 40 forward, held by seat 3",
        ),
        (
            8381,
            locomotive(126, Direction::Backward, Some(31)),
            "speed 126 backward, held by seat 31",
        ),
    ];
    for (code, state, words) in table {
        assert_eq!(rt; Locomotive::from_code(code), state);
        assert_eq!(rt; state.code(), code);
        assert_eq!(rt; format!(in rt.alloc(); "{state}")?.as_str(), words);
    }
    assert_eq!(rt; Locomotive::from_code(8382), Locomotive::REST);
    Ok(())
}

#[test]
fn turnouts(rt: HostRuntime) -> Result<(), Fail> {
    let table = [
        (0, Turnout::Unknown, "unknown"),
        (1, Turnout::Straight, "straight"),
        (2, Turnout::Diverging, "diverging"),
        (3, Turnout::Locked { seat: 0 }, "locked for seat 0"),
        (6, Turnout::Locked { seat: 3 }, "locked for seat 3"),
        (34, Turnout::Locked { seat: 31 }, "locked for seat 31"),
    ];
    for (code, state, words) in table {
        assert_eq!(rt; Turnout::from_code(code), state);
        assert_eq!(rt; state.code(), code);
        assert_eq!(rt; format!(in rt.alloc(); "{state}")?.as_str(), words);
    }
    assert_eq!(rt; Turnout::from_code(35), Turnout::REST);
    Ok(())
}
