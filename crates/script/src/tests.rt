// What the format's rules say of examples.
use crate::answer::write_answer;
use crate::cut::look_up;
use crate::input::read_script;
use crate::lines::Lines;
use crate::open::{Unopened, open_script};
use crate::read::read_header;
use calls::{BoardKind, Fault, Header, Reply, RuleName};
use std::io;
use std::process::Abort;

// The refusal of a header's line and the byte that it names.
fn refused(line: &[u8]) -> (u32, u32) {
    match read_header(line) {
        Ok(_) => (0, 0),
        Err(fault) => (fault.number(), fault.named()),
    }
}

#[test]
fn damaged_headers(rt: HostRuntime) {
    let table: [(&[u8], (u32, u32)); 18] = [
        (b"board=drive items=2 seats=3 rule=now", (0, 0)),
        (b"board=switch items=0 seats=9999999 rule=home-warp", (0, 0)),
        (b"", (17, 0)),
        (b"Board=drive items=2 seats=3 rule=now", (17, 0)),
        (b"board=train items=2 seats=3 rule=now", (17, 0)),
        (b" board=drive items=2 seats=3 rule=now", (17, 0)),
        (b"board=drive", (17, 11)),
        (b"board=drive ", (17, 12)),
        (b"board=drive  items=2 seats=3 rule=now", (17, 12)),
        (b"board=drive seats=3 items=2 rule=now", (17, 12)),
        (b"board=drive items= seats=3 rule=now", (18, 18)),
        (b"board=drive items=02 seats=3 rule=later", (18, 18)),
        (b"board=drive items=2 seats=10000000 rule=now", (18, 26)),
        (b"board=drive items=2 seats=3", (17, 27)),
        (b"board=drive items=2 seats=3 rule=later", (17, 28)),
        (b"board=drive items=2 seats=3 rule=now\r", (17, 28)),
        (b"board=drive items=2 seats=3 rule=now ", (17, 37)),
        (b"board=drive items=2 seats=3 rule=now op=show", (17, 37)),
    ];
    for (line, expected) in table {
        assert_eq!(rt; refused(line), expected);
    }
    assert_eq!(rt; refused(&[b' '; 96]), (17, 0));
    assert_eq!(rt; refused(&[b' '; 97]), (16, 0));
}

#[test]
fn lines_of_a_script(rt: HostRuntime) {
    let mut none = Lines::new(b"");
    assert!(rt; none.next_line() == Some(b""));
    assert!(rt; none.next_line() == None);
    let mut lines = Lines::new(b"a\n\r\n\n b\n");
    assert!(rt; lines.next_line() == Some(b"a"));
    assert!(rt; lines.next_line() == Some(b"\r"));
    assert!(rt; lines.next_line() == Some(b""));
    assert!(rt; lines.next_line() == Some(b" b"));
    assert!(rt; lines.next_line() == None);
}

#[test]
fn opened_scripts(rt: HostRuntime) {
    let Ok((header, mut lines)) = open_script(b"board=switch items=2 seats=3 rule=warp\na\nb\n")
    else {
        return assert!(rt; false);
    };
    assert!(rt;
        header
            == Header {
                board: BoardKind::Switch,
                items: 2,
                seats: 3,
                rule: RuleName::Warp
            }
    );
    assert!(rt; lines.next() == Some(b"a"));
    assert_eq!(rt; lines.count(), 1);
    let Err(unopened) = open_script(b"op=show item=0") else {
        return assert!(rt; false);
    };
    assert!(rt; unopened == Unopened::NoHeader(Fault::WrongPart { at: 0 }));
    assert!(rt; unopened.line() == 1 && unopened.fault() == Fault::WrongPart { at: 0 });
}

#[test]
fn a_script_that_is_read(rt: HostRuntime) -> io::Result<()> {
    let script: &[u8] = b"board=switch\n";
    assert!(rt; read_script(rt.alloc(), script)?.as_slice() == script);
    Ok(())
}

#[test]
fn values_of_a_line(rt: HostRuntime) {
    assert!(rt; look_up(b"item==0 code=1", b"item") == Some(b"=0"));
    assert!(rt; look_up(b"item", b"item") == None);
    assert!(rt; look_up(b" item=1", b"item") == None);
}

// The answer that is written over other bytes.
fn answered(rt: &impl Abort, line: u32, outcome: Result<Reply, Fault>, expected: &[u8]) {
    let mut out = [255; 32];
    let len = write_answer(&mut out, line, &outcome);
    assert!(rt; out.starts_with(expected) && len == expected.len());
    for byte in out.iter().skip(len) {
        assert_eq!(rt; *byte, 0);
    }
}

#[test]
fn answers(rt: HostRuntime) {
    answered(&rt, 1, Ok(Reply::Done), b"1 0 0 0\n");
    answered(&rt, 20, Ok(Reply::Pass(407)), b"20 0 407 0\n");
    answered(&rt, 3, Ok(Reply::Granted((12, 5))), b"3 0 12 5\n");
    answered(&rt, 0, Err(Fault::TooLong), b"0 16 0 0\n");
    answered(
        &rt,
        u32::MAX,
        Err(Fault::WrongPart { at: 96 }),
        b"9999999 17 96 0\n",
    );
    answered(
        &rt,
        9_999_999,
        Ok(Reply::Granted((u32::MAX, 10_000_000))),
        b"9999999 0 9999999 9999999\n",
    );
}
