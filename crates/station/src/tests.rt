use crate::answer::Answer;
use crate::request::Request;
use crate::run::station_run;

// Two operators, under warp: seat 1 reads item 0 before seat 0 changes it, and is granted at place 2 all the same.
const REQUESTS: [(u32, u32, u32, u32, u32); 10] = [
    (0, 0, 0, 0, 0),
    (0, 1, 0, 0, 1),
    (2, 0, 1, 0, 1),
    (2, 1, 2, 0, 1),
    (3, 1, 2, 0, 0),
    (4, 1, 2, 1, 7),
    (4, 0, 1, 0, 5),
    (5, 0, 1, 0, 0),
    (5, 1, 2, 0, 0),
    (7, 0, 0, 1, 0),
];

// Of each request the first and the second number of its answer, as the rules give them.
const TOLD: [(u32, u32); 10] = [
    (1, 0),
    (2, 0),
    (1, 0),
    (1, 0),
    (0, 0),
    (0, 0),
    (0, 0),
    (2, 2),
    (3, 2),
    (7, 0),
];

#[test]
fn two_operators_are_answered(rt: HostRuntime) {
    let requests = REQUESTS.map(|(op, seat, pass, item, value)| Request {
        op,
        seat,
        pass,
        item,
        value,
    });
    let mut answers = [Answer {
        refusal: 99,
        first: 99,
        second: 99,
    }; 10];
    let status = station_run(rt.alloc(), 0, 1, 2, 2, &requests, &mut answers);
    assert_eq!(rt; status, 0);
    let told = TOLD.map(|(first, second)| Answer {
        refusal: 0,
        first,
        second,
    });
    assert_eq!(rt; answers, told);
}
