use crate::findings::Findings;
use crate::home::Home;
use crate::rule::Rule;
use crate::warp::Warp;
use calls::{Class, RuleName};

#[test]
fn each_rule_answers_by_its_table(rt: HostRuntime) {
    let quiet = Findings {
        start: 3,
        next: 9,
        class: Class::Member,
        overtaken: false,
        missed: None,
        warped: false,
    };
    // Not as a board gives them: nothing missed is looked at first.
    let quiet_guest = Findings {
        class: Class::Guest,
        overtaken: true,
        warped: true,
        ..quiet
    };
    let missed = Findings {
        missed: Some(5),
        ..quiet
    };
    let guest = Findings {
        class: Class::Guest,
        ..missed
    };
    // Not as a board gives them: a missed place that is not below next.
    let late_guest = Findings {
        missed: Some(9),
        ..guest
    };
    let warped = Findings {
        warped: true,
        ..missed
    };
    let overtaken = Findings {
        overtaken: true,
        ..missed
    };
    // The findings, and what now, warp, home over now and home over warp answer.
    let table = [
        (quiet, Some(9), Some(9), Some(9), Some(9)),
        (quiet_guest, Some(9), Some(9), Some(9), Some(9)),
        (missed, None, Some(5), None, Some(5)),
        (guest, None, Some(5), None, None),
        (late_guest, None, Some(9), None, Some(9)),
        (warped, None, None, None, None),
        (overtaken, None, None, None, None),
    ];
    for (findings, now, warp, home_now, home_warp) in table {
        assert_eq!(rt; RuleName::Now.decide(findings), now);
        assert_eq!(rt; RuleName::Warp.decide(findings), warp);
        assert_eq!(rt; RuleName::HomeNow.decide(findings), home_now);
        assert_eq!(rt; RuleName::HomeWarp.decide(findings), home_warp);
        let twice = Home {
            below: Home { below: Warp },
        };
        assert_eq!(rt; twice.decide(findings), home_warp);
    }
}
