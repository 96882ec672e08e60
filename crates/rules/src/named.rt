// The rules that a script can name.
ghost use Rattle.std.specs.Prelude.{◌≡◌};
ghost use Rattle.calls.specs.declared.header.RuleName.{RuleName};
ghost use Rattle.rules.specs.Laws.{FourLaws};
ghost use Rattle.rules.specs.NamedAnswers.{named_answers};
ghost use Rattle.std.proofs.Common.{rules};

use crate::findings::Findings;
use crate::home::Home;
use crate::now::Now;
use crate::rule::{Rule, each_rule_keeps_the_four_laws};
use crate::warp::Warp;
use calls::RuleName;

impl Rule for RuleName {
    ghost answers = { named_answers };

    ghost granted_place_is_above_start_up_to_next = { Prim.search rules };

    ghost granted_place_is_not_above_missed = { Prim.search rules };

    ghost overtaken_is_granted_next_only = { Prim.search rules };

    ghost nothing_missed_is_granted_next = { Prim.search rules };

    fn decide(&self, findings: Findings) -> Option<u32> {
        match *self {
            RuleName::Now => Now.decide(findings),
            RuleName::Warp => Warp.decide(findings),
            RuleName::HomeNow => Home { below: Now }.decide(findings),
            RuleName::HomeWarp => Home { below: Warp }.decide(findings),
        }
    }
}

pub fn each_named_rule_keeps_the_four_laws()
    ensures { (name : RuleName) → FourLaws (named_answers name) }
{
    each_rule_keeps_the_four_laws::<RuleName>()
}
