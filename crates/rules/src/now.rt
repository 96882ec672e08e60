// The rule `now`: a commit happens now, at the next place, or not at all.
ghost use Rattle.std.specs.Prelude.{◌≡◌};
ghost use Rattle.rules.specs.Laws.{FourLaws};
ghost use Rattle.rules.specs.NowAnswers.{now_answers};
ghost use Rattle.std.proofs.Common.{rules};

use crate::findings::Findings;
use crate::rule::{Rule, each_rule_keeps_the_four_laws};

#[derive(Clone, Copy, Debug, PartialEq, Eq)]
pub struct Now;

impl Rule for Now {
    ghost answers = { λ _. now_answers };

    ghost granted_place_is_above_start_up_to_next = { Prim.search rules };

    ghost granted_place_is_not_above_missed = { Prim.search rules };

    ghost overtaken_is_granted_next_only = { Prim.search rules };

    ghost nothing_missed_is_granted_next = { Prim.search rules };

    fn decide(&self, findings: Findings) -> Option<u32> {
        match findings.missed {
            None => Some(findings.next),
            Some(_) => None,
        }
    }
}

pub fn now_keeps_the_four_laws()
    ensures { FourLaws now_answers }
{
    each_rule_keeps_the_four_laws::<Now>()
}
