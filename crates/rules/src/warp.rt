// The rule `warp`: a commit that missed something is granted at the earliest place that it missed.
ghost use Rattle.std.specs.Prelude.{◌≡◌};
ghost use Rattle.rules.specs.Laws.{FourLaws};
ghost use Rattle.rules.specs.WarpAnswers.{warp_answers};
ghost use Rattle.std.proofs.Common.{rules};

use crate::findings::Findings;
use crate::rule::{Rule, each_rule_keeps_the_four_laws};

#[derive(Clone, Copy, Debug, PartialEq, Eq)]
pub struct Warp;

impl Rule for Warp {
    ghost answers = { λ _. warp_answers };

    ghost granted_place_is_above_start_up_to_next = { Prim.search rules };

    ghost granted_place_is_not_above_missed = { Prim.search rules };

    ghost overtaken_is_granted_next_only = { Prim.search rules };

    ghost nothing_missed_is_granted_next = { Prim.search rules };

    fn decide(&self, findings: Findings) -> Option<u32> {
        match findings.missed {
            None => Some(findings.next),
            Some(_) if findings.warped || findings.overtaken => None,
            Some(place) => Some(place),
        }
    }
}

pub fn warp_keeps_the_four_laws()
    ensures { FourLaws warp_answers }
{
    each_rule_keeps_the_four_laws::<Warp>()
}
