// The layer `home` over any rule: a guest is granted nothing in the past.
ghost use Rattle.std.specs.Prelude.{◌≡◌, ℕ, Option};
ghost use Rattle.rules.specs.declared.findings.Findings.{Findings};
ghost use Rattle.rules.specs.Laws.{FourLaws};
ghost use Rattle.rules.specs.HomeAnswers.{home_answers};
ghost use Rattle.rules.specs.HomeLaws.{home_in_range, home_up_to_missed, home_next_if_overtaken};
ghost use Rattle.std.proofs.Common.{rules};

use crate::findings::Findings;
use crate::rule::{Rule, each_rule_keeps_the_four_laws};
use calls::Class;

#[derive(Clone, Copy, Debug, PartialEq, Eq)]
pub struct Home<R> {
    pub below: R,
}

impl<R: Rule> Rule for Home<R> {
    ghost answers = { λ home. home_answers (R.answers home.below) };

    ghost granted_place_is_above_start_up_to_next = { λ home. home_in_range _ (R.Rule.granted_place_is_above_start_up_to_next home.below) };

    ghost granted_place_is_not_above_missed = { λ home. home_up_to_missed _ (R.Rule.granted_place_is_not_above_missed home.below) };

    ghost overtaken_is_granted_next_only = { λ home. home_next_if_overtaken _ (R.Rule.overtaken_is_granted_next_only home.below) };

    ghost nothing_missed_is_granted_next = { Prim.search rules };

    fn decide(&self, findings: Findings) -> Option<u32> {
        let answer = self.below.decide(findings);
        match (findings.class, answer) {
            (Class::Guest, Some(place)) if place < findings.next => None,
            _ => answer,
        }
    }
}

// Over any answers that keep the laws, whether or not a type gives them.
pub fn home_keeps_the_four_laws()
    ensures { (below : Findings → Option ℕ) → FourLaws below → FourLaws (home_answers below) }
{}

pub fn home_over_any_rule_keeps_the_four_laws<R: Rule>()
    ensures { (rule : R) → FourLaws (home_answers (R.answers rule)) }
{
    each_rule_keeps_the_four_laws::<Home<R>>()
}

pub fn home_over_home_keeps_the_four_laws<R: Rule>()
    ensures { (rule : R) → FourLaws (home_answers (home_answers (R.answers rule))) }
{
    each_rule_keeps_the_four_laws::<Home<Home<R>>>()
}
