// A rule decides whether a transaction is granted, and at which place.
ghost use Rattle.std.specs.Prelude.{◌≡◌, ℕ, Option};
ghost use Rattle.rules.specs.declared.findings.Findings.{Findings};
ghost use Rattle.rules.specs.Laws.{GrantsInRange, GrantsUpToMissed, GrantsNextIfOvertaken, GrantsNextIfNoneMissed, FourLaws};

use crate::findings::Findings;

// The laws are owed only for findings as a board gives them; the answer is fixed for all.
pub trait Rule {
    // None refuses, and Some grants a place.
    ghost answers: { Self → Findings → Option ℕ };

    fn decide(&self, findings: Findings) -> Option<u32>
        ensures { result ≡ answers self.now findings };

    ghost granted_place_is_above_start_up_to_next: { (rule : Self) → GrantsInRange (answers rule) };

    ghost granted_place_is_not_above_missed: { (rule : Self) → GrantsUpToMissed (answers rule) };

    ghost overtaken_is_granted_next_only: { (rule : Self) → GrantsNextIfOvertaken (answers rule) };

    ghost nothing_missed_is_granted_next: { (rule : Self) → GrantsNextIfNoneMissed (answers rule) };
}

// The trait's laws as one fact, of every value. Each rule's theorem stands beside it in a function of its own, since a contract is where a
// theorem is stated.
pub fn each_rule_keeps_the_four_laws<R: Rule>()
    ensures { (rule : R) → FourLaws (R.answers rule) }
{}

// The same of the rule at hand.
pub fn rule_keeps_the_four_laws<R: Rule>(rule: &R)
    ensures { FourLaws (R.answers rule.now) }
{
    each_rule_keeps_the_four_laws::<R>()
}
