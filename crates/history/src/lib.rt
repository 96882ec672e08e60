//! The board as a model, and what every list of calls on it is promised. Each function states a theorem and does nothing.
#![tactic(auto)]

ghost use Rattle.history.specs.Examples.{EachExampleComesOut};
ghost use Rattle.history.specs.Premises.{PremisesCanBeMet};
ghost use Rattle.history.specs.Progress.{UndisturbedCommitsGoThrough, OnlyTheRuleRefuses, OnlyFullListsRefuse, NaturalsCountGrants};
ghost use Rattle.history.specs.Promise.{EveryHistoryKeepsThePromise};

use rules::now_keeps_the_four_laws;

// For every setup with a lawful rule, and for every list of calls from a new board, the promise holds.
pub fn every_history_keeps_the_promise()
    ensures { EveryHistoryKeepsThePromise }
{}

// A commit that missed nothing and whose lists have room is granted next, and show then tells what it wrote.
pub fn undisturbed_commits_go_through()
    ensures { UndisturbedCommitsGoThrough }
{}

// Refusal 14 comes only where the rule refuses what missed a version of the item named.
pub fn only_the_rule_refuses()
    ensures { OnlyTheRuleRefuses }
{}

// Refusal 15 comes only where the list of the item named is full.
pub fn only_full_lists_refuse()
    ensures { OnlyFullListsRefuse }
{}

// Granted updates get the natural numbers 2, 3, 4 and so on, in the order in which they are granted.
pub fn naturals_count_grants()
    ensures { NaturalsCountGrants }
{}

// The worked examples come out as the rules say.
pub fn each_example_comes_out()
    ensures { EachExampleComesOut }
{}

// There are lawful boards, and lists of calls after which a commit goes through, gets 14 and gets 15: no theorem above is empty.
pub fn premises_can_be_met()
    ensures { PremisesCanBeMet }
{
    now_keeps_the_four_laws()
}
