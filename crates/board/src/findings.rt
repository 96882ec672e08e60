// What a commit finds.
ghost use Rattle.std.specs.Prelude.{◌≡◌, ℕ, ◌+◌, ◌<◌, List, ◌++◌, length, nat_lt};
ghost use Rattle.history.specs.State.{State, Version, Transaction as Running};
ghost use Rattle.history.specs.Steps.{missed, missed_of, lowest, overtaken, findings, least, starts};
ghost use Rattle.versions.specs.Plans.{Tells};
ghost use Rattle.board.specs.Contents.{setup_of};
ghost use Rattle.board.specs.Holding.{WhileOpen, Holds};
ghost use Rattle.board.specs.Lists.{starts_in};
ghost use Rattle.board.specs.Sound.{WritesKnown};

use crate::board::Board;
use crate::seat::Held;
use crate::transaction::Transaction;
use calls::Class;
use kinds::Kind;
use rules::{Findings, Rule};
use versions::{Missed, count_missed};

impl<K: Kind, R: Rule> Board<'_, K, R> {
    // The findings of an open transaction that asks to be granted.
    pub(crate) fn findings(&self, class: Class, txn: &Transaction, next: u32) -> Findings
        requires { WritesKnown self.now.items self.now.codes txn.now }
        ensures { WhileOpen self.now txn.now (λ s x. next ≡ self.now.clock + 1 → result ≡ findings (setup_of R.answers self.now) s class x) }
    {
        let missed = self.missed(txn);
        let overtaken = self.overtaken(txn);
        Findings {
            start: txn.start,
            next,
            class,
            overtaken,
            missed: missed.earliest,
            warped: missed.warped,
        }
    }

    fn missed(&self, txn: &Transaction) -> Missed
        ensures { WhileOpen self.now txn.now (λ s x. Tells result (missed (setup_of R.answers self.now) s x)) }
    {
        let mut missed = Missed::nothing();
        // By the item's number, which is the index of its mark and of its slots.
        for item in 0..self.items {
            // The mark is tested before the call, since a call for each of 256 items would take half of a commit's time.
            if txn.marks[item] {
                missed = self.with_missed(missed, txn, item);
            }
        }
        missed
    }

    // The lowest item of which a version was missed, or the count of items. A rule refuses only where something was missed, so that there is
    // one, and a caller of an `Option` would have to make up what this ends with.
    pub(crate) fn lowest_missed(&self, txn: &Transaction) -> u32
        ensures { WhileOpen self.now txn.now (λ s x. result ≡ lowest self.now.items (λ item. nat_lt 0 (length (missed_of s x item)))) }
    {
        // By the item's number, which it gives.
        for item in 0..self.items {
            // The mark is tested before the call, as in `missed`.
            if txn.marks[item]
                && self
                    .with_missed(Missed::nothing(), txn, item)
                    .earliest
                    .is_some()
            {
                return item as u32;
            }
        }
        self.items as u32
    }

    // What was missed before, and of one item: nothing of an unmarked one, which both callers pass over before they call.
    fn with_missed(&self, before: Missed, txn: &Transaction, item: usize) -> Missed
        requires { (item < self.now.items) × (item < 256) }
        ensures { WhileOpen self.now txn.now (λ s x. (vs : List Version) → Tells before vs → Tells result (vs ++ missed_of s x item)) }
    {
        if !txn.marks[item] {
            return before;
        }
        count_missed(self.slots(item), txn.start, before)
    }

    fn overtaken(&self, txn: &Transaction) -> bool
        requires { WritesKnown self.now.items self.now.codes txn.now }
        ensures { WhileOpen self.now txn.now (λ s x. result ≡ overtaken s x) }
    {
        for w in txn.writes_listed() {
            if txn.start <= self.stamps[w.item as usize] {
                return true;
            }
        }
        false
    }

    // The least start of an open transaction, the given one counted.
    pub(crate) fn least_start(&self, start: u32) -> u32
        ensures { (s : State) → Holds self.now s → result ≡ least start (starts (setup_of R.answers self.now) s) }
    {
        let mut least = start;
        for seat in &self.seats[0..self.seat_count] {
            least = least_with(seat, least);
        }
        least
    }
}

// The lesser of a number and the start of a seat's open transaction, if it has one.
fn least_with(seat: &Option<Held>, start: u32) -> u32
    ensures { result ≡ least start (starts_in seat.now) }
{
    match seat {
        Some(
            Held {
                running: Some(txn),
                ..
            },
        ) => txn.start.min(start),
        _ => start,
    }
}
