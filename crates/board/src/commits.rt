// The end of a transaction that asks to be granted.
ghost use Rattle.std.specs.Prelude.{◌≡◌, ℕ, ◌<◌};
ghost use Rattle.calls.specs.declared.call.Call.TheVariants.{Commit};
ghost use Rattle.history.specs.State.{State, Transaction as Running};
ghost use Rattle.history.specs.Log.{History, Leads};
ghost use Rattle.board.specs.Holding.{Runs, Holds, Follows};
ghost use Rattle.board.specs.Commits.{Settled, Placed, Ended};
ghost use Rattle.board.specs.Sound.{WritesKnown};

use crate::admissions::LIMIT;
use crate::board::Board;
use crate::seat::HeldSeat;
use crate::transaction::Transaction;
use calls::{Class, Mode, Refusal, Reply};
use kinds::Kind;
use rules::Rule;

impl<K: Kind, R: Rule> Board<'_, K, R> {
    // A reader ends at its start; an update transaction is granted at a place, or refused.
    pub(crate) fn commit(&mut self, seat: u32, pass: u32) -> Result<Reply, Refusal>
        ensures { Follows R.answers self.old self.new (Commit seat pass) result }
    {
        let HeldSeat { at, held } = self.held_seat(seat, pass)?;
        let Some(txn) = held.running else {
            return Err(Refusal::NotBegun);
        };
        match txn.mode {
            Mode::Reader => {
                self.set_running(at, None);
                Ok(Reply::Granted((0, txn.start)))
            }
            Mode::Update => self.commit_update(at, held.class, &txn),
        }
    }

    // The index and the transaction go from here to the end as they are, and what `held_seat` knows of them is asked for at each step: a struct
    // of the two, with that as its invariant, would have to name the board's sizes, and be taken apart again.
    fn commit_update(
        &mut self,
        at: usize,
        class: Class,
        txn: &Transaction,
    ) -> Result<Reply, Refusal>
        requires at { at < 32 }
        requires known { WritesKnown self.old.items self.old.codes txn.now }
        ensures { Settled R.answers self.old self.new at class txn.now result }
    {
        if self.clock >= LIMIT {
            self.set_running(at, None);
            return Err(Refusal::ClockSpent);
        }
        let next = self.clock + 1;
        let findings = self.findings(class, txn, next);
        match self.rule.decide(findings) {
            None => {
                let item = self.lowest_missed(txn);
                self.end(at, txn);
                Err(Refusal::RuleRefuses { item })
            }
            Some(place) => self.settle(at, txn, next, place),
        }
    }

    // Stores what the transaction has listed, if every list has room.
    fn settle(
        &mut self,
        at: usize,
        txn: &Transaction,
        next: u32,
        place: u32,
    ) -> Result<Reply, Refusal>
        requires at { at < 32 }
        requires known { WritesKnown self.old.items self.old.codes txn.now }
        ensures { Placed R.answers self.old self.new at txn.now next place result }
    {
        let least = self.least_start(txn.start);
        match self.lowest_full(txn, least, place) {
            Some(item) => {
                self.end(at, txn);
                Err(Refusal::VersionsFull { item })
            }
            None => {
                self.store_all(txn, least, next, place);
                self.end(at, txn);
                self.clock = next;
                Ok(Reply::Granted((next, place)))
            }
        }
    }

    // Raises the stamps of the marked items, and closes the transaction.
    fn end(&mut self, at: usize, txn: &Transaction)
        requires { at < 32 }
        ensures { Ended self.old self.new at txn.now }
    {
        self.raise_stamps(txn);
        self.set_running(at, None);
    }
}
