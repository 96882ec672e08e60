// What changes in a board's tables.
ghost use Rattle.std.specs.Prelude.{◌<◌};
ghost use Rattle.board.specs.Ends.{SeatPut, NowRuns, Stamped, Raised};
ghost use Rattle.board.specs.Sound.{RunningKnown, SeatKnown};

use crate::board::Board;
use crate::seat::Held;
use crate::transaction::Transaction;
use kinds::Kind;
use rules::Rule;

impl<K: Kind, R: Rule> Board<'_, K, R> {
    // The seat has this transaction open, or none.
    pub(crate) fn set_running(&mut self, at: usize, running: Option<Transaction>)
        requires known { at < 32 }
        requires writes { RunningKnown self.old.items self.old.codes running }
        ensures { NowRuns self.old self.new at running }
    {
        if let Some(held) = &mut self.seats[at] {
            held.running = running;
        }
    }

    // The seat becomes this one.
    pub(crate) fn put(&mut self, at: usize, seat: Option<Held>)
        requires known { at < 32 }
        requires writes { SeatKnown self.old.items self.old.codes seat }
        ensures { SeatPut self.old self.new at seat }
    {
        self.seats[at] = seat;
    }

    // The stamp of every marked item is raised to the clock. (An item's number is the index of its mark, its stamp and its slots.)
    pub(crate) fn raise_stamps(&mut self, txn: &Transaction)
        ensures { Raised self.old self.new txn.now }
    {
        for item in 0..self.items {
            if txn.marks[item] {
                self.stamp(item);
            }
        }
    }

    // The item's stamp is raised to the clock.
    pub(crate) fn stamp(&mut self, item: usize)
        requires { item < self.old.items }
        ensures { Stamped self.old self.new item }
    {
        self.stamps[item] = self.clock;
    }
}
