// Transactions that begin and end without a grant.
ghost use Rattle.calls.specs.declared.call.Call.TheVariants.{Begin, Abandon};
ghost use Rattle.board.specs.Holding.{Follows};

use crate::board::Board;
use crate::seat::HeldSeat;
use crate::transaction::Transaction;
use calls::{Mode, Refusal, Reply};
use kinds::Kind;
use rules::Rule;

impl<K: Kind, R: Rule> Board<'_, K, R> {
    // Opens a transaction, which starts at the clock.
    pub(crate) fn begin(&mut self, seat: u32, pass: u32, mode: Mode) -> Result<Reply, Refusal>
        ensures { Follows R.answers self.old self.new (Begin seat pass mode) result }
    {
        let HeldSeat { at, held } = self.held_seat(seat, pass)?;
        if held.running.is_some() {
            return Err(Refusal::AlreadyBegun);
        }
        let start = self.clock;
        self.set_running(at, Some(Transaction::new(mode, start)));
        Ok(Reply::Start(start))
    }

    // Drops the open transaction.
    pub(crate) fn abandon(&mut self, seat: u32, pass: u32) -> Result<Reply, Refusal>
        ensures { Follows R.answers self.old self.new (Abandon seat pass) result }
    {
        let HeldSeat { at, held } = self.held_seat(seat, pass)?;
        if held.running.is_none() {
            return Err(Refusal::NotBegun);
        }
        self.set_running(at, None);
        Ok(Reply::Done)
    }
}
