// Who holds a seat.
ghost use Rattle.calls.specs.declared.call.Call.TheVariants.{Admit, Revoke};
ghost use Rattle.board.specs.Holding.{Follows};

use crate::board::Board;
use crate::seat::Held;
use calls::{Class, Refusal, Reply};
use kinds::Kind;
use rules::Rule;

// Where the clock and the passes stop.
pub const LIMIT: u32 = 1_000_000;

impl<K: Kind, R: Rule> Board<'_, K, R> {
    // Gives an empty seat to somebody under the next pass.
    pub(crate) fn admit(&mut self, seat: u32, class: Class) -> Result<Reply, Refusal>
        ensures { Follows R.answers self.old self.new (Admit seat class) result }
    {
        let at = self.empty_seat(seat)?;
        if self.passes >= LIMIT {
            return Err(Refusal::PassesSpent);
        }
        let pass = self.passes + 1;
        self.passes = pass;
        let held = Held {
            pass,
            class,
            running: None,
        };
        self.put(at, Some(held));
        Ok(Reply::Pass(pass))
    }

    // Empties a seat, and drops its open transaction.
    pub(crate) fn revoke(&mut self, seat: u32) -> Result<Reply, Refusal>
        ensures { Follows R.answers self.old self.new (Revoke seat) result }
    {
        let at = self.taken_seat(seat)?;
        self.put(at, None);
        Ok(Reply::Done)
    }
}
