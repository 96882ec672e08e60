// What an open transaction reads and writes.
ghost use Rattle.calls.specs.declared.call.Call.TheVariants.{Read, Write as Writing};
ghost use Rattle.board.specs.Holding.{Follows};

use crate::board::Board;
use crate::seat::HeldSeat;
use calls::{Mode, Refusal, Reply};
use kinds::Kind;
use rules::Rule;
use versions::{Sight, code_in_sight};

impl<K: Kind, R: Rule> Board<'_, K, R> {
    // The code of an item: a reader sees by place, and an update transaction its own write, or by natural number.
    pub(crate) fn read(&mut self, seat: u32, pass: u32, item: u32) -> Result<Reply, Refusal>
        ensures { Follows R.answers self.old self.new (Read seat pass item) result }
    {
        let HeldSeat { at, held } = self.held_seat(seat, pass)?;
        let Some(mut txn) = held.running else {
            return Err(Refusal::NotBegun);
        };
        let index = self.known_item(item)?;
        match txn.mode {
            Mode::Reader => {
                let code = code_in_sight(self.slots(index), Sight::ByPlace, txn.start);
                self.stamp(index);
                Ok(Reply::Code(code))
            }
            Mode::Update => match txn.listed(item) {
                Some(code) => Ok(Reply::Code(code)),
                None => {
                    let code = code_in_sight(self.slots(index), Sight::ByNatural, txn.start);
                    txn.mark(index);
                    self.set_running(at, Some(txn));
                    Ok(Reply::Code(code))
                }
            },
        }
    }

    // Lists a code for an item.
    pub(crate) fn write(
        &mut self,
        seat: u32,
        pass: u32,
        item: u32,
        code: u32,
    ) -> Result<Reply, Refusal>
        ensures { Follows R.answers self.old self.new (Writing seat pass item code) result }
    {
        let HeldSeat { at, held } = self.held_seat(seat, pass)?;
        let Some(mut txn) = held.running else {
            return Err(Refusal::NotBegun);
        };
        self.known_item(item)?;
        if txn.mode == Mode::Reader {
            return Err(Refusal::ReaderWrites);
        }
        self.is_lawful();
        if code >= K::COUNT {
            return Err(Refusal::UnknownCode);
        }
        txn.list(item, code)?;
        self.set_running(at, Some(txn));
        Ok(Reply::Done)
    }
}
