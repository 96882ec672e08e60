// The one call that a board takes from outside.
ghost use Rattle.board.specs.Holding.{KeepsThePromise};

use crate::board::Board;
use calls::{Call, Refusal, Reply};
use kinds::Kind;
use rules::Rule;

impl<K: Kind, R: Rule> Board<'_, K, R> {
    // Every call gets its reply or its refusal, and keeps the promise.
    pub fn call(&mut self, call: Call) -> Result<Reply, Refusal>
        ensures { KeepsThePromise R.answers self.old self.new call result }
    {
        self.is_lawful();
        match call {
            Call::Admit { seat, class } => self.admit(seat, class),
            Call::Revoke { seat } => self.revoke(seat),
            Call::Begin { seat, pass, mode } => self.begin(seat, pass, mode),
            Call::Read { seat, pass, item } => self.read(seat, pass, item),
            Call::Write {
                seat,
                pass,
                item,
                code,
            } => self.write(seat, pass, item, code),
            Call::Commit { seat, pass } => self.commit(seat, pass),
            Call::Abandon { seat, pass } => self.abandon(seat, pass),
            Call::Show { item } => self.show(item),
        }
    }
}
