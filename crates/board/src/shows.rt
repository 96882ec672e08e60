// What anybody may ask.
ghost use Rattle.calls.specs.declared.call.Call.TheVariants.{Show};
ghost use Rattle.board.specs.Holding.{Follows};

use crate::board::Board;
use calls::{Refusal, Reply};
use kinds::Kind;
use rules::Rule;
use versions::head_code;

impl<K: Kind, R: Rule> Board<'_, K, R> {
    // The code of an item's newest version.
    pub(crate) fn show(&self, item: u32) -> Result<Reply, Refusal>
        ensures { Follows R.answers self.now self.now (Show item) result }
    {
        let at = self.known_item(item)?;
        Ok(Reply::Code(head_code(self.slots(at))))
    }
}
