// Whether the lists of a transaction's listed items have room.
ghost use Rattle.std.specs.Prelude.{◌≡◌, ℕ, ◌<◌, MatchOption};
ghost use Rattle.history.specs.State.{State, Transaction as Running};
ghost use Rattle.history.specs.Steps.{lowest, is_full, least_start};
ghost use Rattle.board.specs.Contents.{setup_of};
ghost use Rattle.board.specs.Holding.{WhileOpen};
ghost use Rattle.board.specs.Room.{Reaches};
ghost use Rattle.board.specs.Sound.{WritesKnown};

use crate::board::Board;
use crate::transaction::Transaction;
use kinds::Kind;
use rules::Rule;
use versions::has_room;

impl<K: Kind, R: Rule> Board<'_, K, R> {
    // The lowest listed item whose versions would be too many, if there is one.
    pub(crate) fn lowest_full(&self, txn: &Transaction, least: u32, place: u32) -> Option<u32>
        requires { WritesKnown self.now.items self.now.codes txn.now }
        ensures { WhileOpen self.now txn.now (λ s x. Reaches least s → least ≡ least_start (setup_of R.answers self.now) s x → MatchOption result (lowest self.now.items (is_full (setup_of R.answers self.now) s x place) ≡ self.now.items) (λ item. (item ≡ lowest self.now.items (is_full (setup_of R.answers self.now) s x place)) × (item < self.now.items))) }
    {
        let mut lowest = None;
        for w in txn.writes_listed() {
            if !has_room(self.slots(w.item as usize), least, place) {
                lowest = Some(lowest.map_or(w.item, |other: u32| other.min(w.item)));
            }
        }
        lowest
    }
}
