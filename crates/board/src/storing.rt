// What a granted commit stores.
ghost use Rattle.std.specs.Prelude.{◌≡◌, ℕ, ◌+◌, ◌<◌, false};
ghost use Rattle.history.specs.State.{State, Transaction as Running};
ghost use Rattle.history.specs.Steps.{is_full, least_start};
ghost use Rattle.versions.specs.Slots.{as_code};
ghost use Rattle.board.specs.Contents.{setup_of, with_versions};
ghost use Rattle.board.specs.Holding.{WhileOpen};
ghost use Rattle.board.specs.Memory.{StoredAt, StoredAll};
ghost use Rattle.board.specs.Room.{Reaches};
ghost use Rattle.board.specs.Sound.{WritesKnown};

use crate::board::Board;
use crate::transaction::Transaction;
use kinds::Kind;
use rules::Rule;
use versions::{Version, store};

impl<K: Kind, R: Rule> Board<'_, K, R> {
    // Stores what a granted transaction has listed.
    pub(crate) fn store_all(&mut self, txn: &Transaction, least: u32, natural: u32, place: u32)
        requires { WritesKnown self.old.items self.old.codes txn.now }
        ensures only { self.new ≡ with_versions self.old self.new.versions }
        ensures lists { WhileOpen self.old txn.now (λ s x. Reaches least s → least ≡ least_start (setup_of R.answers self.old) s x → natural ≡ s.clock + 1 → ((item : ℕ) → item < self.old.items → is_full (setup_of R.answers self.old) s x place item ≡ false) → StoredAll (setup_of R.answers self.old) s x place x.writes self.new.versions) }
    {
        self.is_lawful();
        for w in txn.writes_listed() {
            let state = K::from_code(w.code);
            let new = Version {
                state,
                natural,
                place,
            };
            self.store_one(w.item as usize, new, least);
        }
    }

    // Puts a version into an item's list.
    fn store_one(&mut self, item: usize, new: Version<K>, least: u32)
        requires known { item < self.old.items }
        requires state { K.state new.state }
        ensures { StoredAt self.old self.new item (as_code K.coded new) least }
    {
        store(&mut self.versions[8 * item..8 * item + 8], new, least);
    }
}
