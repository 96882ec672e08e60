// A new board over lent memory.
ghost use Rattle.std.specs.Prelude.{◌≡◌, ℕ, ◌*◌, ◌<◌, ◌≤◌, true, false, ◌&&◌, length, MatchResult};
ghost use Rattle.board.specs.Contents.{setup_for};
ghost use Rattle.board.specs.Holding.{Opened};
ghost use Rattle.board.specs.Sizes.{fits};

use crate::board::Board;
use kinds::Kind;
use rules::Rule;
use versions::{Version, lay_at_rest};

// Slots for each item.
pub const DEPTH: usize = 8;

// The one question of a setup: are both counts in range, and is the memory long enough?
pub fn setup_fits(items: u32, seats: u32, slots: usize) -> bool
    ensures { result ≡ fits items seats slots }
{
    1 <= items && items <= 256 && 1 <= seats && seats <= 32 && items as usize * DEPTH <= slots
}

// A setup that is refused hands the memory back as it was.
#[derive(Drop)]
pub struct Unfit<'m, K> {
    pub memory: &'m mut [Version<K>],
}

impl<'m, K: Kind, R: Rule + Drop> Board<'m, K, R> {
    // A new board on the front of the memory, eight slots for each item; what lies behind is not touched.
    pub fn new(
        items: u32,
        seats: u32,
        rule: R,
        memory: &'m mut [Version<K>],
    ) -> Result<Board<'m, K, R>, Unfit<'m, K>>
        ensures { MatchResult result (λ board. (fits items seats (length memory.old) ≡ true) × Opened R.answers (setup_for K.coded K.REST K.COUNT R.answers items seats rule) board) (λ unfit. (fits items seats (length memory.old) ≡ false) × (unfit.memory.now ≡ memory.old)) }
    {
        if !setup_fits(items, seats, memory.len()) {
            return Err(Unfit { memory });
        }
        let items = items as usize;
        let (versions, _) = memory.split_at_mut(items * DEPTH);
        lay_at_rest(versions);
        Ok(Board {
            items,
            seat_count: seats as usize,
            clock: 1,
            passes: 0,
            stamps: [0; 256],
            seats: [None; 32],
            rule,
            versions,
        })
    }
}
