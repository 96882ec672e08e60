// Version memory for boards of any size.
ghost use Rattle.std.specs.Prelude.{◌≡◌, replicate, IfOk, vec_len};
ghost use Rattle.versions.specs.Slots.{rest_version};
ghost use Rattle.player.specs.Scripts.{slots_lent};

use board::DEPTH;
use kinds::Kind;
use std::alloc::{AllocError, Global};
use versions::Version;

// The slots of the largest board.
pub const SLOTS: usize = 256 * DEPTH;

// As many slots as the largest board needs, all at rest.
pub fn slots<K: Kind>(heap: Global) -> Result<Vec<Version<K>>, AllocError>
    ensures long { IfOk result (λ v. vec_len v ≡ slots_lent) }
    ensures resting { IfOk result (λ v. v.items ≡ replicate slots_lent (rest_version K.REST)) }
{
    let rest = Version::at_rest();
    // `vec![in heap; rest; SLOTS]` says only that each slot is a clone, and no law says that a clone of a state is that state.
    (0..SLOTS).map(|_| rest).collect(heap)
}
