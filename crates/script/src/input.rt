// Where a script comes from.
ghost use Rattle.std.specs.Prelude.{◌≡◌, take, IfOk, IfSome};

use crate::lines::SCRIPT_LIMIT;
use std::alloc::Global;
use std::io;
use std::io::Read;

// Reads the bytes of a script, or, if there are more than a script may have, one byte more than that.
pub fn read_script<R: Read + Drop>(heap: Global, input: R) -> io::Result<Vec<u8>>
    ensures { IfSome (R.remaining input) (λ bytes. IfOk result (λ v. v.items ≡ take 32769 bytes)) }
{
    let mut script = Vec::new(heap);
    input
        .take(SCRIPT_LIMIT as u64 + 1)
        .read_to_end(&mut script)?;
    Ok(script)
}
