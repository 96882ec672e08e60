// Answer lines, one after the other.
ghost use Rattle.std.specs.Prelude.{◌≡◌, ◌++◌, is_ok, IfOk, if◌then◌else◌, Err};
ghost use Rattle.script.specs.Answers.{answer};

use crate::answer::write_answer;
use calls::{Fault, Reply};
use std::alloc::{AllocError, Global};

// Adds the answer to line `line`. Where there is no memory for it, nothing is added.
pub fn push_answer(
    answers: &mut Vec<u8>,
    line: u32,
    outcome: &Result<Reply, Fault>,
) -> Result<(), AllocError>
    ensures { answers.new.items ≡ (if is_ok result then answers.old.items ++ answer line outcome.now else answers.old.items) }
{
    let mut out = [0; 32];
    let len = write_answer(&mut out, line, outcome);
    answers.extend_from_slice(&out[..len])
}

// The answers to a script that ends at a fault of line `line`: that line's alone.
pub fn only_answer(heap: Global, line: u32, fault: Fault) -> Result<Vec<u8>, AllocError>
    ensures { IfOk result (λ v. v.items ≡ answer line (Err fault)) }
{
    let mut answers = Vec::new(heap);
    push_answer(&mut answers, line, &Err(fault))?;
    Ok(answers)
}
