// The state that a code stands for, in words.
ghost use Rattle.std.specs.Prelude.{◌≡◌, ℕ, List, IfOk, if◌then◌else◌, Some, string_bytes, codes, nat_lt};
ghost use Rattle.explain.specs.Words.{code_words};

use calls::BoardKind;
use kinds::{Kind, Locomotive, Turnout};
use std::alloc::{AllocError, Global};
use std::fmt::Display;

// The words of the state that a code of the kind stands for, or that the kind has no such code.
fn state_words<K: Kind + Display>(heap: Global, code: u32) -> Result<String, AllocError>
    ensures { IfOk result (λ s. (told : List ℕ) → K.Display.output (K.decoded code) ≡ Some told → string_bytes s ≡ (if nat_lt code K.COUNT then told else codes "no such code")) }
{
    if code < K::COUNT {
        K::from_code(code).to_string(heap)
    } else {
        String::from_str(heap, "no such code")
    }
}

// What a code stands for on a board.
pub fn words_of(heap: Global, board: BoardKind, code: u32) -> Result<String, AllocError>
    ensures { IfOk result (λ s. string_bytes s ≡ code_words board code) }
{
    match board {
        BoardKind::Drive => state_words::<Locomotive>(heap, code),
        BoardKind::Switch => state_words::<Turnout>(heap, code),
    }
}
