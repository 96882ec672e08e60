// The line that answers a line.
ghost use Rattle.std.specs.Prelude.{◌≡◌, ◌+◌, ◌<◌, ◌≤◌, min, [], ◌∷◌, ◌++◌, length, take, drop, decimal};
ghost use Rattle.script.specs.Answers.{refusal_of, first_of, second_of, shown, answer, padded};

use calls::{Fault, Reply};
use std::marker::Model;

// An answer has no greater number: a greater one is told as this.
pub const GREATEST: u32 = 9_999_999;

// The number of the line after line `n`, which stays at the greatest. A `zip` over a script's lines with `2..` would go past it, and what
// prints a number without `write_answer`, as `explain` does, would tell another.
pub fn next_line_number(n: u32) -> u32
    ensures { result ≡ min (n + 1) 9999999 }
{
    if n < GREATEST { n + 1 } else { GREATEST }
}

// The last three numbers of an answer: the refusal, the first and the second.
pub fn answer_numbers(outcome: &Result<Reply, Fault>) -> (u32, u32, u32)
    ensures refusal { result.0 ≡ refusal_of outcome.now }
    ensures first { result.1 ≡ first_of outcome.now }
    ensures second { result.2 ≡ second_of outcome.now }
{
    match outcome {
        Ok(reply) => (0, reply.first(), reply.second()),
        Err(fault) => (fault.number(), fault.named(), 0),
    }
}

// Puts the decimal digits of a number from `at` on, and gives the place after them. The place is handed on from digit to digit: where each
// digit reads it from a text and writes it back, an answer takes twice as long.
fn put_digits(bytes: &mut [u8; 32], at: usize, n: u32) -> usize
    requires { at + length (decimal n) ≤ 32 }
    ensures end { result ≡ at + length (decimal n) }
    ensures front { take result bytes.new ≡ take at bytes.old ++ decimal n }
    ensures behind { drop result bytes.new ≡ drop result bytes.old }
{
    if n < 10 {
        bytes[at] = b'0' + n as u8;
        return at + 1;
    }
    let last = put_digits(bytes, at, n / 10);
    bytes[last] = b'0' + (n % 10) as u8;
    last + 1
}

// A text of up to 32 bytes, and zeros behind it.
#[derive(Drop)]
struct Text {
    bytes: [u8; 32],
    len: usize,
}

impl Model for Text {
    ghost use Rattle.std.specs.Prelude.{◌≡◌, ℕ, ◌≤◌, List, take};
    ghost use Rattle.script.specs.Answers.{padded};

    ghost Value = { List ℕ };

    ghost view = { λ s. take s.len s.bytes };

    ghost invariant = { λ s. (s.len ≤ 32) × (s.bytes ≡ padded (take s.len s.bytes)) };
}

impl Text {
    fn new() -> Text
        ensures { result ≡ [] }
    {
        Text {
            bytes: [0; 32],
            len: 0,
        }
    }

    // Adds a number of an answer and the byte that ends it. `write!` is not used: what it says allows that it fails, and an answer is always
    // written.
    fn push_field(&mut self, n: u32, end: u8)
        requires { length self.old + 8 ≤ 32 }
        ensures short { length self.new ≤ length self.old + 8 }
        ensures text { self.new ≡ self.old ++ (shown n ++ end ∷ []) }
    {
        let at = put_digits(&mut self.bytes, self.len, n.min(GREATEST));
        self.bytes[at] = end;
        self.len = at + 1;
    }
}

// Writes the answer to line `line` to the front of `out`, the caller's, since no memory is taken for it, zeros after it, and gives the
// answer's length. A number past the greatest is told as the greatest.
pub fn write_answer(out: &mut [u8; 32], line: u32, outcome: &Result<Reply, Fault>) -> usize
    ensures len { result ≡ length (answer line outcome.now) }
    ensures bytes { out.new ≡ padded (answer line outcome.now) }
{
    let (refusal, first, second) = answer_numbers(outcome);
    let mut text = Text::new();
    text.push_field(line, b' ');
    text.push_field(refusal, b' ');
    text.push_field(first, b' ');
    text.push_field(second, b'\n');
    *out = text.bytes;
    text.len
}
