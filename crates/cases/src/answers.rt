// Answers, read back from their lines.
ghost use Rattle.std.specs.Prelude.{◌≡◌, ℕ, ◌<◌, ◌≤◌, List, ◌∷◌, ◌++◌, IfSome, IsSomeAnd, decimal, position, ◌==◌};
ghost use Rattle.cases.specs.declared.answers.Answer.{Answer};
ghost use Rattle.cases.specs.Counting.{written, IsWritable, is_granted, is_warped};

use script::number;

// The four numbers of an answer's line, as they stand in the text: a refusal is 0 where the call was accepted.
#[derive(Clone, Copy, Debug, PartialEq, Eq)]
pub struct Answer {
    pub line: u32,
    pub refusal: u32,
    pub first: u32,
    pub second: u32,
}

impl Answer {
    // Whether it tells a granted commit: nothing else has a place.
    pub fn is_granted(&self) -> bool
        ensures { result ≡ is_granted self.now }
    {
        self.refusal == 0 && 0 < self.second
    }

    // Whether it tells a commit that was granted at a place before its natural number.
    pub fn is_warped(&self) -> bool
        ensures { result ≡ is_warped self.now }
    {
        self.is_granted() && self.second < self.first
    }
}

// Where the first `mark` stands.
fn place(bytes: &[u8], mark: u8) -> Option<usize>
    ensures { result ≡ position (λ b. b == mark) bytes.now }
{
    bytes.iter().position(|byte| *byte == mark)
}

// The number that stands in front of the first `end`, and what follows that. `None` where no number of an answer stands there.
fn number_before(bytes: &[u8], end: u8) -> Option<(u32, &[u8])>
    requires { end < 48 }
    ensures read { IfSome result (λ p. bytes.now ≡ decimal p.0 ++ (end ∷ p.1.now)) }
    ensures each { (n : ℕ) (rest : List ℕ) → n ≤ 9999999 → bytes.now ≡ decimal n ++ (end ∷ rest) → IsSomeAnd result (λ p. (p.0 ≡ n) × (p.1.now ≡ rest)) }
{
    let at = place(bytes, end)?;
    let n = number(&bytes[..at])?;
    Some((n, &bytes[at + 1..]))
}

// The answer at the front of a text, and what follows it: an answer that is read is, byte for byte, the one that stands there. `None`
// where none stands there.
pub fn first_answer(text: &[u8]) -> Option<(Answer, &[u8])>
    ensures read { IfSome result (λ p. text.now ≡ written p.0 ++ p.1.now) }
    ensures each { (a : Answer) (rest : List ℕ) → IsWritable a → text.now ≡ written a ++ rest → IsSomeAnd result (λ p. (p.0 ≡ a) × (p.1.now ≡ rest)) }
{
    let (line, rest) = number_before(text, b' ')?;
    let (refusal, rest) = number_before(rest, b' ')?;
    let (first, rest) = number_before(rest, b' ')?;
    let (second, rest) = number_before(rest, b'\n')?;
    let answer = Answer {
        line,
        refusal,
        first,
        second,
    };
    Some((answer, rest))
}
