// A value of a line, told apart by its form.
ghost use Rattle.std.specs.Prelude.{◌≡◌, true, Some, None, if◌then◌else◌};
ghost use Rattle.script.specs.Numbers.{is_number, value};
ghost use Rattle.script.specs.Tokens.{start, text_of, numeric};

// A value is borrowed from its line, where it starts at the byte `at`.
#[derive(Clone, Copy, Debug, PartialEq, Eq)]
pub enum Token<'s> {
    // Any value that is no number.
    Word { at: usize, text: &'s [u8] },
    // One to seven digits, with no leading zero.
    Digits { at: usize, text: &'s [u8] },
}

impl<'s> Token<'s> {
    pub(crate) fn new(at: usize, text: &'s [u8]) -> Token<'s>
        ensures at { start result ≡ at }
        ensures text { text_of result ≡ text.now }
        ensures case { numeric result ≡ is_number text.now }
    {
        if is_number(text) {
            Token::Digits { at, text }
        } else {
            Token::Word { at, text }
        }
    }

    pub(crate) fn text(&self) -> &'s [u8]
        ensures { result.now ≡ text_of self.now }
    {
        match self {
            Token::Word { text, .. } | Token::Digits { text, .. } => text,
        }
    }
}

// Whether a text has the form of a number.
pub fn is_number(text: &[u8]) -> bool
    ensures { result ≡ is_number text.now }
{
    let [first, ..] = text else {
        return false;
    };
    text.len() <= 7 && (*first != b'0' || text.len() == 1) && text.iter().all(u8::is_ascii_digit)
}

// What its digits write: no seven digits wrap. (The library's `parse` wants a `str`; with the test for that, a line of numbers took a third
// longer to read.)
pub(crate) fn number_value(text: &[u8]) -> u32
    requires { is_number text.now ≡ true }
    ensures { result ≡ value text.now }
{
    text.iter().fold(
        0,
        |n, digit| n
            .wrapping_mul(10)
            .wrapping_add(u32::from(digit.wrapping_sub(b'0'))),
    )
}

// The number that a text writes, if it has the form of one.
pub fn number(text: &[u8]) -> Option<u32>
    ensures { result ≡ (if is_number text.now then Some (value text.now) else None) }
{
    if is_number(text) {
        Some(number_value(text))
    } else {
        None
    }
}
