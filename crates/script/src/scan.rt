// Takes a line apart, pair by pair from the left.
ghost use Rattle.std.specs.Prelude.{◌≡◌, None, MatchResult};
ghost use Rattle.calls.specs.declared.fault.Fault.TheVariants.{WrongPart};
ghost use Rattle.script.specs.Parts.{value_at, onward};
ghost use Rattle.script.specs.Reading.{place_in, number_at, word_at, end_at};
ghost use Rattle.script.specs.Tokens.{Found};

use crate::cut::{cut_once, look_up};
use crate::token::{Token, number_value};
use crate::words::{Listed, meant};
use calls::Fault;
use std::marker::Model;

// The bytes that a line may have, without its newline.
pub const LINE_LIMIT: usize = 96;

// A place in a line between two parts.
#[derive(Drop)]
pub struct Scanner<'l> {
    // The byte where the next part starts, or the line's length if no part is left.
    at: usize,
    // From the next part to the line's end.
    rest: Option<&'l [u8]>,
}

impl<'l> Model for Scanner<'l> {
    ghost use Rattle.std.specs.Prelude.{◌+◌, ◌≤◌};
    ghost use Rattle.script.specs.Parts.{Place, parts, room};

    ghost Value = { Place };

    ghost view = { λ s. record { at = s.at; parts = parts s.rest } };

    ghost invariant = { λ s. s.at + room s.rest ≤ 96 };
}

impl<'l> Scanner<'l> {
    // Before the first part of a line.
    pub(crate) fn new(line: &'l [u8]) -> Result<Scanner<'l>, Fault>
        ensures { result ≡ place_in line.now }
    {
        if line.len() > LINE_LIMIT {
            return Err(Fault::TooLong);
        }
        Ok(Scanner {
            at: 0,
            rest: Some(line),
        })
    }

    // That the next part is not the one expected.
    fn wrong_part(&self) -> Fault
        ensures { result ≡ WrongPart self.now.at }
    {
        Fault::WrongPart { at: self.at as u32 }
    }

    // Passes over a part and the space after it.
    fn skip_part(&mut self)
        ensures { self.new ≡ onward self.old }
    {
        if let Some(rest) = self.rest {
            let (part, after) = cut_once(rest, b' ');
            self.at += part.len() + usize::from(after.is_some());
            self.rest = after;
        }
    }

    // The value of the next part, which should be a pair with this key. This and `number` are inlined: `arguments` has so many calls of
    // them that LLVM leaves them standing.
    #[inline(always)]
    fn pair(&mut self, key: &[u8]) -> Result<Token<'l>, Fault>
        ensures value { MatchResult result (λ t. Found key.now self.old.at self.old.parts t) (λ e. (value_at key.now self.old.parts ≡ None) × (e ≡ WrongPart self.old.at)) }
        ensures moved { self.new ≡ onward self.old }
    {
        let wrong = self.wrong_part();
        let at = self.at;
        let Some(rest) = self.rest else {
            return Err(wrong);
        };
        self.skip_part();
        match look_up(rest, key) {
            Some(text) => Ok(Token::new(at + key.len() + 1, text)),
            None => Err(wrong),
        }
    }

    // The number of the next pair.
    #[inline(always)]
    pub(crate) fn number(&mut self, key: &[u8]) -> Result<u32, Fault>
        ensures value { result ≡ number_at key.now self.old.at self.old.parts }
        ensures moved { self.new ≡ onward self.old }
    {
        match self.pair(key)? {
            Token::Digits { text, .. } => Ok(number_value(text)),
            Token::Word { at, .. } => Err(Fault::BadNumber { at: at as u32 }),
        }
    }

    // The word of the next pair.
    pub(crate) fn word<W: Listed>(&mut self, key: &[u8]) -> Result<W, Fault>
        ensures value { result ≡ word_at W.Listed.spelled W.Listed.every key.now self.old.at self.old.parts }
        ensures moved { self.new ≡ onward self.old }
    {
        let wrong = self.wrong_part();
        let token = self.pair(key)?;
        meant(token.text()).ok_or(wrong)
    }

    // That no part is left.
    pub(crate) fn end(&self) -> Result<(), Fault>
        ensures { result ≡ end_at self.now.at self.now.parts }
    {
        match self.rest {
            None => Ok(()),
            Some(_) => Err(self.wrong_part()),
        }
    }
}
