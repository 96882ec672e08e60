// A script, line by line.
ghost use Rattle.std.specs.Prelude.{◌≡◌, [], ◌∷◌, length, MatchOption, nat_le};
ghost use Rattle.std.specs.Iterator.{YieldsFirstRef, item_count};
ghost use Rattle.script.specs.Lines.{lines_of};

use crate::cut::cut_once;
use std::marker::Model;

// The bytes that a script may have.
pub const SCRIPT_LIMIT: usize = 32768;

// Whether a script is short enough to be read.
pub fn script_fits(script: &[u8]) -> bool
    ensures { result ≡ nat_le (length script.now) 32768 }
{
    script.len() <= SCRIPT_LIMIT
}

// The lines of a script that are still to come.
#[derive(Drop)]
pub struct Lines<'s> {
    // From the next line to the script's end.
    rest: Option<&'s [u8]>,
}

impl<'s> Model for Lines<'s> {
    ghost use Rattle.std.specs.Prelude.{ℕ, List};

    ghost Value = { List (List ℕ) };

    ghost use Rattle.script.specs.Lines.{lines_left};

    ghost view = { λ s. lines_left s.rest };
}

impl<'s> Lines<'s> {
    // All lines of a script. An empty script is one empty line.
    pub fn new(script: &'s [u8]) -> Lines<'s>
        ensures { result ≡ lines_of script.now }
    {
        Lines { rest: Some(script) }
    }

    // The next line, without its newline.
    pub fn next_line(&mut self) -> Option<&'s [u8]>
        ensures { MatchOption result ((self.old ≡ []) × (self.new ≡ [])) (λ line. self.old ≡ line.now ∷ self.new) }
    {
        let (line, rest) = cut_once(self.rest?, b'\n');
        // A newline at the script's end begins no line.
        self.rest = rest.filter(|rest| !rest.is_empty());
        Some(line)
    }
}

impl<'s> Iterator for Lines<'s> {
    type Item = &'s [u8];

    ghost next_gives = { YieldsFirstRef (λ lines. lines) };

    ghost remaining = { item_count (λ lines. lines) };

    fn next(&mut self) -> Option<&'s [u8]> {
        self.next_line()
    }
}
