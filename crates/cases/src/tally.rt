// Counts of what answers tell. A count stays at the greatest number that it can hold.
ghost use Rattle.std.specs.Prelude.{◌≡◌, List, IsOk, OnOk, slice_index, slice_set};
ghost use Rattle.std.specs.List.{AllByRecursion};
ghost use Rattle.cases.specs.declared.answers.Answer.{Answer};
ghost use Rattle.cases.specs.Counting.{more, more_if, nothing_noted, noted, one_script, IsWritable, all_written, Noted};

use crate::answers::{Answer, first_answer};
use std::error::Error;
use std::fmt;

#[derive(Clone, Copy, Debug, Default, PartialEq, Eq)]
pub struct Tally {
    pub scripts: u32,
    // Answer lines.
    pub lines: u32,
    // How many of them have which refusal: by the numbers that stand in the text, which are 1 to 18, and 0 for none.
    pub refusals: [u32; 19],
    // How many of them tell a granted commit.
    pub granted: u32,
    // How many of those have a place before their natural number.
    pub warped: u32,
}

// A text that is not a list of answers.
#[derive(Clone, Copy, Debug, PartialEq, Eq)]
pub struct NoAnswers;

impl fmt::Display for NoAnswers {
    fn fmt<W: fmt::Write>(&self, f: &mut fmt::Formatter<W>) -> fmt::Result {
        write!(f, "stored answers cannot be read")
    }
}

impl Error for NoAnswers {}

// One more of what is counted at `at`, if anything is. After a `get_mut` no element would be known, and `returns` would stay open.
fn count_at(counts: &mut [u32], at: usize)
    ensures { counts.new ≡ slice_set counts.old at (more (slice_index counts.old at)) }
{
    if at < counts.len() {
        counts[at] = counts[at].saturating_add(1);
    }
}

impl Tally {
    pub fn new() -> Tally
        ensures { result ≡ nothing_noted }
    {
        Tally::default()
    }

    pub fn note_script(&mut self)
        ensures { self.new ≡ one_script self.old }
    {
        self.scripts = self.scripts.saturating_add(1);
    }

    // Notes an answer. A refusal that does not exist is not counted as one.
    pub fn note(&mut self, answer: &Answer)
        ensures { self.new ≡ noted self.old answer.now }
    {
        self.lines = self.lines.saturating_add(1);
        count_at(&mut self.refusals, answer.refusal as usize);
        self.granted = self.granted.saturating_add(u32::from(answer.is_granted()));
        self.warped = self.warped.saturating_add(u32::from(answer.is_warped()));
    }

    // Notes all answers of a text. It fails only where the text is not a list of answers, and then some may be noted.
    pub fn note_all(&mut self, text: &[u8]) -> Result<(), NoAnswers>
        ensures noted { OnOk result (Noted self.old text.now self.new) }
        ensures each { (answers : List Answer) → AllByRecursion IsWritable answers → text.now ≡ all_written answers → IsOk result }
    {
        let mut rest = text;
        while !rest.is_empty() {
            let (answer, after) = first_answer(rest).ok_or(NoAnswers)?;
            self.note(&answer);
            rest = after;
        }
        Ok(())
    }
}

impl fmt::Display for Tally {
    fn fmt<W: fmt::Write>(&self, f: &mut fmt::Formatter<W>) -> fmt::Result {
        writeln!(
            f,
            "{} scripts, {} answer lines: no difference",
            self.scripts, self.lines
        )?;
        writeln!(f, "accepted: {}", self.refusals[0])?;
        for (number, count) in self.refusals.iter().enumerate().skip(1) {
            writeln!(f, "refusal {number}: {count}")?;
        }
        writeln!(f, "granted commits: {}", self.granted)?;
        write!(f, "warped commits: {}", self.warped)
    }
}
