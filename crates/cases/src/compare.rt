// Where two texts differ.
ghost use Rattle.std.specs.Prelude.{◌≡◌, ◌==◌, [], MatchOption, length, slice_index_or, take_while};
ghost use Rattle.std.specs.List.{zip};
ghost use Rattle.script.specs.Lines.{lines_of};
ghost use Rattle.cases.specs.Comparing.{newlines, Part};

// How many bytes two texts begin with alike.
fn alike(a: &[u8], b: &[u8]) -> usize
    ensures { result ≡ length (take_while (λ p. p.0 == p.1) (zip a.now b.now)) }
{
    a.iter().zip(b).take_while(|(x, y)| x == y).count()
}

// How many lines a text has ended.
fn newlines(text: &[u8]) -> usize
    ensures { result ≡ newlines text.now }
{
    text.iter().filter(|byte| **byte == b'\n').count()
}

// The index of the first line on which two texts differ, or `None` where they are the same, byte for byte.
pub fn first_difference(a: &[u8], b: &[u8]) -> Option<usize>
    ensures { MatchOption result (a.now ≡ b.now) (λ line. Part a.now b.now line) }
{
    if a == b {
        return None;
    }
    Some(newlines(&a[..alike(a, b)]))
}

// A line of a text, without its newline; nothing where the text has no such line.
pub fn line_at(text: &[u8], index: usize) -> &[u8]
    ensures { result.now ≡ slice_index_or (lines_of text.now) index [] }
{
    text.split(|byte| *byte == b'\n')
        .nth(index)
        .unwrap_or_default()
}
