// The numbers by which C names what a script spells.
ghost use Rattle.std.specs.Prelude.{◌≡◌, slice_get};

use script::Listed;

// The word that has a number: a list's words are numbered from 0.
pub(crate) fn numbered<W: Listed>(number: u32) -> Option<W>
    ensures { result ≡ slice_get W.Listed.every number }
{
    W::all().get(number as usize).copied()
}
