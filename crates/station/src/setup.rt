// The board that is asked for by numbers.
ghost use Rattle.std.specs.Prelude.{◌≡◌, true, IfSome};
ghost use Rattle.board.specs.Sizes.{fits};
ghost use Rattle.player.specs.Scripts.{slots_lent};
ghost use Rattle.station.specs.Setups.{header_of};

use crate::numbers::numbered;
use board::setup_fits;
use calls::Header;
use player::SLOTS;

// None where the kind or the rule is not known, or a count is out of range.
pub(crate) fn header_of(kind: u32, rule: u32, items: u32, seats: u32) -> Option<Header>
    ensures header { result ≡ header_of kind rule items seats }
    ensures fit { IfSome result (λ h. fits h.items h.seats slots_lent ≡ true) }
{
    let board = numbered(kind)?;
    let rule = numbered(rule)?;
    setup_fits(items, seats, SLOTS).then_some(Header {
        board,
        items,
        seats,
        rule,
    })
}
