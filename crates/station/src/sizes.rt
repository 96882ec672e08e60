// How many bytes a board takes: two names that C knows.
ghost use Rattle.std.specs.Prelude.{◌≡◌};
ghost use Rattle.station.specs.Setups.{kind_of};
ghost use Rattle.station.specs.Sizes.{version_bytes, board_bytes};

use crate::numbers::numbered;
use board::Board;
use calls::{BoardKind, RuleName};
use kinds::{Locomotive, Turnout};
use versions::Version;

// The bytes of a version of a kind, or 0 where the kind is not known.
#[unsafe(no_mangle)]
pub extern "C" fn station_version_bytes(kind: u32) -> usize
    ensures { result ≡ version_bytes (kind_of kind) }
{
    match numbered(kind) {
        Some(BoardKind::Drive) => size_of::<Version<Locomotive>>(),
        Some(BoardKind::Switch) => size_of::<Version<Turnout>>(),
        None => 0,
    }
}

// The bytes of a board of a kind without its versions, or 0 where the kind is not known.
#[unsafe(no_mangle)]
pub extern "C" fn station_board_bytes(kind: u32) -> usize
    ensures { result ≡ board_bytes (kind_of kind) }
{
    match numbered(kind) {
        Some(BoardKind::Drive) => size_of::<Board<'static, Locomotive, RuleName>>(),
        Some(BoardKind::Switch) => size_of::<Board<'static, Turnout, RuleName>>(),
        None => 0,
    }
}
