// What a board keeps.
ghost use Rattle.std.specs.Prelude.{◌≡◌, ◌<◌};
ghost use Rattle.std.specs.List.{AllByRecursion};
ghost use Rattle.history.specs.State.{Version as Kept};
ghost use Rattle.history.specs.Promise.{Lawful};
ghost use Rattle.board.specs.Contents.{Contents, setup_of};
ghost use Rattle.board.specs.Sound.{Sound};
ghost use Rattle.versions.specs.Slots.{as_codes};

use crate::seat::Held;
use kinds::Kind;
use rules::{Rule, rule_keeps_the_four_laws};
use std::marker::Model;
use versions::Version;

// A board takes no memory from a heap, so its tables have their greatest sizes, and two counts say how much of them is used.
#[derive(Drop)]
pub struct Board<'m, K: Kind, R: Rule> {
    pub(crate) items: usize,
    pub(crate) seat_count: usize,
    pub(crate) clock: u32,
    pub(crate) passes: u32,
    pub(crate) stamps: [u32; 256],
    // A seat is empty or held.
    pub(crate) seats: [Option<Held>; 32],
    pub(crate) rule: R,
    pub(crate) versions: &'m mut [Version<K>],
}

// Contracts tell the states of a board's versions by their codes.
impl<'m, K: Kind, R: Rule> Model for Board<'m, K, R> {
    ghost Value = { Contents R };

    ghost view = { λ b. record { items = b.items; seat_count = b.seat_count; codes = K.COUNT; rest = K.coded K.REST; rule = b.rule; clock = b.clock; passes = b.passes; stamps = b.stamps; seats = b.seats; versions = as_codes K.coded b.versions.now; lent = (b.versions.ref_ptr, b.versions.ghost_name) } };

    ghost invariant = { λ b. Sound K.state K.COUNT b.items b.seat_count b.seats b.versions.now };
}

impl<K: Kind, R: Rule> Board<'_, K, R> {
    // Every board is made for what the rules allow. This states it and does nothing: it is called where that has to be known of a board.
    pub fn is_lawful(&self)
        ensures kind { self.now.codes ≡ K.COUNT }
        ensures rest { self.now.rest ≡ K.coded K.REST }
        ensures codes { AllByRecursion (λ (v : Kept). v.code < self.now.codes) self.now.versions }
        ensures setup { Lawful (setup_of R.answers self.now) }
    {
        rule_keeps_the_four_laws(&self.rule)
    }
}
