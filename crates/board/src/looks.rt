// What a call looks up before it does anything.
ghost use Rattle.std.specs.Prelude.{◌≡◌, ℕ, ◌*◌, ◌<◌, ◌≤◌, IfOk, MatchResult, Some};
ghost use Rattle.calls.specs.declared.refusal.Refusal.TheVariants.{UnknownSeat};
ghost use Rattle.history.specs.State.{State};
ghost use Rattle.versions.specs.Slots.{as_codes};
ghost use Rattle.board.specs.Contents.{setup_of};
ghost use Rattle.board.specs.Holding.{Holds};
ghost use Rattle.board.specs.Lists.{slots_of};
ghost use Rattle.board.specs.Looks.{EmptyAsked, HeldAsked, PassAsked, ItemAsked};
ghost use Rattle.board.specs.Sound.{SeatKnown};

use crate::board::Board;
use crate::seat::HeldSeat;
use calls::Refusal;
use kinds::Kind;
use rules::Rule;
use versions::Version;

impl<K: Kind, R: Rule> Board<'_, K, R> {
    // The index of a known item.
    pub(crate) fn known_item(&self, item: u32) -> Result<usize, Refusal>
        ensures within { IfOk result (λ at. (at ≡ item) × (item < self.now.items) × (item < 256)) }
        ensures asked { (s : State) → ItemAsked (setup_of R.answers self.now) item s result }
    {
        let at = item as usize;
        if at < self.items {
            Ok(at)
        } else {
            Err(Refusal::UnknownItem)
        }
    }

    // The index of a known seat.
    fn known_seat(&self, seat: u32) -> Result<usize, Refusal>
        ensures { MatchResult result (λ at. (at ≡ seat) × (seat < self.now.seat_count) × (at < 32)) (λ refusal. (refusal ≡ UnknownSeat) × (self.now.seat_count ≤ seat)) }
    {
        let at = seat as usize;
        if at < self.seat_count {
            Ok(at)
        } else {
            Err(Refusal::UnknownSeat)
        }
    }

    // The index of an empty seat.
    pub(crate) fn empty_seat(&self, seat: u32) -> Result<usize, Refusal>
        ensures within { IfOk result (λ at. at < 32) }
        ensures asked { (s : State) → Holds self.now s → EmptyAsked (setup_of R.answers self.now) seat s result }
    {
        let at = self.known_seat(seat)?;
        match &self.seats[at] {
            None => Ok(at),
            Some(_) => Err(Refusal::SeatHeld),
        }
    }

    // The index of a held seat.
    pub(crate) fn taken_seat(&self, seat: u32) -> Result<usize, Refusal>
        ensures within { IfOk result (λ at. at < 32) }
        ensures asked { (s : State) → Holds self.now s → HeldAsked (setup_of R.answers self.now) seat s result }
    {
        let at = self.known_seat(seat)?;
        match &self.seats[at] {
            None => Err(Refusal::SeatEmpty),
            Some(_) => Ok(at),
        }
    }

    // The held seat whose pass is shown.
    pub(crate) fn held_seat(&self, seat: u32, pass: u32) -> Result<HeldSeat, Refusal>
        ensures within { IfOk result (λ h. (h.at < 32) × SeatKnown self.now.items self.now.codes (Some h.held)) }
        ensures asked { (s : State) → Holds self.now s → PassAsked (setup_of R.answers self.now) seat pass s result }
    {
        let at = self.known_seat(seat)?;
        match self.seats[at] {
            None => Err(Refusal::SeatEmpty),
            Some(held) if held.pass == pass => Ok(HeldSeat { at, held }),
            Some(_) => Err(Refusal::WrongPass),
        }
    }

    // The slots of a known item.
    pub(crate) fn slots(&self, item: usize) -> &[Version<K>]
        requires { item < self.now.items }
        ensures slots { as_codes K.coded result.now ≡ slots_of self.now.versions item }
        ensures rest { self.now.rest ≡ K.coded K.REST }
    {
        &self.versions[8 * item..8 * item + 8]
    }
}
