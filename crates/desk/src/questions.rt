// What the desk is asked: where a card's car is, and which card is leaving.
ghost use Rattle.std.specs.Prelude.{◌≡◌};
ghost use Rattle.bits.specs.Bits.{bit};
ghost use Rattle.station.specs.Held.{code_at};
ghost use Rattle.station.specs.Private.{held_mask};
ghost use Rattle.desk.specs.Questions.{is_under, place_known, whereabouts, leaving};
ghost use Rattle.desk.specs.Private.{mover_in};

use super::calls::read_at;
use super::{AskError, Desk, Whereabouts};
use station::Station;

// The place of a number that no car in the garage has.
// Kept: a number and no Option, as `place_known` and the theorems have it (specs/Questions).
const NOT_HERE: u8 = 64;

// The bit of a drive-out under way.
const LEAVING: u64 = 56;

// The element of the number on the raised lift.
const ON_LIFT: usize = 40;

// Of the car whose number stands at place k one of these parts is under it: its cell, in row 1 either of its two, or the lift.
pub fn is_under(parts: u64, k: u8) -> bool
    ensures { result ≡ is_under (bit parts) k }
{
    bits::bit(parts, k as u64) | ((k < 20) & bits::bit(parts, k as u64 + 1))
}

// The area of instruction i of a set; of bytes that say none it is empty.
fn area_at(set: [u8; 40], i: u8) -> u64
    ensures { result ≡ held_mask (code_at set i) }
{
    match read_at(set, i) {
        Some(x) => areas::area(x).unwrap_or(0),
        None => 0,
    }
}

// The first instruction that waits for its result and has a part under the car at place k in its area.
fn mover(s: Station, k: u8) -> Option<u8>
    ensures { result ≡ mover_in s k }
{
    for i in 0..s.count {
        if !bits::bit(s.answered as u64, i as u64) & is_under(area_at(s.set, i), k) {
            return Some(i);
        }
    }
    None
}

impl Desk {
    // What is told of a card whose place is k.
    #[tactic(auto, unfolding(crate::specs::Questions::place_known))]
    pub fn placed(self, card: u32, k: u8) -> Whereabouts
        ensures { result ≡ place_known self card k }
    {
        if k == NOT_HERE {
            return Whereabouts::NotHere;
        }
        if is_under(self.station.apart, k) {
            return Whereabouts::LastKnown(k);
        }
        match mover(self.station, k) {
            Some(i) => Whereabouts::Moving {
                from: k,
                to: cards::where_is(self.done(i), card),
            },
            None => Whereabouts::At(k),
        }
    }

    // Kept: each question tests fitness itself: each has a wrong version at its own refusal (must-fail/wrong_programs.edit).
    // Where the car with this number is.
    #[tactic(auto, unfolding(crate::specs::Questions::whereabouts))]
    pub fn whereabouts(self, card: u32) -> Result<Whereabouts, AskError>
        ensures { result ≡ whereabouts self card }
    {
        if !self.fit() {
            return Err(AskError::Unfit);
        }
        Ok(self.placed(card, cards::where_is(self.numbers, card)))
    }

    // Which card is leaving: the number on the raised lift while a drive-out is under way.
    #[tactic(auto, unfolding(crate::specs::Questions::leaving, cards::specs::Held::numbers_in))]
    pub fn leaving(self) -> Result<Option<u32>, AskError>
        ensures { result ≡ leaving self }
    {
        if !self.fit() {
            Err(AskError::Unfit)
        } else if bits::bit(self.station.bits, LEAVING) {
            Ok(Some(self.numbers[ON_LIFT]))
        } else {
            Ok(None)
        }
    }
}
