// A request: a set of instructions, taken if no set is outstanding, none moves the lift under a driver or touches a part that is set apart,
// no two overlap and each is allowed.
ghost use Rattle.std.specs.Prelude.{◌≡◌};
ghost use Rattle.station.specs.Calls as packed_calls;
ghost use Rattle.plain_station.specs.Plain.{packed_of, plain_outcome, plain_requested};
ghost use Rattle.plain_station.specs.Private.{handed};

use super::{Plain, PlainOutcome, sets};
use answers::Answer;
use station::Station;
use std::num::wrapping_add_u16;

impl Plain {
    // The set is outstanding, none of it answered, and the answer carries its issue; the floor stays, and what is set apart.
    fn opened(self, count: u8, set: [u8; 40]) -> PlainOutcome
        ensures { result ≡ plain_outcome (packed_calls.opening (packed_of self) count set) }
    {
        let station = Plain {
            count,
            answered: [false; 8],
            set: sets::only(set, count),
            next: wrapping_add_u16(self.next, 1),
            ..self
        };
        PlainOutcome {
            station,
            answer: Answer::Opened(self.next),
        }
    }

    // The end of a request: no two of its instructions overlap, and each is allowed on the floor.
    fn accepted(self, count: u8, set: [u8; 40]) -> Result<PlainOutcome, Answer>
        ensures { handed self result ≡ plain_outcome (packed_calls.accepted (packed_of self) count set) }
    {
        if let Some(overlapping) = sets::least_overlapping(set, count) {
            return Err(Answer::Overlap(overlapping));
        }
        if let Some(barred) = sets::least_barred(set, count, self.floor) {
            let verdict = sets::verdict_at(&set, barred, self.floor);
            return Err(rules::answer_for(verdict, barred));
        }
        Ok(self.opened(count, set))
    }

    // Before it: while a driver is coming or going none has the lift in its area, and none touches a part that is set apart.
    fn cleared(self, count: u8, set: [u8; 40]) -> Result<PlainOutcome, Answer>
        ensures { handed self result ≡ plain_outcome (packed_calls.cleared (packed_of self) count set) }
    {
        let floor = self.floor;
        if (floor.coming | floor.going) & sets::lift_in(set, count) {
            return Err(Answer::OutOfTurn);
        }
        if let Some(touching) = sets::least_touching(set, count, self.apart) {
            return Err(Answer::SetApart(touching));
        }
        self.accepted(count, set)
    }

    // Before it: no set is outstanding, and 1 to 8 instructions are well formed.
    #[inline(never)]
    fn asked(self, count: u8, set: [u8; 40]) -> Result<PlainOutcome, Answer>
        ensures { handed self result ≡ plain_requested self count set }
    {
        if 0 < self.count {
            return Err(Answer::SetOutstanding);
        }
        if Station::MOST < count {
            return Err(Answer::TooMany);
        }
        if count == 0 {
            return Err(Answer::EmptySet);
        }
        if let Some(bad) = sets::least_bad(set, count) {
            return Err(Answer::BadField(bad));
        }
        self.cleared(count, set)
    }

    // A request of `count` instructions, five bytes each, past the test of fitness; bytes past them are not looked at.
    pub fn requested(self, count: u8, set: [u8; 40]) -> PlainOutcome
        ensures { result ≡ plain_requested self count set }
    {
        self.handed(self.asked(count, set))
    }
}
