// Car events.
ghost use Rattle.std.specs.Prelude.{◌≡◌};
ghost use Rattle.plain_station.specs.Plain.{plain_occurred, plain_driven, plain_evented};
ghost use Rattle.plain_station.specs.Private.{handed, plain_entered};

use super::{Plain, PlainOutcome, sets};
use answers::{Answer, NOWHERE};
use rules::Event;

impl Plain {
    // The end of an event that comes in turn: it is possible, and fills none of the places that are kept open, by the cars that a walk finds.
    fn entered(self, e: Event) -> Result<PlainOutcome, Answer>
        ensures { handed self result ≡ plain_entered self e }
    {
        let floor = self.floor;
        if !plain_moves::possible(floor, e) {
            return Err(Answer::EventImpossible);
        }
        if !plain_moves::opens(e, floor.walk().count) {
            return Err(Answer::KeptOpen);
        }
        let station = Plain {
            floor: plain_moves::driven(floor, e),
            ..self
        };
        Ok(PlainOutcome {
            station,
            answer: Answer::Taken,
        })
    }

    // Before it: it comes in turn, and no part of the lift is set apart.
    fn occurred(self, e: Event) -> Result<PlainOutcome, Answer>
        ensures { handed self result ≡ plain_occurred self e }
    {
        if !plain_moves::in_turn(self.floor, e) {
            return Err(Answer::OutOfTurn);
        }
        if self.apart.lift {
            return Err(Answer::SetApart(NOWHERE));
        }
        self.entered(e)
    }

    // A car event that is known, beside the set that is outstanding.
    #[inline(never)]
    fn driven(self, e: Event) -> Result<PlainOutcome, Answer>
        ensures { handed self result ≡ plain_driven self e }
    {
        if sets::lift_in(self.set, self.count) {
            return Err(Answer::SetOutstanding);
        }
        self.occurred(e)
    }

    // A car event past the test of fitness, by its number: 1 begins in, 2 out, 3 ends done, 4 not done.
    pub fn evented(self, e: u8) -> PlainOutcome
        ensures { result ≡ plain_evented self e }
    {
        match rules::event_of(e) {
            Some(known) => self.handed(self.driven(known)),
            None => self.refused(Answer::BadField(NOWHERE)),
        }
    }
}
