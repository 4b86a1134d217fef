// Car events.
ghost use Rattle.std.specs.Prelude.{◌≡◌, if◌then◌else◌};
ghost use Rattle.answers.specs.declared.Answer.TheVariants.{SetApart};
ghost use Rattle.answers.specs.Answers.{nowhere};
ghost use Rattle.station.specs.Held.{lift_apart};
ghost use Rattle.station.specs.Calls.{refused, occurred, driven, evented, event};
ghost use Rattle.station.specs.Turns.{turn_of};

use super::{Outcome, Station, Turn, refused, sets};
use answers::{Answer, NOWHERE};
use floor::masks::RAISED;
use rules::{Event, Undriven};

impl Station {
    // What an event in its turn comes to, unless a part of the lift is set apart.
    fn unless_apart(self, t: Turn) -> Turn
        ensures { result ≡ (if lift_apart self.apart then turn_of (refused self (SetApart nowhere)) else t) }
    {
        if bits::bit(self.apart, RAISED) {
            return self.unmoved(Answer::SetApart(NOWHERE));
        }
        t
    }

    // The end of a car event: the record after it, if it comes in turn, no part of the lift is set apart, it is possible and fills none of
    // the places that are kept open.
    fn occurred(self, e: Event) -> Turn
        ensures { result ≡ turn_of (occurred self e) }
    {
        match engine::driven(e, self.bits) {
            Ok(r) => self.unless_apart(self.holding(r, self.apart)),
            Err(Undriven::OutOfTurn) => self.unmoved(Answer::OutOfTurn),
            Err(Undriven::Impossible) => self.unless_apart(self.unmoved(Answer::EventImpossible)),
            Err(Undriven::KeptOpen) => self.unless_apart(self.unmoved(Answer::KeptOpen)),
        }
    }

    // A car event that is known, beside the set that is outstanding.
    fn driven(self, e: Event) -> Turn
        ensures { result ≡ turn_of (driven self e) }
    {
        let set = self.set;
        if sets::lift_in(&set, self.count) {
            return self.unmoved(Answer::SetOutstanding);
        }
        self.occurred(e)
    }

    // A car event past the test of fitness, by its number: 1 begins in, 2 out, 3 ends done, 4 not done.
    pub fn evented(self, e: u8) -> Turn
        ensures { result ≡ turn_of (evented self e) }
    {
        match rules::event_of(e) {
            Some(known) => self.driven(known),
            None => self.unmoved(Answer::BadField(NOWHERE)),
        }
    }

    // A car event.
    pub fn event(self, e: u8) -> Outcome
        ensures { result ≡ event self e }
    {
        if !self.fit() {
            return refused(self, Answer::Unfit);
        }
        let t = self.evented(e);
        self.after(t, self.set)
    }
}
