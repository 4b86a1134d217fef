// A request: a set of instructions, taken if no set is outstanding, none moves the lift under a driver or touches a part that is set apart,
// no two overlap and each is allowed.
ghost use Rattle.std.specs.Prelude.{◌≡◌};
ghost use Rattle.station.specs.Calls.{accepted, spared, cleared, requested, request};
ghost use Rattle.station.specs.Turns.{turn_of};
ghost use Rattle.station.specs.Private.{FaultsOf};

use super::sets::Faults;
use super::{Outcome, Station, Turn, refused, sets};
use answers::Answer;

impl Station {
    // The end of a request, by what a search of its set has found: no overlap, each instruction allowed.
    fn accepted(self, count: u8, set: [u8; 40], found: Faults) -> Turn
        requires { FaultsOf self count set found }
        ensures { result ≡ turn_of (accepted self count set) }
    {
        if found.overlap < count {
            return self.unmoved(Answer::Overlap(found.overlap));
        }
        if found.barred < count {
            let verdict = engine::code_verdict(sets::code_at(&set, found.barred), self.bits);
            return self.unmoved(rules::answer_for(verdict, found.barred));
        }
        Turn {
            count,
            answered: 0,
            next: self.next.wrapping_add(1),
            ..self.unmoved(Answer::Opened(self.next))
        }
    }

    // Before it: none touches a part that is set apart.
    fn spared(self, count: u8, set: [u8; 40], found: Faults) -> Turn
        requires { FaultsOf self count set found }
        ensures { result ≡ turn_of (spared self count set) }
    {
        if found.touching < count {
            return self.unmoved(Answer::SetApart(found.touching));
        }
        self.accepted(count, set, found)
    }

    // A request of well-formed instructions: while a drive is under way, none has the lift in its area.
    fn cleared(self, count: u8, set: [u8; 40], found: Faults) -> Turn
        requires { FaultsOf self count set found }
        ensures { result ≡ turn_of (cleared self count set) }
    {
        if floor::under_way(self.bits) & found.lift {
            return self.unmoved(Answer::OutOfTurn);
        }
        self.spared(count, set, found)
    }

    // A request of `count` instructions, five bytes each, past the test of fitness; bytes past them are not looked at.
    pub fn requested(self, count: u8, set: [u8; 40]) -> Turn
        ensures { result ≡ turn_of (requested self count set) }
    {
        if 0 < self.count {
            return self.unmoved(Answer::SetOutstanding);
        }
        if Station::MOST < count {
            return self.unmoved(Answer::TooMany);
        }
        if count == 0 {
            return self.unmoved(Answer::EmptySet);
        }
        let found = sets::search(&set, count, 0, self.bits, self.apart);
        if found.bad < count {
            return self.unmoved(Answer::BadField(found.bad));
        }
        self.cleared(count, set, found)
    }

    // A request.
    pub fn request(self, count: u8, set: [u8; 40]) -> Outcome
        ensures { result ≡ request self count set }
    {
        if !self.fit() {
            return refused(self, Answer::Unfit);
        }
        let t = self.requested(count, set);
        self.after(t, sets::only(set, count))
    }
}
