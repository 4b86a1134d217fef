// Results of the outstanding set's instructions.
ghost use Rattle.std.specs.Prelude.{◌≡◌, ◌<◌, ◌≤◌};
ghost use Rattle.station.specs.Station.{in_set, behind, answering};
ghost use Rattle.station.specs.Calls.{taken, ended, numbered, timely, resulted, result as result_call};
ghost use Rattle.station.specs.Turns.{turn_of, unjudged, settled};

use super::{Outcome, Report, Station, Turn, all_marks, held, refused, sets};
use answers::{Answer, NOWHERE};

impl Station {
    // Instruction i answered, the record now r, and this set apart.
    fn answering(self, i: u8, r: u64, apart: u64) -> Turn
        requires { (self.count ≤ 8) × (i < self.count) }
        ensures { result ≡ turn_of (taken (answering self i r apart)) }
    {
        let marks = self.answered | (1u8 << i);
        let all = all_marks(self.count);
        if marks & all == all {
            return Turn {
                count: 0,
                answered: 0,
                ..self.holding(r, apart)
            };
        }
        Turn {
            answered: marks,
            ..self.holding(r, apart)
        }
    }

    // The end of a result: 0 failed, 1 done, 2 stuck. A success is not judged.
    fn ended(self, i: u8, ending: u8) -> Turn
        requires { (self.count ≤ 8) × (i < self.count) }
        ensures { result ≡ unjudged self i ending (ended self i ending) }
    {
        let set = self.set;
        let x = sets::code_at(&set, i);
        if ending == 1 {
            return self.answering(i, engine::code_next(x, self.bits), self.apart);
        }
        if ending == 2 {
            return self.answering(i, self.bits, self.apart | held::parts(x));
        }
        self.answering(i, self.bits, self.apart)
    }

    // Whether the set has an instruction of this number.
    fn in_set(self, i: u8) -> bool
        ensures { result ≡ in_set self i }
    {
        (self.count <= Station::MOST) & (i < self.count)
    }

    // A result by its instruction's number.
    fn numbered(self, i: u8, ending: u8) -> Turn
        ensures { result ≡ unjudged self i ending (numbered self i ending) }
    {
        if !self.in_set(i) {
            return self.unmoved(Answer::NotInSet);
        }
        if (self.answered >> i) % 2 == 1 {
            return self.unmoved(Answer::AlreadyAnswered);
        }
        self.ended(i, ending)
    }

    // How far an issue is behind the present set's, counted round the end.
    fn behind(self, issue: u16) -> u16
        ensures { result ≡ behind self issue }
    {
        self.next.wrapping_sub(1).wrapping_sub(issue)
    }

    // A result by the issue of its set.
    fn timely(self, report: Report) -> Turn
        ensures { result ≡ unjudged self report.number report.ending (timely self report) }
    {
        match self.behind(report.issue) {
            0 => self.numbered(report.number, report.ending),
            1..=32767 => self.unmoved(Answer::Late),
            _ => self.unmoved(Answer::NotIssued),
        }
    }

    // A result on a station that is known to be fit: what waits is allowed, and a success is not judged.
    pub fn settled(self, report: Report) -> Turn
        ensures { result ≡ settled self report }
    {
        if 2 < report.ending {
            return self.unmoved(Answer::BadField(NOWHERE));
        }
        if self.count == 0 {
            return self.unmoved(Answer::NoSet);
        }
        self.timely(report)
    }

    // A result past the test of fitness, where nothing is known of the station: a success is judged.
    pub fn resulted(self, report: Report) -> Turn
        ensures { result ≡ turn_of (resulted self report) }
    {
        let told = self.settled(report);
        if (report.ending == 1) & (told.answer.number() == 0) {
            let set = self.set;
            let x = sets::code_at(&set, report.number);
            return Turn {
                bits: held::after(x, self.bits),
                ..told
            };
        }
        told
    }

    // A result.
    pub fn result(self, report: Report) -> Outcome
        ensures { result ≡ result_call self report }
    {
        if !self.fit() {
            return refused(self, Answer::Unfit);
        }
        let t = self.settled(report);
        self.after(t, self.set)
    }
}
