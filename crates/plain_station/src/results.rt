// Results of the outstanding set's instructions.
ghost use Rattle.std.specs.Prelude.{◌≡◌, ◌<◌, ◌≤◌};
ghost use Rattle.answers.specs.declared.Answer.TheVariants.{Taken};
ghost use Rattle.station.specs.Station.{in_set, behind};
ghost use Rattle.station.specs.Calls as packed_calls;
ghost use Rattle.plain_station.specs.Plain.{packed_of, plain_outcome, plain_resulted};
ghost use Rattle.plain_station.specs.Private.{handed, all_answered, plain_answering};

use super::{Plain, PlainOutcome, sets};
use answers::{Answer, NOWHERE};
use plain::Floor;
use plain_moves::Parts;
use station::{Report, Station};
use std::num::wrapping_sub_u16;

// Each of the first n is answered.
fn all_answered(marks: [bool; 8], n: u8) -> bool
    requires { n ≤ 8 }
    ensures { result ≡ all_answered marks n }
{
    for i in 0..n as usize {
        if !marks[i] {
            return false;
        }
    }
    true
}

impl Plain {
    // Instruction i answered, this floor now, and this set apart; with the last answer the set is gone.
    fn answering(self, i: u8, floor: Floor, apart: Parts) -> PlainOutcome
        requires { (self.count ≤ 8) × (i < self.count) }
        ensures { result ≡ record { station = plain_answering self i floor apart; answer = Taken } }
    {
        let mut answered = self.answered;
        answered[i as usize] = true;
        if all_answered(answered, self.count) {
            return PlainOutcome {
                station: Plain {
                    floor,
                    apart,
                    count: 0,
                    answered: [false; 8],
                    set: [0; 40],
                    ..self
                },
                answer: Answer::Taken,
            };
        }
        PlainOutcome {
            station: Plain {
                floor,
                apart,
                answered,
                ..self
            },
            answer: Answer::Taken,
        }
    }

    // The end of a result: done, the instruction has moved the floor; stuck, its area is set apart; failed, nothing has changed.
    fn ended(self, i: u8, ending: u8) -> PlainOutcome
        requires { (self.count ≤ 8) × (i < self.count) }
        ensures { result ≡ plain_outcome (packed_calls.ended (packed_of self) i ending) }
    {
        let set = self.set;
        match ending {
            1 => self.answering(i, sets::moved_by(&set, i, self.floor), self.apart),
            2 => self.answering(i, self.floor, self.apart.with(sets::area_at(&set, i))),
            _ => self.answering(i, self.floor, self.apart),
        }
    }

    // Whether the set has an instruction of this number.
    fn in_set(self, i: u8) -> bool
        ensures { result ≡ in_set (packed_of self) i }
    {
        (self.count <= Station::MOST) & (i < self.count)
    }

    // A result by its instruction's number.
    #[inline(never)]
    fn numbered(self, i: u8, ending: u8) -> Result<PlainOutcome, Answer>
        ensures { handed self result ≡ plain_outcome (packed_calls.numbered (packed_of self) i ending) }
    {
        if !self.in_set(i) {
            return Err(Answer::NotInSet);
        }
        if self.answered[i as usize] {
            return Err(Answer::AlreadyAnswered);
        }
        Ok(self.ended(i, ending))
    }

    // How far an issue is behind the present set's, counted round the end.
    fn behind(self, issue: u16) -> u16
        ensures { result ≡ behind (packed_of self) issue }
    {
        wrapping_sub_u16(wrapping_sub_u16(self.next, 1), issue)
    }

    // A result by the issue of its set.
    fn timely(self, report: Report) -> Result<PlainOutcome, Answer>
        ensures { handed self result ≡ plain_outcome (packed_calls.timely (packed_of self) report) }
    {
        match self.behind(report.issue) {
            0 => self.numbered(report.number, report.ending),
            1..=32767 => Err(Answer::Late),
            _ => Err(Answer::NotIssued),
        }
    }

    // A result whose ending is known, 0 failed, 1 done or 2 stuck, while a set is outstanding.
    fn reported(self, report: Report) -> Result<PlainOutcome, Answer>
        ensures { handed self result ≡ plain_resulted self report }
    {
        if 2 < report.ending {
            return Err(Answer::BadField(NOWHERE));
        }
        if self.count == 0 {
            return Err(Answer::NoSet);
        }
        self.timely(report)
    }

    // A result past the test of fitness: 0 failed, 1 done, 2 stuck.
    pub fn resulted(self, report: Report) -> PlainOutcome
        ensures { result ≡ plain_resulted self report }
    {
        self.handed(self.reported(report))
    }
}
