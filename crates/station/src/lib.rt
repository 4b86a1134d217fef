// The station and its five calls; requests, car events and results stand in modules of their own. A station goes in by value and comes
// back with an answer; a refused call hands it back as it was.
#![tactic(auto)]

ghost use Rattle.std.specs.Prelude.{◌≡◌, ◌-◌, ◌^◌, ◌≤◌};
ghost use Rattle.station.specs.Held.{crosses};
ghost use Rattle.station.specs.Station.{closed, start_of, fit, noting};
ghost use Rattle.station.specs.Calls.{refused, taken, imaged, take_image, ask};
ghost use Rattle.station.specs.Turns.{turn_of, after_turn};

use answers::Answer;
use floor::masks::LIFT;
use held::PARTS_END;
use rules::Code;

mod events;
mod held;
mod requests;
mod results;
mod sets;

// Kept: count beside set, here and in all calls of this crate: request s n set and the fields are in theorems (AnswersRight); no heap.
// The station: its record, how many instructions the outstanding set has, a mark for each that is answered, the instructions as the
// request's own five bytes each, unused places zero, the issue that the next set will have, and what is set apart: bits 0 to 51 as in the
// record, bit 52 for the lift.
#[derive(Clone, Copy)]
pub struct Station {
    pub bits: u64,
    pub count: u8,
    pub answered: u8,
    pub set: [u8; 40],
    pub next: u16,
    pub apart: u64,
}

// What a result says: the issue of its set, the instruction's number from 0, and 0 failed, 1 done or 2 stuck.
// Kept: any byte may come as the ending; `settled` refuses those above 2, and the definitions and theorems of results name the number.
#[derive(Clone, Copy)]
pub struct Report {
    pub issue: u16,
    pub number: u8,
    pub ending: u8,
}

// What an image says: the record, and what is set apart.
#[derive(Clone, Copy)]
pub struct Picture {
    pub bits: u64,
    pub apart: u64,
}

// Kept: a station beside an answer, here and in Turn, no Result: a refused call hands its station back (refused, Runs.call).
// What a call hands back.
#[derive(Clone, Copy)]
pub struct Outcome {
    pub station: Station,
    pub answer: Answer,
}

// What a call answers, and what it leaves of the station but its set: some numbers, so that nothing is copied on the way.
#[derive(Clone, Copy)]
pub struct Turn {
    pub answer: Answer,
    pub bits: u64,
    pub count: u8,
    pub answered: u8,
    pub next: u16,
    pub apart: u64,
}

// The marks of n instructions when all are answered.
fn all_marks(n: u8) -> u8
    requires { n ≤ 8 }
    ensures { result ≡ 2 ^ n - 1 }
{
    ((1u64 << n as u64) - 1) as u8
}

// A station with this record that never had a set.
fn closed(bits: u64) -> Station
    ensures { result ≡ closed bits 0 0 }
{
    Station {
        bits,
        count: 0,
        answered: 0,
        set: [0; 40],
        next: 0,
        apart: 0,
    }
}

fn refused(station: Station, answer: Answer) -> Outcome
    ensures { result ≡ refused station answer }
{
    Outcome { station, answer }
}

fn taken(station: Station) -> Outcome
    ensures { result ≡ taken station }
{
    Outcome {
        station,
        answer: Answer::Taken,
    }
}

// A drive is under way on the record, and the instruction that these bytes say has the lift in its area.
pub fn crosses(x: Code, bits: u64) -> bool
    ensures { result ≡ crosses x bits }
{
    if !floor::under_way(bits) {
        return false;
    }
    held::area(x) & LIFT != 0
}

impl Station {
    // The start record: no cars, rows 1 and 2 lowered and row 3 tilted on both sides, lift at street.
    pub const START: u64 = 0x9_1B00_0000_0000;

    // The largest set size.
    pub const MOST: u8 = 8;

    pub fn start() -> Self
        ensures { result ≡ start_of }
    {
        closed(Station::START)
    }

    // Whether the station can be trusted to go on.
    pub fn fit(self) -> bool
        ensures { result ≡ fit self }
    {
        let n = self.count;
        let marks = self.answered;
        let set = self.set;
        if Station::MOST < n {
            return false;
        }
        let all = all_marks(n);
        let found = sets::search(&set, n, marks, self.bits, 0);
        floor::sound(self.bits)
            & (found.bad == n)
            & (marks <= all)
            & sets::rest_zero(&set, n)
            & ((n == 0) | (marks & all != all))
            & !(floor::under_way(self.bits) & found.lift)
            & (found.overlap == n)
            & (found.barred == n)
            & (self.apart < PARTS_END)
    }

    // Kept: beside service's own: of each a wrong version is named, and has to be refused in its own proof (must-fail/).
    // The station as it was, and the answer.
    fn unmoved(self, answer: Answer) -> Turn
        ensures { result ≡ turn_of (refused self answer) }
    {
        Turn {
            answer,
            bits: self.bits,
            count: self.count,
            answered: self.answered,
            next: self.next,
            apart: self.apart,
        }
    }

    // The record now r, and this set apart.
    fn holding(self, r: u64, apart: u64) -> Turn
        ensures { result ≡ turn_of (taken (noting self self.answered r apart)) }
    {
        Turn {
            bits: r,
            apart,
            ..self.unmoved(Answer::Taken)
        }
    }

    // The outcome of a turn. Where instructions came, fresh is the new set; with the last result the set is gone; else it stays.
    pub fn after(self, t: Turn, fresh: [u8; 40]) -> Outcome
        ensures { result ≡ after_turn self t fresh }
    {
        let set = sets::kept(self.set, self.count, t.count, fresh);
        Outcome {
            station: Station {
                bits: t.bits,
                count: t.count,
                answered: t.answered,
                set,
                next: t.next,
                apart: t.apart,
            },
            answer: t.answer,
        }
    }

    // An image, which becomes the record with nothing set apart, past the test of fitness.
    pub fn imaged(self, picture: Picture) -> Turn
        ensures { result ≡ turn_of (imaged self picture) }
    {
        if 0 < self.count {
            return self.unmoved(Answer::SetOutstanding);
        }
        if !(floor::sound(picture.bits) & (picture.apart == 0)) {
            return self.unmoved(Answer::Unsound);
        }
        self.holding(picture.bits, 0)
    }

    // An image.
    // Kept: each call tests fitness itself, here and in its module: each has a wrong program at its own refusal (must-fail/wrong_programs.edit).
    pub fn image(self, picture: Picture) -> Outcome
        ensures { result ≡ take_image self picture }
    {
        if !self.fit() {
            return refused(self, Answer::Unfit);
        }
        let t = self.imaged(picture);
        self.after(t, self.set)
    }

    // The record is asked for.
    pub fn ask(self) -> Outcome
        ensures { result ≡ ask self }
    {
        if self.fit() {
            return taken(self);
        }
        refused(self, Answer::Unfit)
    }
}
