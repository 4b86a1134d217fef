// The desk's calls. What the station says comes first: a station that isn't fit says so itself, so that fitness is tested once. Numbers
// follow cars where a call is taken, and not otherwise.
ghost use Rattle.std.specs.Prelude.{◌≡◌, cond, eqb};
ghost use Rattle.rules.specs.Codes.{read_code, read_event};
ghost use Rattle.station.specs.Held.{code_at};
ghost use Rattle.cards.specs.Given.{given_as};
ghost use Rattle.cards.specs.Held.{code_cards, cards_given};
ghost use Rattle.desk.specs.Desk.{is_taken};
ghost use Rattle.desk.specs.Calls.{desk_refused, desk_holding, desk_following, desk_request, desk_result, desk_begun, passed, desk_event, offered, desk_take_image, desk_ask};

use super::{Desk, DeskOutcome, Reply};
use answers::Answer;
use cards::GivenError;
use rules::{Event, Instruction};
use station::{Outcome, Picture, Report, Station};

// The number of the event that brings a card.
const BEGIN_IN: u8 = 1;

// The outcome of a result that is done.
const DONE: u8 = 1;

fn refused(desk: Desk, reply: Reply) -> DeskOutcome
    ensures { result ≡ desk_refused desk reply }
{
    DeskOutcome { desk, reply }
}

// The station's answer, its station, and these numbers.
fn holding(o: Outcome, numbers: [u32; 42]) -> DeskOutcome
    ensures { result ≡ desk_holding o numbers }
{
    DeskOutcome {
        desk: Desk {
            station: o.station,
            numbers,
        },
        reply: Reply::Told(o.answer),
    }
}

// The station takes the call.
fn is_taken(answer: Answer) -> bool
    ensures { result ≡ is_taken answer }
{
    answer.number() == 0
}

// What instruction i of a set says; past the eighth there is none.
pub fn read_at(set: [u8; 40], i: u8) -> Option<Instruction>
    ensures { result ≡ read_code (code_at set i) }
{
    if Station::MOST <= i {
        return None;
    }
    rules::read_bytes(&set[5 * (i as usize)..])
}

impl Desk {
    // The station's call, and these numbers where it is taken.
    fn following(self, o: Outcome, numbers: [u32; 42]) -> DeskOutcome
        ensures { result ≡ desk_following self o numbers }
    {
        if is_taken(o.answer) {
            return holding(o, numbers);
        }
        refused(self, Reply::Told(o.answer))
    }

    // A request.
    pub fn request(self, count: u8, set: [u8; 40]) -> DeskOutcome
        ensures { result ≡ desk_request self count set }
    {
        if !self.numbers_fit() {
            return refused(self, Reply::Told(Answer::Unfit));
        }
        self.following(self.station.request(count, set), self.numbers)
    }

    // The numbers after a success of instruction i of the set, on the present record.
    #[tactic(auto, unfolding(cards::specs::Held::code_cards))]
    pub fn done(self, i: u8) -> [u32; 42]
        ensures { result ≡ code_cards (code_at self.station.set i) self.station.bits self.numbers }
    {
        match read_at(self.station.set, i) {
            Some(x) => cards::numbers_after(x, self.station.bits, self.numbers),
            None => self.numbers,
        }
    }

    // The numbers after a result: with a success they follow the instruction.
    fn followed(self, report: Report) -> [u32; 42]
        ensures { result ≡ cond (eqb report.ending 1) (code_cards (code_at self.station.set report.number) self.station.bits self.numbers) self.numbers }
    {
        if report.ending == DONE {
            return self.done(report.number);
        }
        self.numbers
    }

    // A result.
    pub fn result(self, report: Report) -> DeskOutcome
        ensures { result ≡ desk_result self report }
    {
        if !self.numbers_fit() {
            return refused(self, Reply::Told(Answer::Unfit));
        }
        self.following(self.station.result(report), self.followed(report))
    }

    // A drive-in begins with this number: it isn't zero, and not in the garage.
    fn begun(self, o: Outcome, card: u32) -> DeskOutcome
        ensures { result ≡ desk_begun self o card }
    {
        if card == 0 {
            return refused(self, Reply::ZeroNumber);
        }
        if cards::known(self.numbers, card) {
            return refused(self, Reply::KnownNumber);
        }
        holding(o, cards::numbers_driven(Event::BeginIn, card, self.numbers))
    }

    // The numbers after any other event.
    fn passed(self, way: u8) -> [u32; 42]
        ensures { result ≡ passed (read_event way) self.numbers }
    {
        let Some(e) = rules::event_of(way) else {
            return self.numbers;
        };
        cards::numbers_driven(e, 0, self.numbers)
    }

    // A car event, with the number of a card: only the begin of a drive-in looks at it.
    pub fn event(self, way: u8, card: u32) -> DeskOutcome
        ensures { result ≡ desk_event self way card }
    {
        if !self.numbers_fit() {
            return refused(self, Reply::Told(Answer::Unfit));
        }
        let o = self.station.event(way);
        if !is_taken(o.answer) {
            return refused(self, Reply::Told(o.answer));
        }
        if way == BEGIN_IN {
            return self.begun(o, card);
        }
        holding(o, self.passed(way))
    }

    // An image that the station takes, by what its numbers come to.
    fn offered(self, o: Outcome, r: u64, count: u8, given: [u32; 31]) -> DeskOutcome
        ensures { result ≡ offered self o (cards_given r given) (given_as r count given) }
    {
        match cards::given_as(r, count, given) {
            Ok(()) => holding(o, cards::numbers_given(r, given)),
            Err(GivenError::WrongCount) => refused(self, Reply::WrongCount),
            Err(GivenError::ZeroNumber) => refused(self, Reply::ZeroNumber),
            Err(GivenError::TwiceGiven) => refused(self, Reply::KnownNumber),
        }
    }

    // An image with `count` numbers; those past them are not looked at.
    pub fn image(self, picture: Picture, count: u8, given: [u32; 31]) -> DeskOutcome
        ensures { result ≡ desk_take_image self picture count given }
    {
        if !self.numbers_fit() {
            return refused(self, Reply::Told(Answer::Unfit));
        }
        let o = self.station.image(picture);
        if !is_taken(o.answer) {
            return refused(self, Reply::Told(o.answer));
        }
        self.offered(o, picture.bits, count, given)
    }

    // Kept: ask tests fitness itself, since a wrong version that doesn't look at the numbers is named here (must-fail/).
    // The record is asked for.
    pub fn ask(self) -> DeskOutcome
        ensures { result ≡ desk_ask self }
    {
        if !self.fit() {
            return refused(self, Reply::Told(Answer::Unfit));
        }
        refused(self, Reply::Told(Answer::Taken))
    }
}
