// The entries for a planner in C or Rust: numbers and runs of bytes alone. A station is lent as 60 bytes, an answer is its number plus
// 256 times its place plus 65536 times its issue, and a refused call writes nothing. What each answers and leaves stands in specs/Entries.antt,
// and of what other entries answer too in that of rooms.
#![tactic(auto)]

ghost use Rattle.std.specs.Prelude.{◌≡◌, ◌≤◌, length};
ghost use Rattle.floor.specs.Sound.{sound, total};
ghost use Rattle.rules.specs.Codes.{code_from};
ghost use Rattle.rules.specs.Verdicts.{moved_of};
ghost use Rattle.station.specs.Held.{crosses};
ghost use Rattle.station.specs.Station.{start_of};
ghost use Rattle.station.specs.Calls.{taken, event, result as result_call, take_image};
ghost use Rattle.version.specs.Version.{version};
ghost use Rattle.station.specs.declared.Station.{Station};
ghost use Rattle.station.specs.declared.Outcome.{Outcome};
ghost use Rattle.rooms.specs.Rooms.{station_of, returned, LeavesRoom, writes, entry, request_of};
ghost use Rattle.rooms.specs.Questions.{moved, answer_to, request_answer, record_in, nexting};
ghost use Rattle.station_c.specs.Entries.{asking, returned_of, Exchanges, exchange, cars_or255};

use answers::{Answer, NOWHERE};
use rooms::{bytes_asked, image_in, keep, say, station_bytes, station_of, tell};
use rules::{Code, Instruction, Refusal};
use station::{Outcome, Picture, Report, Station};
use wire::What;

pub mod sets;

// The bytes of a lent station, of a record, of a record and what is set apart, and of an instruction.
const STATION: usize = 60;

const RECORD: usize = 8;

const IMAGE: usize = 16;

const CODE: usize = 5;

// ---- the calls on a lent station

// A call on the lent station, and its outcome told; 17 where the room is too short for a station.
fn on_lent<F: FnOnce(Station) -> Outcome>(room: &mut [u8], call: F) -> u32
    requires { F.IsAlwaysCallable call }
    ensures { (f : Station → Outcome) → ((o : Outcome) → F.post call (station_of room.old) o → o ≡ f (station_of room.old)) → LeavesRoom (entry f room.old) result room.new }
{
    if room.len() < STATION {
        return say(Answer::NoRoom);
    }
    keep(call(station_of(room)), room)
}

// Writes the start station.
pub fn station_start(room: &mut [u8]) -> u32
    ensures { LeavesRoom (entry (λ s. taken start_of) room.old) result room.new }
{
    let start = Outcome {
        station: Station::start(),
        answer: Answer::Taken,
    };
    on_lent(room, |_| start)
}

// A request on a station, its set as a run of bytes.
fn requested(s: Station, count: u8, set: &[u8]) -> Outcome
    ensures { result ≡ request_of count set.now s }
{
    let size = bytes_asked(count);
    if set.len() < size {
        return Outcome {
            station: s,
            answer: Answer::TooFewBytes,
        };
    }
    let five_each = wire::set_of(&set[..size]);
    s.request(count, five_each)
}

// A request of `count` instructions, five bytes each.
pub fn station_request(room: &mut [u8], count: u8, set: &[u8]) -> u32
    ensures { LeavesRoom (entry (request_of count set.now) room.old) result room.new }
{
    on_lent(room, |s| requested(s, count, set))
}

// A car event: a drive begins, 1 in, 2 out; the one under way ends, 3 done, 4 not done.
pub fn station_event(room: &mut [u8], way: u8) -> u32
    ensures { LeavesRoom (entry (λ s. event s way) room.old) result room.new }
{
    on_lent(room, |s| s.event(way))
}

// The result of an instruction, by the issue of its set and its number from 0: 0 failed, 1 done, 2 stuck.
pub fn station_result(room: &mut [u8], issue: u16, number: u8, ending: u8) -> u32
    ensures { LeavesRoom (entry (λ s. result_call s (record { issue = issue; number = number; ending = ending })) room.old) result room.new }
{
    let report = Report {
        issue,
        number,
        ending,
    };
    on_lent(room, |s| s.result(report))
}

// An image, which becomes the record with nothing set apart.
pub fn station_image(room: &mut [u8], image: u64, apart: u64) -> u32
    ensures { LeavesRoom (entry (λ s. take_image s (record { bits = image; apart = apart })) room.old) result room.new }
{
    on_lent(room, |s| s.image(Picture { bits: image, apart }))
}

// The record's eight bytes and then those of what is set apart, to a room of their own.
pub fn station_ask(room: &[u8], image: &mut [u8]) -> u32
    ensures { LeavesRoom (asking room.now image.old) result image.new }
{
    if room.len() < STATION {
        return say(Answer::NoRoom);
    }
    if image.len() < IMAGE {
        return say(Answer::NoRoom);
    }
    let s = station_of(room);
    let b = image_in(s.bits, s.apart);
    let o = s.ask();
    let a = o.answer;
    tell(say(a), &b, image)
}

// ---- a message on a lent station

// What is returned besides a message that answers.
fn returned_of(what: What) -> u32
    ensures { result ≡ returned_of what }
{
    match what {
        What::Answer {
            number,
            place,
            issue,
        } => number as u32 + 256 * (place as u32) + 65536 * (issue as u32),
        _ => say(Answer::Taken),
    }
}

// Answers the first message of a run: the message that answers to reply and, if the message was taken, the next station to room.
pub fn station_message(room: &mut [u8], message: &[u8], reply: &mut [u8]) -> u32
    ensures { Exchanges (exchange room.old message.now reply.old) result room.new reply.new }
{
    if room.len() < STATION {
        return say(Answer::NoRoom);
    }
    let o = service::respond(station_of(room), message);
    let what = o.answer;
    match wire::writing::write_plain(what, reply) {
        Ok(_) => {}
        Err(answer) => return say(answer),
    }
    let r = returned_of(what);
    if r % 256 != 0 {
        return r;
    }
    codec::copy(&station_bytes(o.station), room);
    r
}

// ---- the version

// The version of what is built here: 65536 times its first number, 256 times its second, and its third.
pub fn station_version() -> u32
    ensures { result ≡ version }
{
    version::number()
}

// ---- questions on a record

// Whether an image is sound.
pub fn garage_sound(image: u64) -> bool
    ensures { result ≡ sound image }
{
    floor::sound(image)
}

// Kept: an arm for each case, since each has a wrong program of its own (must-fail/wrong_programs.edit).
// The number of cars, 255 if the record isn't sound.
pub fn garage_cars(image: u64) -> u32
    ensures { result ≡ cars_or255 (total image) }
{
    match floor::cars(image) {
        Some(n) => n as u32,
        None => 255,
    }
}

// The record after an instruction, given by its five bytes, where it is allowed.
fn moved(image: u64, five: &[u8]) -> Result<u64, Refusal>
    ensures { result ≡ moved image five.now }
{
    match rules::read_bytes(five) {
        Some(i) => engine::moved(i, image),
        None => Err(Refusal::IllFormed),
    }
}

// What is answered with a next record, or none.
fn answer_to(m: Result<u64, Refusal>) -> Answer
    ensures { result ≡ answer_to m }
{
    match m {
        Ok(_) => Answer::Taken,
        Err(Refusal::NotAllowed(why)) => Answer::NotAllowed(why, NOWHERE),
        Err(Refusal::IllFormed) => Answer::BadField(NOWHERE),
    }
}

fn record_in(m: Result<u64, Refusal>) -> u64
    ensures { result ≡ record_in m }
{
    m.unwrap_or(0)
}

// What is answered of an instruction, by its verdict: the next record isn't asked for.
fn judged(i: Instruction, image: u64) -> Answer
    ensures { result ≡ answer_to (moved_of i image) }
{
    rules::answer_for(engine::verdict(i, image), NOWHERE)
}

// A drive is under way on the record, and the instruction that five bytes say has the lift in its area.
fn crossing(image: u64, five: &[u8]) -> bool
    requires { 5 ≤ length five.now }
    ensures { result ≡ crosses (code_from five.now) image }
{
    let x = Code {
        op: five[0],
        a: five[1],
        b: five[2],
        c: five[3],
        d: five[4],
    };
    station::crosses(x, image)
}

// Kept: garage_allowed and garage_next test the bytes each by itself, since the gate wants five bytes that are too few refused in each.
// What a request of the instruction that five bytes say is told on a record.
pub fn garage_allowed(image: u64, five: &[u8]) -> u32
    ensures { result ≡ returned (request_answer image five.now) }
{
    if five.len() < CODE {
        return say(Answer::TooFewBytes);
    }
    if crossing(image, five) {
        return say(Answer::OutOfTurn);
    }
    match rules::read_bytes(five) {
        Some(i) => say(judged(i, image)),
        None => say(Answer::BadField(NOWHERE)),
    }
}

// The eight bytes of the record after an instruction, to a room of their own.
pub fn garage_next(image: u64, five: &[u8], next: &mut [u8]) -> u32
    ensures { LeavesRoom (nexting image five.now next.old) result next.new }
{
    if next.len() < RECORD {
        return say(Answer::NoRoom);
    }
    if five.len() < CODE {
        return say(Answer::TooFewBytes);
    }
    if crossing(image, five) {
        return say(Answer::OutOfTurn);
    }
    let m = moved(image, five);
    tell(say(answer_to(m)), &wire::image_bytes(record_in(m)), next)
}
