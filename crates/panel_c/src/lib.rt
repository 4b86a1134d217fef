// The entries of the plain station and of the service panel, for a host in C or Rust: numbers and runs of bytes alone. A station is lent as
// 60 bytes, an answer is its number plus 256 times its place plus 65536 times its issue, and a refused call writes nothing. What each
// answers and leaves stands in specs/Entries.antt, and for the plain station in that of rooms.
#![tactic(auto)]

ghost use Rattle.std.specs.Prelude.{◌≡◌, ◌≤◌, ◌<◌, true, false, length};
ghost use Rattle.codec.specs.Bytes.{little_endian};
ghost use Rattle.answers.specs.declared.Answer.{Answer};
ghost use Rattle.answers.specs.declared.Answer.TheVariants.{Unfit};
ghost use Rattle.station.specs.declared.Outcome.{Outcome};
ghost use Rattle.station.specs.Station.{fit};
ghost use Rattle.station.specs.Calls as calls;
ghost use Rattle.plain.specs.Plain.{plain_bits};
ghost use Rattle.panel.specs.Panel.{explained};
ghost use Rattle.rooms.specs.Rooms.{station_size, lent_station, outcome_kept, no_room, LeavesRoom, writes, entry, request_of};
ghost use Rattle.plain_station.specs.declared.PlainOutcome.{PlainOutcome};
ghost use Rattle.plain_station.specs.Plain.{plain_of, packed_outcome};
ghost use Rattle.panel_c.specs.Entries.{condition_bytes, explaining, next_into, walking};
ghost use Rattle.panel_c.specs.Private.{floor_answer, floor_next};

use answers::{Answer, NOWHERE, Reason};
use panel::Explanation;
use plain::Floor;
use plain_station::{Plain, PlainOutcome};
use rooms::{bytes_asked, keep, say, station_of, tell};
use rules::Instruction;
use station::{Outcome, Report, Station};

// The bytes of a lent station, of a record, of an instruction, of a condition explained, and of the cars that a walk lists.
const STATION: usize = 60;

const RECORD: usize = 8;

const CODE: usize = 5;

const CONDITION: usize = 11;

const CARS: usize = 31;

// ---- the plain station's calls on a packed one

// The station as it was, and why.
fn refused(station: Station, answer: Answer) -> Outcome
    ensures { result ≡ calls.refused station answer }
{
    Outcome { station, answer }
}

// What the plain station hands back, as the packed one.
fn packed(o: PlainOutcome) -> Outcome
    ensures { result ≡ packed_outcome o }
{
    Outcome {
        station: o.station.packed(),
        answer: o.answer,
    }
}

// A call on a fit station, by the plain one; any other station is refused.
fn on_fit<F: FnOnce(Plain) -> PlainOutcome>(s: Station, call: F) -> Outcome
    requires { F.IsAlwaysCallable call }
    ensures unfit { fit s ≡ false → result ≡ calls.refused s Unfit }
    ensures made { fit s ≡ true → (o : PlainOutcome) × F.post call (plain_of s) o × (result ≡ packed_outcome o) }
{
    if !s.fit() {
        return refused(s, Answer::Unfit);
    }
    packed(call(plain_station::of_station(s)))
}

// Kept: count beside set, as calls.request has them.
// A request.
fn request(s: Station, count: u8, set: [u8; 40]) -> Outcome
    ensures { result ≡ calls.request s count set }
{
    on_fit(s, |p| p.requested(count, set))
}

// A car event.
fn event(s: Station, way: u8) -> Outcome
    ensures { result ≡ calls.event s way }
{
    on_fit(s, |p| p.evented(way))
}

// A result.
fn result(s: Station, report: Report) -> Outcome
    ensures { result ≡ calls.result s report }
{
    on_fit(s, |p| p.resulted(report))
}

// A request, its set as a run of bytes.
fn requested(s: Station, count: u8, set: &[u8]) -> Outcome
    ensures { result ≡ request_of count set.now s }
{
    let size = bytes_asked(count);
    if set.len() < size {
        return refused(s, Answer::TooFewBytes);
    }
    let five_each = wire::set_of(&set[..size]);
    request(s, count, five_each)
}

// ---- the plain station's entries

// A call on the station that a room lends; what it hands back is kept there.
fn on_lent<F: FnOnce(Station) -> Outcome>(room: &mut [u8], call: F) -> u32
    requires { F.IsAlwaysCallable call }
    ensures short { length room.old < station_size → LeavesRoom (no_room room.old) result room.new }
    ensures kept { station_size ≤ length room.old → (o : Outcome) × F.post call (lent_station room.old) o × LeavesRoom (outcome_kept o room.old) result room.new }
{
    if room.len() < STATION {
        return say(Answer::NoRoom);
    }
    let o = call(station_of(room));
    keep(o, room)
}

// A request of `count` instructions, five bytes each.
#[unsafe(no_mangle)]
pub extern "C" fn plain_request(room: &mut [u8], count: u8, set: &[u8]) -> u32
    ensures { LeavesRoom (entry (request_of count set.now) room.old) result room.new }
{
    on_lent(room, |s| requested(s, count, set))
}

// A car event: a drive begins, 1 in, 2 out; the one under way ends, 3 done, 4 not done.
#[unsafe(no_mangle)]
pub extern "C" fn plain_event(room: &mut [u8], way: u8) -> u32
    ensures { LeavesRoom (entry (λ s. calls.event s way) room.old) result room.new }
{
    on_lent(room, |s| event(s, way))
}

// The result of an instruction, by the issue of its set and its number from 0: 0 failed, 1 done, 2 stuck.
#[unsafe(no_mangle)]
pub extern "C" fn plain_result(room: &mut [u8], issue: u16, number: u8, ending: u8) -> u32
    ensures { LeavesRoom (entry (λ s. calls.result s (record { issue = issue; number = number; ending = ending })) room.old) result room.new }
{
    let report = Report {
        issue,
        number,
        ending,
    };
    on_lent(room, |s| result(s, report))
}

// ---- the service panel's entries

// A condition explained, or that there is none, as eleven bytes.
fn condition_bytes(x: Option<Explanation>) -> [u8; CONDITION]
    ensures { result ≡ condition_bytes x }
{
    let Some(Explanation { condition, parts }) = x else {
        return [0, 1, Reason::NothingNamed.number(), 0, 0, 0, 0, 0, 0, 0, 0];
    };
    let p = wire::image_bytes(parts.number());
    let told = condition.why.number();
    [
        1,
        condition.holds as u8,
        told,
        p[0],
        p[1],
        p[2],
        p[3],
        p[4],
        p[5],
        p[6],
        p[7],
    ]
}

// A condition of an instruction on a floor, to a room that has place for it.
fn explain(f: Floor, i: Instruction, c: u8, room: &mut [u8]) -> u32
    requires { 11 ≤ length room.old }
    ensures { LeavesRoom (writes Answer.Taken (condition_bytes (explained i c (plain_bits f))) room.old) result room.new }
{
    let b = condition_bytes(panel::explained(f, i, c));
    tell(say(Answer::Taken), &b, room)
}

// A condition of the instruction that five bytes say, on a record.
#[unsafe(no_mangle)]
pub extern "C" fn panel_condition(image: u64, five: &[u8], c: u8, room: &mut [u8]) -> u32
    ensures { LeavesRoom (explaining image five.now c room.old) result room.new }
{
    if room.len() < CONDITION {
        return say(Answer::NoRoom);
    }
    if five.len() < CODE {
        return say(Answer::TooFewBytes);
    }
    let Some(i) = rules::read_bytes(five) else {
        return say(Answer::BadField(NOWHERE));
    };
    if !floor::sound(image) {
        return say(Answer::Unsound);
    }
    explain(plain::of_image(image), i, c, room)
}

// The record after an instruction on a floor, to a room that has place for it.
fn follow(f: Floor, i: Instruction, next: &mut [u8]) -> u32
    requires { 8 ≤ length next.old }
    ensures { LeavesRoom (writes (floor_answer f i) (little_endian 8 (floor_next f i)) next.old) result next.new }
{
    let area = plain_moves::area(i);
    if (f.coming | f.going) & area.lift {
        return say(Answer::OutOfTurn);
    }
    let a = rules::answer_for(f.verdict(i), NOWHERE);
    let moved = plain_moves::moved(f, i);
    let b = wire::image_bytes(moved.image());
    tell(say(a), &b, next)
}

// The eight bytes of the record after an instruction, to a room of their own.
#[unsafe(no_mangle)]
pub extern "C" fn panel_next(image: u64, five: &[u8], next: &mut [u8]) -> u32
    ensures { LeavesRoom (next_into image five.now next.old) result next.new }
{
    if next.len() < RECORD {
        return say(Answer::NoRoom);
    }
    if five.len() < CODE {
        return say(Answer::TooFewBytes);
    }
    if !floor::sound(image) {
        return say(Answer::Unsound);
    }
    let Some(i) = rules::read_bytes(five) else {
        return say(Answer::BadField(NOWHERE));
    };
    follow(plain::of_image(image), i, next)
}

// Kept: a sum: C is told one number, which walking says so; a wrong version with the count elsewhere is named (must-fail/).
// The cars of a record in the order of a walk, each by the place where it begins, and how many they are.
#[unsafe(no_mangle)]
pub extern "C" fn panel_cars(image: u64, room: &mut [u8]) -> u32
    ensures { LeavesRoom (walking image room.old) result room.new }
{
    if room.len() < CARS {
        return say(Answer::NoRoom);
    }
    if !floor::sound(image) {
        return say(Answer::Unsound);
    }
    let f = plain::of_image(image);
    let walk = f.walk();
    codec::copy(&walk.starts, room);
    say(Answer::Taken) + 65536 * (walk.count as u32)
}
