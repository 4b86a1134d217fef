// The week in numbers: what is counted of each message that a station answers, and all messages of a buffer counted. What counts stands
// in specs/.
#![tactic(auto)]

ghost use Rattle.std.specs.Prelude.{◌≡◌, true};
ghost use Rattle.floor.specs.Sound.{sound, total, cars_in};
ghost use Rattle.station.specs.Held.{code_at};
ghost use Rattle.station.specs.Station.{fit};
ghost use Rattle.totals.specs.Totals.{LeavesCounts, totals_of, counted_in};
ghost use Rattle.week.specs.Weeks.{kind_read, number_answered, drive_on, happened};
ghost use Rattle.week.specs.Counts.{Counts, count_on, count_end};
ghost use Rattle.week.specs.Private.{told_by, brings_result, message_step};

use floor::masks::{DRIVE_IN, DRIVE_OUT};
use station::{Report, Station};
use totals::{Happened, Tally, Totals};
use wire::{Frame, What};

// Kept: stop beside full: a wrong length stops the count where no total is full, so that an Option alone cannot say it.
// What a count of a buffer's messages leaves: the next station, how many bytes were taken, whether nothing more is to be read, and the
// place of the first total that is full.
#[derive(Clone, Copy)]
pub struct Counted {
    pub station: Station,
    pub used: usize,
    pub stop: bool,
    pub full: Option<u8>,
}

// What a message that is taken tells of an instruction and of a drive.
#[derive(Clone, Copy)]
struct Tells {
    op: u8,
    done: bool,
    drive: u8,
}

// What happens, and the next station.
#[derive(Clone, Copy)]
struct Step {
    happened: Happened,
    station: Station,
}

// ---- one message
// Kept: 0 and 255 stand for none in what is told of a message, as in `Happened`, whose bytes callers hand to totals::count.

// The kind of the first message of m, once it is read and known; else 0.
fn kind_read(m: &[u8]) -> u8
    ensures { result ≡ kind_read m.now }
{
    if m.len() < 4 {
        return 0;
    }
    let n = wire::word(m[0], m[1]);
    if n < 2 {
        return 0;
    }
    if 43 < n {
        return 0;
    }
    let kind = wire::word(m[2], m[3]);
    if 5 < kind {
        return 0;
    }
    kind as u8
}

// The number of an answer of kind 128.
fn number_in(what: What) -> u8
    ensures { result ≡ number_answered what }
{
    match what {
        What::Answer { number, .. } => number,
        _ => 255,
    }
}

// The op of instruction i of a set; past the eighth there is none.
fn op_at(set: &[u8; 40], i: u8) -> u8
    ensures { result ≡ (code_at set.now i).op }
{
    if 8 <= i {
        return 0;
    }
    set[5 * (i as usize)]
}

// The drive under way on a record: 1 in, 2 out, 0 none.
fn drive_on(r: u64) -> u8
    ensures { result ≡ drive_on r }
{
    if bits::all(r, DRIVE_IN) {
        return 1;
    }
    if bits::all(r, DRIVE_OUT) {
        return 2;
    }
    0
}

// What a message of a known kind tells, if it is taken.
fn told(s: Station, kind: u8, m: &[u8]) -> Tells
    ensures { result ≡ told_by s kind m.now }
{
    if kind == 2 {
        let way = wire::byte(m, 4);
        let drive = if way == 3 { drive_on(s.bits) } else { 0 };
        return Tells {
            op: 0,
            done: false,
            drive,
        };
    }
    if kind == 3 {
        return Tells {
            op: op_at(&s.set, wire::byte(m, 6)),
            done: wire::byte(m, 7) == 1,
            drive: 0,
        };
    }
    Tells {
        op: 0,
        done: false,
        drive: 0,
    }
}

// How many cars a record has; of one that may not be sound, tested first.
fn cars_now(known: bool, r: u64) -> u8
    requires { known ≡ true → sound r ≡ true }
    ensures { result ≡ cars_in (total r) }
{
    if known {
        return floor::cars_in(r) as u8;
    }
    match floor::cars(r) {
        Some(n) => n as u8,
        None => 0,
    }
}

// How many cars there are after a message, where it is known how many there were: they are counted only where the record has changed.
fn cars_after(known: bool, cars: u8, before: u64, after: u64) -> u8
    requires { (cars ≡ cars_in (total before)) × (known ≡ true → sound after ≡ true) }
    ensures { result ≡ cars_in (total after) }
{
    if before == after {
        return cars;
    }
    cars_now(known, after)
}

// The first message of m is a result, whole and with an ending that is known. Most messages are.
fn brings_result(m: &[u8]) -> bool
    ensures { result ≡ brings_result m.now }
{
    if m.len() < 8 {
        return false;
    }
    let size = wire::word(m[0], m[1]);
    let kind = wire::word(m[2], m[3]);
    (size == 6) & (kind == 3) & (m[7] <= 2)
}

// What it does on a fit station: what waits is allowed, and a success is not judged.
// Kept: known, cars and s are handed on one by one: `happened` and `count_all` each have wrong programs (must-fail/) at what they hand on.
fn settled(cars: u8, s: Station, m: &[u8]) -> Step
    requires { (fit s ≡ true) × (cars ≡ cars_in (total s.bits)) × (brings_result m.now ≡ true) }
    ensures { result ≡ message_step s m.now }
{
    let issue = wire::word(wire::byte(m, 4), wire::byte(m, 5));
    let number = wire::byte(m, 6);
    let ending = wire::byte(m, 7);
    let t = s.settled(Report {
        issue,
        number,
        ending,
    });
    let station = s.after(t, s.set).station;
    let answer = t.answer.number();
    let cars = cars_after(true, cars, s.bits, station.bits);
    let refused = Happened {
        kind: 3,
        answer,
        op: 0,
        done: false,
        drive: 0,
        cars,
    };
    if answer == 0 {
        let happened = Happened {
            op: op_at(&s.set, number),
            done: ending == 1,
            ..refused
        };
        return Step { happened, station };
    }
    Step {
        happened: refused,
        station,
    }
}

// What the first message of m does on a station of which it is known whether it is fit, and how many cars it has.
fn seen(known: bool, cars: u8, s: Station, m: &[u8]) -> Step
    requires { (known ≡ fit s) × (cars ≡ cars_in (total s.bits)) }
    ensures { result ≡ message_step s m.now }
{
    if known & brings_result(m) {
        return settled(cars, s, m);
    }
    let r = service::respond_known(known, s, m);
    let station = r.station;
    let kind = kind_read(m);
    let answer = number_in(r.answer);
    let cars = cars_after(known, cars, s.bits, station.bits);
    let refused = Happened {
        kind,
        answer,
        op: 0,
        done: false,
        drive: 0,
        cars,
    };
    if answer == 0 {
        let t = told(s, kind, m);
        let happened = Happened {
            op: t.op,
            done: t.done,
            drive: t.drive,
            ..refused
        };
        return Step { happened, station };
    }
    Step {
        happened: refused,
        station,
    }
}

// What the first message of m does on a station.
pub fn happened(s: Station, m: &[u8]) -> Happened
    ensures { result ≡ happened s m.now }
{
    let known = s.fit();
    let x = seen(known, cars_now(known, s.bits), s, m);
    x.happened
}

// One set of totals brought up to date with what happened: it is lent to totals::count, and goes on from there.
fn brought_up(t: Totals, h: Happened) -> Tally
    ensures { result ≡ counted_in t h }
{
    let mut totals = t;
    let full = totals::count(&mut totals, h);
    Tally { totals, full }
}

// Counts the first message of m, as it is before the station answers it; or tells the place of the first total that is full, and all stay as
// they were.
pub fn count_message(counts: &mut [u32; 52], s: Station, m: &[u8]) -> Option<u8>
    ensures { LeavesCounts (counted_in (totals_of counts.old) (happened s m.now)) result counts.new }
{
    // Kept: the borrow checker does not cover a field that is an array where it is stored straight, so each is a variable first.
    let before = *counts;
    let c = brought_up(Totals { counts: before }, happened(s, m));
    let after = c.totals.counts;
    *counts = after;
    c.full
}

// ---- a run of messages

// Counts every whole message of input, one after another. Fitness is tested once: every call keeps it.
pub fn count_all(counts: &mut [u32; 52], s: Station, input: &[u8]) -> Counted
    ensures { Counts (count_on (totals_of counts.old) s input.now) result counts.new }
{
    let known = s.fit();
    let mut cars = cars_now(known, s.bits);
    let mut s = s;
    let mut at: usize = 0;
    loop {
        let rest = &input[at..];
        match wire::framed(rest) {
            Frame::Cut => {
                return Counted {
                    station: s,
                    used: at,
                    stop: false,
                    full: None,
                };
            }
            Frame::Wrong => {
                let full = count_message(counts, s, rest);
                return Counted {
                    station: s,
                    used: at,
                    stop: true,
                    full,
                };
            }
            Frame::Whole(n) => {
                let x = seen(known, cars, s, rest);
                let happened = x.happened;
                let full = totals::count_at(counts, happened);
                if full.is_some() {
                    return Counted {
                        station: s,
                        used: at,
                        stop: true,
                        full,
                    };
                }
                cars = happened.cars;
                s = x.station;
                at += n;
            }
        }
    }
}

// The end of the input: bytes of a message that was cut short count as its answer does.
pub fn count_end(counts: &mut [u32; 52], s: Station, held: &[u8]) -> Option<u8>
    ensures { LeavesCounts (count_end (totals_of counts.old) s held.now) result counts.new }
{
    if held.is_empty() {
        return None;
    }
    count_message(counts, s, held)
}
