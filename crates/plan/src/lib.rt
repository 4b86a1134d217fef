// Plans tried before the day: a starting image and sets of instructions as bytes, judged by the station's own calls. What the bytes say, what
// the judgement is and on what grounds stands in specs/Plans.antt.
#![tactic(auto)]

ghost use Rattle.std.specs.Prelude.{◌≡◌, ◌*◌, length, if◌then◌else◌};
ghost use Rattle.bits.specs.Bits.{bit};
ghost use Rattle.floor.specs.Tests.{holds};
ghost use Rattle.station.specs.Calls.{requested};
ghost use Rattle.wire.specs.Kinds.{set_of};
ghost use Rattle.plan.specs.Plans.{plan_size, plan_in, wholly, wished, after_success, succeeded, tried, imaged_at, weighed, grounds_of, judgement, wish_not_met_number};

use answers::NOWHERE;
use floor::masks::{HEIGHT_HIGH, HEIGHT_LOW, RAISED_CAR};
use station::{Outcome, Picture, Report, Station};
use std::num::wrapping_sub_u16;

mod bytes;
mod sets;

use bytes::Whole;

// Kept: number and set stay numbers: theorems PlanNumbers, PlanOrder and FirstRefused speak of each, and the edits wholly, judge and explain.
// The judgement of a plan: 0 accepted, or why not; and the first set refused, from 0, or 255.
#[derive(Clone, Copy)]
pub struct Judged {
    pub number: u8,
    pub set: u8,
}

// The same, and on what grounds: the place of the instruction at fault, and the earlier one that it overlaps, each from 0 or 255; the parts
// that both take, or the lift where it is out of turn, as what is set apart has them; and the record before that set, or the last one, or 0
// where no set was tried.
#[derive(Clone, Copy)]
pub struct Grounds {
    pub number: u8,
    pub set: u8,
    pub place: u8,
    pub earlier: u8,
    pub parts: u64,
    pub bits: u64,
}

// The set that is told where none is refused.
pub const NONE_REFUSED: u8 = 255;

// The most sets of a plan.
const SETS_MOST: u8 = 64;

// The numbers that are told of a whole plan, besides its image's, by their names in the table.
const TOO_FEW_BYTES: u8 = 1;

const BAD_FIELD: u8 = 4;

const TOO_MANY_SETS: u8 = 35;

const WISH_NOT_MET: u8 = 36;

// Where it stands what is set apart, the wish, how many sets there are, and the first of them.
const APART: usize = 8;

const WISH: usize = 16;

const SETS: usize = 17;

const HEAD: usize = 18;

// A number, and the record where there is one.
fn wholly(number: u8, bits: u64) -> Grounds
    ensures { result ≡ wholly number bits }
{
    Grounds {
        number,
        set: NONE_REFUSED,
        place: NOWHERE,
        earlier: NOWHERE,
        parts: 0,
        bits,
    }
}

// How many bytes a plan takes, by its counts; those that are not there count as zero.
fn size(plan: &[u8]) -> usize
    ensures { result ≡ plan_size (plan_in plan.now) }
{
    let mut at: usize = HEAD;
    let n = wire::byte(plan, SETS);
    for _k in 0..n {
        let count = wire::byte(plan, at);
        at = at + 1 + 5 * (count as usize);
    }
    at
}

// The station after instruction i of its set succeeds.
fn done(s: Station, i: u8) -> Station
    ensures { result ≡ after_success s i }
{
    let t = s.resulted(Report {
        issue: wrapping_sub_u16(s.next, 1),
        number: i,
        ending: 1,
    });
    s.after(t, s.set).station
}

// The station after the first n succeed, one after the other.
fn succeeded(mut s: Station, n: u8) -> Station
    ensures { result ≡ succeeded n s }
{
    for i in 0..n {
        s = done(s, i);
    }
    s
}

// A set is requested.
fn asked(s: Station, count: u8, bytes: &[u8]) -> Outcome
    requires { length bytes.now ≡ 5 * count }
    ensures { result ≡ requested s count (set_of bytes.now) }
{
    let set = wire::set_of(bytes);
    let t = s.requested(count, set);
    s.after(t, set)
}

// Whether a record is as wished.
fn meets(wish: u8, r: u64) -> bool
    ensures { result ≡ holds (wished wish) (bit r) }
{
    let street = bits::free(r, HEIGHT_LOW) & bits::free(r, HEIGHT_HIGH);
    if wish == 1 {
        return street & bits::all(r, RAISED_CAR);
    }
    street & bits::free(r, RAISED_CAR)
}

// The end of a plan, whose sets are all taken.
fn ended(wish: u8, r: u64) -> Grounds
    ensures { result ≡ wholly (if holds (wished wish) (bit r) then 0 else wish_not_met_number) r }
{
    if meets(wish, r) {
        return wholly(0, r);
    }
    wholly(WISH_NOT_MET, r)
}

// The sets of a plan, one after the other, on the station that its image left; then the wish.
fn tried(mut s: Station, plan: Whole) -> Grounds
    ensures { result ≡ tried (plan_in plan.entry.bytes.now).wish 0 s (plan_in plan.entry.bytes.now).sets }
{
    let bytes = plan.bytes;
    let n = wire::byte(bytes, SETS);
    let mut at: usize = HEAD;
    for k in 0..n {
        let count = bytes[at];
        let from = at + 1;
        let to = from + 5 * (count as usize);
        let o = asked(s, count, &bytes[from..to]);
        if o.answer.number() != 0 {
            return sets::refused(k, s.bits, wire::set_of(&bytes[from..to]), o.answer);
        }
        s = succeeded(o.station, count);
        at = to;
    }
    ended(wire::byte(bytes, WISH), s.bits)
}

// The image of a plan on the start station.
fn imaged(plan: Whole) -> Outcome
    ensures { result ≡ imaged_at (plan_in plan.entry.bytes.now) }
{
    let start = Station::start();
    let apart = wire::image_of(&plan.bytes[APART..]);
    let t = start.imaged(Picture {
        bits: wire::image_of(plan.bytes),
        apart,
    });
    start.after(t, start.set)
}

// A plan that is whole: its image, how many sets it has, then the sets and the wish.
fn weighed(plan: Whole) -> Grounds
    ensures { result ≡ weighed (plan_in plan.entry.bytes.now) }
{
    let o = imaged(plan);
    let number = o.answer.number();
    if number != 0 {
        return wholly(number, 0);
    }
    if SETS_MOST < wire::byte(plan.bytes, SETS) {
        return wholly(TOO_MANY_SETS, 0);
    }
    tried(o.station, plan)
}

// The grounds on which a plan's bytes are judged.
pub fn explain(plan: &[u8]) -> Grounds
    ensures { result ≡ grounds_of plan.now }
{
    let n = size(plan);
    if plan.len() < n {
        return wholly(TOO_FEW_BYTES, 0);
    }
    if 1 < wire::byte(plan, WISH) {
        return wholly(BAD_FIELD, 0);
    }
    if n < plan.len() {
        return wholly(BAD_FIELD, 0);
    }
    weighed(Whole { bytes: plan })
}

// The judgement of a plan's bytes.
pub fn judge(plan: &[u8]) -> Judged
    ensures { result ≡ judgement plan.now }
{
    let g = explain(plan);
    Judged {
        number: g.number,
        set: g.set,
    }
}
