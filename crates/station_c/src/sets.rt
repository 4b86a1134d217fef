// Questions for building sets, which need no record: an instruction's area, and whether two may stand in one set. What each answers stands
// in specs/Sets.antt.
ghost use Rattle.std.specs.Prelude.{◌≡◌};
ghost use Rattle.rooms.specs.Rooms.{returned, LeavesRoom};
ghost use Rattle.station_c.specs.Sets.{area_in, area_said, area_bits, area_into, sharing_said, pair_answer};

use super::{CODE, RECORD, say, tell};
use answers::{Answer, NOWHERE};
use rules::{Instruction, Sharing};

// ---- an instruction's area

// The area of the instruction that five bytes say.
fn area_in(five: &[u8]) -> Option<u64>
    ensures { result ≡ area_in five.now }
{
    rules::read_bytes(five).and_then(|i| areas::area(i))
}

// What is answered with it.
fn area_said(a: Option<u64>) -> Answer
    ensures { result ≡ area_said a }
{
    match a {
        Some(_) => Answer::Taken,
        None => Answer::BadField(NOWHERE),
    }
}

// Its bits.
fn area_bits(a: Option<u64>) -> u64
    ensures { result ≡ area_bits a }
{
    a.unwrap_or(0)
}

// The eight bytes of an instruction's area, to a room of their own.
pub fn garage_area(five: &[u8], area: &mut [u8]) -> u32
    ensures { LeavesRoom (area_into five.now area.old) result area.new }
{
    if area.len() < RECORD {
        return say(Answer::NoRoom);
    }
    if five.len() < CODE {
        return say(Answer::TooFewBytes);
    }
    let m = area_in(five);
    tell(say(area_said(m)), &wire::image_bytes(area_bits(m)), area)
}

// ---- whether two may stand in one set

// What is answered of two that are read.
fn sharing_said(s: Sharing) -> Answer
    ensures { result ≡ sharing_said s }
{
    match s {
        Sharing::Overlap => Answer::Overlap(1),
        Sharing::Apart => Answer::Taken,
        Sharing::IllFormed => Answer::BadField(0),
    }
}

// What a request of these two, in this order, is told so far as they alone decide.
pub fn garage_overlap(one: &[u8], other: &[u8]) -> u32
    ensures { result ≡ returned (pair_answer one.now other.now) }
{
    if one.len() < CODE {
        return say(Answer::TooFewBytes);
    }
    if other.len() < CODE {
        return say(Answer::TooFewBytes);
    }
    let Some(i) = rules::read_bytes(one) else {
        return say(Answer::BadField(0));
    };
    let Some(j) = rules::read_bytes(other) else {
        return say(Answer::BadField(1));
    };
    say(sharing_said(areas::overlap(i, j)))
}
