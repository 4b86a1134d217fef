// The grounds on which a set is refused: the instruction at fault, the first earlier one that it overlaps, and the parts that both take.
ghost use Rattle.std.specs.Prelude.{◌≡◌, ◌^◌, if◌then◌else◌, nat_eq};
ghost use Rattle.answers.specs.Answers.{number_of};
ghost use Rattle.station.specs.Held.{code_at, held_parts};
ghost use Rattle.plan.specs.Plans.{first_overlapped, refused_set};

use super::Grounds;
use answers::{Answer, NOWHERE};
use rules::Code;

// The bits of parts, as what is set apart has them; and the lift's.
const PARTS: u64 = 0x1F_FFFF_FFFF_FFFF;

const LIFT_PART: u64 = 0x10_0000_0000_0000;

// Instruction i of a set; bytes that are not there count as zero.
fn code_at(set: &[u8], i: u8) -> Code
    ensures { result ≡ code_at set.now i }
{
    let at = 5 * (i as usize);
    Code {
        op: wire::byte(set, at),
        a: wire::byte(set, at + 1),
        b: wire::byte(set, at + 2),
        c: wire::byte(set, at + 3),
        d: wire::byte(set, at + 4),
    }
}

// The parts that it takes.
fn parts_at(set: &[u8], i: u8) -> u64
    ensures { result ≡ held_parts (code_at set.now i) }
{
    areas::code_area(code_at(set, i)).unwrap_or(0) & PARTS
}

// The first before i that it overlaps, or i.
fn first_overlapped(set: &[u8], i: u8) -> u8
    ensures { result ≡ first_overlapped set.now i }
{
    let own = parts_at(set, i);
    for j in 0..i {
        if own & parts_at(set, j) != 0 {
            return j;
        }
    }
    i
}

// The lift, if it is out of turn.
fn lift_if(answer: Answer) -> u64
    ensures { result ≡ (if nat_eq (number_of answer) 31 then 2 ^ 52 else 0) }
{
    match answer {
        Answer::OutOfTurn => LIFT_PART,
        _ => 0,
    }
}

// Set k is refused so on a record.
pub fn refused(k: u8, bits: u64, set: [u8; 40], answer: Answer) -> Grounds
    ensures { result ≡ refused_set k bits set answer }
{
    let alone = Grounds {
        number: answer.number(),
        set: k,
        place: answer.place(),
        earlier: NOWHERE,
        parts: lift_if(answer),
        bits,
    };
    let Answer::Overlap(place) = answer else {
        return alone;
    };
    let earlier = first_overlapped(&set, place);
    Grounds {
        earlier,
        parts: parts_at(&set, place) & parts_at(&set, earlier),
        ..alone
    }
}
