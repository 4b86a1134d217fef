// A set of instructions as the station holds it, read one after the other, and the searches through it for the least that is at fault.
ghost use Rattle.std.specs.Prelude.{◌≡◌, ◌-◌, ◌*◌, ◌++◌, length, take, replicate};
ghost use Rattle.bits.specs.Bits.{bit, image};
ghost use Rattle.rules.specs.Codes.{read_code};
ghost use Rattle.rules.specs.Verdicts.{is_allowed, code_verdict};
ghost use Rattle.station.specs.Held.{code_at, held_area, held_after, bad, touches, overlaps_earlier, barred, lift_in};
ghost use Rattle.plain.specs.Plain.{plain_bits, floor_of};
ghost use Rattle.plain_moves.specs.Moves.{parts_bits, parts_at};
ghost use Rattle.plain_station.specs.Private.{first};

use plain::Floor;
use plain_moves::Parts;
use rules::{Instruction, Refusal};

// ---- one instruction

// What instruction i of a set says, by its own five bytes; past the eighth there is none.
fn instruction(set: &[u8], i: u8) -> Option<Instruction>
    requires { length set.now ≡ 40 }
    ensures { result ≡ read_code (code_at set.now i) }
{
    if 8 <= i {
        return None;
    }
    let at = 5 * (i as usize);
    rules::read_bytes(&set[at..])
}

// It says none.
// Kept: an arm for each, not `is_none`, since each has a wrong program of its own (must-fail/wrong_programs.edit).
fn is_bad(set: &[u8], i: u8) -> bool
    requires { length set.now ≡ 40 }
    ensures { result ≡ bad set.now i }
{
    match instruction(set, i) {
        Some(_) => false,
        None => true,
    }
}

// The parts that it takes; one that says nothing takes none.
pub fn area_at(set: &[u8], i: u8) -> Parts
    requires { length set.now ≡ 40 }
    ensures { result ≡ parts_at (held_area (code_at set.now i)) }
{
    match instruction(set, i) {
        Some(x) => plain_moves::area(x),
        None => Parts::NONE,
    }
}

// What the floor says of it.
pub fn verdict_at(set: &[u8], i: u8, floor: Floor) -> Result<(), Refusal>
    requires { length set.now ≡ 40 }
    ensures { result ≡ code_verdict (code_at set.now i) (image (plain_bits floor)) }
{
    match instruction(set, i) {
        Some(x) => floor.verdict(x),
        None => Err(Refusal::IllFormed),
    }
}

// The floor after it, where it is allowed; else the floor as it was.
pub fn moved_by(set: &[u8], i: u8, floor: Floor) -> Floor
    requires { length set.now ≡ 40 }
    ensures { result ≡ floor_of (bit (held_after (code_at set.now i) (image (plain_bits floor)))) }
{
    match instruction(set, i) {
        Some(x) => plain_moves::moved(floor, x),
        None => floor,
    }
}

// ---- the first n of them

// The least that says no instruction, if there is one.
pub fn least_bad(set: [u8; 40], n: u8) -> Option<u8>
    ensures { result ≡ first n (bad set) }
{
    (0..n).find(|&i| is_bad(&set, i))
}

// One of them has the lift in its area.
pub fn lift_in(set: [u8; 40], n: u8) -> bool
    ensures { result ≡ lift_in set n }
{
    (0..n).any(|i| area_at(&set, i).lift)
}

// The least whose area meets what is set apart, if there is one.
pub fn least_touching(set: [u8; 40], n: u8, apart: Parts) -> Option<u8>
    ensures { result ≡ first n (touches set (image (parts_bits apart))) }
{
    (0..n).find(|&i| area_at(&set, i).meets(apart))
}

// The area of instruction i meets that of an earlier one.
fn overlaps_earlier(set: &[u8], i: u8) -> bool
    requires { length set.now ≡ 40 }
    ensures { result ≡ overlaps_earlier set.now i }
{
    let area = area_at(set, i);
    (0..i).any(|j| area.meets(area_at(set, j)))
}

// The least that overlaps an earlier one, if there is one.
pub fn least_overlapping(set: [u8; 40], n: u8) -> Option<u8>
    ensures { result ≡ first n (overlaps_earlier set) }
{
    (0..n).find(|&i| overlaps_earlier(&set, i))
}

// Whether a verdict allows.
fn allows(v: Result<(), Refusal>) -> bool
    ensures { result ≡ is_allowed v }
{
    v.is_ok()
}

// The least that the floor does not allow, if there is one.
pub fn least_barred(set: [u8; 40], n: u8, floor: Floor) -> Option<u8>
    ensures { result ≡ first n (barred set (image (plain_bits floor))) }
{
    (0..n).find(|&i| !allows(verdict_at(&set, i, floor)))
}

// Their bytes, the unused places zero.
pub fn only(set: [u8; 40], n: u8) -> [u8; 40]
    ensures { result ≡ take (5 * n) set ++ replicate (40 - 5 * n) 0 }
{
    if 8 <= n {
        return set;
    }
    let mut kept = [0u8; 40];
    let end = 5 * (n as usize);
    for k in 0..end {
        kept[k] = set[k];
    }
    kept
}
