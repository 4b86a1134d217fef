// One instruction as the station holds it, by its five bytes: bad bytes have an empty area, are never allowed and change nothing.
ghost use Rattle.std.specs.Prelude.{◌≡◌};
ghost use Rattle.bits.specs.Places.{share};
ghost use Rattle.floor.specs.Floor.{lift};
ghost use Rattle.station.specs.Held.{held_area, held_after, held_parts};
ghost use Rattle.station.specs.Private.{held_mask, mask_in, lifts_in};

use rules::{Code, Instruction, Refusal};

// The mask that an answer gives, or none.
// Kept: an arm for each case here and in `after`: each has a wrong program of its own (must-fail/wrong_programs.edit).
fn mask_in(a: Option<u64>) -> u64
    ensures { result ≡ mask_in a }
{
    match a {
        Some(m) => m,
        None => 0,
    }
}

// Its area as a mask.
pub fn area(x: Code) -> u64
    ensures { result ≡ held_mask x }
{
    mask_in(areas::code_area(x))
}

// A well-formed instruction has the lift in its area: its belt, its runs and turns.
fn lifts(i: Instruction) -> bool
    ensures { result ≡ lifts_in i }
{
    match i {
        Instruction::Belts { row, mask, .. } => (row == 1) & (mask / 4 % 2 == 1),
        Instruction::Shuttles { .. } | Instruction::Tilt { .. } => false,
        Instruction::Lift { .. } | Instruction::Rotate => true,
    }
}

// The same of five bytes: the area itself is not made.
pub fn has_lift(x: Code) -> bool
    ensures { result ≡ share (held_area x) lift }
{
    match rules::read(x) {
        Some(i) => lifts(i),
        None => false,
    }
}

// The bits of what is set apart, 0 to 52: the cells and slots of the record, and one for the lift; and the first number that has more.
pub const PARTS: u64 = 0x1F_FFFF_FFFF_FFFF;

pub const PARTS_END: u64 = 0x20_0000_0000_0000;

// What is set apart where it is stuck.
pub fn parts(x: Code) -> u64
    ensures { result ≡ held_parts x }
{
    area(x) & PARTS
}

// The record after it, where it is allowed; else the record as it was.
pub fn after(x: Code, r: u64) -> u64
    ensures { result ≡ held_after x r }
{
    match engine::code_moved(x, r) {
        Ok(n) => n,
        Err(Refusal::NotAllowed(_)) => r,
        Err(Refusal::IllFormed) => r,
    }
}
