// The floor as the paper has it: forty cells, twelve slots and the lift, each yes or no, and a height. Whether an instruction is allowed and
// why not, condition by condition in the paper's order, and its cars by walking the rows. What each stands for is in specs/.
#![tactic(auto)]

ghost use Rattle.std.specs.Prelude.{◌≡◌};
ghost use Rattle.bits.specs.Bits.{bit, image};
ghost use Rattle.plain.specs.Plain.{plain_bits, floor_of};
ghost use Rattle.rules.specs.Named.{step};
ghost use Rattle.rules.specs.Cells.{cell_named};
ghost use Rattle.plain.specs.Conditions.{condition_of, verdict_on};
ghost use Rattle.plain.specs.Private.{failing};

use answers::Reason;
use rules::{Instruction, Refusal};

mod belts;
mod conditions;
mod images;
mod lifts;
mod places;
mod shuttles;
mod tilts;
mod walks;

use belts::belts_condition;
use lifts::{lift_condition, rotate_condition};
use shuttles::shuttles_condition;
use tilts::tilt_condition;

// Where the lift is.
#[derive(Clone, Copy)]
pub enum Height {
    Street,
    Rotation,
    Basement,
}

// Kept: a side, a row, an orientation and a direction are numbers, in all functions of this crate and of those above it, since the arguments
// of public functions are numbers of any value (docs/CONTRACTS.md) and the definitions of rules count with them.
// The floor: which cells are occupied, which slots have a shuttle (lowered in left rows 1 to 3, right rows 1 to 3, then tilted in the same
// order), whether a car is on the raised lift, where the lift is, and whether a driver is coming or going.
#[derive(Clone, Copy)]
pub struct Floor {
    pub cells: [bool; 40],
    pub slots: [bool; 12],
    pub car: bool,
    pub height: Height,
    pub coming: bool,
    pub going: bool,
}

// A condition of an instruction: whether it holds, and what is told where it is the first to fail.
// Kept: `why` beside `holds`, not a Result, since panel_c's panel_condition writes it of a condition that holds too.
#[derive(Clone, Copy)]
pub struct Condition {
    pub holds: bool,
    pub why: Reason,
}

// The cars of a floor in the order of a walk, each by the place where it begins, zero past them; and how many they are.
#[derive(Clone, Copy)]
pub struct Walk {
    pub starts: [u8; 31],
    pub count: u8,
}

// The floor of the record with this image.
pub fn of_image(r: u64) -> Floor
    ensures { result ≡ floor_of (bit r) }
{
    let cells = images::cells_of(r);
    let slots = images::slots_of(r);
    let height = images::height_of(bits::bit(r, 53), bits::bit(r, 54));
    Floor {
        cells,
        slots,
        car: bits::bit(r, 52),
        height,
        coming: bits::bit(r, 55),
        going: bits::bit(r, 56),
    }
}

// Whether a cell is on a belt of the row that the mask names.
pub fn named(row: u8, mask: u8, cell: u8) -> bool
    ensures { result ≡ cell_named row mask cell }
{
    let belt = floor::belt_of(cell as u64);
    match belt {
        Some(belt) => (belt.row == row) & places::names(mask, belt.number),
        None => false,
    }
}

// By how many cells a belt move shifts.
pub fn step(row: u8, size: u8) -> u8
    ensures { result ≡ step row size }
{
    if (row == 1) & (size == 1) { 2 } else { 1 }
}

// No instruction has more conditions than a belt move.
const MOST: u8 = 6;

impl Floor {
    // The image of the record that a floor stands for.
    pub fn image(self) -> u64
        ensures { result ≡ image (plain_bits self) }
    {
        let mut r: u64 = 0;
        for k in (0..64).rev() {
            let one = images::bit(self, k);
            r = r * 2 + one as u64;
        }
        r
    }

    // Condition c of an instruction, from 0, in the paper's order; an ill-formed one has none.
    pub fn condition(self, i: Instruction, c: u8) -> Option<Condition>
        ensures { result ≡ condition_of i c (plain_bits self) }
    {
        if !rules::well_formed(i) {
            return None;
        }
        match i {
            Instruction::Belts {
                row,
                mask,
                toward,
                size,
            } => belts_condition(self, row, mask, toward, size, c),
            Instruction::Shuttles {
                side,
                mask,
                orientation,
                toward,
            } => shuttles_condition(self, side, mask, orientation, toward, c),
            Instruction::Tilt {
                side,
                row,
                orientation,
            } => tilt_condition(self, side, row, orientation, c),
            Instruction::Lift { height } => lift_condition(self, height, c),
            Instruction::Rotate => rotate_condition(self, c),
        }
    }

    // Why condition c fails, where there is one and it does.
    fn failing(self, i: Instruction, c: u8) -> Option<Reason>
        ensures { result ≡ failing (condition_of i c (plain_bits self)) }
    {
        match self.condition(i, c) {
            Some(x) if !x.holds => Some(x.why),
            _ => None,
        }
    }

    // Whether an instruction is allowed, and why not: the reason of the first condition that fails.
    pub fn verdict(self, i: Instruction) -> Result<(), Refusal>
        ensures { result ≡ verdict_on i (plain_bits self) }
    {
        if !rules::well_formed(i) {
            return Err(Refusal::IllFormed);
        }
        for c in 0..MOST {
            if let Some(why) = self.failing(i, c) {
                return Err(Refusal::NotAllowed(why));
            }
        }
        Ok(())
    }
}
