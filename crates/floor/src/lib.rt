// The floor in code: the belt under a cell, whether a record is sound, and how many cars it has.
#![tactic(auto)]

ghost use Rattle.std.specs.Prelude.{◌≡◌, false, [], ◌∷◌};
ghost use Rattle.bits.specs.Bits.{bit};
ghost use Rattle.bits.specs.Places.{places};
ghost use Rattle.floor.specs.Floor.{belt_of, left, right, drives};
ghost use Rattle.floor.specs.Tests.{set, exactly, free, no, both, either, holds, all_hold, under_way};
ghost use Rattle.floor.specs.Cars.{cars};
ghost use Rattle.floor.specs.Sound.{carried_by_shuttle, on_lift, on_raised_lift, drives_at_street, drives_into_empty, drives_out_of_full, sound_rules, paired, sound, total};

pub mod masks;

use masks::{
    DRIVE_IN, DRIVE_OUT, DRIVES, HEIGHT_HIGH, HEIGHT_LOW, LEFT_CELLS_1, LEFT_CELLS_2, LEFT_CELLS_3,
    LEFT_SLOT_1, LEFT_SLOT_2, LEFT_SLOT_3, LEFT_SLOTS, LEFT_TILTED, LIFT_CELLS, RAISED_CAR,
    RIGHT_CELLS_1, RIGHT_CELLS_2, RIGHT_CELLS_3, RIGHT_SLOT_1, RIGHT_SLOT_2, RIGHT_SLOT_3,
    RIGHT_SLOTS, RIGHT_TILTED, ROW_1, ROWS_2_3, SPARE,
};

// A belt: its row, and its number in the row from the left.
#[derive(Clone, Copy)]
pub struct Belt {
    pub row: u8,
    pub number: u8,
}

// The belt under a cell, by ranges of the cell's number.
pub fn belt_of(cell: u64) -> Option<Belt>
    ensures { result ≡ belt_of cell }
{
    match cell {
        0..=1 => Some(Belt { row: 1, number: 0 }),
        2..=10 => Some(Belt { row: 1, number: 1 }),
        11..=12 => Some(Belt { row: 1, number: 2 }),
        13..=17 => Some(Belt { row: 1, number: 3 }),
        18..=19 => Some(Belt { row: 1, number: 4 }),
        20 => Some(Belt { row: 2, number: 0 }),
        21..=28 => Some(Belt { row: 2, number: 1 }),
        29 => Some(Belt { row: 2, number: 2 }),
        30 => Some(Belt { row: 3, number: 0 }),
        31..=38 => Some(Belt { row: 3, number: 1 }),
        39 => Some(Belt { row: 3, number: 2 }),
        _ => None,
    }
}

// Row 1 splits into cars: where the number of occupied cells below one is odd, that one is occupied. Bit k of the last p says whether
// an odd number of the cells up to k is: each line doubles how many it looks at.
fn row_paired(r: u64) -> bool
    ensures { result ≡ paired 20 0 false (bit r) }
{
    let x = r % 0x10_0000;
    let p = x ^ (x << 1);
    let p = p ^ (p << 2);
    let p = p ^ (p << 4);
    let p = p ^ (p << 8);
    let p = p ^ (p << 16);
    ((p << 1) & !x) % 0x20_0000 == 0
}

// The cells of a shuttle are free, or it is there.
fn carries(r: u64, cells: u64, slot: u64) -> bool
    ensures { result ≡ holds (either (free (places cells)) (set (places slot))) (bit r) }
{
    bits::free(r, cells) | bits::all(r, slot)
}

// The same of all six lowered slots: left rows 1 to 3, right rows 1 to 3.
fn all_carry(r: u64) -> bool
    ensures { result ≡ all_hold (carried_by_shuttle left 1 ∷ carried_by_shuttle left 2 ∷ carried_by_shuttle left 3 ∷ carried_by_shuttle right 1 ∷ carried_by_shuttle right 2 ∷ carried_by_shuttle right 3 ∷ []) (bit r) }
{
    carries(r, LEFT_CELLS_1, LEFT_SLOT_1)
        & carries(r, LEFT_CELLS_2, LEFT_SLOT_2)
        & carries(r, LEFT_CELLS_3, LEFT_SLOT_3)
        & carries(r, RIGHT_CELLS_1, RIGHT_SLOT_1)
        & carries(r, RIGHT_CELLS_2, RIGHT_SLOT_2)
        & carries(r, RIGHT_CELLS_3, RIGHT_SLOT_3)
}

// What stands on the lift fits its height: in the basement it stands on the lift's cells, elsewhere it is raised.
fn lift_fits(r: u64) -> bool
    ensures { result ≡ all_hold (on_lift ∷ on_raised_lift ∷ []) (bit r) }
{
    let basement = bits::free(r, HEIGHT_LOW) & bits::all(r, HEIGHT_HIGH);
    (bits::free(r, LIFT_CELLS) | basement) & (bits::free(r, RAISED_CAR) | !basement)
}

// Three shuttles are at the slots of a side, and at most one at its tilted slots.
fn three(r: u64, slots: u64, tilted: u64) -> bool
    ensures { result ≡ holds (both (exactly 3 (places slots)) (either (free (places tilted)) (exactly 1 (places tilted)))) (bit r) }
{
    (bits::count(r, slots) == 3) & (bits::free(r, tilted) | (bits::count(r, tilted) == 1))
}

// A drive is under way: a driver may be in the lift.
pub fn under_way(r: u64) -> bool
    ensures { result ≡ holds under_way (bit r) }
{
    !bits::free(r, DRIVES)
}

// At most one drive is under way, at street height only, in only where the raised lift is empty, out only where a car is on it.
fn drives_fit(r: u64) -> bool
    ensures { result ≡ all_hold (no (set drives) ∷ drives_at_street ∷ drives_into_empty ∷ drives_out_of_full ∷ []) (bit r) }
{
    if bits::free(r, DRIVES) {
        return true;
    }
    !bits::all(r, DRIVES)
        & (bits::free(r, HEIGHT_LOW) & bits::free(r, HEIGHT_HIGH))
        & (bits::free(r, DRIVE_IN) | bits::free(r, RAISED_CAR))
        & (bits::free(r, DRIVE_OUT) | bits::all(r, RAISED_CAR))
}

// What a sound record keeps besides its layout.
fn rules_kept(r: u64) -> bool
    ensures { result ≡ all_hold sound_rules (bit r) }
{
    all_carry(r)
        & lift_fits(r)
        & three(r, LEFT_SLOTS, LEFT_TILTED)
        & three(r, RIGHT_SLOTS, RIGHT_TILTED)
        & !(bits::all(r, HEIGHT_LOW) & bits::all(r, HEIGHT_HIGH))
        & bits::free(r, SPARE)
        & drives_fit(r)
}

// Whether the image is a sound record.
pub fn sound(r: u64) -> bool
    ensures { result ≡ sound r }
{
    row_paired(r) & rules_kept(r)
}

// The number of cars of a record that is known to be sound: two cells of row 1 are one car.
pub fn cars_in(r: u64) -> u64
    ensures { result ≡ cars (bit r) }
{
    let halves = bits::count(r, ROW_1) as u64;
    let wholes = bits::count(r, ROWS_2_3) as u64;
    let raised = bits::count(r, RAISED_CAR) as u64;
    halves / 2 + wholes + raised
}

// How many cars the image has, if it is a sound record.
pub fn cars(r: u64) -> Option<u64>
    ensures { result ≡ total r }
{
    if sound(r) {
        return Some(cars_in(r));
    }
    None
}
