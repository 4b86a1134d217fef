// What is asked of a floor: its cells, its slots and the lift's height. And what an instruction's mask names.
ghost use Rattle.std.specs.Prelude.{◌≡◌, ◌+◌, ◌≤◌, ◌<◌};
ghost use Rattle.bits.specs.Bits.{bit, count};
ghost use Rattle.bits.specs.Places.{from};
ghost use Rattle.floor.specs.Floor.{slot, place};
ghost use Rattle.floor.specs.Tests.{holds, height_is};
ghost use Rattle.plain.specs.Plain.{plain_bits};
ghost use Rattle.plain.specs.Private.{gapless};

use super::{Floor, Height};

// ---- the floor

// Whether a cell is occupied.
pub fn occupied(f: Floor, cell: u8) -> bool
    requires { cell < 40 }
    ensures { result ≡ plain_bits f cell }
{
    f.cells[cell as usize]
}

// How many of n neighbouring cells are.
pub fn among(f: Floor, first: u8, n: u8) -> u8
    requires { first + n ≤ 40 }
    ensures { result ≡ count (from first n) (plain_bits f) }
{
    let mut m: u8 = 0;
    for j in 0..n {
        m += occupied(f, first + j) as u8;
    }
    m
}

// Kept: where positions and slots are is said in plain_moves and panel too, each for its own arrays: a public function here would need a
// `requires` on the side and the row, and none may have one.
// How many of the cells at a shuttle's position are: two in row 1, one in rows 2 and 3.
pub fn at_position(f: Floor, side: u8, row: u8) -> u8
    requires { (side ≤ 1) × (row ≤ 3) }
    ensures { result ≡ count (place side row) (plain_bits f) }
{
    match row {
        1 => among(f, side * 18, 2),
        2 => among(f, 20 + side * 9, 1),
        _ => among(f, 30 + side * 9, 1),
    }
}

// Whether a slot has a shuttle.
pub fn shuttle(f: Floor, side: u8, orientation: u8, row: u8) -> bool
    requires { (side ≤ 1) × (orientation ≤ 1) × (1 ≤ row) × (row ≤ 3) }
    ensures { result ≡ plain_bits f (slot side orientation row) }
{
    f.slots[(orientation * 6 + side * 3 + row - 1) as usize]
}

// Whether the lift is at a height.
pub fn lift_at(f: Floor, height: u8) -> bool
    requires { height ≤ 2 }
    ensures { result ≡ holds (height_is height) (plain_bits f) }
{
    match f.height {
        Height::Street => height == 0,
        Height::Rotation => height == 1,
        Height::Basement => height == 2,
    }
}

// ---- what a mask names

// Whether it names the belt or the row of this number, from 0.
pub fn names(mask: u8, n: u8) -> bool
    ensures { result ≡ bit mask n }
{
    bits::bit(mask as u64, n as u64)
}

// Whether those that it names border each other: after a gap none is named.
pub fn gapless(mask: u8) -> bool
    ensures { result ≡ gapless mask }
{
    let mut fine = true;
    let mut begun = false;
    let mut before = false;
    for n in 0..5 {
        let here = names(mask, n);
        fine = fine & !(here & begun & !before);
        begun = begun | here;
        before = here;
    }
    fine
}
