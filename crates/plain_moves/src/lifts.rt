// The lift: its height, and the car that it takes along.
ghost use Rattle.std.specs.Prelude.{◌≡◌, T};
ghost use Rattle.bits.specs.Bits.{bit};
ghost use Rattle.floor.specs.Tests.{holds, height_is, at_basement};
ghost use Rattle.floor.specs.Floor.{street};
ghost use Rattle.rules.specs.declared.Instruction.{Instruction};
ghost use Rattle.rules.specs.Rules.{well_formed, next_record};
ghost use Rattle.plain.specs.Plain.{height_from, plain_bits, floor_of};

use plain::{Floor, Height};

// The height of a number.
fn height_of(n: u8) -> Height
    requires { T (well_formed (Instruction.Lift n)) }
    ensures { result ≡ height_from (bit n 0) (bit n 1) }
{
    match n {
        0 => Height::Street,
        1 => Height::Rotation,
        _ => Height::Basement,
    }
}

// The lift is at street.
pub fn at_street(f: Floor) -> bool
    ensures { result ≡ holds (height_is street) (plain_bits f) }
{
    matches!(f.height, Height::Street)
}

// The lift is in the basement.
fn at_basement(f: Floor) -> bool
    ensures { result ≡ holds at_basement (plain_bits f) }
{
    matches!(f.height, Height::Basement)
}

// The floor after the lift has moved. Arriving in the basement, both of its cells take what is on the raised lift; leaving it, a car is on
// the raised lift if both were occupied, and they are free; between street and rotation only the height changes.
pub fn moved(f: Floor, height: u8) -> Floor
    requires { T (well_formed (Instruction.Lift height)) }
    ensures { result ≡ floor_of (next_record (Instruction.Lift height) (plain_bits f)) }
{
    let to = height_of(height);
    let mut cells = f.cells;
    if height == 2 {
        cells[11] = f.car;
        cells[12] = f.car;
        return Floor {
            cells,
            car: false,
            height: to,
            ..f
        };
    }
    if at_basement(f) {
        let car = cells[11] & cells[12];
        cells[11] = false;
        cells[12] = false;
        return Floor {
            cells,
            car,
            height: to,
            ..f
        };
    }
    Floor { height: to, ..f }
}
