// Moving the lift.
ghost use Rattle.std.specs.Prelude.{◌≡◌, ◌<◌, T};
ghost use Rattle.bits.specs.Bits.{bit, image};
ghost use Rattle.bits.specs.Places.{places};
ghost use Rattle.rules.specs.declared.Instruction.{Instruction};
ghost use Rattle.rules.specs.Rules.{well_formed, clauses, next_record};
ghost use Rattle.rules.specs.Verdicts.{judged};
ghost use Rattle.engine.specs.Private.{verdict_by, lift_bits};

use super::masks::height_is;
use answers::Reason;
use floor::masks::{
    HEIGHT, HEIGHT_AT, LEFT_OF_LIFT, LIFT_AND_CELLS, LIFT_CELLS, RAISED, RAISED_CAR, RIGHT_OF_LIFT,
};

// The height differs; in the basement the lift's two cells are free, or no car stands half on it: the cells on either side
// hold an even number each.
pub fn lift_judged(r: u64, height: u8) -> Option<Reason>
    ensures { verdict_by result ≡ judged (clauses (Instruction.Lift height)) (bit r) }
{
    if height_is(r, height) {
        return Some(Reason::SameHeight);
    }
    if !height_is(r, 2) {
        return None;
    }
    if bits::free(r, LIFT_CELLS) {
        return None;
    }
    if bits::even(r, LEFT_OF_LIFT) & bits::even(r, RIGHT_OF_LIFT) {
        return None;
    }
    Some(Reason::OddCount)
}

// The bits of the lift at a height, with a car or without: in the basement the car stands on its two cells.
fn lift_bits(height: u8, car: bool) -> u64
    requires { height < 3 }
    ensures { places result ≡ lift_bits height car }
{
    let at = (height as u64) << HEIGHT_AT;
    if car {
        if height == 2 {
            return at + LIFT_CELLS;
        }
        return at + RAISED_CAR;
    }
    at
}

// Arriving in the basement, and leaving it, the car is taken along; between street and rotation only the height changes.
pub fn lift_next(r: u64, height: u8) -> u64
    requires { T (well_formed (Instruction.Lift height)) }
    ensures { result ≡ image (next_record (Instruction.Lift height) (bit r)) }
{
    if height == 2 {
        return bits::laid(r, LIFT_AND_CELLS, lift_bits(height, bits::bit(r, RAISED)));
    }
    if height_is(r, 2) {
        return bits::laid(
            r,
            LIFT_AND_CELLS,
            lift_bits(height, bits::all(r, LIFT_CELLS)),
        );
    }
    bits::laid(r, HEIGHT, lift_bits(height, false))
}
