// When the lift may move or rotate.
ghost use Rattle.std.specs.Prelude.{◌≡◌, T};
ghost use Rattle.floor.specs.Floor.{lift_cells, left_of_lift, right_of_lift};
ghost use Rattle.floor.specs.Tests.{holds, free, even, both, either, no, at_basement};
ghost use Rattle.rules.specs.declared.Instruction.{Instruction};
ghost use Rattle.rules.specs.Rules.{well_formed, clauses};
ghost use Rattle.plain.specs.Plain.{plain_bits};
ghost use Rattle.plain.specs.Conditions.{condition_in};

use super::conditions::told;
use super::places::{among, lift_at};
use super::{Condition, Floor};
use answers::Reason;

// Leaving the basement, cells 11 and 12 are free, or cells 0 to 10 and cells 13 to 19 each hold an even number of occupied cells.
fn may_leave(f: Floor) -> bool
    ensures { result ≡ holds (either (no at_basement) (either (free lift_cells) (both (even left_of_lift) (even right_of_lift)))) (plain_bits f) }
{
    let empty = among(f, 11, 2) == 0;
    let even = (among(f, 0, 11) % 2 == 0) & (among(f, 13, 7) % 2 == 0);
    !lift_at(f, 2) | (empty | even)
}

// Condition c of a lift move.
pub fn lift_condition(f: Floor, height: u8, c: u8) -> Option<Condition>
    requires { T (well_formed (Instruction.Lift height)) }
    ensures { result ≡ condition_in (clauses (Instruction.Lift height)) c (plain_bits f) }
{
    match c {
        // The height differs.
        0 => told(!lift_at(f, height), Reason::SameHeight),
        // No car stands half on the lift when it leaves the basement.
        1 => told(may_leave(f), Reason::OddCount),
        _ => None,
    }
}

// Condition c of rotating.
pub fn rotate_condition(f: Floor, c: u8) -> Option<Condition>
    ensures { result ≡ condition_in (clauses Instruction.Rotate) c (plain_bits f) }
{
    match c {
        // At rotation height.
        0 => told(lift_at(f, 1), Reason::NotAtRotation),
        // Cells 8, 9, 10, 13, 14, 15 are free.
        1 => told(among(f, 8, 3) + among(f, 13, 3) == 0, Reason::CellsNotFree),
        _ => None,
    }
}
