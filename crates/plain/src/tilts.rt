// When a shuttle may be tilted, or lowered again.
ghost use Rattle.std.specs.Prelude.{◌≡◌, ◌≤◌, T};
ghost use Rattle.rules.specs.declared.Instruction.{Instruction};
ghost use Rattle.rules.specs.Rules.{well_formed, clauses};
ghost use Rattle.floor.specs.Sound.{slots};
ghost use Rattle.floor.specs.Floor.{lowered, tilted};
ghost use Rattle.floor.specs.Tests.{holds, set};
ghost use Rattle.plain.specs.Plain.{plain_bits};
ghost use Rattle.plain.specs.Conditions.{condition_in};

use super::conditions::told;
use super::places::{at_position, shuttle};
use super::{Condition, Floor};
use answers::Reason;

// All three shuttles of a side are lowered.
fn all_lowered(f: Floor, side: u8) -> bool
    requires { side ≤ 1 }
    ensures { result ≡ holds (set (slots side lowered)) (plain_bits f) }
{
    shuttle(f, side, 0, 1) & shuttle(f, side, 0, 2) & shuttle(f, side, 0, 3)
}

// Condition c of a tilt from lowered.
fn from_lowered(f: Floor, side: u8, row: u8, c: u8) -> Option<Condition>
    requires { (side ≤ 1) × (row ≤ 3) }
    ensures { result ≡ condition_in (clauses (Instruction.Tilt side row lowered)) c (plain_bits f) }
{
    match c {
        // All three of the side are lowered.
        0 => told(all_lowered(f, side), Reason::NotAvailable),
        // The position's cells are free.
        1 => told(at_position(f, side, row) == 0, Reason::CellsNotFree),
        _ => None,
    }
}

// Condition c of a tilt from tilted.
fn from_tilted(f: Floor, side: u8, row: u8, c: u8) -> Option<Condition>
    requires { (side ≤ 1) × (1 ≤ row) × (row ≤ 3) }
    ensures { result ≡ condition_in (clauses (Instruction.Tilt side row tilted)) c (plain_bits f) }
{
    match c {
        // A tilted one is there.
        0 => told(shuttle(f, side, 1, row), Reason::NotAvailable),
        // No lowered one is.
        1 => told(!shuttle(f, side, 0, row), Reason::NotFree),
        _ => None,
    }
}

// Condition c of a tilt.
pub fn tilt_condition(f: Floor, side: u8, row: u8, orientation: u8, c: u8) -> Option<Condition>
    requires { T (well_formed (Instruction.Tilt side row orientation)) }
    ensures { result ≡ condition_in (clauses (Instruction.Tilt side row orientation)) c (plain_bits f) }
{
    if orientation == 0 {
        return from_lowered(f, side, row, c);
    }
    from_tilted(f, side, row, c)
}
