// When shuttles may move.
ghost use Rattle.std.specs.Prelude.{◌≡◌, not, ◌&&◌, ◌≤◌, T, eqb, map};
ghost use Rattle.bits.specs.Bits.{bit};
ghost use Rattle.bits.specs.Places.{is_empty};
ghost use Rattle.floor.specs.Floor.{lowered, slot, place};
ghost use Rattle.floor.specs.Tests.{holds, both, fact, set, free, even, when};
ghost use Rattle.rules.specs.declared.Instruction.{Instruction};
ghost use Rattle.rules.specs.Named.{rows_of, ahead};
ghost use Rattle.rules.specs.Rules.{well_formed, clauses};
ghost use Rattle.plain.specs.Plain.{plain_bits};
ghost use Rattle.plain.specs.Conditions.{condition_in};
ghost use Rattle.plain.specs.Private.{pick, row_ahead};

use super::conditions::told;
use super::places::{at_position, gapless, names, shuttle};
use super::{Condition, Floor};
use answers::Reason;

// Each named row has a shuttle in that orientation.
fn all_there(f: Floor, side: u8, mask: u8, orientation: u8) -> bool
    requires { (side ≤ 1) × (orientation ≤ 1) }
    ensures { result ≡ holds (set (map (slot side orientation) (rows_of mask))) (plain_bits f) }
{
    (!names(mask, 0) | shuttle(f, side, orientation, 1))
        & (!names(mask, 1) | shuttle(f, side, orientation, 2))
        & (!names(mask, 2) | shuttle(f, side, orientation, 3))
}

// No car stands half on the shuttle of row 1, where that is lowered and named.
fn whole(f: Floor, side: u8, mask: u8, orientation: u8) -> bool
    requires { side ≤ 1 }
    ensures { result ≡ holds (when (eqb orientation lowered && bit mask 0) (even (place side 1))) (plain_bits f) }
{
    !((orientation == 0) & names(mask, 0)) | (at_position(f, side, 1) % 2 == 0)
}

// Kept: a bool that picks, since a wrong version that doesn't look at it is named (must-fail/wrong_programs.edit).
// One of two numbers, by the direction.
fn pick(up: bool, a: u8, b: u8) -> u8
    ensures { result ≡ pick up a b }
{
    if up { a } else { b }
}

// The row next to those named, toward d, if there is one.
fn ahead(mask: u8, toward: u8) -> Option<u8>
    ensures { result ≡ row_ahead toward mask }
{
    let up = toward == 1;
    if names(mask, pick(up, 2, 0)) {
        return None;
    }
    if names(mask, 1) {
        return Some(pick(up, 3, 1));
    }
    if names(mask, pick(up, 0, 2)) {
        return Some(2);
    }
    None
}

// It exists, and has no shuttle in that orientation.
fn room_ahead(f: Floor, side: u8, mask: u8, orientation: u8, toward: u8) -> bool
    requires { T (well_formed (Instruction.Shuttles side mask orientation toward)) }
    ensures { result ≡ holds (both (fact (not (is_empty (ahead toward mask)))) (free (map (slot side orientation) (ahead toward mask)))) (plain_bits f) }
{
    match ahead(mask, toward) {
        Some(row) => !shuttle(f, side, orientation, row),
        None => false,
    }
}

// Condition c of a shuttle move.
pub fn shuttles_condition(
    f: Floor,
    side: u8,
    mask: u8,
    orientation: u8,
    toward: u8,
    c: u8,
) -> Option<Condition>
    requires { T (well_formed (Instruction.Shuttles side mask orientation toward)) }
    ensures { result ≡ condition_in (clauses (Instruction.Shuttles side mask orientation toward)) c (plain_bits f) }
{
    match c {
        // At least one row.
        0 => told(mask != 0, Reason::NothingNamed),
        // No gap.
        1 => told(gapless(mask), Reason::Gap),
        // Each has a shuttle in that orientation.
        2 => told(all_there(f, side, mask, orientation), Reason::NotAvailable),
        // If lowered and row 1 is named, an even number of that shuttle's two cells is occupied.
        3 => told(whole(f, side, mask, orientation), Reason::OddCount),
        // A next row toward d exists and has no shuttle in that orientation.
        4 => told(
            room_ahead(f, side, mask, orientation, toward),
            Reason::NotFree,
        ),
        _ => None,
    }
}
