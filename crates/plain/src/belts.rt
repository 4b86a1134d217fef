// When belts may move: rows by their cells from the left, spans by the belts under their cells.
ghost use Rattle.std.specs.Prelude.{◌≡◌, ◌≤◌, ◌<◌, T};
ghost use Rattle.bits.specs.Bits.{count};
ghost use Rattle.floor.specs.Tests.{holds, both, set, when, at_basement};
ghost use Rattle.rules.specs.declared.Instruction.{Instruction};
ghost use Rattle.rules.specs.Named.{cells, needed_slots, lift_named, end};
ghost use Rattle.rules.specs.Rules.{belts_named, well_formed, clauses};
ghost use Rattle.plain.specs.Plain.{plain_bits};
ghost use Rattle.plain.specs.Conditions.{condition_in};
ghost use Rattle.plain.specs.Private.{row_first_cell, width, row_from_end, last_belt};

use super::conditions::told;
use super::places::{gapless, lift_at, names, occupied, shuttle};
use super::{Condition, Floor, named, step};
use answers::Reason;

// ---- rows

// A row's first cell.
fn first_cell(row: u8) -> u8
    ensures { result ≡ row_first_cell row }
{
    match row {
        1 => 0,
        2 => 20,
        _ => 30,
    }
}

// How many cells it has.
fn width(row: u8) -> u8
    ensures { result ≡ width row }
{
    if row == 1 { 20 } else { 10 }
}

// Its cell of this number from the end toward d, from 0.
fn from_end(row: u8, toward: u8, j: u8) -> u8
    requires { j < width row }
    ensures { result ≡ row_from_end row toward j }
{
    let first = first_cell(row);
    if toward == 1 {
        return first + width(row) - 1 - j;
    }
    first + j
}

// The number of its last belt.
fn last_belt(row: u8) -> u8
    ensures { result ≡ last_belt row }
{
    if row == 1 { 4 } else { 2 }
}

// ---- spans

// Of the last n cells of the span toward d, how many are occupied: the row's cells from its end back, until n are on named belts.
fn at_end(f: Floor, row: u8, mask: u8, toward: u8, n: u8) -> u8
    requires { T (belts_named row mask) × (toward ≤ 1) × (n ≤ 20) }
    ensures { result ≡ count (end toward n (cells row mask)) (plain_bits f) }
{
    let width = width(row);
    let mut left = n;
    let mut m: u8 = 0;
    for j in 0..width {
        let cell = from_end(row, toward, j);
        let here = (0 < left) & named(row, mask, cell);
        m += (here & occupied(f, cell)) as u8;
        left -= here as u8;
    }
    m
}

// Each named belt is available: a shuttle's with its lowered shuttle, the lift's at basement height.
fn available(f: Floor, row: u8, mask: u8) -> bool
    requires { T (belts_named row mask) }
    ensures { result ≡ holds (both (set (needed_slots row mask)) (when (lift_named row mask) at_basement)) (plain_bits f) }
{
    let left = !names(mask, 0) | shuttle(f, 0, 0, row);
    let right = !names(mask, last_belt(row)) | shuttle(f, 1, 0, row);
    let lift = !((row == 1) & names(mask, 2)) | lift_at(f, 2);
    left & right & lift
}

// A span in row 1 has at most as many cells as the row.
const ALL: u8 = 20;

// Condition c of a belt move.
pub fn belts_condition(
    f: Floor,
    row: u8,
    mask: u8,
    toward: u8,
    size: u8,
    c: u8,
) -> Option<Condition>
    requires { T (well_formed (Instruction.Belts row mask toward size)) }
    ensures { result ≡ condition_in (clauses (Instruction.Belts row mask toward size)) c (plain_bits f) }
{
    match c {
        // Rows 2 and 3 move full only.
        0 => told((row == 1) | (size == 1), Reason::HalfMove),
        // At least one belt.
        1 => told(mask != 0, Reason::NothingNamed),
        // The belts border each other without a gap.
        2 => told(gapless(mask), Reason::Gap),
        // Each is available.
        3 => told(available(f, row, mask), Reason::NotAvailable),
        // The end of the span toward d is free.
        4 => told(
            at_end(f, row, mask, toward, step(row, size)) == 0,
            Reason::NotFree,
        ),
        // In row 1 the number of occupied cells in the span is even.
        5 => told(
            !(row == 1) | (at_end(f, row, mask, toward, ALL) % 2 == 0),
            Reason::OddCount,
        ),
        _ => None,
    }
}
