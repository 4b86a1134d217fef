// Shuttles of a side, row by row: which rows move, what their slots and cells have afterwards, and a shuttle that is tilted or lowered.
ghost use Rattle.std.specs.Prelude.{◌≡◌, true, ◌≤◌, T};
ghost use Rattle.floor.specs.Floor.{place};
ghost use Rattle.rules.specs.Cells.{row_named, row_behind};
ghost use Rattle.rules.specs.declared.Instruction.{Instruction};
ghost use Rattle.rules.specs.Rules.{well_formed, allowed, next_record};
ghost use Rattle.plain.specs.Plain.{plain_bits, floor_of};
ghost use Rattle.plain_moves.specs.Private.{cell_bits, slot_bits, slot_index, stored, position_first_cell, row_source, some_row, slot_from, slots_after, car_at, row_from, cells_after};

use plain::Floor;

// A slot's place among the twelve.
pub fn slot(side: u8, orientation: u8, row: u8) -> u8
    requires { (side ≤ 1) × (orientation ≤ 1) × (1 ≤ row) × (row ≤ 3) }
    ensures { result ≡ slot_index side orientation row }
{
    orientation * 6 + side * 3 + row - 1
}

// The mask names the row.
pub fn named(mask: u8, row: u8) -> bool
    ensures { result ≡ row_named mask row }
{
    if row == 0 {
        return false;
    }
    bits::bit(mask as u64, (row - 1) as u64)
}

// The row behind, seen toward d.
// Kept: 0 or 4 where there is none, as rules' definition `row_behind` has it.
pub fn behind(toward: u8, row: u8) -> u8
    requires { (1 ≤ row) × (row ≤ 3) }
    ensures { result ≡ row_behind toward row }
{
    if toward == 1 {
        return row - 1;
    }
    row + 1
}

// The row from which a row takes what it has afterwards: the named row behind it. Where none is, a named row takes nothing, and any other
// row stays as it is.
fn source(mask: u8, toward: u8, row: u8) -> Option<u8>
    requires { (1 ≤ row) × (row ≤ 3) }
    ensures { result ≡ row_source mask toward row }
{
    let back = behind(toward, row);
    if named(mask, back) {
        return Some(back);
    }
    if named(mask, row) {
        return None;
    }
    Some(row)
}

// The first cell of a position.
pub fn first_cell(side: u8, row: u8) -> u8
    requires { side ≤ 1 }
    ensures { result ≡ position_first_cell side row }
{
    match row {
        1 => side * 18,
        2 => 20 + side * 9,
        _ => 30 + side * 9,
    }
}

// ---- slots

// What a slot has afterwards: what the slot of the row has from which it takes.
fn slot_from(slots: &[bool; 12], side: u8, orientation: u8, from: Option<u8>) -> bool
    requires { (side ≤ 1) × (orientation ≤ 1) × (some_row from ≡ true) }
    ensures { result ≡ slot_from side orientation (slot_bits slots.now) from }
{
    match from {
        Some(row) => slots[slot(side, orientation, row) as usize],
        None => false,
    }
}

// The slots shift by a row.
fn slots_after(slots: [bool; 12], side: u8, mask: u8, orientation: u8, toward: u8) -> [bool; 12]
    requires { (side ≤ 1) × (orientation ≤ 1) × (mask ≤ 7) }
    ensures { result ≡ slots_after side mask orientation toward slots 3 }
{
    let mut new = slots;
    for row in 1..4 {
        let at = slot(side, orientation, row);
        let from = source(mask, toward, row);
        new[at as usize] = slot_from(&slots, side, orientation, from);
    }
    new
}

// ---- cells

// A car is at the position of the row, if there is one: on both half cells in row 1, on the one cell in rows 2 and 3.
fn car_at(cells: &[bool; 40], side: u8, from: Option<u8>) -> bool
    requires { side ≤ 1 }
    ensures { result ≡ car_at side (cell_bits cells.now) from }
{
    let Some(row) = from else {
        return false;
    };
    let first = first_cell(side, row);
    if row == 1 {
        return cells[first as usize] & cells[(first + 1) as usize];
    }
    cells[first as usize]
}

// The cells with a car at the position of a row, or with none there: both half cells in row 1.
pub fn put(cells: [bool; 40], side: u8, row: u8, car: bool) -> [bool; 40]
    requires { side ≤ 1 }
    ensures { result ≡ stored (place side row) car cells }
{
    let first = first_cell(side, row);
    let mut new = cells;
    new[first as usize] = car;
    if row == 1 {
        new[(first + 1) as usize] = car;
        return new;
    }
    new
}

// The cells with those of one row made anew from the row from which it takes. A row that stays keeps its cells as they are, also half a car
// in row 1.
fn row_from(new: [bool; 40], old: &[bool; 40], side: u8, row: u8, from: Option<u8>) -> [bool; 40]
    requires { side ≤ 1 }
    ensures { result ≡ row_from side (cell_bits old.now) row from new }
{
    match from {
        Some(same) if same == row => new,
        _ => put(new, side, row, car_at(old, side, from)),
    }
}

// Lowered shuttles take their cars along.
fn cells_after(cells: [bool; 40], side: u8, mask: u8, toward: u8) -> [bool; 40]
    requires { side ≤ 1 }
    ensures { result ≡ cells_after side mask toward cells 3 }
{
    let mut new = cells;
    for row in 1..4 {
        let from = source(mask, toward, row);
        // Kept: `new = row_from(new, ..)` straight was tried; the prover does not cover a call's array stored in what the call is lent.
        let made = row_from(new, &cells, side, row, from);
        new = made;
    }
    new
}

// ---- floors

// The floor after the shuttles of some rows have moved.
pub fn moved(f: Floor, side: u8, mask: u8, orientation: u8, toward: u8) -> Floor
    requires { allowed (Instruction.Shuttles side mask orientation toward) (plain_bits f) ≡ true }
    ensures { result ≡ floor_of (next_record (Instruction.Shuttles side mask orientation toward) (plain_bits f)) }
{
    let slots = slots_after(f.slots, side, mask, orientation, toward);
    if orientation == 0 {
        let cells = cells_after(f.cells, side, mask, toward);
        return Floor { cells, slots, ..f };
    }
    Floor { slots, ..f }
}

// The floor after a shuttle has taken the other orientation.
pub fn tilted(f: Floor, side: u8, row: u8, orientation: u8) -> Floor
    requires { T (well_formed (Instruction.Tilt side row orientation)) }
    ensures { result ≡ floor_of (next_record (Instruction.Tilt side row orientation) (plain_bits f)) }
{
    let mut slots = f.slots;
    let from = slot(side, orientation, row);
    let to = slot(side, 1 - orientation, row);
    slots[from as usize] = false;
    slots[to as usize] = true;
    Floor { slots, ..f }
}
