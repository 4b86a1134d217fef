// The parts that an instruction takes, marked cell by cell and slot by slot.
ghost use Rattle.std.specs.Prelude.{◌≡◌, ◌||◌, [], ◌≤◌, T};
ghost use Rattle.rules.specs.declared.Instruction.{Instruction};
ghost use Rattle.rules.specs.Rules.{belts_named, well_formed, area_of};
ghost use Rattle.rules.specs.Cells.{cell_named, row_named, row_behind};
ghost use Rattle.plain.specs.Plain.{listed};
ghost use Rattle.plain_moves.specs.Moves.{parts_at};

use super::{Parts, shuttles};

// A cell of the lift's belt.
const ON_LIFT: u8 = 11;

// No part.
pub fn nothing() -> Parts
    ensures { result ≡ parts_at [] }
{
    Parts::NONE
}

// The cells of the belts of a row that a mask names.
fn belt_cells(row: u8, mask: u8) -> [bool; 40]
    ensures { result ≡ listed 40 (cell_named row mask) }
{
    let mut cells = [false; 40];
    for cell in 0..40 {
        cells[cell] = plain::named(row, mask, cell as u8);
    }
    cells
}

// The cells of its belts; the lowered slots of its shuttle belts; the lift, if its belt is named.
pub fn of_belts(row: u8, mask: u8) -> Parts
    requires { T (belts_named row mask) }
    ensures { result ≡ parts_at (area_of (Instruction.Belts row mask 0 0)) }
{
    let cells = belt_cells(row, mask);
    let left = shuttles::slot(0, 0, row);
    let right = shuttles::slot(1, 0, row);
    let mut slots = [false; 12];
    slots[left as usize] = plain::named(row, mask, shuttles::first_cell(0, row));
    slots[right as usize] = plain::named(row, mask, shuttles::first_cell(1, row));
    let lift = plain::named(row, mask, ON_LIFT);
    Parts { cells, slots, lift }
}

// The row is named, or is the next one toward d of a named row.
fn touched(mask: u8, toward: u8, row: u8) -> bool
    requires { (1 ≤ row) × (row ≤ 3) }
    ensures { result ≡ (row_named mask row || row_named mask (row_behind toward row)) }
{
    shuttles::named(mask, row) | shuttles::named(mask, shuttles::behind(toward, row))
}

// The named slots in that orientation and, for each, the one a row toward d; when lowered, also the cells of those positions.
pub fn of_shuttles(side: u8, mask: u8, orientation: u8, toward: u8) -> Parts
    requires { T (well_formed (Instruction.Shuttles side mask orientation toward)) }
    ensures { result ≡ parts_at (area_of (Instruction.Shuttles side mask orientation toward)) }
{
    let mut cells = [false; 40];
    let mut slots = [false; 12];
    for row in 1..4 {
        let on = touched(mask, toward, row);
        let at = shuttles::slot(side, orientation, row);
        slots[at as usize] = on;
        // Kept: `cells = put(cells, ..)` straight was tried; the prover does not cover a call's array stored in what the call is lent.
        let marked = shuttles::put(cells, side, row, on & (orientation == 0));
        cells = marked;
    }
    Parts {
        cells,
        slots,
        lift: false,
    }
}

// The two slots of the position, from lowered all three lowered slots of the side; and the cells of the position.
pub fn of_tilt(side: u8, row: u8, orientation: u8) -> Parts
    requires { T (well_formed (Instruction.Tilt side row orientation)) }
    ensures { result ≡ parts_at (area_of (Instruction.Tilt side row orientation)) }
{
    let cells = shuttles::put([false; 40], side, row, true);
    let tilted = shuttles::slot(side, 1, row);
    let mut slots = [false; 12];
    slots[tilted as usize] = true;
    for other in 1..4 {
        let at = shuttles::slot(side, 0, other);
        slots[at as usize] = (other == row) | (orientation == 0);
    }
    Parts {
        cells,
        slots,
        lift: false,
    }
}

// The lift and its two cells.
pub fn of_lift() -> Parts
    ensures { result ≡ parts_at (area_of (Instruction.Lift 0)) }
{
    let mut cells = [false; 40];
    cells[11] = true;
    cells[12] = true;
    Parts {
        cells,
        lift: true,
        ..Parts::NONE
    }
}

// The lift and the six cells beside it.
pub fn of_rotate() -> Parts
    ensures { result ≡ parts_at (area_of Instruction.Rotate) }
{
    let mut cells = [false; 40];
    for beside in 0..3 {
        cells[8 + beside] = true;
        cells[13 + beside] = true;
    }
    Parts {
        cells,
        lift: true,
        ..Parts::NONE
    }
}
