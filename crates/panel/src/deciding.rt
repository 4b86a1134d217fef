// The parts that decide each condition of an instruction: what it looks at on the floor. Where that is what the instruction takes, it comes
// from the instruction's area.
ghost use Rattle.std.specs.Prelude.{◌≡◌, cond, [], ◌≤◌, ◌<◌};
ghost use Rattle.rules.specs.Rules.{well_formed, clauses};
ghost use Rattle.plain_moves.specs.Moves.{parts_at};
ghost use Rattle.panel.specs.Panel.{read_in};
ghost use Rattle.panel.specs.Private.{cells_alone, slots_alone, lift_with, no_parts, cell_from_end, end_of, belts_read, tilt_read, row_one, lift_read, rotate_read};

use super::shuttles;
use plain_moves::Parts;
use rules::Instruction;

// ---- parts of one kind

// Some cells.
pub fn cells_alone(cells: [bool; 40]) -> Parts
    ensures { result ≡ cells_alone cells }
{
    Parts {
        cells,
        ..Parts::NONE
    }
}

// Some slots.
pub fn slots_alone(slots: [bool; 12]) -> Parts
    ensures { result ≡ slots_alone slots }
{
    Parts {
        slots,
        ..Parts::NONE
    }
}

// The lift, and some cells.
fn lift_with(cells: [bool; 40]) -> Parts
    ensures { result ≡ lift_with cells }
{
    Parts {
        cells,
        lift: true,
        ..Parts::NONE
    }
}

// No part.
pub fn nothing() -> Parts
    ensures { result ≡ no_parts }
{
    Parts::NONE
}

// ---- belts

// A cell by its number from the end of the floor toward d, from 0.
fn from_end(up: bool, j: u8) -> u8
    requires { j < 40 }
    ensures { result ≡ cell_from_end up j }
{
    if up {
        return 39 - j;
    }
    j
}

// The last n cells of a span toward d: from the end of the floor back, the first n that are in it.
fn end(span: [bool; 40], toward: u8, n: u8) -> [bool; 40]
    ensures { result ≡ end_of span toward n }
{
    let up = toward == 1;
    let mut marked = [false; 40];
    let mut left = n;
    for j in 0..40 {
        let cell = from_end(up, j);
        let here = (0 < left) & span[cell as usize];
        marked[cell as usize] = here;
        left -= here as u8;
    }
    marked
}

// Whether rows 2 and 3 move full, whether a belt is named and whether there is a gap need no look at the floor.
fn of_belts(area: Parts, row: u8, toward: u8, size: u8, c: u8) -> Parts
    ensures { result ≡ belts_read area row toward size c }
{
    match c {
        // Each belt is available: the slots of shuttle belts, and the lift if its belt is named.
        3 => Parts {
            cells: [false; 40],
            ..area
        },
        // The end of the span toward d is free.
        4 => cells_alone(end(area.cells, toward, plain::step(row, size))),
        // In row 1 the number of occupied cells in the span is even.
        5 => if row == 1 {
            cells_alone(area.cells)
        } else {
            nothing()
        },
        _ => nothing(),
    }
}

// ---- tilts

// From lowered, and from tilted.
fn of_tilt(area: Parts, side: u8, row: u8, orientation: u8, c: u8) -> Parts
    requires { side ≤ 1 }
    ensures { result ≡ tilt_read area side row orientation c }
{
    if orientation == 0 {
        return match c {
            // All three of the side are lowered.
            0 => slots_alone(shuttles::slots_in(side, 0, [true; 3])),
            // The position's cells are free.
            1 => cells_alone(area.cells),
            _ => nothing(),
        };
    }
    match c {
        // A tilted one is there.
        0 => slots_alone(shuttles::slots_in(side, 1, shuttles::row_alone(row))),
        // No lowered one is.
        1 => slots_alone(shuttles::slots_in(side, 0, shuttles::row_alone(row))),
        _ => nothing(),
    }
}

// ---- the lift

// The cells of row 1.
fn row_one() -> [bool; 40]
    ensures { result ≡ row_one }
{
    let mut cells = [false; 40];
    for cell in 0..40 {
        cells[cell] = cell < 20;
    }
    cells
}

fn of_lift(c: u8) -> Parts
    ensures { result ≡ lift_read c }
{
    match c {
        // The height differs.
        0 => lift_with([false; 40]),
        // Leaving the basement, its two cells are free, or each side of row 1 is even.
        1 => lift_with(row_one()),
        _ => nothing(),
    }
}

fn of_rotate(beside: Parts, c: u8) -> Parts
    ensures { result ≡ rotate_read beside c }
{
    match c {
        // At rotation height.
        0 => lift_with([false; 40]),
        // With its six cells free.
        1 => cells_alone(beside.cells),
        _ => nothing(),
    }
}

// ---- all

// The parts that decide condition c; an ill-formed instruction has none.
pub fn parts(i: Instruction, c: u8) -> Parts
    ensures { result ≡ parts_at (read_in (cond (well_formed i) (clauses i) []) c) }
{
    if !rules::well_formed(i) {
        return nothing();
    }
    let area = plain_moves::area(i);
    match i {
        Instruction::Belts {
            row,
            mask,
            toward,
            size,
        } => of_belts(area, row, toward, size, c),
        Instruction::Shuttles {
            side,
            mask,
            orientation,
            toward,
        } => shuttles::of_shuttles(side, mask, orientation, toward, c),
        Instruction::Tilt {
            side,
            row,
            orientation,
        } => of_tilt(area, side, row, orientation, c),
        Instruction::Lift { height } => of_lift(c),
        Instruction::Rotate => of_rotate(area, c),
    }
}
