// The parts that decide each condition of a shuttle move.
ghost use Rattle.std.specs.Prelude.{◌≡◌, ◌≤◌};
ghost use Rattle.panel.specs.Private.{slots_of_rows, rows_named, rows_ahead, row_alone, shuttle_cells, shuttles_read};

use super::deciding::{cells_alone, nothing, slots_alone};
use plain_moves::Parts;

// The slots of a side in one orientation, in those of the three rows that are marked.
pub fn slots_in(side: u8, orientation: u8, rows: [bool; 3]) -> [bool; 12]
    requires { (side ≤ 1) × (orientation ≤ 1) }
    ensures { result ≡ slots_of_rows side orientation rows }
{
    let first = orientation * 6 + side * 3;
    let mut slots = [false; 12];
    slots[first as usize] = rows[0];
    slots[(first + 1) as usize] = rows[1];
    slots[(first + 2) as usize] = rows[2];
    slots
}

// One row.
pub fn row_alone(row: u8) -> [bool; 3]
    ensures { result ≡ row_alone row }
{
    [row == 1, row == 2, row == 3]
}

// The rows that a mask names.
fn rows_named(mask: u8) -> [bool; 3]
    ensures { result ≡ rows_named mask }
{
    let m = mask as u64;
    [bits::bit(m, 0), bits::bit(m, 1), bits::bit(m, 2)]
}

// The row next to the last of them toward d, if there is one.
fn rows_ahead(mask: u8, toward: u8) -> [bool; 3]
    ensures { result ≡ rows_ahead mask toward }
{
    let m = mask as u64;
    let one = bits::bit(m, 0);
    let two = bits::bit(m, 1);
    let three = bits::bit(m, 2);
    if toward == 1 {
        return [false, one & !two & !three, two & !three];
    }
    [two & !one, three & !two & !one, false]
}

// The two cells of a side's shuttle in row 1.
fn shuttle_cells(side: u8) -> [bool; 40]
    requires { side ≤ 1 }
    ensures { result ≡ shuttle_cells side }
{
    let first = side * 18;
    let mut cells = [false; 40];
    cells[first as usize] = true;
    cells[(first + 1) as usize] = true;
    cells
}

// Whether a row is named and whether there is a gap need no look at the floor.
pub fn of_shuttles(side: u8, mask: u8, orientation: u8, toward: u8, c: u8) -> Parts
    requires { (side ≤ 1) × (orientation ≤ 1) }
    ensures { result ≡ shuttles_read side mask orientation toward c }
{
    match c {
        // Each has a shuttle in that orientation.
        2 => slots_alone(slots_in(side, orientation, rows_named(mask))),
        // If lowered and row 1 is named, an even number of that shuttle's two cells is occupied.
        3 => if (orientation == 0) & bits::bit(mask as u64, 0) {
            cells_alone(shuttle_cells(side))
        } else {
            nothing()
        },
        // A next row toward d exists and has no shuttle in that orientation.
        4 => slots_alone(slots_in(side, orientation, rows_ahead(mask, toward))),
        _ => nothing(),
    }
}
