// What the success of an instruction changes, by a row of masks made from its area.
ghost use Rattle.std.specs.Prelude.{◌≡◌, ◌<◌};
ghost use Rattle.rows.specs.Private.{carried_bits, move_row, belts_move, shuttles_move, tilt_move};

use super::judging::{shifted, step, within};
use super::masks::{CELLS, ROW_2, ROW_3, SLOTS, TILTED};
use floor::masks::ROW_1;

// What a car becomes: where all of these bits, if there are any, are 1, those become 1.
fn carried(r: u64, from: u64, to: u64) -> u64
    ensures { result ≡ carried_bits r from to }
{
    if (r & from == from) & (from != 0) {
        return to;
    }
    0
}

// Cells of belts shift inside their span, as one number.
pub fn belts_next(r: u64, a: u64, row: u8, toward: u8, size: u8) -> u64
    requires { toward < 2 }
    ensures { result ≡ move_row (belts_move a row toward size) r }
{
    let span = a & CELLS;
    let n = step(row, size);
    let movers = r & within(span, toward, n);
    if toward == 0 {
        return (r & !span) | shifted(movers, 0, n);
    }
    (r & !span) | shifted(movers, n, 0)
}

// Slots shift by a row, and cars go along from row to row.
pub fn shuttles_next(r: u64, a: u64, toward: u8) -> u64
    requires { toward < 2 }
    ensures { result ≡ move_row (shuttles_move a toward) r }
{
    let moved = shifted(r & within(a & SLOTS, toward, 1), toward, 1 - toward);
    let kept = r & !a;
    if toward == 1 {
        return kept
            | (moved | (carried(r, a & ROW_1, a & ROW_2) | carried(r, a & ROW_2, a & ROW_3)));
    }
    kept | (moved | (carried(r, a & ROW_2, a & ROW_1) | carried(r, a & ROW_3, a & ROW_2)))
}

// The tilted slot and the lowered one six bits below it change places.
pub fn tilt_next(r: u64, a: u64, orientation: u8) -> u64
    ensures { result ≡ move_row (tilt_move a orientation) r }
{
    let high = a & TILTED;
    let low = high / 64;
    let kept = r & !(high | low);
    if orientation == 0 {
        return kept | high;
    }
    kept | low
}
