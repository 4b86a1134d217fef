// The floor as a grid of three rows of twenty places: the first row's are half cells, of each other row's the first ten are cells. It is
// filled from a number or from a text, and read back cell by cell; `apart` where the number is what is set apart.
ghost use Rattle.std.specs.Prelude.{◌≡◌, ◌<◌, eqb, true};
ghost use Rattle.bits.specs.Bits.{bit};
ghost use Rattle.drawing.specs.Drawing.{mark};
ghost use Rattle.drawing.specs.Private.{cell_at, grid, cell_mark, mark_in, row_of_cell, place_in_row, occupied};

use super::byte;

// The marks of a cell: of one that is occupied, or set apart, and of any other.
pub fn occupied(apart: bool) -> u8
    ensures { result ≡ mark apart true }
{
    if apart {
        return b'x';
    }
    b'#'
}

pub const FREE: u8 = b'.';

// The cell at row i, place j, or 40 where there is none.
fn cell(i: usize, j: usize) -> usize
    requires { (i < 3) × (j < 20) }
    ensures { result ≡ cell_at i j }
{
    if i == 0 {
        return j;
    }
    if j < 10 {
        return 10 + 10 * i + j;
    }
    40
}

// The mark of a number's cell.
fn mark(apart: bool, image: u64, k: usize) -> u8
    ensures { result ≡ cell_mark apart (bit image) k }
{
    if k < 40 {
        if bits::bit(image, k as u64) {
            return occupied(apart);
        }
        return FREE;
    }
    0
}

// The byte where a text has the mark of a cell: each line that stands before it has its line feed.
fn mark_in(text: &[u8], k: usize) -> u8
    ensures { result ≡ mark_in text.now k }
{
    match k {
        0..=19 => byte(text, k),
        20..=29 => byte(text, k + 1),
        30..=39 => byte(text, k + 2),
        _ => 0,
    }
}

// Kept: two like loops. Tried as one array::from_fn in another over the mark: what the inner one asks at each turn was not proved.
// The grid of a number.
pub fn grid_of(apart: bool, image: u64) -> [[u8; 20]; 3]
    ensures { result ≡ grid (cell_mark apart (bit image)) }
{
    let mut g = [[0u8; 20]; 3];
    for i in 0..3 {
        for j in 0..20 {
            g[i][j] = mark(apart, image, cell(i, j));
        }
    }
    g
}

// The grid of a text.
pub fn grid_in(text: &[u8]) -> [[u8; 20]; 3]
    ensures { result ≡ grid (mark_in text.now) }
{
    let mut g = [[0u8; 20]; 3];
    for i in 0..3 {
        for j in 0..20 {
            g[i][j] = mark_in(text, cell(i, j));
        }
    }
    g
}

// The row of a cell, and its place there.
fn row_of(k: usize) -> usize
    ensures { result ≡ row_of_cell k }
{
    match k {
        0..=19 => 0,
        20..=29 => 1,
        _ => 2,
    }
}

fn place_of(k: usize) -> usize
    ensures { result ≡ place_in_row k }
{
    match k {
        0..=19 => k,
        20..=29 => k - 20,
        30..=39 => k - 30,
        _ => 0,
    }
}

// The cell is marked.
pub fn marked(apart: bool, g: [[u8; 20]; 3], k: usize) -> bool
    ensures { result ≡ occupied apart g k }
{
    let mark = occupied(apart);
    g[row_of(k)][place_of(k)] == mark
}
