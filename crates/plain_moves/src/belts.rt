// Belt runs, cell by cell: each cell of the span takes what the cell behind it in the span has.
ghost use Rattle.std.specs.Prelude.{◌≡◌, true, ◌≤◌, ◌<◌};
ghost use Rattle.rules.specs.declared.Instruction.{Instruction};
ghost use Rattle.rules.specs.Rules.{allowed, next_record};
ghost use Rattle.plain.specs.Plain.{listed, plain_bits, floor_of};
ghost use Rattle.plain_moves.specs.Private.{cell_bits, cell_behind, belt_after};

use plain::Floor;

// The cell n behind, seen toward d, unless that is below 0.
fn behind(toward: u8, n: u8, cell: u8) -> Option<u8>
    requires { (cell < 40) × (n ≤ 2) }
    ensures { result ≡ cell_behind toward n cell }
{
    if toward == 1 {
        return cell.checked_sub(n);
    }
    Some(cell + n)
}

// What a cell has after the run. One that is not on the belts keeps what it has; one of the span takes what the cell behind it has, and is
// free if that is not of the span.
fn comes(old: &[bool; 40], row: u8, mask: u8, toward: u8, size: u8, cell: u8) -> bool
    requires { cell < 40 }
    ensures { result ≡ belt_after row mask toward size (cell_bits old.now) cell }
{
    if !plain::named(row, mask, cell) {
        return old[cell as usize];
    }
    match behind(toward, plain::step(row, size), cell) {
        Some(from) if plain::named(row, mask, from) => old[from as usize],
        _ => false,
    }
}

// The cells after the run.
fn shifted(old: [bool; 40], row: u8, mask: u8, toward: u8, size: u8) -> [bool; 40]
    ensures { result ≡ listed 40 (belt_after row mask toward size (cell_bits old)) }
{
    let mut new = [false; 40];
    for cell in 0..40 {
        new[cell] = comes(&old, row, mask, toward, size, cell as u8);
    }
    new
}

// The floor after the run.
pub fn run(f: Floor, row: u8, mask: u8, toward: u8, size: u8) -> Floor
    requires { allowed (Instruction.Belts row mask toward size) (plain_bits f) ≡ true }
    ensures { result ≡ floor_of (next_record (Instruction.Belts row mask toward size) (plain_bits f)) }
{
    Floor {
        cells: shifted(f.cells, row, mask, toward, size),
        ..f
    }
}
