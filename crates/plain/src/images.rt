// A floor from a record's number, and back: here alone a record is one number.
ghost use Rattle.std.specs.Prelude.{◌≡◌, ◌+◌};
ghost use Rattle.bits.specs.Bits.{bit};
ghost use Rattle.plain.specs.Plain.{listed, height_from, plain_bits};
ghost use Rattle.plain.specs.Private.{height_digit};

use super::{Floor, Height};

// The cells: bits 0 to 39.
pub fn cells_of(r: u64) -> [bool; 40]
    ensures { result ≡ listed 40 (bit r) }
{
    let mut cells = [false; 40];
    for k in 0..40 {
        cells[k] = bits::bit(r, k as u64);
    }
    cells
}

// The slots: bits 40 to 51.
pub fn slots_of(r: u64) -> [bool; 12]
    ensures { result ≡ listed 12 (λ j. bit r (40 + j)) }
{
    let mut slots = [false; 12];
    for j in 0..12 {
        slots[j] = bits::bit(r, 40 + j as u64);
    }
    slots
}

// The height by its two digits.
pub fn height_of(low: bool, high: bool) -> Height
    ensures { result ≡ height_from low high }
{
    if high {
        return Height::Basement;
    }
    if low {
        return Height::Rotation;
    }
    Height::Street
}

// Kept: a bool that picks the digit: height_digit is named by a wrong version (must-fail/wrong_programs.edit).
// A digit of the height: of street 0 and 0, of rotation 1 and 0, of the basement 0 and 1.
fn height_digit(h: Height, high: bool) -> bool
    ensures { result ≡ height_digit h high }
{
    match h {
        Height::Street => false,
        Height::Rotation => !high,
        Height::Basement => high,
    }
}

// A bit of the record.
pub fn bit(f: Floor, k: u8) -> bool
    ensures { result ≡ plain_bits f k }
{
    if k < 40 {
        return f.cells[k as usize];
    }
    if k < 52 {
        return f.slots[(k - 40) as usize];
    }
    match k {
        52 => f.car,
        53 => height_digit(f.height, false),
        54 => height_digit(f.height, true),
        55 => f.coming,
        56 => f.going,
        _ => false,
    }
}
