// The floor on paper: a record as a drawing of six lines, and a drawing read; what is set apart likewise, in a second one; and an image in
// hex. What these are stands in specs/. `apart` says that the number is what is set apart.
// Kept: `apart` is a bool in each function, as in writing_drawing, reading and every theorem over them.
#![tactic(auto)]

ghost use Rattle.std.specs.Prelude.{◌≡◌, ◌++◌, ◌+◌, ◌≤◌, ◌<◌, length, get_or, drop, true};
ghost use Rattle.bits.specs.Bits.{bit, image};
ghost use Rattle.drawing.specs.Drawing.{letter, LeavesDrawing, has_drawing, writing_drawing};
ghost use Rattle.drawing.specs.Reading.{is_mark, is_letter, reading};
ghost use Rattle.drawing.specs.Hex.{all_digits, is_count, hex_said, hex_in, hex_line};
ghost use Rattle.drawing.specs.Private.{table, grid, cell_mark, upper_at, drawn_at, stands, last_told, bad_at_end, bad_at, lines_told, slot_read, bits_at};

use floor::masks::{FIRST_SLOT, RAISED};

mod digits;
mod grid;
mod lift_line;

use grid::{FREE, occupied};
use lift_line::LIFT_LINE;

// Why a number is not written: it has no drawing, or that doesn't fit the room.
#[derive(Clone, Copy)]
pub enum Unwritten {
    HasNone,
    NoRoom,
}

// Why a text is not read: its first bad line, from 0, or 6 for text past the last; or the number that it draws has no drawing.
#[derive(Clone, Copy)]
pub enum Unread {
    BadLine(u8),
    Unsound,
}

// What a text in hex says: a record, or a record and what is set apart, as an ask returns them.
#[derive(Clone, Copy)]
pub enum Hex {
    Image(u64),
    Asked(u64, u64),
}

// Kept: the height and the drive are numbers, as in height_name, drive_word and drive_of, which the last line is written and read by.
// What is told in the last line of the lift: its height, whether a car is on it, and the drive that is under way, 1 in, 2 out.
#[derive(Clone, Copy)]
struct Lift {
    height: u8,
    car: bool,
    drive: u8,
}

// A drawing, of a number or in a text: whether it is of what is set apart, its floor as a grid, and what its last line tells.
#[derive(Clone, Copy)]
struct Sheet {
    apart: bool,
    g: [[u8; 20]; 3],
    lift: Lift,
}

// The bytes of a text that are no blanks, where they are no more than 32, and how many.
#[derive(Clone, Copy)]
struct Gathered {
    count: usize,
    bytes: [u8; 32],
}

// The byte that ends a line.
const LINE_FEED: u8 = b'\n';

// What is set apart is less: a bit for each cell and slot, and one for the lift.
const PAST_PARTS: u64 = 1 << 53;

// A byte of a run, or zero past its end.
fn byte(s: &[u8], i: usize) -> u8
    ensures { result ≡ get_or s.now i 0 }
{
    if i < s.len() {
        return s[i];
    }
    0
}

// ---- a record written

// The letter of a shuttle's position.
fn letter(lowered: bool, tilted: bool) -> u8
    ensures { result ≡ letter lowered tilted }
{
    if lowered {
        if tilted {
            return b'B';
        }
        return b'L';
    }
    if tilted {
        return b'T';
    }
    b'-'
}

// The letter of the position whose lowered slot is bit k; the tilted one is six further on.
fn letter_of(image: u64, k: usize) -> u8
    requires { k < 64 }
    ensures { result ≡ letter (bit image k) (bit image (k + 6)) }
{
    let lowered = bits::bit(image, k as u64);
    let tilted = bits::bit(image, k as u64 + 6);
    letter(lowered, tilted)
}

// A byte of the first five lines.
fn upper_byte(g: [[u8; 20]; 3], image: u64, t: usize) -> u8
    ensures { result ≡ upper_at g (bit image) t }
{
    match t {
        0..=19 => g[0][t],
        21..=30 => g[1][t - 21],
        32..=41 => g[2][t - 32],
        43..=45 => letter_of(image, t - 3),
        47..=49 => letter_of(image, t - 4),
        _ => LINE_FEED,
    }
}

// A byte of the drawing.
fn drawn_byte(sheet: &Sheet, image: u64, t: usize) -> u8
    ensures { result ≡ drawn_at sheet.now.apart sheet.now.g (bit image) sheet.now.lift t }
{
    if t < LIFT_LINE {
        return upper_byte(sheet.g, image, t);
    }
    lift_line::last_byte(sheet.apart, sheet.lift, t - LIFT_LINE)
}

// Writes the first so many bytes of the drawing to the start of the room.
fn put(apart: bool, image: u64, lift: Lift, size: usize, room: &mut [u8])
    requires { size ≤ length room.old }
    ensures { room.new ≡ table size (drawn_at apart (grid (cell_mark apart (bit image))) (bit image) lift) ++ drop size room.old }
{
    let g = grid::grid_of(apart, image);
    let sheet = Sheet { apart, g, lift };
    for t in 0..size {
        room[t] = drawn_byte(&sheet, image, t);
    }
}

// A number has a drawing: a record that is sound, or some of the 53 parts.
fn has_drawing(apart: bool, image: u64) -> bool
    ensures { result ≡ has_drawing apart image }
{
    if apart {
        return image < PAST_PARTS;
    }
    floor::sound(image)
}

// Writes the drawing of a number to the start of the room, and returns how many bytes it takes.
pub fn write(apart: bool, image: u64, room: &mut [u8]) -> Result<u8, Unwritten>
    ensures { LeavesDrawing (writing_drawing apart image room.old) result room.new }
{
    if !has_drawing(apart, image) {
        return Err(Unwritten::HasNone);
    }
    let lift = lift_line::last_of(apart, image);
    let size = LIFT_LINE + lift_line::last_size(apart, lift);
    if room.len() < size {
        return Err(Unwritten::NoRoom);
    }
    put(apart, image, lift, size, room);
    Ok(size as u8)
}

// ---- a drawing read

fn is_mark(apart: bool, b: u8) -> bool
    ensures { result ≡ is_mark apart b }
{
    let mark = occupied(apart);
    (b == mark) | (b == FREE)
}

fn is_letter(b: u8) -> bool
    ensures { result ≡ is_letter b }
{
    matches!(b, b'B' | b'L' | b'T' | b'-')
}

// A line of n marks stands in the text from a place on.
fn marks_stand(apart: bool, text: &[u8], at: usize, n: usize) -> bool
    requires { (at ≤ 64) × (n ≤ 64) }
    ensures { result ≡ stands n (is_mark apart) (drop at text.now) }
{
    for i in 0..n {
        if !is_mark(apart, byte(text, at + i)) {
            return false;
        }
    }
    byte(text, at + n) == LINE_FEED
}

// A line of three letters does.
fn letters_stand(text: &[u8], at: usize) -> bool
    requires { at ≤ 64 }
    ensures { result ≡ stands 3 is_letter (drop at text.now) }
{
    let first = is_letter(byte(text, at));
    let second = is_letter(byte(text, at + 1));
    let third = is_letter(byte(text, at + 2));
    first & second & third & (byte(text, at + 3) == LINE_FEED)
}

// What the last line tells of the lift, or the first bad line of the last two: text that follows the last counts as one.
fn bad_at_end(apart: bool, text: &[u8]) -> Result<Lift, Unread>
    ensures { result ≡ lines_told (last_told apart (drop 51 text.now)) (bad_at_end apart text.now (last_told apart (drop 51 text.now))) }
{
    let Some(lift) = lift_line::last_in(apart, text) else {
        return Err(Unread::BadLine(5));
    };
    if LIFT_LINE + lift_line::last_size(apart, lift) < text.len() {
        return Err(Unread::BadLine(6));
    }
    Ok(lift)
}

// The same, or the first bad line of all: where a line begins is known, since those before it have their lengths.
fn first_bad(apart: bool, text: &[u8]) -> Result<Lift, Unread>
    ensures { result ≡ lines_told (last_told apart (drop 51 text.now)) (bad_at apart text.now (last_told apart (drop 51 text.now))) }
{
    if !marks_stand(apart, text, 0, 20) {
        return Err(Unread::BadLine(0));
    }
    if !marks_stand(apart, text, 21, 10) {
        return Err(Unread::BadLine(1));
    }
    if !marks_stand(apart, text, 32, 10) {
        return Err(Unread::BadLine(2));
    }
    if !letters_stand(text, 43) {
        return Err(Unread::BadLine(3));
    }
    if !letters_stand(text, 47) {
        return Err(Unread::BadLine(4));
    }
    bad_at_end(apart, text)
}

// Slot n of twelve is drawn: the first six are lowered, the others tilted; of each six three are the left side's.
fn slot_in(text: &[u8], n: usize) -> bool
    requires { n < 12 }
    ensures { result ≡ slot_read text.now n }
{
    let b = byte(text, 43 + 4 * (n / 3 % 2) + n % 3);
    if n < 6 {
        return matches!(b, b'B' | b'L');
    }
    matches!(b, b'B' | b'T')
}

// A bit of the number that is drawn.
fn bit_in(sheet: &Sheet, text: &[u8], k: u64) -> bool
    ensures { result ≡ bits_at sheet.now.apart sheet.now.g text.now sheet.now.lift k }
{
    if k < FIRST_SLOT as u64 {
        return grid::marked(sheet.apart, sheet.g, k as usize);
    }
    if k < RAISED {
        return slot_in(text, k as usize - FIRST_SLOT as usize);
    }
    lift_line::lift_bit(sheet.lift, k)
}

// All of them.
fn image_in(sheet: &Sheet, text: &[u8]) -> u64
    ensures { result ≡ image (bits_at sheet.now.apart sheet.now.g text.now sheet.now.lift) }
{
    let mut acc: u64 = 0;
    for k in (0..64).rev() {
        let b = bit_in(sheet, text, k) as u64;
        acc = acc * 2 + b;
    }
    acc
}

// Reads a drawing: the number that it shows, which has a drawing.
pub fn read(apart: bool, text: &[u8]) -> Result<u64, Unread>
    ensures { result ≡ reading apart text.now }
{
    let lift = first_bad(apart, text)?;
    let g = grid::grid_in(text);
    let bits = image_in(&Sheet { apart, g, lift }, text);
    if has_drawing(apart, bits) {
        return Ok(bits);
    }
    Err(Unread::Unsound)
}

// ---- an image in hex

// The eight bytes in a line, the lowest first.
pub fn hex_line(image: u64) -> [u8; 24]
    ensures { result ≡ hex_line 8 image }
{
    let mut line = [0u8; 24];
    for t in 0..24 {
        line[t] = digits::line_byte(image, t);
    }
    line
}

fn is_count(n: usize) -> bool
    ensures { result ≡ is_count n }
{
    matches!(n, 16 | 32)
}

// What so many digits say.
fn said(held: &Gathered) -> Hex
    requires { (is_count held.now.count ≡ true) × (all_digits held.now.count held.now.bytes ≡ true) }
    ensures { result ≡ hex_said held.now.count held.now.bytes }
{
    let record = digits::number_in(0, held);
    if held.count == 16 {
        return Hex::Image(record);
    }
    let apart = digits::number_in(8, held);
    Hex::Asked(record, apart)
}

// What a text says: sixteen digits or thirty-two, with blanks anywhere.
pub fn read_hex(text: &[u8]) -> Option<Hex>
    ensures { result ≡ hex_in text.now }
{
    let held = digits::gather(text)?;
    if !is_count(held.count) {
        return None;
    }
    if digits::all_digits(&held) {
        return Some(said(&held));
    }
    None
}
