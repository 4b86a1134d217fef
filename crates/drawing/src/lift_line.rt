// The last line, written byte by byte, and read. The lift's: a height, then a car if there is one, then the drive that is under way. Of what
// is set apart: whether the lift is, which stands where the car of a record does.
ghost use Rattle.std.specs.Prelude.{◌≡◌, ◌≤◌, length, get_or, drop};
ghost use Rattle.bits.specs.Bits.{bit};
ghost use Rattle.drawing.specs.Drawing.{ended_line, height_name, car_word, drive_word, drive_of, apart_words};
ghost use Rattle.drawing.specs.Reading.{begins, height_told};
ghost use Rattle.drawing.specs.Private.{if_under, lift_of, apart_lift, last_shown, lifts_words, words_of, drive_begun, lift_line_told, lift_told, apart_told, last_told, lift_bit};

use super::{Lift, byte};
use floor::masks::RAISED;

// The digits of the height and the drives, as numbers of bits.
const HEIGHT_LOW: u64 = 53;

const HEIGHT_HIGH: u64 = 54;

const DRIVE_IN: u64 = 55;

const DRIVE_OUT: u64 = 56;

// Where the line begins in a drawing.
pub const LIFT_LINE: usize = 51;

// ---- written

// The drive that is under way: 1 in, 2 out.
fn drive_of(image: u64) -> u8
    ensures { result ≡ drive_of (bit image) }
{
    if bits::bit(image, DRIVE_IN) {
        return 1;
    }
    if bits::bit(image, DRIVE_OUT) {
        return 2;
    }
    0
}

// What a record shows of the lift.
fn lift_of(image: u64) -> Lift
    ensures { result ≡ lift_of (bit image) }
{
    let car = bits::bit(image, RAISED);
    let low = bits::bit(image, HEIGHT_LOW);
    let high = bits::bit(image, HEIGHT_HIGH);
    let drive = drive_of(image);
    Lift {
        height: low as u8 + 2 * (high as u8),
        car,
        drive,
    }
}

// What a number shows in the last line.
fn apart_lift(car: bool) -> Lift
    ensures { result ≡ apart_lift car }
{
    Lift {
        height: 0,
        car,
        drive: 0,
    }
}

pub fn last_of(apart: bool, image: u64) -> Lift
    ensures { result ≡ last_shown apart (bit image) }
{
    if apart {
        return apart_lift(bits::bit(image, RAISED));
    }
    lift_of(image)
}

// Kept: each length is a number beside its word, since the edits name_size, car_size, end_size and apart_size count a word wrongly.
// How long the words are.
fn name_size(height: u8) -> usize
    ensures { result ≡ length (height_name height) }
{
    match height {
        0 => 6,
        _ => 8,
    }
}

fn car_size(car: bool) -> usize
    ensures { result ≡ length (car_word car) }
{
    if car {
        return 4;
    }
    0
}

fn end_size(drive: u8) -> usize
    ensures { result ≡ length (ended_line (drive_word drive)) }
{
    match drive {
        1 => 4,
        2 => 5,
        _ => 1,
    }
}

// How long the line is.
fn lift_size(lift: Lift) -> usize
    ensures { result ≡ length (lifts_words lift) }
{
    name_size(lift.height) + car_size(lift.car) + end_size(lift.drive)
}

fn apart_size(car: bool) -> usize
    ensures { result ≡ length (apart_words car) }
{
    if car {
        return 5;
    }
    2
}

pub fn last_size(apart: bool, lift: Lift) -> usize
    ensures { result ≡ length (words_of apart lift) }
{
    if apart {
        return apart_size(lift.car);
    }
    lift_size(lift)
}

// A byte of a height's name, and of the drive with the line's end.
fn name_byte(height: u8, i: usize) -> u8
    ensures { result ≡ get_or (height_name height) i 0 }
{
    match height {
        0 => byte(b"street", i),
        1 => byte(b"rotation", i),
        _ => byte(b"basement", i),
    }
}

fn end_byte(drive: u8, i: usize) -> u8
    ensures { result ≡ get_or (ended_line (drive_word drive)) i 0 }
{
    match drive {
        1 => byte(b" in\n", i),
        2 => byte(b" out\n", i),
        _ => byte(b"\n", i),
    }
}

// A byte of the line.
fn lift_byte(lift: Lift, i: usize) -> u8
    ensures { result ≡ get_or (lifts_words lift) i 0 }
{
    let name = name_size(lift.height);
    if i < name {
        return name_byte(lift.height, i);
    }
    let told = name + car_size(lift.car);
    if i < told {
        return byte(b" car", i - name);
    }
    end_byte(lift.drive, i - told)
}

fn apart_byte(car: bool, i: usize) -> u8
    ensures { result ≡ get_or (apart_words car) i 0 }
{
    if car {
        return byte(b"lift\n", i);
    }
    byte(b"-\n", i)
}

pub fn last_byte(apart: bool, lift: Lift, i: usize) -> u8
    ensures { result ≡ get_or (words_of apart lift) i 0 }
{
    if apart {
        return apart_byte(lift.car, i);
    }
    lift_byte(lift, i)
}

// ---- read

// Kept: byte by byte, and no slice's method, since the edit begins is a text read past its end.
// A word stands in the text from a place on.
fn begins(text: &[u8], at: usize, word: &[u8]) -> bool
    requires { (at ≤ 64) × (length word.now ≤ 8) }
    ensures { result ≡ begins word.now (drop at text.now) }
{
    for i in 0..word.len() {
        if text.len() <= at + i {
            return false;
        }
        if text[at + i] != word[i] {
            return false;
        }
    }
    true
}

// The height that the line begins with.
fn height_in(text: &[u8]) -> Option<u8>
    ensures { result ≡ if_under 3 (height_told (drop 51 text.now)) }
{
    if begins(text, LIFT_LINE, b"street") {
        return Some(0);
    }
    if begins(text, LIFT_LINE, b"rotation") {
        return Some(1);
    }
    if begins(text, LIFT_LINE, b"basement") {
        return Some(2);
    }
    None
}

// The drive with which it goes on and ends.
fn drive_in(text: &[u8], at: usize) -> Option<u8>
    requires { at ≤ 64 }
    ensures { result ≡ if_under 3 (drive_begun (drop at text.now)) }
{
    if begins(text, at, b"\n") {
        return Some(0);
    }
    if begins(text, at, b" in\n") {
        return Some(1);
    }
    if begins(text, at, b" out\n") {
        return Some(2);
    }
    None
}

// What a text tells of the lift.
fn lift_in(text: &[u8]) -> Option<Lift>
    ensures { result ≡ lift_line_told (lift_told (drop 51 text.now)) }
{
    let height = height_in(text)?;
    let name = LIFT_LINE + name_size(height);
    let car = begins(text, name, b" car");
    let drive = drive_in(text, name + car_size(car))?;
    Some(Lift { height, car, drive })
}

// Whether it tells that the lift is set apart, where it tells either.
fn apart_in(text: &[u8]) -> Option<Lift>
    ensures { result ≡ lift_line_told (apart_told (drop 51 text.now)) }
{
    let car = begins(text, LIFT_LINE, b"lift\n");
    let none = begins(text, LIFT_LINE, b"-\n");
    if car | none {
        return Some(apart_lift(car));
    }
    None
}

// What it tells in its last line.
pub fn last_in(apart: bool, text: &[u8]) -> Option<Lift>
    ensures { result ≡ lift_line_told (last_told apart (drop 51 text.now)) }
{
    if apart {
        return apart_in(text);
    }
    lift_in(text)
}

// A bit of the number that shows this in its last line.
pub fn lift_bit(lift: Lift, k: u64) -> bool
    ensures { result ≡ lift_bit lift k }
{
    match k {
        RAISED => lift.car,
        HEIGHT_LOW => lift.height % 2 == 1,
        HEIGHT_HIGH => lift.height / 2 % 2 == 1,
        DRIVE_IN => lift.drive == 1,
        DRIVE_OUT => lift.drive == 2,
        _ => false,
    }
}
