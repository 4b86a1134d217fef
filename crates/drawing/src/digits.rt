// Hex digits: those of an image's line one by one, and those of a text, gathered from between its blanks.
ghost use Rattle.std.specs.Prelude.{◌≡◌, true, ◌+◌, ◌*◌, ◌<◌, ◌≤◌, ltb, get_or};
ghost use Rattle.bits.specs.Search.{every};
ghost use Rattle.drawing.specs.Hex.{digit_of, all_digits, is_blank, hex_number, hex_digit};
ghost use Rattle.drawing.specs.Private.{if_under, hex_at, Gathers};

use super::{Gathered, LINE_FEED};

// The digit of a value.
fn hex_digit(v: u8) -> u8
    requires { v < 16 }
    ensures { result ≡ hex_digit v }
{
    if v < 10 {
        return b'0' + v;
    }
    b'A' - 10 + v
}

// Byte t of an image's line: two digits of a byte, then a space or, after the last, a line feed.
pub fn line_byte(image: u64, t: usize) -> u8
    requires { t < 24 }
    ensures { result ≡ hex_at image t }
{
    let b = image.to_le_bytes()[t / 3];
    match t % 3 {
        0 => hex_digit(b / 16),
        1 => hex_digit(b % 16),
        _ => {
            if t == 23 {
                return LINE_FEED;
            }
            b' '
        }
    }
}

// The value of a digit, small letters or large ones.
fn digit_of(b: u8) -> Option<u8>
    ensures { result ≡ if_under 16 (digit_of b) }
{
    match b {
        b'0'..=b'9' => Some(b - b'0'),
        b'A'..=b'F' => Some(b - b'A' + 10),
        b'a'..=b'f' => Some(b - b'a' + 10),
        _ => None,
    }
}

fn is_blank(b: u8) -> bool
    ensures { result ≡ is_blank b }
{
    matches!(b, b' ' | b'\t' | b'\r' | LINE_FEED)
}

// The bytes of a text that are no blanks, unless there are more than 32.
pub fn gather(text: &[u8]) -> Option<Gathered>
    ensures { Gathers text.now result }
{
    let mut bytes = [0u8; 32];
    let mut count: usize = 0;
    for &b in text {
        if is_blank(b) {
            continue;
        }
        if count == 32 {
            return None;
        }
        bytes[count] = b;
        count += 1;
    }
    Some(Gathered { count, bytes })
}

// Each of them is a digit.
pub fn all_digits(held: &Gathered) -> bool
    requires { held.now.count ≤ 32 }
    ensures { result ≡ all_digits held.now.count held.now.bytes }
{
    for j in 0..held.count {
        if digit_of(held.bytes[j]).is_none() {
            return false;
        }
    }
    true
}

// The number that sixteen digits say, from those of some byte on: two a byte, the lowest byte first.
pub fn number_in(first: usize, held: &Gathered) -> u64
    requires { (first ≤ 8) × (all_digits (2 * first + 16) held.now.bytes ≡ true) }
    ensures { result ≡ hex_number 8 first held.now.bytes }
{
    let mut number: u64 = 0;
    for k in (0..8).rev() {
        let high = digit_of(held.bytes[2 * (first + k)]).unwrap();
        let low = digit_of(held.bytes[2 * (first + k) + 1]).unwrap();
        number = number * 256 + 16 * (high as u64) + low as u64;
    }
    number
}
