// Reads standard input to its end. An image in hex comes out as its drawing, and a drawing as the image in hex, on standard output; with
// what is set apart, as an ask returns the two, as two drawings and two lines. What is refused is told in one line on standard error. What
// is written and read stands in drawing, what is tried again and what is told of a failure in streams; no contract can say what comes in
// and goes out.
#![tactic(auto)]

ghost use Rattle.std.specs.Prelude.{◌≤◌, length, IfOk};

use drawing::{Hex, Unread};
use streams::{Result, Told};

// The longest input that is read as hex: of one byte more no more is read, and a drawing is not so long.
const LONGEST: usize = 65536;

const ROOM: usize = 65537;

// No drawing of a sound record is longer.
const LONGEST_DRAWING: usize = 66;

// None of what is set apart is.
const LONGEST_APART: usize = 56;

// The lines of a drawing.
const LINES: u8 = 6;

// The place that stands for text after the last line.
const PAST_LAST: u8 = 6;

// Reads to the end of the input, or until the buffer is full.
fn read_all(rt: &HostRuntime, buf: &mut [u8]) -> Result<usize>
    ensures { IfOk result (λ n. n ≤ length buf.new) }
{
    streams::read_all(rt, &mut rt.stdin(), buf, b"draw: standard input").map_err(|_| Told)
}

// Writes the first n bytes of a text; where that fails, it is told.
fn say(rt: &HostRuntime, text: &[u8], n: usize) -> Result<()> {
    streams::send(rt, &mut rt.stdout(), text, n, b"draw: standard output")
}

// Tells something on standard error.
fn tell(rt: &HostRuntime, text: &[u8]) {
    let _ = streams::send(
        rt,
        &mut rt.stderr(),
        text,
        text.len(),
        b"draw: standard error",
    );
}

fn tell_number(rt: &HostRuntime, n: u64) {
    let mut digits = [0u8; 20];
    let k = io::decimal(n, &mut digits);
    tell(rt, &digits[..k]);
}

fn tell_unsound(rt: &HostRuntime) {
    tell(rt, b"draw: 15: the record is not sound\n");
}

// Tells which line is the first bad one, where the drawing's own begin after so many: people count lines from 1, places are counted from 0.
fn tell_bad_line(rt: &HostRuntime, place: u8, before: u8) {
    if place == PAST_LAST {
        tell(rt, b"draw: 41, place 6: text after the last line\n");
        return;
    }
    tell(rt, b"draw: 41, place ");
    tell_number(rt, place as u64);
    tell(rt, b": not a drawing; line ");
    tell_number(rt, place as u64 + before as u64 + 1);
    tell(rt, b" is the first bad one\n");
}

// The drawing of an image.
fn show(rt: &HostRuntime, image: u64) -> Result<()> {
    let mut text = [0u8; LONGEST_DRAWING];
    let Ok(size) = drawing::write(false, image, &mut text) else {
        tell_unsound(rt);
        return Ok(());
    };
    say(rt, &text, size as usize)
}

// The drawings of an image and of what is set apart.
fn show_both(rt: &HostRuntime, image: u64, apart: u64) -> Result<()> {
    let mut text = [0u8; LONGEST_DRAWING];
    let Ok(size) = drawing::write(false, image, &mut text) else {
        tell_unsound(rt);
        return Ok(());
    };
    let mut second = [0u8; LONGEST_APART];
    let Ok(second_size) = drawing::write(true, apart, &mut second) else {
        tell(rt, b"draw: 15: what is set apart has a bit above 52\n");
        return Ok(());
    };
    say(rt, &text, size as usize)?;
    say(rt, &second, second_size as usize)
}

// Draws the image that some hex says.
fn draw_image(rt: &HostRuntime, input: &[u8]) -> Result<()> {
    if LONGEST < input.len() {
        tell(rt, b"draw: not an image in hex: more than 65536 bytes\n");
        return Ok(());
    }
    match drawing::read_hex(input) {
        Some(Hex::Image(image)) => show(rt, image),
        Some(Hex::Asked(image, apart)) => show_both(rt, image, apart),
        None => {
            tell(
                rt,
                b"draw: not an image in hex: sixteen or thirty-two digits are wanted\n",
            );
            Ok(())
        }
    }
}

// Says a number in hex.
fn say_hex(rt: &HostRuntime, number: u64) -> Result<()> {
    let line = drawing::hex_line(number);
    say(rt, &line, 24)
}

// Tells why a drawing is refused that begins after so many lines.
fn tell_refused(rt: &HostRuntime, why: Unread, before: u8) {
    match why {
        Unread::BadLine(place) => tell_bad_line(rt, place, before),
        Unread::Unsound => tell_unsound(rt),
    }
}

// Says the image of a drawing.
fn read_one(rt: &HostRuntime, input: &[u8]) -> Result<()> {
    match drawing::read(false, input) {
        Ok(image) => say_hex(rt, image),
        Err(why) => {
            tell_refused(rt, why, 0);
            Ok(())
        }
    }
}

// Says the image of a drawing and what a second one behind it shows as set apart.
fn read_both(rt: &HostRuntime, first: &[u8], second: &[u8]) -> Result<()> {
    let found = drawing::read(false, first);
    match (found, drawing::read(true, second)) {
        (Ok(image), Ok(apart)) => {
            say_hex(rt, image)?;
            say_hex(rt, apart)
        }
        (Err(why), _) => {
            tell_refused(rt, why, 0);
            Ok(())
        }
        (_, Err(why)) => {
            tell_refused(rt, why, LINES);
            Ok(())
        }
    }
}

// Where the sixth line ends; where there are fewer, the text does.
fn sixth_end(input: &[u8]) -> usize
    ensures { result ≤ length input.now }
{
    streams::lines_end(input, LINES)
}

// A second drawing begins with one of its marks; other text after the last line is refused with the first.
fn read_drawing(rt: &HostRuntime, input: &[u8]) -> Result<()> {
    let end = sixth_end(input);
    match &input[end..] {
        [b'x' | b'.', ..] => read_both(rt, &input[..end], &input[end..]),
        _ => read_one(rt, input),
    }
}

// Hex begins with a digit or a blank, as no line of a floor does.
fn begins_hex(input: &[u8]) -> bool {
    matches!(
        input,
        [
            b'0'..=b'9' | b'A'..=b'F' | b'a'..=b'f' | b' ' | b'\t' | b'\r' | b'\n',
            ..
        ]
    )
}

fn answer(rt: &HostRuntime, input: &[u8]) -> Result<()> {
    if begins_hex(input) {
        return draw_image(rt, input);
    }
    read_drawing(rt, input)
}

// Answers what is read.
fn session(rt: &HostRuntime, buf: &mut [u8]) -> Result<()> {
    let n = read_all(rt, buf)?;
    answer(rt, &buf[..n])
}

fn main(rt: HostRuntime) {
    if commands::told_version(&rt, b"draw", b"draw: standard output") {
        return;
    }
    if commands::has_words(&rt, b"draw: usage: draw < IMAGE-OR-DRAWING\n") {
        return;
    }
    let mut buf = [0u8; ROOM];
    let _ = session(&rt, &mut buf);
}
