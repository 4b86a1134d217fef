// What the two readers answer: the station's, to which kinds 128 and 129 are unknown, and the library's. First short and broken inputs and
// images, of which the record and what is set apart are written too; then each kind with each length from 2 to 43, one digit a length, on
// a body of zeros.
//
// What it must write, the file stdout, was worked out by hand. Under two bytes is 1, and a length above 43 is 2; a length of 3 wants
// three bytes after it, so with two 1 comes before the unknown kind, and with three that kind is 3. A result or an answer without an
// issue has length 4 and is 2 to a reader that knows its kind; with one, here the last, it has length 6 and is 0. A result may end done, 1,
// or stuck, 2; an ending of 3 is 4. An image's two numbers are read lowest byte first, the record before what is set apart, and may be any;
// with the record alone it is 2. The kinds' own lengths are 3 for an event, 6 for a result and an answer, 18 for an image in either
// direction and 2 for the question; all others are 2. On a body of zeros the event is 4, since it is neither in nor out, and the rest are
// 0. A request has no count at length 2 and is 2; else its count is zero, so its own length is 3. To the station every message of kinds
// 128 and 129 is 3, since the kind is looked at before its length.
use crate::writing::{hex, number as write_number, text};
use answers::Answer;
use wire::{Message, What};

// The number that a reader answers.
fn number(says: Result<Message, Answer>) -> u8 {
    match says {
        Ok(_) => Answer::Taken.number(),
        Err(answer) => answer.number(),
    }
}

// That of the station's reader, and that of the library's.
fn asked(m: &[u8]) -> u8 {
    number(wire::read_asked(m).says)
}

fn read(m: &[u8]) -> u8 {
    number(wire::read(m).says)
}

// The two numbers of an image, as the library reads it.
fn numbers(rt: &HostRuntime, m: &[u8]) {
    let Ok(message) = wire::read(m).says else {
        return;
    };
    match message.what {
        What::Image { bits, apart } | What::Held { bits, apart } => {
            hex(rt, bits);
            hex(rt, apart);
        }
        _ => {}
    }
}

// Some bytes to both readers; of an image, its two numbers too.
fn odd(rt: &HostRuntime, name: &str, m: &[u8]) {
    let station = asked(m);
    let library = read(m);
    text(rt, name);
    text(rt, ": ");
    write_number(rt, station as u64);
    text(rt, " ");
    write_number(rt, library as u64);
    numbers(rt, m);
    text(rt, "\n")
}

fn cut_short(rt: &HostRuntime) {
    odd(rt, "no bytes", b"");
    odd(rt, "one byte", b"\x02");
    odd(rt, "FF FF", b"\xFF\xFF");
    odd(rt, "03 00 63 00", b"\x03\x00\x63\x00");
    odd(rt, "03 00 63 00 00", b"\x03\x00\x63\x00\x00")
}

fn results(rt: &HostRuntime) {
    odd(rt, "04 00 03 00 07 01", b"\x04\x00\x03\x00\x07\x01");
    odd(
        rt,
        "06 00 03 00 FF FF 07 01",
        b"\x06\x00\x03\x00\xFF\xFF\x07\x01",
    );
    odd(
        rt,
        "06 00 03 00 FF FF 07 02",
        b"\x06\x00\x03\x00\xFF\xFF\x07\x02",
    );
    odd(
        rt,
        "06 00 03 00 FF FF 07 03",
        b"\x06\x00\x03\x00\xFF\xFF\x07\x03",
    )
}

fn told_answers(rt: &HostRuntime) {
    odd(rt, "04 00 80 00 00 FF", b"\x04\x00\x80\x00\x00\xFF");
    odd(
        rt,
        "06 00 80 00 00 FF FF FF",
        b"\x06\x00\x80\x00\x00\xFF\xFF\xFF",
    )
}

fn images(rt: &HostRuntime) {
    odd(
        rt,
        "12 00 04 00 01 .. 10",
        b"\x12\x00\x04\x00\x01\x02\x03\x04\x05\x06\x07\x08\x09\x0A\x0B\x0C\x0D\x0E\x0F\x10",
    );
    odd(
        rt,
        "12 00 81 00 01 .. 10",
        b"\x12\x00\x81\x00\x01\x02\x03\x04\x05\x06\x07\x08\x09\x0A\x0B\x0C\x0D\x0E\x0F\x10",
    );
    odd(
        rt,
        "12 00 04 00 00 .. 00 FF .. FF",
        b"\x12\x00\x04\x00\x00\x00\x00\x00\x00\x00\x00\x00\xFF\xFF\xFF\xFF\xFF\xFF\xFF\xFF",
    );
    odd(
        rt,
        "0A 00 04 00 01 .. 08",
        b"\x0A\x00\x04\x00\x01\x02\x03\x04\x05\x06\x07\x08",
    );
    odd(
        rt,
        "0A 00 81 00 01 .. 08",
        b"\x0A\x00\x81\x00\x01\x02\x03\x04\x05\x06\x07\x08",
    )
}

// A digit for each length: what a reader answers to a message of this kind.
fn lengths<F: Fn(&[u8]) -> u8>(rt: &HostRuntime, answered: F, kind: u8)
    requires { F.IsAlwaysCallable answered }
{
    for length in 2..=43 {
        let mut m = [0u8; 45];
        m[0] = length;
        m[2] = kind;
        write_number(rt, answered(&m) as u64);
    }
}

fn kind(rt: &HostRuntime, kind: u8) {
    text(rt, "kind ");
    write_number(rt, kind as u64);
    text(rt, "\nstation ");
    lengths(rt, asked, kind);
    text(rt, "\nlibrary ");
    lengths(rt, read, kind);
    text(rt, "\n")
}

// Writes all.
pub fn all(rt: &HostRuntime) {
    cut_short(rt);
    results(rt);
    told_answers(rt);
    images(rt);
    for k in [1, 2, 3, 4, 5, 128, 129] {
        kind(rt, k);
    }
}
