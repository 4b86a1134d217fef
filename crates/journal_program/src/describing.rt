// Tells what a journal is: a name and a value a line. It takes no lock and changes nothing, also while a station runs on the journal.
ghost use Rattle.std.specs.Prelude.{[], ◌≤◌, length};
ghost use Rattle.journal_reader.specs.Reading.{BuffersLent};
ghost use Rattle.journal_program.specs.Telling.{ReadsOn};

use crate::reading;
use journal_reader::{Reading, Rest};
use std::fs::File;

// Writes some text.
fn say(rt: &HostRuntime, text: &[u8]) -> streams::Result<()> {
    streams::send(
        rt,
        &mut rt.stdout(),
        text,
        text.len(),
        b"station: standard output",
    )
}

// Writes some text and a number; after a write that failed nothing more is written.
fn say_number(rt: &HostRuntime, text: &[u8], n: u64) -> streams::Result<()> {
    let mut digits = [0u8; 20];
    let k = io::decimal(n, &mut digits);
    say(rt, text)?;
    say(rt, &digits[..k])
}

// The garage's name.
fn say_garage(rt: &HostRuntime, name: &[u8]) -> streams::Result<()> {
    say(rt, b"garage ")?;
    say(rt, &name[..journal_files::name_size(name)])
}

// The version that made the journal, and its format.
fn say_version(rt: &HostRuntime, head: &[u8]) -> streams::Result<()>
    requires { 24 ≤ length head.now }
{
    say_number(rt, b"\nversion ", u64::from(head[23]))?;
    say_number(rt, b".", u64::from(head[22]))?;
    say_number(rt, b".", u64::from(head[21]))?;
    say_number(rt, b"\nformat ", u64::from(head[20]))
}

// Whether a station is the start's: that of a garage that has not moved yet.
fn is_start(station: &[u8]) -> bool {
    let start = rooms::station_bytes(station::Station::start());
    commands::is_text(station, &start)
}

// What the journal begins with: the start or a snapshot, and the record.
fn say_beginning(rt: &HostRuntime, station: &[u8]) -> streams::Result<()> {
    if is_start(station) {
        say(rt, b"\nbeginning start ")?;
    } else {
        say(rt, b"\nbeginning snapshot ")?;
    }
    let s = rooms::station_of(station);
    let mut digits = [0u8; 16];
    let k = io::hex(s.bits, 16, &mut digits);
    say(rt, &digits[..k])
}

// What the head says.
fn say_head(rt: &HostRuntime, head: &[u8]) -> streams::Result<()>
    requires { 124 ≤ length head.now }
{
    say_garage(rt, &head[24..64])?;
    say_version(rt, head)?;
    say_beginning(rt, &head[64..124])
}

// How much was read.
fn say_counts(rt: &HostRuntime, q: Reading, left: usize) -> streams::Result<()> {
    say_number(rt, b"\nmessages ", q.messages as u64)?;
    say_number(rt, b"\nappends ", q.appends as u64)?;
    say_number(rt, b"\nbytes ", q.place.wrapping_add(left) as u64)
}

// Whether the journal is whole.
fn say_state(rt: &HostRuntime, q: Reading, left: usize, rest: Rest) -> streams::Result<()> {
    match rest {
        Rest::Nothing if q.replay.closed => say(rt, b"\nstate closed\n"),
        Rest::Nothing => say(rt, b"\nstate whole\n"),
        Rest::Torn => {
            say_number(rt, b"\nstate torn ", left as u64)?;
            say(rt, b" bytes\n")
        }
        Rest::Damaged => {
            say_number(rt, b"\nstate damaged at byte ", q.place as u64)?;
            say(rt, b"\n")
        }
    }
}

// What was read, and what stands behind it.
fn say_end(rt: &HostRuntime, t: &[u32], q: Reading, buf: &[u8]) -> streams::Result<()> {
    let left = reading::left_in(q);
    say_counts(rt, q, left)?;
    say_state(rt, q, left, reading::rest(t, q, buf))
}

// Reads on behind the head.
fn say_rest(
    rt: &HostRuntime,
    t: &[u32],
    file: &File,
    start: Reading,
    buf: &mut [u8],
    room: &mut [u8],
) -> streams::Result<()>
    requires { BuffersLent t.now room.old × ReadsOn [] start buf.old }
{
    let q = reading::read_on(rt, t, file, &[], start, false, buf, room)?;
    say_end(rt, t, q, buf)
}

// Tells what the journal in a file is; after a write that failed nothing more is written.
fn tell(
    rt: &HostRuntime,
    t: &[u32],
    file: &File,
    buf: &mut [u8],
    room: &mut [u8],
) -> streams::Result<()>
    requires { BuffersLent t.now room.old }
{
    let start = reading::begun(rt, t, file, &[], buf)?;
    say_head(rt, buf)?;
    say_rest(rt, t, file, start, buf, room)
}

// Tells what the journal of this name is. Its rooms are not to be in the frame of main, below which a journal is followed with others.
#[inline(never)]
pub fn describe(rt: &HostRuntime, name: &[u8]) -> streams::Result<()> {
    let file = reading::open(rt, name)?;
    let t = checksum::tables();
    let mut buf = [0u8; 131104];
    let mut room = [0u8; 327680];
    tell(rt, &t, &file, &mut buf, &mut room)
}
