// Reads recorded messages from standard input, counts them as the station answers them, and prints the week on standard output. What
// counts stands in weeks, what is printed in lines, what is tried again and what is told of a failure in streams; no contract can say
// what is read and written.
#![tactic(auto)]

ghost use Rattle.std.specs.Prelude.{◌≡◌, ◌≤◌, ◌<◌, length};
ghost use Rattle.report_program.specs.Turning.{count_turn, close_turn, failed_turn, TurnIs, TurnByRead, Short, Week, HasWeek};
ghost use Rattle.streams.specs.Input.{Fills};
ghost use Rattle.totals.specs.Totals.{totals_of, blank};

use station::Station;
use std::fs::{File, OpenOptions};
use std::io::{IsTerminal, Write};
use streams::Unread;
use totals::Totals;

// Where it says how far it is, if that is a terminal: bin/report opens descriptor 3 on its own standard error. The program's is for failures.
const PROGRESS: &str = "/proc/self/fd/3";

// Kept: have beside the lent buffer (no heap); stop and failed are flags, as the edits session and failed change them (must-fail/).
// Between two turns: the station, how many bytes are held at the front of the buffer, the place of the total that is full, whether nothing
// more is to be read, and whether a read failed, so that nothing is to be printed.
#[derive(Clone, Copy)]
struct Between {
    station: Station,
    have: usize,
    full: Option<u8>,
    stop: bool,
    failed: bool,
}

// Reads once past the bytes that are held.
fn read_on(rt: &HostRuntime, buf: &mut [u8], have: usize) -> Result<Option<usize>, Unread>
    ensures { Fills buf.old have result buf.new }
{
    streams::fill(rt, &mut rt.stdin(), buf, have, b"report: standard input")
}

// Counts what came whole, and holds the rest: less than a message, so that a read that brings nothing is always the input's end.
fn count(s: Station, counts: &mut [u32; 52], buf: &mut [u8], end: usize) -> Between
    requires { end ≤ length buf.old }
    ensures { Short result × TurnIs (count_turn (totals_of counts.old) s buf.old end) result counts.new buf.new }
{
    let w = week::count_all(counts, s, &buf[..end]);
    Between {
        station: w.station,
        have: service::buffer::hold(buf, w.used, end),
        full: w.full,
        stop: w.stop,
        failed: false,
    }
}

// The end of the input, where the first `have` bytes are left over.
fn close(s: Station, counts: &mut [u32; 52], buf: &[u8], have: usize) -> Between
    requires { have ≤ length buf.now }
    ensures { TurnIs (close_turn (totals_of counts.old) s buf.now have) result counts.new buf.now }
{
    let full = week::count_end(counts, s, &buf[..have]);
    Between {
        station: s,
        have: 0,
        full,
        stop: true,
        failed: false,
    }
}

// A read failed, and that is told.
fn failed(s: Station) -> Between
    ensures { result ≡ failed_turn s }
{
    Between {
        station: s,
        have: 0,
        full: None,
        stop: true,
        failed: true,
    }
}

// Reads once, counts what came whole, and holds the rest.
fn one_turn(rt: &HostRuntime, t: Between, counts: &mut [u32; 52], buf: &mut [u8]) -> Between
    requires { (t.have < 45) × (45 ≤ length buf.old) }
    ensures { Short result × TurnByRead (totals_of counts.old) t buf.old result counts.new buf.new }
{
    match read_on(rt, buf, t.have) {
        Ok(Some(end)) => count(t.station, counts, buf, end),
        Ok(None) => close(t.station, counts, buf, t.have),
        Err(_) => failed(t.station),
    }
}

// The terminal where it says how far it is, if there is one.
fn progress(rt: &HostRuntime) -> Option<File> {
    let file = OpenOptions::new().write(true).open(rt, PROGRESS).ok()?;
    file.is_terminal().then_some(file)
}

// Writes a byte to the terminal, if there is one.
fn show(shown: &Option<File>, byte: u8) {
    if let Some(file) = shown {
        let mut terminal: &File = file;
        let _ = terminal.write_all(&[byte]);
    }
}

// Says how far it is: a dot for every 1,024 reads, and the end of that line.
fn say_dot(shown: &Option<File>, reads: u64) {
    if reads % 1024 == 0 {
        show(shown, b'.');
    }
}

fn end_dots(shown: &Option<File>, reads: u64) {
    if 1024 <= reads {
        show(shown, b'\n');
    }
}

// Turn after turn, in totals that nothing is counted in yet; no input is so long that it takes more. At its end they are the week of what
// was read.
fn session(
    rt: &HostRuntime,
    shown: &Option<File>,
    counts: &mut [u32; 52],
    buf: &mut [u8],
) -> Between
    requires { (45 ≤ length buf.old) × (counts.old ≡ blank.counts) }
    ensures { HasWeek result counts.new }
{
    let mut t = Between {
        station: Station::start(),
        have: 0,
        full: None,
        stop: false,
        failed: false,
    };
    for reads in 0..u64::MAX {
        t = one_turn(rt, t, counts, buf);
        if t.stop {
            end_dots(shown, reads);
            return t;
        }
        say_dot(shown, reads + 1);
    }
    t
}

// Prints the week.
fn print(rt: &HostRuntime, counts: [u32; 52], full: Option<u8>)
    requires { Week counts full }
{
    let text = report_text::report(Totals { counts }, full);
    let _ = streams::send(
        rt,
        &mut rt.stdout(),
        &text.bytes,
        text.size,
        b"report: standard output",
    );
}

// 64 KiB of input at a time.
fn main(rt: HostRuntime) {
    if commands::told_version(&rt, b"report", b"report: standard output") {
        return;
    }
    if commands::has_words(&rt, b"report: usage: report < MESSAGES\n") {
        return;
    }
    let mut counts = [0u32; 52];
    let mut buf = [0u8; 65536];
    let shown = progress(&rt);
    let t = session(&rt, &shown, &mut counts, &mut buf);
    if t.stop & !t.failed {
        print(&rt, counts, t.full);
    }
}
