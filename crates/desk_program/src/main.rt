// Reads a desk's messages from standard input and writes the answer to each to standard output. What a turn leaves stands in specs/, what
// is tried again and what is told of a failure in streams; no contract can say what is read and written. It keeps no journal.
#![tactic(auto)]

ghost use Rattle.std.specs.Prelude.{◌≡◌, true, false, ◌≤◌, ◌<◌, length};
ghost use Rattle.streams.specs.Input.{Fills};
ghost use Rattle.desk_program.specs.DeskTurns.{desk_turning, AsDeskTurn, DeskGoes, DeskTurnedOver, DeskRoom};

use desk::Desk;
use streams::Unread;

// Kept: have beside the lent buffer (no heap); full and stop are flags, as the edits one_turn and stopped change them (must-fail/).
// Between two turns: the desk, how many bytes are held at the front of the buffer, whether there are whole messages among them whose
// answers had no room, and whether nothing more is to be read.
#[derive(Clone, Copy)]
struct Between {
    desk: Desk,
    have: usize,
    full: bool,
    stop: bool,
}

// Reads once past the bytes that are held.
fn read_on(rt: &HostRuntime, buf: &mut [u8], have: usize) -> Result<Option<usize>, Unread>
    ensures { Fills buf.old have result buf.new }
{
    streams::fill(rt, &mut rt.stdin(), buf, have, b"desk: standard input")
}

// Writes the first n bytes of the answers.
fn say(rt: &HostRuntime, out: &[u8], n: usize) -> streams::Result<()> {
    streams::send(rt, &mut rt.stdout(), out, n, b"desk: standard output")
}

// Nothing more is read or written.
fn stopped(desk: Desk) -> Between
    ensures { result.stop ≡ true }
{
    Between {
        desk,
        have: 0,
        full: false,
        stop: true,
    }
}

// Answers what came whole, as long as there is room for the answers, and holds the rest.
fn answer(
    rt: &HostRuntime,
    d: Desk,
    buf: &mut [u8],
    end: usize,
    out: &mut [u8],
    sent: &mut [u8],
) -> Between
    requires { (end ≤ length buf.old) × DeskRoom buf.old sent.old }
    ensures { DeskGoes result buf.new × AsDeskTurn (desk_turning d buf.old end out.old sent.old) result buf.new out.new sent.new }
{
    let w = desk_buffer::serve(d, &buf[..end], out, sent);
    let said = say(rt, out, w.made).is_ok();
    let have = service::buffer::hold(buf, w.used, end);
    Between {
        desk: w.desk,
        have,
        full: w.full,
        stop: w.stop | !said,
    }
}

// The end of the input, where the first `have` bytes are left over: they are answered with 1.
fn close(rt: &HostRuntime, buf: &[u8], have: usize, out: &mut [u8])
    requires { have ≤ length buf.now }
{
    let w = service::finish(&buf[..have], out);
    let _ = say(rt, out, w.unwrap_or(0));
}

// Answers what is held where its answers had no room before; else reads once, and answers what came whole.
fn one_turn(
    rt: &HostRuntime,
    b: Between,
    buf: &mut [u8],
    out: &mut [u8],
    sent: &mut [u8],
) -> Between
    requires { DeskGoes b buf.old × (b.stop ≡ false) × DeskRoom buf.old sent.old }
    ensures { result.stop ≡ false → DeskGoes result buf.new × DeskTurnedOver b buf.old out.old sent.old result buf.new out.new sent.new }
{
    let d = b.desk;
    let have = b.have;
    if b.full {
        return answer(rt, d, buf, have, out, sent);
    }
    match read_on(rt, buf, have) {
        Ok(Some(end)) => answer(rt, d, buf, end, out, sent),
        Ok(None) => {
            close(rt, buf, have, out);
            stopped(d)
        }
        Err(_) => stopped(d),
    }
}

// Turn after turn; no input is so long that it takes more.
fn session(rt: &HostRuntime, desk: Desk, buf: &mut [u8], out: &mut [u8], sent: &mut [u8])
    requires { DeskRoom buf.old sent.old }
{
    let mut b = Between {
        desk,
        have: 0,
        full: false,
        stop: false,
    };
    for _ in 0..u64::MAX {
        b = one_turn(rt, b, buf, out, sent);
        if b.stop {
            return;
        }
    }
}

// As much input as an append to a journal carries beside the cards, and room for answers and for what the station is sent.
fn main(rt: HostRuntime) {
    if commands::told_version(&rt, b"desk", b"desk: standard output") {
        return;
    }
    if commands::has_words(&rt, b"desk: usage: desk\n") {
        return;
    }
    let mut buf = [0u8; 65368];
    let mut out = [0u8; 327680];
    let mut sent = [0u8; 65368];
    let desk = Desk::start();
    session(&rt, desk, &mut buf, &mut out, &mut sent);
}
