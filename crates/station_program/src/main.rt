// Reads messages from standard input and writes the answer to each to standard output: one read and one write a turn, and between them one
// append to the journal, where one is kept. What a turn leaves stands in turns, what is tried again and what is told of a failure in
// streams; no contract can say what is read and written.
#![tactic(auto)]

ghost use Rattle.std.specs.Prelude.{◌≡◌, true, false, ◌≤◌, ◌<◌, length, take, IfOk};
ghost use Rattle.checksum.specs.Slices.{slices};
ghost use Rattle.journal.specs.Journal.{Follows};
ghost use Rattle.journal_file.specs.Appends.{most_carried};
ghost use Rattle.service.specs.Runs.{enough};
ghost use Rattle.journal_keeper.specs.Keeping.{Noted};
ghost use Rattle.station_program.specs.Keeping.{StationMakes, Goes, AsTurn, TurnedOver, RoomForAnswers};
ghost use Rattle.streams.specs.Input.{Fills};
ghost use Rattle.service.specs.Turns.{turning};

mod asking;

use journal_keeper::Journal;
use station::Station;
use std::fs::File;
use streams::{Told, Unread};

// Kept: have beside the lent buffer (no heap); stop is a flag, as the edit stopped changes it (must-fail/wrong_programs.edit).
// Between two turns: the station with its journal, how many bytes are held at the front of the buffer, and whether nothing more is to be
// read.
#[derive(Clone, Copy)]
struct Between {
    journal: Journal,
    have: usize,
    stop: bool,
}

// Reads once past the bytes that are held.
fn read_on(rt: &HostRuntime, buf: &mut [u8], have: usize) -> Result<Option<usize>, Unread>
    ensures { Fills buf.old have result buf.new }
{
    streams::fill(rt, &mut rt.stdin(), buf, have, b"station: standard input")
}

// Writes the first n bytes of the answers. The messages that they answer are in the journal by then, and so is the mark of a session that
// these answers end.
fn say(rt: &HostRuntime, j: Journal, ended: bool, out: &[u8], n: usize) -> streams::Result<()>
    requires { StationMakes j × Noted ended j }
{
    streams::send(rt, &mut rt.stdout(), out, n, b"station: standard output")
}

// Nothing more is read or written.
fn stopped(j: Journal) -> Between
    ensures { (result.stop ≡ true) × (result.journal ≡ j) }
{
    Between {
        journal: j,
        have: 0,
        stop: true,
    }
}

// Appends the messages that were taken; where a length out of range stopped the turn, that is noted too.
fn record(
    rt: &HostRuntime,
    t: &[u32],
    file: &Option<File>,
    j: Journal,
    buf: &[u8],
    used: usize,
    end: usize,
    next: Station,
    stop: bool,
) -> streams::Result<Journal>
    requires { (used ≤ end) × (end ≤ length buf.now) × (length buf.now ≤ most_carried) × (t.now ≡ slices) × StationMakes j × Follows j.station (take used buf.now) next }
    ensures { IfOk result (λ k. (k.station ≡ next) × Noted stop k × StationMakes k) }
{
    let kept = journal_keeper::append(rt, t, file, j, next, &buf[..used])?;
    if stop {
        return journal_keeper::note(rt, t, file, kept, 3, &buf[used..end]);
    }
    Ok(kept)
}

// Works out the answers to what came whole, appends it to the journal, and only then writes them. The rest is held: less than a message, so
// that a read that brings nothing is always the input's end.
fn answer(
    rt: &HostRuntime,
    t: &[u32],
    file: &Option<File>,
    j: Journal,
    buf: &mut [u8],
    end: usize,
    out: &mut [u8],
) -> streams::Result<Between>
    requires { (end ≤ length buf.old) × (enough (length buf.old) ≤ length out.old) × (length buf.old ≤ most_carried) × (t.now ≡ slices) × StationMakes j }
    ensures { IfOk result (λ b. Goes b × AsTurn (turning j.station buf.old end out.old) b buf.new out.new) }
{
    let w = service::serve(j.station, &buf[..end], out);
    let kept = record(rt, t, file, j, buf, w.used, end, w.station, w.stop)?;
    let sent = say(rt, kept, w.stop, out, w.made).is_ok();
    let have = service::buffer::hold(buf, w.used, end);
    Ok(Between {
        journal: kept,
        have,
        stop: w.stop | !sent,
    })
}

// The end of the input, where the first `have` bytes are left over: that is noted before it is answered.
fn close(
    rt: &HostRuntime,
    t: &[u32],
    file: &Option<File>,
    j: Journal,
    buf: &[u8],
    have: usize,
    out: &mut [u8],
) -> streams::Result<()>
    requires { (have ≤ length buf.now) × (t.now ≡ slices) × StationMakes j }
{
    if have == 0 {
        return Ok(());
    }
    let noted = journal_keeper::note(rt, t, file, j, 2, &buf[..have])?;
    let w = service::finish(&buf[..have], out);
    say(rt, noted, true, out, w.unwrap_or(0))
}

// Reads once, answers what came whole, and holds the rest. It goes on only after a turn over what was read that goes on; after a read that
// failed nothing more is written.
fn one_turn(
    rt: &HostRuntime,
    t: &[u32],
    file: &Option<File>,
    b: Between,
    buf: &mut [u8],
    out: &mut [u8],
) -> streams::Result<Between>
    requires { (b.have < 45) × RoomForAnswers buf.old out.old × (t.now ≡ slices) × StationMakes b.journal }
    ensures { IfOk result (λ n. Goes n × (n.stop ≡ false → TurnedOver b.journal.station b.have buf.old out.old n buf.new out.new)) }
{
    let j = b.journal;
    let have = b.have;
    match read_on(rt, buf, have) {
        Ok(Some(end)) => answer(rt, t, file, j, buf, end, out),
        Ok(None) => {
            close(rt, t, file, j, buf, have, out)?;
            Ok(stopped(j))
        }
        Err(_) => Err(Told),
    }
}

// Turn after turn; no input is so long that it takes more.
fn session(
    rt: &HostRuntime,
    t: &[u32],
    file: &Option<File>,
    j: Journal,
    buf: &mut [u8],
    out: &mut [u8],
) -> streams::Result<()>
    requires { RoomForAnswers buf.old out.old × (t.now ≡ slices) × StationMakes j }
{
    let mut b = Between {
        journal: j,
        have: 0,
        stop: false,
    };
    for _ in 0..u64::MAX {
        b = one_turn(rt, t, file, b, buf, out)?;
        if b.stop {
            break;
        }
    }
    Ok(())
}

// The session, in the first 64 KiB of the buffer.
fn begin(
    rt: &HostRuntime,
    t: &[u32],
    file: &Option<File>,
    j: Journal,
    buf: &mut [u8],
    out: &mut [u8],
) -> streams::Result<()>
    requires { (65536 ≤ length buf.old) × (enough 65536 ≤ length out.old) × (t.now ≡ slices) × StationMakes j }
{
    session(rt, t, file, j, &mut buf[..65536], out)
}

// 64 KiB of input, and room for all answers to it; more room to read a journal.
fn main(rt: HostRuntime) {
    if commands::told_version(&rt, b"station", b"station: standard output") {
        return;
    }
    let t = checksum::tables();
    let mut buf = [0u8; 135168];
    let mut out = [0u8; 327680];
    if let Ok((file, j)) = asking::asked(&rt, &t, &mut buf, &mut out) {
        let _ = begin(&rt, &t, &file, j, &mut buf, &mut out);
    }
}
