// A journal of version 1.0, which is whole messages and nothing else: it is read to its end, so that a new journal can follow it. It is
// closed by a length that no message has, behind the last whole message: version 1.0 does not start on it from then on.
ghost use Rattle.std.specs.Prelude.{◌≡◌, ◌<◌, ◌≤◌, false, length, IfOk};
ghost use Rattle.journal.specs.Journal.{Journaled};
ghost use Rattle.service.specs.Runs.{enough};
ghost use Rattle.journal_program.specs.Telling.{RoomToTell, Ends};

use crate::following::End;
use journal::Replay;
use std::fs::File;
use std::os::unix::fs::FileExt;
use streams::Told;

// Replays what came whole.
fn replayed(r: Replay, buf: &mut [u8], end: usize, room: &mut [u8]) -> Replay
    requires { (end ≤ length buf.old) × (enough (length buf.old) ≤ length room.old) × Journaled r.station r.whole }
    ensures { (result.damaged ≡ false → result.have < 45) × Journaled result.station result.whole }
{
    journal::replay_piece(r, buf, end, room)
}

// Piece after piece; no file is so long that it takes more. Behind a length that is out of range nothing is read.
fn replay_all(
    rt: &HostRuntime,
    file: &File,
    buf: &mut [u8],
    room: &mut [u8],
) -> streams::Result<Replay>
    requires { RoomToTell buf.old room.old }
    ensures { IfOk result (λ r. Journaled r.station r.whole) }
{
    let mut from: &File = file;
    let mut r = journal::begin();
    for _ in 0..u64::MAX {
        match streams::fill(
            rt,
            &mut from,
            buf,
            r.have,
            b"station: the journal can't be read",
        ) {
            Ok(Some(end)) => r = replayed(r, buf, end, room),
            Ok(None) => return Ok(r),
            Err(_) => return Err(Told),
        }
        if r.damaged {
            return Ok(r);
        }
    }
    Ok(r)
}

// Whether the length behind so many bytes is the one that closes the journal.
fn is_closed(file: &File, whole: usize) -> bool {
    let mut length = [0u8; 2];
    matches!(
        file.read_at(&mut length, journal_files::place(whole).cast_unsigned()),
        Ok(2)
    ) && length == [255, 255]
}

// Where it ends, unless it is damaged or has no message.
fn end_of(rt: &HostRuntime, r: Replay, garage: [u8; 40], closed: bool) -> streams::Result<End>
    requires { Journaled r.station r.whole }
    ensures { IfOk result (λ e. Ends e) }
{
    if (r.damaged & !closed) | (r.whole == 0) {
        return Err(journal_files::tell(
            rt,
            b"station: the file is no journal, of version 1.0 neither, or it is empty or damaged\n",
        ));
    }
    Ok(End {
        garage,
        station: r.station,
        sum: 0,
        place: r.whole,
        closed,
        older: true,
    })
}

// Reads it to its end.
fn read_all(
    rt: &HostRuntime,
    file: &File,
    garage: [u8; 40],
    buf: &mut [u8],
    room: &mut [u8],
) -> streams::Result<End>
    requires { RoomToTell buf.old room.old }
    ensures { IfOk result (λ e. Ends e) }
{
    let r = replay_all(rt, file, buf, room)?;
    let closed = is_closed(file, r.whole);
    end_of(rt, r, garage, r.damaged & closed)
}

// Where a journal of version 1.0 ends, which is taken for this garage's, or why it can't be followed is told. The room has place for all
// answers to a full buffer.
pub fn ended(
    rt: &HostRuntime,
    file: &File,
    garage: [u8; 40],
    buf: &mut [u8],
    room: &mut [u8],
) -> streams::Result<End>
    ensures { IfOk result (λ e. Ends e) }
{
    if buf.len() < 45 {
        return Err(Told);
    }
    if room.len() / 5 < buf.len() {
        return Err(Told);
    }
    read_all(rt, file, garage, buf, room)
}

// Writes the length that closes it.
pub fn write_mark(rt: &HostRuntime, file: &File) -> streams::Result<()> {
    let mark = [255u8; 2];
    let mut to: &File = file;
    streams::send(
        rt,
        &mut to,
        &mark,
        2,
        b"station: the new journal can't be written",
    )
}
