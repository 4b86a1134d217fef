// Reads a journal from its head to its last append, and writes the messages of each where that is asked for.
ghost use Rattle.std.specs.Prelude.{◌≡◌, ◌-◌, ◌≤◌, ◌∷◌, [], length, if◌then◌else◌, slice_index, IfOk};
ghost use Rattle.checksum.specs.Slices.{slices};
ghost use Rattle.journal_file.specs.Appends.{carries_messages, lead_of};
ghost use Rattle.journal_file.specs.Statements.{recorded_in};
ghost use Rattle.journal_reader.specs.Reading.{BuffersLent, ReadingWithin, StandsIn};
ghost use Rattle.journal_program.specs.Telling.{IsAppend, ReadsOn};

use journal_reader::{Reading, Rest};
use std::fs::File;
use streams::Told;

// Opens a journal to read it.
pub fn open(rt: &HostRuntime, name: &[u8]) -> streams::Result<File> {
    journal_files::open_read(rt, name).map_err(|e| streams::fail(
        rt,
        b"station: the journal can't be opened",
        e,
    ))
}

// Reads the head. What is no journal, or not of the garage that is asked for, is told, and not read on.
pub fn begun(
    rt: &HostRuntime,
    t: &[u32],
    file: &File,
    asked: &[u8],
    buf: &mut [u8],
) -> streams::Result<Reading>
    ensures { IfOk result (λ q. ReadingWithin q (length buf.new) × (t.now ≡ slices → StandsIn asked.now q buf.new)) }
{
    let b = journal_reader::begin(rt, t, file, buf, b"station: the journal can't be read");
    let q = b.reading;
    if !q.well {
        return Err(Told);
    }
    journal_files::check_head(rt, b.kind, q.end == 0)?;
    if q.end < 128 {
        return Err(Told);
    }
    if buf.len() < 131099 {
        return Err(Told);
    }
    if 0 < asked.len() {
        journal_files::check_garage(rt, asked, &buf[24..64])?;
    }
    Ok(q)
}

// How many bytes an append carries: none are looked at where it is a mark.
fn size_in(append: &[u8]) -> usize
    requires { 13 ≤ length append.now }
    ensures { result ≡ (if carries_messages (slice_index append.now 0) then length append.now - 13 else 0) }
{
    if (append[0] == 1) | (append[0] == 5) {
        return append.len() - 13;
    }
    0
}

// How many of these stand before the messages: the numbers of cards, where it has any.
fn lead_in(append: &[u8]) -> usize
    requires { 13 ≤ length append.now }
    ensures { result ≡ lead_of (slice_index append.now 0) }
{
    if append[0] == 5 {
        return 168;
    }
    0
}

// Writes what was recorded in an append.
fn write_messages(rt: &HostRuntime, append: &[u8], messages: &[u8]) -> streams::Result<()>
    requires { messages.now ≡ recorded_in (append.now ∷ []) }
{
    streams::send(
        rt,
        &mut rt.stdout(),
        messages,
        messages.len(),
        b"station: standard output",
    )
}

// Writes the messages that an append carries.
fn say_messages(rt: &HostRuntime, append: &[u8]) -> streams::Result<()>
    requires { IsAppend append.now }
{
    let n = size_in(append);
    let lead = lead_in(append);
    write_messages(rt, append, &append[8 + lead..8 + n])
}

// Takes the next append, and writes its messages where that is asked for. Where they can't be written nothing more is read.
fn one_append(
    rt: &HostRuntime,
    t: &[u32],
    file: &File,
    asked: &[u8],
    q: Reading,
    tell: bool,
    buf: &mut [u8],
    room: &mut [u8],
) -> streams::Result<Reading>
    requires { BuffersLent t.now room.old × StandsIn asked.now q buf.old }
    ensures { IfOk result (λ r. ReadsOn asked.now r buf.new) }
{
    let r = journal_reader::next(
        rt,
        t,
        file,
        q,
        buf,
        room,
        b"station: the journal can't be read",
    );
    if !r.well {
        return Err(Told);
    }
    if r.took & tell {
        say_messages(rt, &buf[r.from..r.at])?;
    }
    Ok(r)
}

// Append after append; no file is so long that it takes more.
pub fn read_on(
    rt: &HostRuntime,
    t: &[u32],
    file: &File,
    asked: &[u8],
    start: Reading,
    tell: bool,
    buf: &mut [u8],
    room: &mut [u8],
) -> streams::Result<Reading>
    requires { BuffersLent t.now room.old × ReadsOn asked.now start buf.old }
    ensures { IfOk result (λ q. ReadsOn asked.now q buf.new) }
{
    let mut q = start;
    for _ in 0..u64::MAX {
        q = one_append(rt, t, file, asked, q, tell, buf, room)?;
        if !q.took {
            return Ok(q);
        }
    }
    Ok(q)
}

// How many bytes stand behind the last append.
pub fn left_in(q: Reading) -> usize {
    q.end.saturating_sub(q.at)
}

// What they are.
pub fn rest(t: &[u32], q: Reading, buf: &[u8]) -> Rest {
    if q.end < q.at || buf.len() < q.end {
        return Rest::Damaged;
    }
    journal_reader::rest_of(t, q.replay.sum, q.place, &buf[q.at..q.end])
}

// Goes on only where nothing stands behind the last append, or what was never answered; else the damage is told.
pub fn check_sound(rt: &HostRuntime, q: Reading, rest: Rest) -> streams::Result<()> {
    match rest {
        Rest::Damaged => Err(journal_files::tell_damage(rt, q.place, q.appends, q.messages)),
        Rest::Nothing | Rest::Torn => Ok(()),
    }
}

// Writes the messages that the journal in a file has recorded.
fn say_recorded(
    rt: &HostRuntime,
    t: &[u32],
    file: &File,
    buf: &mut [u8],
    room: &mut [u8],
) -> streams::Result<()>
    requires { BuffersLent t.now room.old }
{
    let start = begun(rt, t, file, &[], buf)?;
    let q = read_on(rt, t, file, &[], start, true, buf, room)?;
    check_sound(rt, q, rest(t, q, buf))
}

// Writes the messages that a journal has recorded. Its rooms are not to be in the frame of main, either.
#[inline(never)]
pub fn recorded(rt: &HostRuntime, name: &[u8]) -> streams::Result<()> {
    let file = open(rt, name)?;
    let t = checksum::tables();
    let mut buf = [0u8; 131104];
    let mut room = [0u8; 327680];
    say_recorded(rt, &t, &file, &mut buf, &mut room)
}
