// Opens a journal, new or old, and replays what is in it with no output. Where that can't be done one line says why, not a byte of the file
// is changed, and the program does not start: it never falls back to the empty garage. It is found first and gone on with then, so that
// a program can refuse what was found before a byte is changed.
ghost use Rattle.std.specs.Prelude.{◌≡◌, ◌≤◌, false, length, ◌≢◌, IfOk};
ghost use Rattle.checksum.specs.Slices.{slices};
ghost use Rattle.journal_file.specs.Cards.{no_numbers};
ghost use Rattle.journal_reader.specs.Reading.{ReadingWithin, BuffersLent, CardsStand};
ghost use Rattle.journal_reader.specs.declared.Rest.TheVariants.{Damaged};
ghost use Rattle.journal_keeper.specs.Opened.{FoundStands, ReadToEnd, GoneOn};

use super::{Journal, called_now, cutting};
use journal_file::Replay;
use journal_reader::{Reading, Rest};
use station::Station;
use std::fs::File;
use streams::Told;

// A journal that was read to its end: whether an append of it has cards, and the numbers of these. The file is handed over beside it.
#[derive(Clone, Copy)]
pub struct Found {
    pub reading: Reading,
    pub cards: bool,
    pub numbers: [u8; 168],
}

// ---- the replay

// Append after append, and the numbers of cards after each; no file has so many that it takes more.
fn replay_all(
    rt: &HostRuntime,
    t: &[u32],
    file: &File,
    asked: &[u8],
    start: Reading,
    buf: &mut [u8],
    room: &mut [u8],
) -> streams::Result<Found>
    requires { BuffersLent t.now room.old → CardsStand asked.now start false no_numbers buf.old }
    ensures { IfOk result (λ f. ReadingWithin f.reading (length buf.new) × FoundStands t.now room.old asked.now f buf.new) }
{
    let mut q = start;
    let mut cards = false;
    let mut numbers = [0u8; 168];
    for _ in 0..u64::MAX {
        q = journal_reader::next(
            rt,
            t,
            file,
            q,
            buf,
            room,
            b"station: the journal can't be read",
        );
        if !q.well {
            return Err(Told);
        }
        if !q.took {
            return Ok(Found {
                reading: q,
                cards,
                numbers,
            });
        }
        cards = cards | journal_reader::has_cards(q, buf);
        let after = journal_reader::numbers_after(numbers, q, buf);
        numbers = after;
    }
    Err(Told)
}

// Goes on only with a journal that is not closed.
fn check_open(rt: &HostRuntime, q: Reading) -> streams::Result<()>
    ensures { IfOk result (λ u. q.replay.closed ≡ false) }
{
    if q.replay.closed {
        return Err(journal_files::tell(
            rt,
            b"station: the journal is closed: another one follows it, start with that\n",
        ));
    }
    Ok(())
}

// Goes on only with a journal that was read to its end, is not damaged, and not closed.
fn check_end(rt: &HostRuntime, q: Reading, rest: Rest) -> streams::Result<()>
    ensures { IfOk result (λ u. (q.replay.closed ≡ false) × (rest ≢ Damaged)) }
{
    match rest {
        Rest::Nothing | Rest::Torn => check_open(rt, q),
        Rest::Damaged => Err(journal_files::tell_damage(rt, q.place, q.appends, q.messages)),
    }
}

// ---- the file

// Opens the file to append to, in the place of the one that was read, and says what the system calls it.
fn open_to_append(rt: &HostRuntime, name: &[u8]) -> streams::Result<(File, u32)> {
    let file = journal_files::open_append(rt, name).map_err(|e| streams::fail(
        rt,
        b"station: the journal can't be opened",
        e,
    ))?;
    journal_files::sync(rt, &file)?;
    let called = called_now(rt, &file);
    Ok((file, called))
}

// The journal to append to, once all that was replayed is on the disk.
fn to_append(
    rt: &HostRuntime,
    name: &[u8],
    r: Replay,
    place: usize,
) -> streams::Result<(File, Journal)>
    ensures { IfOk result (λ k. (k.1.station ≡ r.station) × (k.1.sum ≡ r.sum) × (k.1.length ≡ place)) }
{
    let (file, called) = open_to_append(rt, name)?;
    let journal = Journal {
        station: r.station,
        sum: r.sum,
        length: place,
        kept: true,
        called,
        ended: false,
    };
    Ok((file, journal))
}

// Reads the head: it must be a good one, and of the garage that is asked for.
fn begun(
    rt: &HostRuntime,
    t: &[u32],
    file: &File,
    asked: &[u8],
    buf: &mut [u8],
) -> streams::Result<Reading>
    ensures { IfOk result (λ q. t.now ≡ slices → CardsStand asked.now q false no_numbers buf.new) }
{
    let b = journal_reader::begin(rt, t, file, buf, b"station: the journal can't be read");
    let q = b.reading;
    if !q.well {
        return Err(Told);
    }
    journal_files::check_head(rt, b.kind, q.end == 0)?;
    if 0 < asked.len() {
        if buf.len() < 64 {
            return Err(Told);
        }
        journal_files::check_garage(rt, asked, &buf[24..64])?;
    }
    Ok(q)
}

// Replays all appends, and looks at what stands behind them: nothing else may.
fn read_all(
    rt: &HostRuntime,
    t: &[u32],
    file: &File,
    asked: &[u8],
    start: Reading,
    buf: &mut [u8],
    room: &mut [u8],
) -> streams::Result<Found>
    requires { BuffersLent t.now room.old → CardsStand asked.now start false no_numbers buf.old }
    ensures { IfOk result (λ f. ReadToEnd t.now room.old asked.now f buf.new) }
{
    let f = replay_all(rt, t, file, asked, start, buf, room)?;
    let q = f.reading;
    let rest = journal_reader::rest_of(t, q.replay.sum, q.place, &buf[q.at..q.end]);
    check_end(rt, q, rest)?;
    journal_files::check_length(rt, file, q.place.wrapping_add(q.end - q.at))?;
    Ok(f)
}

// The journal of this name in its file, replayed, unless --follow has not finished it; where a garage is asked for, it must be its.
fn find_in(
    rt: &HostRuntime,
    t: &[u32],
    file: &File,
    name: &[u8],
    asked: &[u8],
    buf: &mut [u8],
    room: &mut [u8],
) -> streams::Result<Found>
    ensures { IfOk result (λ f. ReadToEnd t.now room.old asked.now f buf.new) }
{
    journal_files::check_finished(rt, name)?;
    let start = begun(rt, t, file, asked, buf)?;
    read_all(rt, t, file, asked, start, buf, room)
}

// The journal of this name, replayed, and its open file; where a garage is asked for, it must be its. Not a byte of it is changed.
pub fn find(
    rt: &HostRuntime,
    t: &[u32],
    name: &[u8],
    asked: &[u8],
    buf: &mut [u8],
    room: &mut [u8],
) -> streams::Result<(File, Found)>
    ensures { IfOk result (λ k. ReadToEnd t.now room.old asked.now k.1 buf.new) }
{
    let file = journal_files::open_update(rt, name)?;
    let found = find_in(rt, t, &file, name, asked, buf, room)?;
    Ok((file, found))
}

// Goes on with the journal that was found in this file; its name is the first n bytes. The file that is returned is open to append to.
pub fn go_on(
    rt: &HostRuntime,
    file: &Option<File>,
    f: Found,
    buf: &[u8],
    name: &mut [u8],
    n: usize,
) -> streams::Result<(File, Journal)>
    ensures { IfOk result (λ k. GoneOn f k.1) }
{
    let q = f.reading;
    if name.len() < n {
        return Err(Told);
    }
    cutting::cut_rest(rt, file, q, buf, name, n)?;
    to_append(rt, &name[..n], q.replay, q.place)
}

// ---- cards

// Whether one of the appends from here on has cards; no file has so many that it takes more.
fn cards_from(
    rt: &HostRuntime,
    t: &[u32],
    file: &File,
    start: Reading,
    buf: &mut [u8],
    room: &mut [u8],
) -> bool {
    let mut q = start;
    for _ in 0..u64::MAX {
        q = journal_reader::next(
            rt,
            t,
            file,
            q,
            buf,
            room,
            b"station: the journal can't be read",
        );
        if !q.took {
            return false;
        }
        if journal_reader::has_cards(q, buf) {
            return true;
        }
    }
    false
}

// Whether a journal has cards, for those who can't go on with such a one. What else may be wrong with it is not told.
pub fn has_cards(
    rt: &HostRuntime,
    t: &[u32],
    name: &[u8],
    buf: &mut [u8],
    room: &mut [u8],
) -> bool {
    let Ok(file) = journal_files::open_read(rt, name) else {
        return false;
    };
    let b = journal_reader::begin(rt, t, &file, buf, b"station: the journal can't be read");
    cards_from(rt, t, &file, b.reading, buf, room)
}

// ---- a new one

// Makes the file, and waits until it and its name are on the disk.
pub fn make(rt: &HostRuntime, t: &[u32], name: &[u8], garage: &[u8]) -> streams::Result<()> {
    let file = journal_files::create(rt, name).map_err(|e| streams::fail(
        rt,
        b"station: the journal can't be made",
        e,
    ))?;
    journal_files::write_head(rt, t, &file, garage, Station::start())?;
    journal_files::settle(rt, file, name)
}
