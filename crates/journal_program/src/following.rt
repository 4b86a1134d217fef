// A new journal that follows an old one: its head is the station at the old one's end. In this order, each step on the disk before the next
// begins:
// 1. a copy of the old journal, closed by a mark, is written under the new name with .part behind it;
// 2. the head is written under the new name: no station starts on a journal while there is a .part of it;
// 3. the copy gets the old journal's name.
// One call of the system does the last: it puts a closed journal in the old one's place and takes the .part away from the new one. So at
// every moment exactly one of the two can be started. Where power went before, the same words once more begin again.
ghost use Rattle.std.specs.Prelude.{IfOk};
ghost use Rattle.journal_file.specs.Replaying.{FileJournaled};
ghost use Rattle.journal_reader.specs.Reading.{BuffersLent};
ghost use Rattle.journal_program.specs.Telling.{Ends};

use crate::{older, reading};
use journal_reader::Reading;
use station::Station;
use std::fs::File;
use std::os::unix::fs::FileExt;
use streams::Told;

// Where a journal ends that can be followed: the garage's name, its station, the checksum of its last append, how many bytes it has, whether
// it is closed, and whether version 1.0 wrote it.
#[derive(Clone, Copy)]
pub struct End {
    pub garage: [u8; 40],
    pub station: Station,
    pub sum: u32,
    pub place: usize,
    pub closed: bool,
    pub older: bool,
}

// ---- the old one

// Where a journal ends that was read to its last append, behind which nothing may stand.
fn end_at(
    rt: &HostRuntime,
    t: &[u32],
    q: Reading,
    garage: [u8; 40],
    buf: &[u8],
) -> streams::Result<End>
    requires { FileJournaled q.replay q.place }
    ensures { IfOk result (λ e. Ends e) }
{
    reading::check_sound(rt, q, reading::rest(t, q, buf))?;
    if 0 < reading::left_in(q) {
        return Err(journal_files::tell(
            rt,
            b"station: behind the journal's last append are bytes that were never answered: start the station on it once\n",
        ));
    }
    let r = q.replay;
    Ok(End {
        garage,
        station: r.station,
        sum: r.sum,
        place: q.place,
        closed: r.closed,
        older: false,
    })
}

// Whether a file begins as a journal does.
fn is_journal(file: &File) -> bool {
    let mut words = [0u8; 20];
    match file.read_at(&mut words, 0) {
        Ok(n) => commands::is_text(&words[..n], b"Vargsnida, journal.\n"),
        Err(_) => false,
    }
}

// The 40 bytes of a garage's name that stand at this place.
fn name_at(bytes: &[u8], from: usize) -> [u8; 40] {
    let mut name = [0u8; 40];
    if from <= bytes.len() && 40 <= bytes.len() - from {
        codec::copy(&bytes[from..from + 40], &mut name);
    }
    name
}

// Where the journal in a file ends; where a garage is asked for, it must be its, and a journal of version 1.0 is.
fn ended(
    rt: &HostRuntime,
    t: &[u32],
    file: &File,
    asked: &[u8],
    buf: &mut [u8],
    room: &mut [u8],
) -> streams::Result<End>
    requires { BuffersLent t.now room.old }
    ensures { IfOk result (λ e. Ends e) }
{
    if 0 < asked.len() && !is_journal(file) {
        return older::ended(rt, file, name_at(asked, 0), buf, room);
    }
    let start = reading::begun(rt, t, file, asked, buf)?;
    let garage = name_at(buf, 24);
    let q = reading::read_on(rt, t, file, asked, start, false, buf, room)?;
    end_at(rt, t, q, garage, buf)
}

// ---- the closed copy

// Copies the first bytes of the old journal, piece by piece.
fn copy_bytes(
    rt: &HostRuntime,
    from: &File,
    to: &File,
    size: usize,
    buf: &mut [u8],
) -> streams::Result<()> {
    let mut reader: &File = from;
    let mut writer: &File = to;
    let mut left = size;
    while 0 < left {
        let Ok(Some(end)) = streams::fill(
            rt,
            &mut reader,
            buf,
            0,
            b"station: the journal can't be read",
        ) else {
            return Err(Told);
        };
        let n = left.min(end);
        streams::send(
            rt,
            &mut writer,
            buf,
            n,
            b"station: the new journal can't be written",
        )?;
        left -= n;
    }
    Ok(())
}

// Writes the mark that closes the copy.
fn write_mark(rt: &HostRuntime, t: &[u32], to: &File, e: End) -> streams::Result<()> {
    if e.older {
        return older::write_mark(rt, to);
    }
    journal_files::write_append(rt, t, to, e.sum, 4, &[]).map_err(|_| Told)?;
    Ok(())
}

// Writes the old journal's bytes, and the mark that closes it.
fn copy_closed(
    rt: &HostRuntime,
    t: &[u32],
    from: &File,
    to: &File,
    e: End,
    buf: &mut [u8],
) -> streams::Result<()> {
    journal_files::seek_start(from).map_err(|e| streams::fail(
        rt,
        b"station: the journal can't be read",
        e,
    ))?;
    copy_bytes(rt, from, to, e.place, buf)?;
    write_mark(rt, t, to, e)
}

// Makes a file anew.
fn made(rt: &HostRuntime, name: &[u8]) -> streams::Result<File> {
    journal_files::open_overwrite(rt, name).map_err(|e| streams::fail(
        rt,
        b"station: the new journal can't be made",
        e,
    ))
}

// Makes the closed copy, and waits until it is on the disk.
fn write_part(
    rt: &HostRuntime,
    t: &[u32],
    from: &File,
    part: &[u8],
    e: End,
    buf: &mut [u8],
) -> streams::Result<()> {
    let to = made(rt, part)?;
    copy_closed(rt, t, from, &to, e, buf)?;
    journal_files::settle(rt, to, part)
}

// ---- the new one

// Goes on only where the new journal may be made: there is none yet, or only one that was never finished.
fn check_free(rt: &HostRuntime, new: &[u8], part: &[u8]) -> streams::Result<()> {
    if journal_files::is_missing(rt, new) || !journal_files::is_missing(rt, part) {
        return Ok(());
    }
    Err(journal_files::tell(rt, b"station: the new journal is there already\n"))
}

// Writes the head that begins with the old journal's end, and waits until it is on the disk.
fn write_new(rt: &HostRuntime, t: &[u32], new: &[u8], garage: &[u8], e: End) -> streams::Result<()>
    requires { Ends e }
{
    let file = made(rt, new)?;
    journal_files::write_head(rt, t, &file, garage, e.station)?;
    journal_files::settle(rt, file, new)
}

// ---- both

// Puts the closed copy in the old journal's place, and waits until that is on the disk.
fn put_in_place(rt: &HostRuntime, old: &[u8], part: &[u8]) -> streams::Result<()> {
    journal_files::rename(rt, part, old).map_err(|e| streams::fail(
        rt,
        b"station: the old journal can't be closed",
        e,
    ))?;
    journal_files::sync_folder(rt, old)?;
    journal_files::sync_folder(rt, part)
}

// Follows a journal that can be followed, unless it is closed already.
fn change_over(
    rt: &HostRuntime,
    t: &[u32],
    file: &File,
    old: &[u8],
    new: &[u8],
    part: &[u8],
    e: End,
    buf: &mut [u8],
) -> streams::Result<()>
    requires { Ends e }
{
    if e.closed {
        return Err(journal_files::tell(
            rt,
            b"station: the journal is closed: another one follows it already\n",
        ));
    }
    write_part(rt, t, file, part, e, buf)?;
    let garage = e.garage;
    write_new(rt, t, new, &garage, e)?;
    put_in_place(rt, old, part)
}

// Goes on only where the journal of this name has no cards: the new one would not have them.
fn check_cardless(rt: &HostRuntime, old: &[u8]) -> streams::Result<()> {
    let t = checksum::tables();
    let mut buf = [0u8; 131104];
    let mut room = [0u8; 327680];
    if journal_keeper::opening::has_cards(rt, &t, old, &mut buf, &mut room) {
        return Err(journal_files::tell(
            rt,
            b"station: the journal has cards: it can't be followed\n",
        ));
    }
    Ok(())
}

// Follows the old journal by the new one, unless that would lose cards.
pub fn follow(
    rt: &HostRuntime,
    old: &[u8],
    new: &[u8],
    part: &[u8],
    asked: &[u8],
) -> streams::Result<()> {
    check_cardless(rt, old)?;
    follow_on(rt, old, new, part, asked)
}

// The same of the old journal in its file, with tables, a buffer and room.
fn follow_in(
    rt: &HostRuntime,
    t: &[u32],
    file: &File,
    old: &[u8],
    new: &[u8],
    part: &[u8],
    asked: &[u8],
    buf: &mut [u8],
    room: &mut [u8],
) -> streams::Result<()>
    requires { BuffersLent t.now room.old }
{
    let e = ended(rt, t, file, asked, buf, room)?;
    change_over(rt, t, file, old, new, part, e, buf)
}

// What is closed is made under the name of its part.
fn follow_on(
    rt: &HostRuntime,
    old: &[u8],
    new: &[u8],
    part: &[u8],
    asked: &[u8],
) -> streams::Result<()> {
    let file = journal_files::open_update(rt, old)?;
    check_free(rt, new, part)?;
    let t = checksum::tables();
    let mut buf = [0u8; 131104];
    let mut room = [0u8; 655520];
    follow_in(rt, &t, &file, old, new, part, asked, &mut buf, &mut room)
}
