// What the programs that change journals share: what they tell of one, and how bytes and names come to the disk. What the system writes no
// contract can say; so what is to be written is asked for where it is handed over.
#![tactic(auto)]

ghost use Rattle.std.specs.Prelude.{◌≡◌, is_ok, IfOk, IfErr, ◌++◌};
ghost use Rattle.io.specs.Counts.{IsPrefixLen};
ghost use Rattle.checksum.specs.Slices.{crc_by};
ghost use Rattle.commands.specs.Words.{is_text};
ghost use Rattle.journal_file.specs.Appends.{sum_after, append_of};
ghost use Rattle.journal_file.specs.Heads.{head_bytes};
ghost use Rattle.journal_files.specs.Places.{file_offset, is_good_head};

use journal_file::Kind;
use station::Station;
use std::fs::{File, OpenOptions};
use std::io::{Error, ErrorKind, Result, Seek, SeekFrom};
use streams::Told;

// ---- what is told

pub fn tell(rt: &HostRuntime, text: &[u8]) -> Told {
    streams::tell(rt, text)
}

// Tells a number and what follows it.
pub fn tell_number(rt: &HostRuntime, n: usize, text: &[u8]) -> Told {
    let mut digits = [0u8; 20];
    let k = io::decimal(n as u64, &mut digits);
    tell(rt, &digits[..k]);
    tell(rt, text)
}

// Tells where a journal is damaged: at this place, behind so many appends and messages.
pub fn tell_damage(rt: &HostRuntime, place: usize, appends: usize, messages: usize) -> Told {
    tell(rt, b"station: the journal is damaged at byte ");
    tell_number(rt, place, b", in append ");
    tell_number(rt, std::num::wrapping_add_usize(appends, 1), b" behind ");
    tell_number(
        rt,
        messages,
        b" messages; nothing is answered: put a good copy in its place\n",
    )
}

// Goes on only with a good head; why it isn't one is told.
pub fn check_head(rt: &HostRuntime, kind: Kind, empty: bool) -> streams::Result<()>
    ensures { is_ok result ≡ is_good_head kind empty }
{
    if empty {
        return Err(tell(
            rt,
            b"station: the journal is an empty file: put the right one in its place, or make one with --new\n",
        ));
    }
    match kind {
        Kind::NoJournal => Err(tell(
            rt,
            b"station: the file is no journal of a station (one of version 1.0 is taken over: --follow OLD NEW --garage NAME)\n",
        )),
        Kind::OtherFormat => Err(tell(
            rt,
            b"station: the journal has another format: start the version of station that wrote it\n",
        )),
        Kind::Damaged => Err(tell(
            rt,
            b"station: the journal's head is damaged; nothing is answered: put a good copy in its place\n",
        )),
        Kind::Unfit => Err(tell(
            rt,
            b"station: the journal begins with a station that is not fit; put a good copy in its place\n",
        )),
        Kind::Good => Ok(()),
    }
}

// How many bytes there are up to the last that passes.
fn up_to_last<F: Fn(u8) -> bool>(name: &[u8], passes: F) -> usize
    requires { F.IsAlwaysCallable passes }
    ensures { IsPrefixLen result name.now }
{
    for (i, b) in name.iter().enumerate().rev() {
        if passes(*b) {
            return i + 1;
        }
    }
    0
}

// How many bytes of a garage's name there are before the zeros.
pub fn name_size(name: &[u8]) -> usize
    ensures { IsPrefixLen result name.now }
{
    up_to_last(name, |b| b != 0)
}

// Goes on only with a journal of this name that is the garage's that is asked for; else both are told.
pub fn check_garage(rt: &HostRuntime, asked: &[u8], name: &[u8]) -> streams::Result<()>
    ensures { is_ok result ≡ is_text asked.now name.now }
{
    if commands::is_text(name, asked) {
        return Ok(());
    }
    tell(rt, b"station: the journal is of the garage ");
    tell(rt, &name[..name_size(name)]);
    tell(rt, b", not of ");
    tell(rt, &asked[..name_size(asked)]);
    Err(tell(rt, b"\n"))
}

// ---- the disk

// A number of bytes as a place in a file; no file goes further than 2^63.
pub fn place(n: usize) -> i64
    ensures { result ≡ file_offset n }
{
    // Kept: `i64::try_from(n).unwrap_or(-1)`, reason (c): its `SFits` could not be brought to the bound in `file_offset`.
    if n < 9223372036854775808 {
        return n as i64;
    }
    -1
}

// The error number for a name that is no text: the system could have a file of that name, but std opens files by text alone.
const NO_TEXT: i32 = 84;

// A file's name as text.
fn text_of(name: &[u8]) -> Result<&str> {
    std::str::from_utf8(name).map_err(|_| Error::from_raw_os_error(NO_TEXT))
}

// Opens the file of this name to read it.
pub fn open_read(rt: &HostRuntime, name: &[u8]) -> Result<File> {
    File::open(rt, text_of(name)?)
}

// Opens the file of this name to write behind its end.
pub fn open_append(rt: &HostRuntime, name: &[u8]) -> Result<File> {
    OpenOptions::new().append(true).open(rt, text_of(name)?)
}

// Makes a file of this name; there must be none yet.
pub fn create(rt: &HostRuntime, name: &[u8]) -> Result<File> {
    OpenOptions::new()
        .write(true)
        .create_new(true)
        .open(rt, text_of(name)?)
}

// Makes a file of this name, or empties the one that is there.
pub fn open_overwrite(rt: &HostRuntime, name: &[u8]) -> Result<File> {
    File::create(rt, text_of(name)?)
}

// Gives the file of one name another, in the place of what may be there.
pub fn rename(rt: &HostRuntime, from: &[u8], to: &[u8]) -> Result<()> {
    std::fs::rename(rt, text_of(from)?, text_of(to)?)
}

// Where a file ends, and the next read or write begins there.
fn seek_end(file: &File) -> Result<u64> {
    let mut at: &File = file;
    at.seek(SeekFrom::End(0))
}

// Goes back to a file's beginning.
pub fn seek_start(file: &File) -> Result<u64> {
    let mut at: &File = file;
    at.seek(SeekFrom::Start(0))
}

// Goes on only with a file that is so long; else that is told. What is written next stands at its end.
pub fn check_length(rt: &HostRuntime, file: &File, n: usize) -> streams::Result<()> {
    let end = seek_end(file).map_err(|e| streams::fail(
        rt,
        b"station: the journal's length can't be told",
        e,
    ))?;
    if end.cast_signed() != place(n) {
        return Err(tell(
            rt,
            b"station: the journal has another length than it should: is another station running on it?\n",
        ));
    }
    Ok(())
}

// Opens the folder that the name stands in: the bytes up to the last slash.
fn open_folder(rt: &HostRuntime, name: &[u8]) -> Result<File> {
    let n = up_to_last(name, |b| b == b'/');
    if n == 0 {
        return open_read(rt, b".");
    }
    open_read(rt, &name[..n])
}

// Waits until a name is on the disk.
pub fn sync_folder(rt: &HostRuntime, name: &[u8]) -> streams::Result<()> {
    let folder = open_folder(rt, name).map_err(|e| streams::fail(
        rt,
        b"station: the journal's folder can't be opened",
        e,
    ))?;
    folder.sync_all().map_err(|e| streams::fail(
        rt,
        b"station: the journal's folder can't be synced",
        e,
    ))
}

// Waits until all that was written is on the disk.
pub fn sync(rt: &HostRuntime, file: &File) -> streams::Result<()> {
    file.sync_all().map_err(|e| streams::fail(rt, b"station: the journal can't be synced", e))
}

// Waits until a file that was written and its name are on the disk, and closes it.
pub fn settle(rt: &HostRuntime, file: File, name: &[u8]) -> streams::Result<()> {
    sync(rt, &file)?;
    sync_folder(rt, name)
}

// Opens a journal to read and to change it; what has no places, as a pipe, is none.
pub fn open_update(rt: &HostRuntime, name: &[u8]) -> streams::Result<File> {
    let file = update(rt, name).map_err(|e| streams::fail(
        rt,
        b"station: the journal can't be opened",
        e,
    ))?;
    seek_start(&file).map_err(|e| streams::fail(rt, b"station: the journal is no plain file", e))?;
    Ok(file)
}

// Opens the file of this name to read and to change it.
fn update(rt: &HostRuntime, name: &[u8]) -> Result<File> {
    OpenOptions::new()
        .read(true)
        .write(true)
        .open(rt, text_of(name)?)
}

// Puts an ending behind a name of n bytes, and says how many there are then; 0 where there is no room.
pub fn beside(name: &mut [u8], n: usize, ending: &[u8]) -> usize
    ensures { IsPrefixLen result name.new }
{
    if name.len() < n {
        return 0;
    }
    if name.len() - n < ending.len() {
        return 0;
    }
    let end = n + ending.len();
    codec::copy(ending, &mut name[n..end]);
    end
}

// Whether no file has this name. One that is no text is missing too: it can't be opened, and whoever makes it is told so.
pub fn is_missing(rt: &HostRuntime, name: &[u8]) -> bool {
    match open_read(rt, name) {
        Ok(_) => false,
        Err(e) => {
            matches!(e.kind(), ErrorKind::NotFound) | matches!(e.raw_os_error(), Some(NO_TEXT))
        }
    }
}

// Goes on only with a journal that is finished: while --follow makes it, a file of its name with .part behind it is there, and that is
// told. No name is longer than the room for it.
pub fn check_finished(rt: &HostRuntime, name: &[u8]) -> streams::Result<()> {
    let mut part = io::buffer();
    if part.len() < name.len() {
        return Err(Told);
    }
    codec::copy(name, &mut part);
    let n = beside(&mut part, name.len(), b".part");
    if !is_missing(rt, &part[..n]) {
        return Err(tell(
            rt,
            b"station: the journal is not finished: the file with .part behind its name is there; give --follow once more\n",
        ));
    }
    Ok(())
}

// ---- what is written

fn write(rt: &HostRuntime, file: &File, bytes: &[u8]) -> streams::Result<()> {
    let mut to: &File = file;
    streams::send(
        rt,
        &mut to,
        bytes,
        bytes.len(),
        b"station: the journal can't be written",
    )
}

// Writes three parts, which are an append behind one with this checksum.
fn write_parts(
    rt: &HostRuntime,
    t: &[u32],
    file: &File,
    was: u32,
    kind: u8,
    opening: &[u8],
    bytes: &[u8],
    closing: &[u8],
) -> streams::Result<()>
    requires { opening.now ++ (bytes.now ++ closing.now) ≡ append_of (crc_by t.now) was kind bytes.now }
{
    write(rt, file, opening)?;
    write(rt, file, bytes)?;
    write(rt, file, closing)
}

// An append could not be written, and that was told: the checksum that it was to have.
#[derive(Clone, Copy, Debug, PartialEq, Eq)]
pub struct Unwritten {
    pub sum: u32,
}

// Writes an append of this kind behind one with this checksum, and returns its own.
pub fn write_append(
    rt: &HostRuntime,
    t: &[u32],
    file: &File,
    was: u32,
    kind: u8,
    bytes: &[u8],
) -> streams::Result<u32, Unwritten>
    ensures { IfOk result (λ sum. sum ≡ sum_after (crc_by t.now) was kind bytes.now) × IfErr result (λ e. e.sum ≡ sum_after (crc_by t.now) was kind bytes.now) }
{
    let opening = journal_file::opening(t, was, kind, bytes.len());
    let sum = journal_file::sum_after(t, was, kind, bytes);
    let closing = journal_file::closing(sum);
    match write_parts(rt, t, file, was, kind, &opening, bytes, &closing) {
        Ok(()) => Ok(sum),
        Err(_) => Err(Unwritten { sum }),
    }
}

// Writes four parts, which are the head of a garage with this name that begins with this station.
fn write_titled(
    rt: &HostRuntime,
    t: &[u32],
    file: &File,
    station: Station,
    title: &[u8],
    garage: &[u8],
    bytes: &[u8],
    sum: &[u8],
) -> streams::Result<()>
    requires { title.now ++ (garage.now ++ (bytes.now ++ sum.now)) ≡ head_bytes (crc_by t.now) garage.now station }
{
    write(rt, file, title)?;
    write(rt, file, garage)?;
    write(rt, file, bytes)?;
    write(rt, file, sum)
}

// Writes the head of a garage with this name, filled up with zeros, which begins with this station.
pub fn write_head(
    rt: &HostRuntime,
    t: &[u32],
    file: &File,
    garage: &[u8],
    station: Station,
) -> streams::Result<()> {
    let title = journal_file::title();
    let bytes = rooms::station_bytes(station);
    let sum = codec::four_bytes(journal_file::head_sum(t, garage, station));
    write_titled(rt, t, file, station, &title, garage, &bytes, &sum)
}
