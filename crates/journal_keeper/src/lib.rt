// The journal that a session keeps: the whole messages of each read are appended to it, and waited for until they are on the disk, before
// any of them is answered; so are the numbers of a desk's cards, and what ends a session. What a journal is stands in the crate
// journal_file; no contract can say what a file holds.
#![tactic(auto)]

ghost use Rattle.std.specs.Prelude.{◌≡◌, ◌≤◌, false};
ghost use Rattle.station.specs.Station.{start_of};
ghost use Rattle.journal_keeper.specs.Keeping.{moved_to, AppendAdded, MessagesKept, CardsKept, EndNoted};

mod cutting;
pub mod opening;

use station::Station;
use std::fs::{File, read_link};
use std::io::{Error, Result};
use std::os::fd::AsRawFd;
use std::path::PathBuf;
use streams::Told;

// The station, and the journal that makes it: whether one is kept, under which name the system has the file, how many bytes it has, the
// checksum of its last append, and whether that is the mark of a session's end. Its bytes are all on the disk, and nothing else with them.
// Where none is kept nothing is asked of a disk. The file itself, which is open where one is kept, is handed over beside it: what a file
// holds no contract can say, and all that is here is a value.
#[derive(Clone, Copy)]
pub struct Journal {
    pub station: Station,
    pub sum: u32,
    pub length: usize,
    pub kept: bool,
    pub called: u32,
    pub ended: bool,
}

// A station without a journal.
fn without(station: Station) -> Journal
    ensures { (result.station ≡ station) × (result.kept ≡ false) }
{
    Journal {
        station,
        sum: 0,
        length: 0,
        kept: false,
        called: 0,
        ended: false,
    }
}

// No journal is kept: the station is the start's.
pub fn unkept() -> Journal
    ensures { (result.station ≡ start_of) × (result.kept ≡ false) }
{
    without(Station::start())
}

// The system's error number for a file that is not open.
const NOT_OPEN: i32 = 9;

// Why nothing can be done with a file that is not open.
pub(crate) fn not_open() -> Error {
    Error::from_raw_os_error(NOT_OPEN)
}

// What the system calls a file.
fn name_of(rt: &HostRuntime, file: &File) -> Result<PathBuf> {
    let fd = file.as_raw_fd();
    let link = format!(in rt.alloc(); "/proc/self/fd/{fd}")?;
    read_link(rt, link)
}

// What the system calls a file, as a checksum: another one once the file was renamed, replaced or removed. A name that can't be read counts
// as an empty one.
fn called_now(rt: &HostRuntime, file: &File) -> u32 {
    match name_of(rt, file) {
        Ok(path) => checksum::continue_over(0, path.as_str().as_bytes()),
        Err(_) => checksum::continue_over(0, b""),
    }
}

// Goes on only with a file that still has the name that it was opened under.
fn check_name(rt: &HostRuntime, file: &File, called: u32) -> streams::Result<()> {
    if called_now(rt, file) != called {
        return Err(streams::tell(
            rt,
            b"station: the journal was renamed, replaced or removed\n",
        ));
    }
    Ok(())
}

// Goes on only where what was written is at the end of a file that is so long now, alone, on the disk and under its name. Name and length
// are looked at after the write: of two stations that append at once, neither answers, or only the one whose bytes come first.
fn check_there(rt: &HostRuntime, file: &File, called: u32, after: usize) -> streams::Result<()> {
    file.sync_data().map_err(|e| streams::fail(rt, b"station: the journal can't be synced", e))?;
    check_name(rt, file, called)?;
    journal_files::check_length(rt, file, after)
}

// Puts an append of this kind behind the journal in a file, whose last one has the checksum `was`; it has this station then.
fn add_to(
    rt: &HostRuntime,
    t: &[u32],
    file: &File,
    j: Journal,
    was: u32,
    kind: u8,
    bytes: &[u8],
    next: Station,
    ended: bool,
) -> streams::Result<Journal>
    ensures { AppendAdded t.now j was kind bytes.now next ended result }
{
    let length = j.length.wrapping_add(bytes.len().wrapping_add(13));
    journal_files::check_length(rt, file, j.length)?;
    let Ok(sum) = journal_files::write_append(rt, t, file, was, kind, bytes) else {
        return Err(Told);
    };
    check_there(rt, file, j.called, length)?;
    Ok(Journal {
        station: next,
        sum,
        length,
        kept: true,
        called: j.called,
        ended,
    })
}

// The same where the file is open; where it isn't, that is told.
fn add(
    rt: &HostRuntime,
    t: &[u32],
    file: &Option<File>,
    j: Journal,
    was: u32,
    kind: u8,
    bytes: &[u8],
    next: Station,
    ended: bool,
) -> streams::Result<Journal>
    ensures { AppendAdded t.now j was kind bytes.now next ended result }
{
    match file {
        Some(open) => add_to(rt, t, open, j, was, kind, bytes, next, ended),
        None => Err(streams::fail(
            rt,
            b"station: the journal's length can't be told",
            not_open(),
        )),
    }
}

// Another station, where nothing is to be appended for it.
fn moved(j: Journal, next: Station) -> Journal
    ensures { result ≡ moved_to j next }
{
    Journal { station: next, ..j }
}

// Appends the messages that take the journal's station to the next.
pub fn append(
    rt: &HostRuntime,
    t: &[u32],
    file: &Option<File>,
    j: Journal,
    next: Station,
    bytes: &[u8],
) -> streams::Result<Journal>
    ensures { MessagesKept t.now j next bytes.now result }
{
    if j.kept & (0 < bytes.len()) {
        return add(rt, t, file, j, j.sum, 1, bytes, next, false);
    }
    Ok(moved(j, next))
}

// Appends numbers of cards, 168 bytes, and behind them the messages that take the journal's station to the next, or none.
pub fn append_cards(
    rt: &HostRuntime,
    t: &[u32],
    file: &Option<File>,
    j: Journal,
    next: Station,
    bytes: &[u8],
) -> streams::Result<Journal>
    ensures { CardsKept t.now j next bytes.now result }
{
    if j.kept {
        return add(rt, t, file, j, j.sum, 5, bytes, next, false);
    }
    Ok(moved(j, next))
}

// How many bytes of those that were left a mark carries.
fn carried(n: usize) -> usize
    ensures { (result ≤ n) × (result ≤ 44) }
{
    n.min(44)
}

// Notes what ended the session, with what was left of the input.
pub fn note(
    rt: &HostRuntime,
    t: &[u32],
    file: &Option<File>,
    j: Journal,
    kind: u8,
    left: &[u8],
) -> streams::Result<Journal>
    ensures { EndNoted t.now j kind result }
{
    if j.kept {
        let n = carried(left.len());
        return add(rt, t, file, j, j.sum, kind, &left[..n], j.station, true);
    }
    Ok(j)
}
