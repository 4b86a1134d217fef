// The journal that the program's arguments ask for: none, FILE, --garage NAME FILE, or --new FILE --garage NAME.
ghost use Rattle.std.specs.Prelude.{◌≡◌, ◌≤◌, [], length, IfOk};
ghost use Rattle.station_program.specs.Opened.{OpenedIfKept};
ghost use Rattle.station_program.specs.Words.{is_new, is_garage_word, is_name};

use journal_keeper::{Journal, unkept};
use std::fs::File;
use streams::Told;

// Whether a word is --new.
fn is_new(word: &[u8]) -> bool
    ensures { result ≡ is_new word.now }
{
    commands::is_text(word, b"--new")
}

// Whether a word is --garage.
fn is_garage_word(word: &[u8]) -> bool
    ensures { result ≡ is_garage_word word.now }
{
    commands::is_text(word, b"--garage")
}

// Whether a word can be a file's name: it is not empty, and no word of another kind.
fn is_name(word: &[u8]) -> bool
    ensures { result ≡ is_name word.now }
{
    if word.len() == 0 {
        return false;
    }
    word[0] != b'-'
}

// Whether argument i is --new.
fn asks_new(rt: &HostRuntime, i: usize) -> bool {
    let mut room = [0u8; 8];
    let n = commands::word(rt, i, &mut room);
    is_new(&room[..n])
}

// Whether argument i is --garage.
fn asks_garage(rt: &HostRuntime, i: usize) -> bool {
    let mut room = [0u8; 16];
    let n = commands::word(rt, i, &mut room);
    is_garage_word(&room[..n])
}

// Tells how the program is used.
fn wrong(rt: &HostRuntime) -> Told {
    streams::tell(
        rt,
        b"station: usage: station, station FILE, station --garage NAME FILE or station --new FILE --garage NAME\n",
    )
}

// Tells what a garage's name is.
fn misnamed(rt: &HostRuntime) -> Told {
    streams::tell(
        rt,
        b"station: usage: the NAME of a garage has 1 to 40 bytes, and no spaces among them\n",
    )
}

// The garage that argument i names, filled up with zeros.
fn garage_name(rt: &HostRuntime, i: usize) -> streams::Result<[u8; 40]> {
    let mut garage = [0u8; 40];
    let n = commands::whole_word(rt, i, &mut garage).map_err(|_| misnamed(rt))?;
    if !journal_file::is_garage(&garage[..n]) {
        return Err(misnamed(rt));
    }
    Ok(garage)
}

// The file that argument i names: its name is put at the front of the room, and has so many bytes.
fn file_name(rt: &HostRuntime, i: usize, name: &mut [u8]) -> streams::Result<usize>
    ensures { IfOk result (λ n. n ≤ length name.new) }
{
    let n = commands::whole_word(rt, i, name).map_err(|e| streams::fail(
        rt,
        b"station: the journal can't be opened",
        e,
    ))?;
    if !is_name(&name[..n]) {
        return Err(wrong(rt));
    }
    Ok(n)
}

// The journal of a name of n bytes; where a garage is asked for, it must be its. One with cards is a desk's: here its cars would move, and
// the cards would stay.
fn of_name(
    rt: &HostRuntime,
    t: &[u32],
    name: &mut [u8],
    n: usize,
    garage: &[u8],
    buf: &mut [u8],
    room: &mut [u8],
) -> streams::Result<(Option<File>, Journal)>
    requires { n ≤ length name.old }
    ensures { IfOk result (λ k. OpenedIfKept t.now room.old garage.now buf.new k.1) }
{
    let (read, found) = journal_keeper::opening::find(rt, t, &name[..n], garage, buf, room)?;
    if found.cards {
        return Err(journal_files::tell(
            rt,
            b"station: the journal has cards: bin/desk starts with it\n",
        ));
    }
    let (file, journal) = journal_keeper::opening::go_on(rt, &Some(read), found, buf, name, n)?;
    Ok((Some(file), journal))
}

// The journal that argument i names.
fn named(
    rt: &HostRuntime,
    t: &[u32],
    i: usize,
    garage: &[u8],
    buf: &mut [u8],
    room: &mut [u8],
) -> streams::Result<(Option<File>, Journal)>
    ensures { IfOk result (λ k. OpenedIfKept t.now room.old garage.now buf.new k.1) }
{
    let mut name = io::buffer();
    let n = file_name(rt, i, &mut name)?;
    of_name(rt, t, &mut name, n, garage, buf, room)
}

// The journal that argument 2 names, made anew for this garage.
fn made(
    rt: &HostRuntime,
    t: &[u32],
    garage: &[u8],
    buf: &mut [u8],
    room: &mut [u8],
) -> streams::Result<(Option<File>, Journal)>
    ensures { IfOk result (λ k. OpenedIfKept t.now room.old garage.now buf.new k.1) }
{
    let mut name = io::buffer();
    let n = file_name(rt, 2, &mut name)?;
    journal_keeper::opening::make(rt, t, &name[..n], garage)?;
    of_name(rt, t, &mut name, n, garage, buf, room)
}

// The journal that is asked for, and its file where one is kept.
pub fn asked(
    rt: &HostRuntime,
    t: &[u32],
    buf: &mut [u8],
    room: &mut [u8],
) -> streams::Result<(Option<File>, Journal)>
    ensures { IfOk result (λ k. OpenedIfKept t.now room.old [] buf.new k.1) }
{
    match commands::word_count(rt) {
        0 | 1 => Ok((None, unkept())),
        2 => named(rt, t, 1, &[], buf, room),
        4 if asks_garage(rt, 1) => {
            let garage = garage_name(rt, 2)?;
            named(rt, t, 3, &garage, buf, room)
        }
        5 if asks_new(rt, 1) & asks_garage(rt, 3) => {
            let garage = garage_name(rt, 4)?;
            made(rt, t, &garage, buf, room)
        }
        _ => Err(wrong(rt)),
    }
}
