// What is done with a journal while no station runs on it: it is described, the messages that it recorded are written, or a new journal that
// follows it is made. bin/station starts this program for the words --describe, --recorded and --follow. No contract can say what a file
// holds; what a journal's bytes are stands in journal_file, and how one is read in journal_reader.
#![tactic(auto)]

ghost use Rattle.std.specs.Prelude.{◌≤◌, length, IfOk};

mod describing;
mod following;
mod older;
mod reading;

use streams::Told;

// Tells how the command is used.
fn wrong(rt: &HostRuntime) -> Told {
    streams::tell(
        rt,
        b"station: usage: station --describe FILE, --recorded FILE or --follow OLD NEW [--garage NAME]\n",
    )
}

// Whether argument i is this word.
fn is_word(rt: &HostRuntime, i: usize, text: &[u8]) -> bool {
    let mut room = [0u8; 16];
    let n = commands::word(rt, i, &mut room);
    commands::is_text(&room[..n], text)
}

// The file that argument i names: its name is put at the front of the room, and has so many bytes.
fn file_name(rt: &HostRuntime, i: usize, name: &mut [u8]) -> streams::Result<usize>
    ensures { IfOk result (λ n. n ≤ length name.new) }
{
    let n = commands::whole_word(rt, i, name).map_err(|e| streams::fail(
        rt,
        b"station: the journal can't be opened",
        e,
    ))?;
    if n == 0 {
        return Err(wrong(rt));
    }
    Ok(n)
}

// The journal that argument 2 names is described.
fn describe(rt: &HostRuntime) -> streams::Result<()> {
    let mut name = io::buffer();
    let n = file_name(rt, 2, &mut name)?;
    describing::describe(rt, &name[..n])
}

// The messages of the journal that argument 2 names are written.
fn write_recorded(rt: &HostRuntime) -> streams::Result<()> {
    let mut name = io::buffer();
    let n = file_name(rt, 2, &mut name)?;
    reading::recorded(rt, &name[..n])
}

// Whether a word is the name of a file that is made for a journal, and not a journal's own.
fn is_part(name: &[u8]) -> bool {
    name.ends_with(b".part")
}

// The journal that argument 2 names is followed by the one that argument 3 names.
fn follow(rt: &HostRuntime, garage: &[u8]) -> streams::Result<()> {
    let mut old = io::buffer();
    let n = file_name(rt, 2, &mut old)?;
    let mut new = io::buffer();
    let m = file_name(rt, 3, &mut new)?;
    if is_part(&old[..n]) || is_part(&new[..m]) {
        return Err(wrong(rt));
    }
    let mut part = new;
    let k = journal_files::beside(&mut part, m, b".part");
    following::follow(rt, &old[..n], &new[..m], &part[..k], garage)
}

// The same for the garage that argument 5 names.
fn follow_in_garage(rt: &HostRuntime) -> streams::Result<()> {
    let mut name = [0u8; 40];
    let n = commands::whole_word(rt, 5, &mut name).map_err(|_| wrong(rt))?;
    if !journal_file::is_garage(&name[..n]) {
        return Err(wrong(rt));
    }
    follow(rt, &name)
}

// What the words ask for.
fn asked(rt: &HostRuntime) -> streams::Result<()> {
    match commands::word_count(rt) {
        3 if is_word(rt, 1, b"--describe") => describe(rt),
        3 if is_word(rt, 1, b"--recorded") => write_recorded(rt),
        4 if is_word(rt, 1, b"--follow") => follow(rt, &[]),
        6 if is_word(rt, 1, b"--follow") && is_word(rt, 4, b"--garage") => follow_in_garage(rt),
        _ => Err(wrong(rt)),
    }
}

fn main(rt: HostRuntime) {
    let _ = asked(&rt);
}
