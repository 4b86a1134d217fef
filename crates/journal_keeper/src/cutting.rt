// What stands behind the last append of a journal that is gone on with: it was never answered. It is kept in a file beside the journal, and
// only once that is on the disk is it cut off.

use super::not_open;
use journal_reader::Reading;
use std::fs::File;
use std::io::Result;
use streams::Told;

// Tells what was cut off.
fn tell_torn(rt: &HostRuntime, place: usize, n: usize, name: &[u8]) {
    journal_files::tell(rt, b"station: note: ");
    journal_files::tell_number(rt, n, b" bytes behind byte ");
    journal_files::tell_number(
        rt,
        place,
        b" of the journal were never answered; they are cut off and kept in ",
    );
    journal_files::tell(rt, name);
    journal_files::tell(rt, b"\n");
}

// Opens the file for what is cut off, made where it is missing.
fn open_torn(rt: &HostRuntime, name: &[u8]) -> Result<File> {
    journal_files::open_append(rt, name).or_else(|_| journal_files::create(rt, name))
}

// Keeps bytes that are to be cut off in a file, and waits until they are on the disk.
fn keep_in(rt: &HostRuntime, file: &File, rest: &[u8]) -> streams::Result<()> {
    let mut to: &File = file;
    streams::send(
        rt,
        &mut to,
        rest,
        rest.len(),
        b"station: the file beside the journal can't be written",
    )?;
    file.sync_all().map_err(|e| {
        streams::fail(
            rt,
            b"station: the file beside the journal can't be synced",
            e,
        )
    })
}

// Keeps bytes that are to be cut off in the file of this name, and waits until they are on the disk.
fn keep_torn(rt: &HostRuntime, name: &[u8], rest: &[u8]) -> streams::Result<()> {
    let file = open_torn(rt, name).map_err(|e| {
        streams::fail(
            rt,
            b"station: the file beside the journal can't be opened",
            e,
        )
    })?;
    keep_in(rt, &file, rest)?;
    journal_files::sync_folder(rt, name)
}

// Cuts off what stands behind the last append, and keeps it in the file of this name.
fn cut(
    rt: &HostRuntime,
    file: &Option<File>,
    place: usize,
    rest: &[u8],
    name: &[u8],
) -> streams::Result<()> {
    keep_torn(rt, name, rest)?;
    tell_torn(rt, place, rest.len(), name);
    let Some(open) = file else {
        return Err(streams::fail(rt, b"station: the journal can't be cut", not_open()));
    };
    open.set_len(journal_files::place(place).cast_unsigned())
        .map_err(|e| streams::fail(rt, b"station: the journal can't be cut", e))
}

// Cuts off what stands behind the last append, if there is something. The name has n bytes. (What was read lies within the buffer.)
pub fn cut_rest(
    rt: &HostRuntime,
    file: &Option<File>,
    q: Reading,
    buf: &[u8],
    name: &mut [u8],
    n: usize,
) -> streams::Result<()> {
    if q.at == q.end {
        return Ok(());
    }
    if q.end < q.at || buf.len() < q.end {
        return Err(Told);
    }
    let m = journal_files::beside(name, n, b".torn");
    cut(rt, file, q.place, &buf[q.at..q.end], &name[..m])
}
