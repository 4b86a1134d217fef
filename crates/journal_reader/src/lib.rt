// Reads a journal from a file, append by append, through a buffer that the caller lends. In the buffer stand the append that was taken
// last, or the head, and behind it what follows in the file. What a journal's bytes are stands in journal_file; which bytes a read brings no
// contract can say.
#![tactic(auto)]

ghost use Rattle.std.specs.Prelude.{◌≡◌, ◌+◌, ◌<◌, ◌≤◌, true, false, length, if◌then◌else◌, nat_lt};
ghost use Rattle.checksum.specs.Slices.{crc_by};
ghost use Rattle.journal_file.specs.Cards.{has_cards};
ghost use Rattle.journal_reader.specs.Reading.{ReadingWithin, ReadingBegins, Next, last_in, numbers_found, rest_of};
ghost use Rattle.journal_reader.specs.Private.{FilledUp, stopped_at, ReadingBrought, Steps};

use journal_file::{Kind, Replay};
use std::fs::File;
use streams::Unread;

// An append has at most so many bytes.
pub const LONGEST: usize = 65549;

// A buffer has room for the append that was taken last and for more than the next.
pub const LEAST: usize = 131099;

// How far a journal is read: the replay of what was taken; how many bytes of the file that is; where the last append of it, or the head,
// begins in the buffer, where it ends, and how far the buffer is filled; whether there may be more in the file; whether all reads went well;
// whether the last step took an append; how many appends and messages were taken.
#[derive(Clone, Copy)]
pub struct Reading {
    pub replay: Replay,
    pub place: usize,
    pub from: usize,
    pub at: usize,
    pub end: usize,
    pub more: bool,
    pub well: bool,
    pub took: bool,
    pub appends: usize,
    pub messages: usize,
}

// What the head is, and the reading behind it.
#[derive(Clone, Copy)]
pub struct Beginning {
    pub kind: Kind,
    pub reading: Reading,
}

// What stands behind the last append that was taken: nothing, what a lost power supply left of an append that was never answered, or damage.
#[derive(Clone, Copy)]
pub enum Rest {
    Nothing,
    Torn,
    Damaged,
}

// ---- what a buffer is filled with

// How far a buffer is filled, whether the file may have more, and whether all reads went well.
#[derive(Clone, Copy)]
struct Filled {
    end: usize,
    more: bool,
    well: bool,
}

// Reads past the first `have` bytes until the buffer is full or the file ends.
fn fill_up(rt: &HostRuntime, file: &File, buf: &mut [u8], have: usize, name: &[u8]) -> Filled
    requires { have ≤ length buf.old }
    ensures { FilledUp buf.old have result buf.new }
{
    let mut from: &File = file;
    let mut end = have;
    loop {
        let (more, well) = match streams::fill(rt, &mut from, buf, end, name) {
            Ok(Some(further)) => {
                end = further;
                continue;
            }
            Ok(None) => (false, true),
            Err(Unread::Full) => (true, true),
            Err(Unread::Failed) => (false, false),
        };
        return Filled { end, more, well };
    }
}

// Whether a reading lies within a buffer of n bytes that has room for what follows.
fn fits(q: Reading, n: usize) -> bool
    ensures { result ≡ true → ReadingWithin q n }
{
    LEAST <= n && q.from <= q.at && q.at <= q.end && q.end <= n
}

// Reads on with the last append held at the front of the buffer.
fn read_on(rt: &HostRuntime, file: &File, q: Reading, buf: &mut [u8], name: &[u8]) -> Reading
    requires { ReadingWithin q (length buf.old) }
    ensures { ReadingBrought q buf.old result buf.new }
{
    let have = service::buffer::hold(buf, q.from, q.end);
    let f = fill_up(rt, file, buf, have, name);
    Reading {
        from: 0,
        at: q.at - q.from,
        end: f.end,
        more: f.more,
        well: f.well,
        took: false,
        ..q
    }
}

// Reads on where less than an append may stand in the buffer.
fn bring(rt: &HostRuntime, file: &File, q: Reading, buf: &mut [u8], name: &[u8]) -> Reading
    requires { ReadingWithin q (length buf.old) }
    ensures { ReadingBrought q buf.old result buf.new }
{
    if !q.more || LONGEST < q.end - q.at {
        return q;
    }
    read_on(rt, file, q, buf, name)
}

// ---- appends

// How many bytes a message has whose first two are these.
fn size_of(a: u8, b: u8) -> usize
    ensures { (2 ≤ result) × (result ≤ 65537) }
{
    2 + a as usize + 256 * (b as usize)
}

// How many messages stand one behind the other, by their lengths.
fn messages_in(m: &[u8]) -> usize {
    let mut n: usize = 0;
    let mut rest = m;
    while let [a, b, ..] = rest {
        let size = size_of(*a, *b);
        if rest.len() < size {
            break;
        }
        rest = &rest[size..];
        n += 1;
    }
    n
}

// How many messages the append has that stands in the buffer from here up to there.
fn messages_of(buf: &[u8], from: usize, to: usize) -> usize
    requires { (from + 13 ≤ to) × (to ≤ length buf.now) }
{
    match buf[from] {
        1 => messages_in(&buf[from + 8..to - 5]),
        5 if 181 <= to - from => messages_in(&buf[from + 176..to - 5]),
        _ => 0,
    }
}

// Nothing was taken.
fn stopped(q: Reading, well: bool) -> Reading
    ensures { result ≡ stopped_at q well }
{
    Reading {
        well: q.well & well,
        took: false,
        ..q
    }
}

// Takes the append that stands in the buffer, behind one with this checksum.
fn take(t: &[u32], q: Reading, sum: u32, end: usize, buf: &[u8], room: &mut [u8]) -> Reading
    requires { ReadingWithin q (length buf.now) × (sum ≡ q.replay.sum) × (end ≡ q.end) }
    ensures { Steps t.now room.old q buf.now result }
{
    let at = q.at;
    let s = journal_file::take_append(t, q.replay, &buf[at..end], room);
    if s.took == 0 {
        return stopped(q, true);
    }
    let next = at + s.took;
    let messages = messages_of(buf, at, next);
    Reading {
        replay: s.replay,
        place: q.place.wrapping_add(s.took),
        from: at,
        at: next,
        end,
        took: true,
        appends: q.appends.wrapping_add(1),
        messages: q.messages.wrapping_add(messages),
        ..q
    }
}

// Takes the next append, which then stands in the buffer from `from` up to `at`. The room is for answers, which are not to be written.
pub fn next(
    rt: &HostRuntime,
    t: &[u32],
    file: &File,
    q: Reading,
    buf: &mut [u8],
    room: &mut [u8],
    name: &[u8],
) -> Reading
    ensures { Next t.now room.old q buf.old result buf.new }
{
    if !fits(q, buf.len()) {
        return stopped(q, false);
    }
    let b = bring(rt, file, q, buf, name);
    if !b.well {
        return stopped(b, false);
    }
    take(t, b, b.replay.sum, b.end, buf, room)
}

// ---- cards

// How many bytes the append has that stands in the buffer.
fn last_size(q: Reading, buf: &[u8]) -> usize
    ensures { (result ≡ length (last_in q buf.now)) × (0 < result → q.from + result ≤ length buf.now) }
{
    q.at.min(buf.len()).saturating_sub(q.from)
}

// Whether the append that stands in the buffer has cards.
pub fn has_cards(q: Reading, buf: &[u8]) -> bool
    ensures { result ≡ has_cards (last_in q buf.now) }
{
    if last_size(q, buf) == 0 {
        return false;
    }
    buf[q.from] == 5
}

// The numbers of cards after the append that stands in the buffer: its own where it has cards, else those before.
pub fn numbers_after(was: [u8; 168], q: Reading, buf: &[u8]) -> [u8; 168]
    ensures { result ≡ numbers_found was (last_in q buf.now) }
{
    if last_size(q, buf) < 176 {
        return was;
    }
    if !has_cards(q, buf) {
        return was;
    }
    let from = q.from;
    let mut numbers = [0u8; 168];
    codec::copy(&buf[from + 8..from + 176], &mut numbers);
    numbers
}

// ---- the end

// What the bytes from here up to the file's end are, behind an append with this checksum.
pub fn rest_of(t: &[u32], sum: u32, place: usize, m: &[u8]) -> Rest
    ensures { result ≡ rest_of (crc_by t.now) sum place m.now }
{
    if m.is_empty() {
        return Rest::Nothing;
    }
    let f = journal_file::front_of(t, sum, m);
    if f.short | journal_file::is_zeroed(t, sum, place, m) {
        return Rest::Torn;
    }
    Rest::Damaged
}

// ---- the head

// How many bytes are looked at for a head.
fn head_size(end: usize) -> usize
    ensures { result ≡ (if nat_lt end 128 then end else 128) }
{
    end.min(128)
}

// Begins to read: what the head is.
pub fn begin(rt: &HostRuntime, t: &[u32], file: &File, buf: &mut [u8], name: &[u8]) -> Beginning
    ensures { ReadingBegins (crc_by t.now) result buf.new }
{
    let f = fill_up(rt, file, buf, 0, name);
    let h = journal_file::head_of(t, &buf[..head_size(f.end)]);
    let replay = Replay {
        station: h.station,
        sum: h.sum,
        closed: false,
    };
    let reading = Reading {
        replay,
        place: 128,
        from: 0,
        at: 128,
        end: f.end,
        more: f.more,
        well: f.well,
        took: true,
        appends: 0,
        messages: 0,
    };
    Beginning {
        kind: h.kind,
        reading,
    }
}
