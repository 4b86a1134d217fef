// What a lent desk tells of all its cars, of what is outstanding, and of what an image would change. Each is written to a room of its own.
ghost use Rattle.std.specs.Prelude.{◌≡◌, ◌≤◌, length, take};
ghost use Rattle.rooms.specs.Rooms.{LeavesRoom, telling};
ghost use Rattle.desk_c.specs.Entries.{count_told, list_size, listing, open_bytes, open_shown, comparison_of, comparing};

use super::{CARD, DESK, given, lent, load, padded, told};
use answers::Answer;
use desk::{Comparison, Desk, Lines, OpenSet, Reply};
use rooms::{say, tell};
use station::Picture;

// The bytes in which all cars are told, and those of what is outstanding.
const LIST: usize = 248;

const OPEN: usize = 44;

// Kept: a sum: C is told one number, which count_told says so.
// A reply as one number: taken, the count of lines is at its place.
fn count_told(a: Reply, count: u8) -> u32
    ensures { result ≡ count_told a count }
{
    if a.number() != 0 {
        return told(a);
    }
    256 * (count as u32)
}

// Says a number, and writes the first 248 bytes of a run.
fn tell_first(said: u32, run: &[u8], out: &mut [u8]) -> u32
    requires { list_size ≤ length run.now }
    ensures { LeavesRoom (telling said (take list_size run.now) out.old) result out.new }
{
    tell(said, &run[..LIST], out)
}

// Every car: how many there are, and their lines with zeros behind them.
#[unsafe(no_mangle)]
pub extern "C" fn desk_list(room: &[u8], lines: &mut [u8]) -> u32
    ensures { LeavesRoom (listing room.now lines.old) result lines.new }
{
    if room.len() < DESK {
        return say(Answer::NoRoom);
    }
    let d = load(room);
    let all = d.list();
    tell_first(count_told(d.ask().reply, all.count), &all.bytes, lines)
}

// What is outstanding as 44 bytes.
fn open_bytes(o: OpenSet) -> [u8; OPEN]
    ensures { result ≡ open_bytes o }
{
    let mut b = [0u8; OPEN];
    codec::copy(&o.set, &mut b[4..OPEN]);
    b[0] = (o.issue % 256) as u8;
    b[1] = (o.issue / 256) as u8;
    b[2] = o.count;
    b[3] = o.answered;
    b
}

// What is outstanding: the present issue, its instructions, and which are answered.
#[unsafe(no_mangle)]
pub extern "C" fn desk_outstanding(room: &[u8], set: &mut [u8]) -> u32
    ensures { LeavesRoom (open_shown room.now set.old) result set.new }
{
    if room.len() < DESK {
        return say(Answer::NoRoom);
    }
    if set.len() < OPEN {
        return say(Answer::NoRoom);
    }
    let d = load(room);
    let b = open_bytes(d.outstanding());
    tell(told(d.ask().reply), &b, set)
}

// An image on a desk, its numbers as a run of bytes: what it would change.
fn compared(d: Desk, picture: Picture, count: u8, run: &[u8]) -> Comparison
    ensures { result ≡ comparison_of picture.bits picture.apart count run.now d }
{
    let size = lent(31, CARD, count);
    if run.len() < size {
        return Comparison {
            reply: Reply::Told(Answer::TooFewBytes),
            lines: Lines {
                count: 0,
                bytes: [0; 496],
            },
        };
    }
    d.compare(picture, count, given(padded(&run[..size])))
}

// What an image with `count` numbers, four bytes each, would change; the desk is as it was.
#[unsafe(no_mangle)]
pub extern "C" fn desk_compare(
    room: &[u8],
    image: u64,
    apart: u64,
    count: u8,
    cards: &[u8],
    lines: &mut [u8],
) -> u32
    ensures { LeavesRoom (comparing (comparison_of image apart count cards.now) room.now lines.old) result lines.new }
{
    if room.len() < DESK {
        return say(Answer::NoRoom);
    }
    let c = compared(load(room), Picture { bits: image, apart }, count, cards);
    tell(count_told(c.reply, c.lines.count), &c.lines.bytes, lines)
}
