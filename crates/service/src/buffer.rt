// A turn of a program that answers messages: it holds bytes in a buffer, answers all whole messages among them, and keeps the rest at the
// front of the buffer, where the next bytes are put behind it. Nothing here reads or writes. What a turn leaves stands in specs/.
ghost use Rattle.std.specs.Prelude.{◌≡◌, ◌++◌, ◌-◌, ◌≤◌, length, drop};
ghost use Rattle.std.proofs.Math.Seq.{slice};
ghost use Rattle.service.specs.Turns.{Holds, holding_front, Turns, turning};

use answers::Answer;
use station::Station;

// Kept: have beside the buffer: main lends that whole, and Turns and turning speak of both (no heap, fixed memory).
// What a turn leaves: Taken, or NoRoom and nothing done; the next station, how many bytes are held at the front of the buffer now, how many
// bytes of answers were written, and whether nothing more is to be read.
// Kept: no Result, as theorem TurnFeeds and definition `replaying` go on from the rest whatever the answer is.
#[derive(Clone, Copy)]
pub struct Turned {
    pub answer: Answer,
    pub station: Station,
    pub have: usize,
    pub made: usize,
    pub stop: bool,
}

// Moves the bytes from `from` up to `to` to the front.
fn shift(buf: &mut [u8], from: usize, to: usize)
    requires { (from ≤ to) × (to ≤ length buf.old) }
    ensures { buf.new ≡ slice from to buf.old ++ drop (to - from) buf.old }
{
    for i in 0..to - from {
        buf[i] = buf[from + i];
    }
}

// Moves the bytes from `from` up to `to`, or up to the buffer's end, to the front, and says how many they are.
pub fn hold(buf: &mut [u8], from: usize, to: usize) -> usize
    ensures { Holds (holding_front from to buf.old) result buf.new }
{
    let to = to.min(buf.len());
    if to <= from {
        return 0;
    }
    shift(buf, from, to);
    to - from
}

// Answers all whole messages among the first `end` bytes of buf, or among all where it has fewer, and keeps the rest at its front. Where
// the room for answers may be too short it does nothing.
pub fn turn(s: Station, buf: &mut [u8], end: usize, out: &mut [u8]) -> Turned
    ensures { Turns (turning s buf.old end out.old) result buf.new out.new }
{
    let end = end.min(buf.len());
    let w = crate::serve(s, &buf[..end], out);
    let have = hold(buf, w.used, end);
    Turned {
        answer: w.answer,
        station: w.station,
        have,
        made: w.made,
        stop: w.stop,
    }
}
