// What becomes of an append that is whole: messages, also behind the numbers of cards, or a mark.
ghost use Rattle.std.specs.Prelude.{◌≡◌, cond, ◌-◌, ◌≤◌, ltb, length};
ghost use Rattle.service.specs.Runs.{serving};
ghost use Rattle.journal_file.specs.Appends.{lead_of};
ghost use Rattle.journal_file.specs.Replaying.{not_taken, append_taken, mark_most, mark_taken, messages_taken};

use super::{AROUND, CLOSED, CUT_SHORT, Front, NUMBERS, Replay, Step, WRONG_LENGTH};
use station::Station;

const LEFT: usize = 44;

const CARDS: usize = 168;

// Nothing was taken: the bytes end inside of an append, or are wrong.
pub fn not_taken(r: Replay, short: bool) -> Step
    ensures { result ≡ not_taken r short }
{
    Step {
        replay: r,
        took: 0,
        short,
    }
}

// An append was taken.
fn take(station: Station, f: Front, closed: bool) -> Step
    requires { f.carries ≤ 65536 }
    ensures { result ≡ append_taken station f closed }
{
    Step {
        replay: Replay {
            station,
            sum: f.sum,
            closed,
        },
        took: f.carries + AROUND,
        short: false,
    }
}

// How many bytes a mark of this kind carries at most.
fn mark_most(kind: u8) -> usize
    ensures { result ≡ mark_most kind }
{
    if kind == CLOSED { 0 } else { LEFT }
}

// A mark: what ended a session, or that the journal is closed.
pub fn take_mark(r: Replay, f: Front) -> Step
    requires { f.carries ≤ 65536 }
    ensures { result ≡ mark_taken r f }
{
    if mark_most(f.kind) < f.carries {
        return not_taken(r, false);
    }
    match f.kind {
        CLOSED => take(r.station, f, true),
        CUT_SHORT | WRONG_LENGTH => take(r.station, f, false),
        _ => not_taken(r, false),
    }
}

// How many bytes stand before the messages in an append of this kind: the numbers of cards, where it has any.
fn lead_of(kind: u8) -> usize
    ensures { result ≡ lead_of kind }
{
    if kind == NUMBERS { CARDS } else { 0 }
}

// So many of the bytes that are carried, if there are so many.
pub fn lead_in(f: Front) -> usize
    ensures { (result ≤ f.carries) × (result ≡ cond (ltb f.carries (lead_of f.kind)) f.carries (lead_of f.kind)) }
{
    f.carries.min(lead_of(f.kind))
}

// An append of messages, which carries these.
pub fn take_messages(r: Replay, f: Front, bytes: &[u8], room: &mut [u8]) -> Step
    requires { (f.carries ≤ 65536) × (length bytes.now ≡ f.carries - lead_of f.kind) }
    ensures { (result ≡ messages_taken r f (serving r.station bytes.now room.old).says.used (serving r.station bytes.now room.old).says.station) × (room.new ≡ (serving r.station bytes.now room.old).leaves) }
{
    let lead = lead_of(f.kind);
    let w = service::serve(r.station, bytes, room);
    if (f.carries == 0) | (f.carries < lead) | (w.used != bytes.len()) {
        return not_taken(r, false);
    }
    take(w.station, f, false)
}
