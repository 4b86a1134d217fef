// A journal is the recorded messages themselves: every whole message that a station was sent, one behind the other. Its replay gives the
// station that they make. Nothing here reads or writes. What a journal is, and what its replay gives, stands in specs/.
#![tactic(auto)]

ghost use Rattle.std.specs.Prelude.{◌≡◌};
ghost use Rattle.journal.specs.Pieces.{replay_begun, Replays, replaying};

use station::Station;

// Kept: have beside the buffer, as service's turn leaves it: the buffer is lent, and Replays speaks of both (no heap).
// How far a journal is replayed: the station after its whole messages, how many bytes these are, how many bytes behind them are held at the
// front of the buffer, and whether the journal is damaged: what stands there is a length out of range.
#[derive(Clone, Copy)]
pub struct Replay {
    pub station: Station,
    pub whole: usize,
    pub have: usize,
    pub damaged: bool,
}

// Before the first piece.
pub fn begin() -> Replay
    ensures { result ≡ replay_begun }
{
    Replay {
        station: Station::start(),
        whole: 0,
        have: 0,
        damaged: false,
    }
}

// Replays all whole messages among the first `end` bytes of buf, and keeps the rest at its front. The room is for their answers, which are
// not to be written.
pub fn replay_piece(r: Replay, buf: &mut [u8], end: usize, room: &mut [u8]) -> Replay
    ensures { Replays (replaying r buf.old end room.old) result buf.new room.new }
{
    let t = service::buffer::turn(r.station, buf, end, room);
    Replay {
        station: t.station,
        whole: std::num::wrapping_add_usize(r.whole, end - t.have),
        have: t.have,
        damaged: t.stop,
    }
}
