// Each kind of message, read from exactly its own bytes and answered on a desk. What they mean stands in specs/.
ghost use Rattle.std.specs.Prelude.{◌≡◌, ◌++◌, ◌≤◌, ◌-◌, length, replicate};
ghost use Rattle.codec.specs.Fours.{fours_in};
ghost use Rattle.wire.specs.Kinds.{kinds_asked};
ghost use Rattle.wire.specs.Reads.{read_whole};
ghost use Rattle.desk_wire.specs.DeskKinds.{most_cards, begin_kind, cards_kind, where_kind, leaving_kind, list_kind, open_kind, compare_kind, shapes_asked};
ghost use Rattle.desk_wire.specs.DeskReads.{as_received, read_shape, read_shaped};
ghost use Rattle.desk_service.specs.DeskService.{station_said, brief, compare_said, reply_read, LeavesReply};
ghost use Rattle.desk_service.specs.Private.{cards_read};

use super::telling::{briefly, put_lines, put_set};
use super::{DeskAnswered, DeskReply, called, leaving_told, reply_told, shown, unread, where_told};
use answers::{Answer, NOWHERE};
use desk::Desk;
use station::{Picture, Report};
use wire::What;

// ---- the station's kinds

// A message of the station's that holds no instruction.
fn said(d: Desk, what: What) -> DeskReply
    ensures { result ≡ station_said what d 0 (replicate 40 0) }
{
    match what {
        What::Request => called(d.request(0, [0; 40])),
        What::Event { way } => called(d.event(way, 0)),
        What::Result {
            issue,
            number,
            ending,
        } => called(d.result(Report {
            issue,
            number,
            ending,
        })),
        What::Image { bits, apart } => called(d.image(Picture { bits, apart }, 0, [0; 31])),
        What::Ask => shown(d.ask()),
        What::Answer { .. } | What::Held { .. } => unread(d, Answer::UnknownKind),
    }
}

// A message of the station's.
fn of_station(d: Desk, m: &[u8]) -> DeskReply
    ensures { brief result ≡ reply_read d (as_received (read_whole kinds_asked m.now)) }
{
    if wire::kind_at(m) == 1 {
        return match wire::request_in(m).says {
            Ok(message) => called(d.request(message.count, message.set)),
            Err(answer) => unread(d, answer),
        };
    }
    match wire::saying(m) {
        Ok(what) => said(d, what),
        Err(answer) => unread(d, answer),
    }
}

// ---- the desk's own kinds

// A drive-in begins with a card.
fn begins(d: Desk, m: &[u8]) -> DeskReply
    ensures { brief result ≡ reply_read d (read_shape begin_kind m.now) }
{
    if m.len() != 8 {
        return unread(d, Answer::BadLength);
    }
    let card = codec::four_at(m, 4);
    if card == 0 {
        return unread(d, Answer::BadField(NOWHERE));
    }
    called(d.event(1, card))
}

// Some bytes with zeros behind them.
fn padded(run: &[u8]) -> [u8; 124]
    requires { length run.now ≤ 124 }
    ensures { result ≡ run.now ++ replicate (124 - length run.now) 0 }
{
    let mut b = [0u8; 124];
    codec::copy(run, &mut b);
    b
}

// The 31 numbers that 124 bytes say.
fn given(b: [u8; 124]) -> [u32; 31]
    ensures { result ≡ fours_in most_cards b }
{
    let mut numbers = [0u32; 31];
    for place in 0..31 {
        numbers[place] = codec::four_at(&b, 4 * place);
    }
    numbers
}

// The cards that a run of bytes says.
fn cards_in(run: &[u8]) -> [u32; 31]
    requires { length run.now ≤ 124 }
    ensures { result ≡ cards_read run.now }
{
    given(padded(run))
}

// An image comes with cards.
fn pictured(d: Desk, m: &[u8]) -> DeskReply
    ensures { brief result ≡ reply_read d (read_shape cards_kind m.now) }
{
    let count = wire::byte(m, 20);
    let n = count as usize;
    if m.len() != 21 + 4 * n {
        return unread(d, Answer::BadLength);
    }
    if n < 1 {
        return unread(d, Answer::BadField(NOWHERE));
    }
    if 31 < n {
        return unread(d, Answer::BadField(NOWHERE));
    }
    let bits = wire::image_of(&m[4..]);
    let apart = wire::image_of(&m[12..]);
    let given = cards_in(&m[21..]);
    called(d.image(Picture { bits, apart }, count, given))
}

// Where a card's car is.
fn seeks(d: Desk, m: &[u8]) -> DeskReply
    ensures { brief result ≡ reply_read d (read_shape where_kind m.now) }
{
    if m.len() != 8 {
        return unread(d, Answer::BadLength);
    }
    let card = codec::four_at(m, 4);
    let told = where_told(d.whereabouts(card));
    DeskReply { desk: d, told }
}

// Which card is leaving.
fn leaves(d: Desk, m: &[u8]) -> DeskReply
    ensures { brief result ≡ reply_read d (read_shape leaving_kind m.now) }
{
    if 4 < m.len() {
        return unread(d, Answer::BadLength);
    }
    let told = leaving_told(d.leaving());
    DeskReply { desk: d, told }
}

// Every car.
fn lists(d: Desk, m: &[u8], room: &mut [u8]) -> DeskAnswered
    ensures { LeavesReply (reply_read d (read_shape list_kind m.now)) room.old result room.new }
{
    if 4 < m.len() {
        return briefly(unread(d, Answer::BadLength), room);
    }
    let o = d.ask();
    let reply = o.reply;
    if reply.number() != 0 {
        return briefly(called(o), room);
    }
    let all = d.list();
    let written = put_lines(138, all, room);
    DeskAnswered { desk: d, written }
}

// What is outstanding.
fn opens(d: Desk, m: &[u8], room: &mut [u8]) -> DeskAnswered
    ensures { LeavesReply (reply_read d (read_shape open_kind m.now)) room.old result room.new }
{
    if 4 < m.len() {
        return briefly(unread(d, Answer::BadLength), room);
    }
    let o = d.ask();
    let reply = o.reply;
    if reply.number() != 0 {
        return briefly(called(o), room);
    }
    let s = d.outstanding();
    let set = s.set;
    let written = put_set(s.issue, s.answered, s.count, set, room);
    DeskAnswered { desk: d, written }
}

// What an image would change, in lines.
fn changes(d: Desk, picture: Picture, count: u8, given: [u32; 31], room: &mut [u8]) -> DeskAnswered
    ensures { LeavesReply (compare_said d picture count given) room.old result room.new }
{
    let c = d.compare(picture, count, given);
    let reply = c.reply;
    if reply.number() != 0 {
        let told = reply_told(reply);
        return briefly(DeskReply { desk: d, told }, room);
    }
    let lines = c.lines;
    let written = put_lines(140, lines, room);
    DeskAnswered { desk: d, written }
}

// What an image would change.
fn compares(d: Desk, m: &[u8], room: &mut [u8]) -> DeskAnswered
    ensures { LeavesReply (reply_read d (read_shape compare_kind m.now)) room.old result room.new }
{
    let count = wire::byte(m, 20);
    let n = count as usize;
    if m.len() != 21 + 4 * n {
        return briefly(unread(d, Answer::BadLength), room);
    }
    if 31 < n {
        return briefly(unread(d, Answer::BadField(NOWHERE)), room);
    }
    let bits = wire::image_of(&m[4..]);
    let apart = wire::image_of(&m[12..]);
    let given = cards_in(&m[21..]);
    changes(d, Picture { bits, apart }, count, given, room)
}

// ---- all of them

// Answers a message whose bytes are exactly m.
pub fn answered(d: Desk, m: &[u8], room: &mut [u8]) -> DeskAnswered
    ensures { LeavesReply (reply_read d (read_shaped kinds_asked shapes_asked m.now)) room.old result room.new }
{
    match wire::kind_at(m) {
        6 => briefly(begins(d, m), room),
        7 => briefly(pictured(d, m), room),
        8 => briefly(seeks(d, m), room),
        9 => briefly(leaves(d, m), room),
        10 => lists(d, m, room),
        11 => opens(d, m, room),
        12 => compares(d, m, room),
        _ => briefly(of_station(d, m), room),
    }
}
