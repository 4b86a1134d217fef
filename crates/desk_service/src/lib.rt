// Messages answered on a desk. What they are answered with stands in specs/.
#![tactic(auto)]

ghost use Rattle.std.specs.Prelude.{◌≡◌};
ghost use Rattle.desk.specs.Lines.{place_told};
ghost use Rattle.wire.specs.Reads.{length_at};
ghost use Rattle.desk_wire.specs.DeskReads.{frame_up_to};
ghost use Rattle.desk_service.specs.DeskService.{answer_told, reply_told, desk_unread, desk_called, desk_shown, where_told, leaving_told, respond_desk, LeavesReply};

use answers::{Answer, NOWHERE};
use desk::{AskError, Desk, DeskOutcome, Reply, Whereabouts};
use wire::Frame;

mod kinds;
mod telling;

// What a message is told: an answer, the image, where a car is, or a card.
#[derive(Clone, Copy)]
pub enum DeskTold {
    Answer { number: u8, place: u8, issue: u16 },
    Held { bits: u64, apart: u64 },
    Place { place: u8, flag: u8, next: u8 },
    Card { card: u32 },
}

// What a message leaves: the next desk, and what it is told.
#[derive(Clone, Copy)]
pub struct DeskReply {
    pub desk: Desk,
    pub told: DeskTold,
}

// What an answered message leaves: the next desk, and what was written.
#[derive(Clone, Copy)]
pub struct DeskAnswered {
    pub desk: Desk,
    pub written: Result<usize, Answer>,
}

// ---- what a message is told

fn answer_told(answer: Answer) -> DeskTold
    ensures { result ≡ answer_told answer }
{
    DeskTold::Answer {
        number: answer.number(),
        place: answer.place(),
        issue: answer.issue(),
    }
}

fn reply_told(reply: Reply) -> DeskTold
    ensures { result ≡ reply_told reply }
{
    DeskTold::Answer {
        number: reply.number(),
        place: reply.place(),
        issue: reply.issue(),
    }
}

// What could not be read is told, and makes no call.
fn unread(desk: Desk, answer: Answer) -> DeskReply
    ensures { result ≡ desk_unread desk answer }
{
    DeskReply {
        desk,
        told: answer_told(answer),
    }
}

// A call's desk, and its reply.
fn called(o: DeskOutcome) -> DeskReply
    ensures { result ≡ desk_called o }
{
    DeskReply {
        desk: o.desk,
        told: reply_told(o.reply),
    }
}

// The same after an ask: the record and what is set apart if it was taken.
fn shown(o: DeskOutcome) -> DeskReply
    ensures { result ≡ desk_shown o }
{
    if o.reply.number() != 0 {
        return called(o);
    }
    DeskReply {
        desk: o.desk,
        told: DeskTold::Held {
            bits: o.desk.station.bits,
            apart: o.desk.station.apart,
        },
    }
}

// Kept: 64 and no Option, as Whereabouts::Moving has it (NOT_HERE in desk), and place_told.
// A place that is told: none as 255.
fn place_of(k: u8) -> u8
    ensures { result ≡ place_told k }
{
    if k == 64 { NOWHERE } else { k }
}

// Where a card's car is.
fn where_told(w: Result<Whereabouts, AskError>) -> DeskTold
    ensures { result ≡ where_told w }
{
    match w {
        Ok(Whereabouts::At(k)) => DeskTold::Place {
            place: k,
            flag: 0,
            next: 0,
        },
        Ok(Whereabouts::LastKnown(k)) => DeskTold::Place {
            place: k,
            flag: 1,
            next: 0,
        },
        Ok(Whereabouts::Moving { from, to }) => DeskTold::Place {
            place: from,
            flag: 2,
            next: place_of(to),
        },
        Ok(Whereabouts::NotHere) => DeskTold::Place {
            place: NOWHERE,
            flag: 0,
            next: 0,
        },
        Err(AskError::Unfit) => answer_told(Answer::Unfit),
    }
}

// Which card is leaving.
fn leaving_told(l: Result<Option<u32>, AskError>) -> DeskTold
    ensures { result ≡ leaving_told l }
{
    match l {
        Ok(Some(card)) => DeskTold::Card { card },
        Ok(None) => DeskTold::Card { card: 0 },
        Err(AskError::Unfit) => answer_told(Answer::Unfit),
    }
}

// ---- one message

// The length that a message gives itself.
fn length_at(s: &[u8]) -> u16
    ensures { result ≡ length_at s.now }
{
    let low = wire::byte(s, 0);
    let high = wire::byte(s, 1);
    wire::word(low, high)
}

// How far the first message of s goes, by its length alone.
pub fn framed(s: &[u8], most: usize) -> Frame
    ensures { result ≡ frame_up_to most s.now }
{
    if s.len() < 2 {
        return Frame::Cut;
    }
    let n = length_at(s) as usize;
    if n < 2 {
        return Frame::Wrong;
    }
    if most < n {
        return Frame::Wrong;
    }
    if s.len() < n + 2 {
        return Frame::Cut;
    }
    Frame::Whole(n + 2)
}

// Answers the first message of m: what it is told is written to the start of room, or 17 is said and nothing is written.
pub fn respond(d: Desk, m: &[u8], room: &mut [u8]) -> DeskAnswered
    ensures { LeavesReply (respond_desk d m.now) room.old result room.new }
{
    let frame = framed(m, 143);
    match frame {
        Frame::Cut => telling::briefly(unread(d, Answer::TooFewBytes), room),
        Frame::Wrong => telling::briefly(unread(d, Answer::BadLength), room),
        Frame::Whole(n) => kinds::answered(d, &m[..n], room),
    }
}
