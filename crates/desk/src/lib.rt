// The street desk: a station whose cars have card numbers. Its calls and what it is asked stand in modules of their own; a desk goes in by
// value and comes back with a reply, and a refused call hands it back as it was.
#![tactic(auto)]

ghost use Rattle.std.specs.Prelude.{◌≡◌, replicate};
ghost use Rattle.cards.specs.Held.{cards_fit};
ghost use Rattle.desk.specs.Desk.{start_desk, desk_fit, reply_number, reply_place, reply_issue};

use answers::{Answer, NOWHERE};
use station::Station;

mod calls;
mod listing;
mod questions;

// The station, and the number at each of the forty cells, on the raised lift, and of a car that is being driven in; 0 for none.
#[derive(Clone, Copy)]
pub struct Desk {
    pub station: Station,
    pub numbers: [u32; 42],
}

// What a call is answered: what the station says, or one of the desk's own refusals.
#[derive(Clone, Copy)]
pub enum Reply {
    Told(Answer),
    // 37: number zero
    ZeroNumber,
    // 38: number already in the garage, or given twice with an image
    KnownNumber,
    // 39: not that many numbers given
    WrongCount,
}

// What a call hands back.
#[derive(Clone, Copy)]
pub struct DeskOutcome {
    pub desk: Desk,
    pub reply: Reply,
}

// Why a question is not answered: the desk isn't fit.
#[derive(Clone, Copy)]
pub enum AskError {
    Unfit,
}

// Where a card's car is: at a place, at its last known place, in motion from one place to another, or not here.
#[derive(Clone, Copy)]
pub enum Whereabouts {
    At(u8),
    LastKnown(u8),
    Moving { from: u8, to: u8 },
    NotHere,
}

// What is told of a card: its place, a flag, and the place that it would get.
#[derive(Clone, Copy)]
pub struct Line {
    pub card: u32,
    pub place: u8,
    pub flag: u8,
    pub next: u8,
}

// Lines, eight bytes each, and zeros behind them.
#[derive(Clone, Copy)]
pub struct Lines {
    pub count: u8,
    pub bytes: [u8; 496],
}

// Kept: count beside set, as the station has them, and here in all that is asked with a set (outstanding, desk_request); no heap.
// What is outstanding: the issue of the present set, how many instructions it has, a mark for each that is answered, and the set.
#[derive(Clone, Copy)]
pub struct OpenSet {
    pub issue: u16,
    pub count: u8,
    pub answered: u8,
    pub set: [u8; 40],
}

// What an image would be answered, and what it would change.
#[derive(Clone, Copy)]
pub struct Comparison {
    pub reply: Reply,
    pub lines: Lines,
}

impl Reply {
    // Its number.
    pub fn number(self) -> u8
        ensures { result ≡ reply_number self }
    {
        match self {
            Reply::Told(answer) => answer.number(),
            Reply::ZeroNumber => 37,
            Reply::KnownNumber => 38,
            Reply::WrongCount => 39,
        }
    }

    // The instruction that it names, from 0, or 255.
    pub fn place(self) -> u8
        ensures { result ≡ reply_place self }
    {
        match self {
            Reply::Told(answer) => answer.place(),
            Reply::ZeroNumber | Reply::KnownNumber | Reply::WrongCount => NOWHERE,
        }
    }

    // The issue of the set that it opens, or 0.
    pub fn issue(self) -> u16
        ensures { result ≡ reply_issue self }
    {
        match self {
            Reply::Told(answer) => answer.issue(),
            Reply::ZeroNumber | Reply::KnownNumber | Reply::WrongCount => 0,
        }
    }
}

// A desk over a station, with no number.
fn unnumbered(station: Station) -> Desk
    ensures { result ≡ record { station = station; numbers = replicate 42 0 } }
{
    Desk {
        station,
        numbers: [0; 42],
    }
}

impl Desk {
    // The start: the station's, and no number.
    pub fn start() -> Self
        ensures { result ≡ start_desk }
    {
        let station = Station::start();
        unnumbered(station)
    }

    // Whether the numbers are those of the record's cars.
    fn numbers_fit(self) -> bool
        ensures { result ≡ cards_fit self.station.bits self.numbers }
    {
        cards::fits(self.station.bits, self.numbers)
    }

    // Whether the desk can be trusted to go on. What it needs is not to be in the frame of a call.
    #[inline(never)]
    #[tactic(auto, unfolding(crate::specs::Desk::desk_fit))]
    pub fn fit(self) -> bool
        ensures { result ≡ desk_fit self }
    {
        self.station.fit() & self.numbers_fit()
    }
}
