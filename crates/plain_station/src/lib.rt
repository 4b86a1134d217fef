// The station as the paper has it: a plain floor, what is set apart, the outstanding set and which of its instructions are answered. It
// takes requests, results and car events as the packed station does, past its test of fitness. What each call hands back stands in specs/.
#![tactic(auto)]

ghost use Rattle.std.specs.Prelude.{◌≡◌, false, slice_index_or};
ghost use Rattle.bits.specs.Bits.{bit, packed};
ghost use Rattle.plain.specs.Plain.{listed};
ghost use Rattle.plain_station.specs.Plain.{packed_of, plain_of, refused_plain};
ghost use Rattle.plain_station.specs.Private.{handed};

use answers::Answer;
use plain::Floor;
use plain_moves::Parts;
use station::Station;

mod events;
mod requests;
mod results;
mod sets;

// Kept: count beside set, here and in all calls and searches of this crate, as the packed station has them (packed_of).
// The station: the instructions are the request's own five bytes each, unused places zero.
#[derive(Clone, Copy)]
pub struct Plain {
    pub floor: Floor,
    pub apart: Parts,
    pub count: u8,
    pub answered: [bool; 8],
    pub set: [u8; 40],
    pub next: u16,
}

// What a call hands back.
// Kept: a station beside an answer, not a Result, since it is defined by the packed station's Outcome (specs/Plain.antt).
#[derive(Clone, Copy)]
pub struct PlainOutcome {
    pub station: Plain,
    pub answer: Answer,
}

// ---- a plain station and a packed one

// Eight marks, each yes or no, of a byte.
fn marks_of(byte: u8) -> [bool; 8]
    ensures { result ≡ listed 8 (bit byte) }
{
    [
        byte % 2 == 1,
        (byte >> 1) % 2 == 1,
        (byte >> 2) % 2 == 1,
        (byte >> 3) % 2 == 1,
        (byte >> 4) % 2 == 1,
        (byte >> 5) % 2 == 1,
        (byte >> 6) % 2 == 1,
        (byte >> 7) % 2 == 1,
    ]
}

// The byte of eight marks.
fn byte_of(marks: [bool; 8]) -> u8
    ensures { result ≡ packed 8 0 (λ j. slice_index_or marks j false) }
{
    let mut byte: u8 = 0;
    for i in (0..8).rev() {
        byte = byte * 2 + marks[i] as u8;
    }
    byte
}

// The plain station of a station. Kept out of the frame of a call, as `packed`, `asked`, `numbered` and `driven` are: with all five in it the
// calls take a quarter more stack on boards (docs/DESIGN-PASS.md).
#[inline(never)]
pub fn of_station(s: Station) -> Plain
    ensures { result ≡ plain_of s }
{
    // Kept: an array of a struct goes into another struct through a variable (the prover covers no other way).
    let set = s.set;
    Plain {
        floor: plain::of_image(s.bits),
        apart: plain_moves::parts_of(s.apart),
        count: s.count,
        answered: marks_of(s.answered),
        set,
        next: s.next,
    }
}

impl Plain {
    // The station that a plain one stands for.
    #[inline(never)]
    pub fn packed(self) -> Station
        ensures { result ≡ packed_of self }
    {
        // Kept: an array of a struct goes into another struct through a variable (the prover covers no other way).
        let set = self.set;
        Station {
            bits: self.floor.image(),
            count: self.count,
            answered: byte_of(self.answered),
            set,
            next: self.next,
            apart: self.apart.number(),
        }
    }

    // The station as it was, and why.
    fn refused(self, answer: Answer) -> PlainOutcome
        ensures { result ≡ refused_plain self answer }
    {
        PlainOutcome {
            station: self,
            answer,
        }
    }

    // What a call hands back: what it has made, or the station as it was, and why.
    fn handed(self, made: Result<PlainOutcome, Answer>) -> PlainOutcome
        ensures { result ≡ handed self made }
    {
        match made {
            Ok(outcome) => outcome,
            Err(answer) => self.refused(answer),
        }
    }
}
