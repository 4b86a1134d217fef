// What the desk tells of all its cars, of what is outstanding, and of what an image would change. Lines are gathered by one loop, and laid
// one behind the other as eight bytes each.
ghost use Rattle.std.specs.Prelude.{◌≡◌, ℕ, cond, [], ◌<◌};
ghost use Rattle.desk.specs.declared.Line.{Line};
ghost use Rattle.cards.specs.Held.{place_of_element};
ghost use Rattle.desk.specs.Lines.{place_told, where_line, line_bytes, held_lines, element_line, listed_cars, outstanding, card_place, moved_line, new_line, card_changes, compared};
ghost use Rattle.desk.specs.Private.{line_laid, lines_laid};

use super::questions::is_under;
use super::{Comparison, Desk, Line, Lines, OpenSet, Whereabouts};
use answers::NOWHERE;
use floor::masks::RAISED;
use station::Picture;

// How many numbers a desk has, and for how many lines there is room.
const NUMBERS: u8 = 42;

const MOST: u8 = 62;

// Where the number of a drive-in under way waits, and no place.
const COMING: u8 = 55;

const NOT_HERE: u8 = 64;

// ---- lines

// The place of which an element is the number.
// Kept: beside the private one of cards, for a wrong version of this one is named and has to be refused here (must-fail/).
fn place_of(j: u8) -> u8
    ensures { result ≡ place_of_element j }
{
    if j < 40 {
        return j;
    }
    if j == 40 {
        return RAISED as u8;
    }
    COMING
}

// A place that is told.
fn place_told(k: u8) -> u8
    ensures { result ≡ place_told k }
{
    if k == NOT_HERE {
        return NOWHERE;
    }
    k
}

// Where a card's car is, as a line.
fn where_line(card: u32, w: Whereabouts) -> Line
    ensures { result ≡ where_line card w }
{
    let gone = Line {
        card,
        place: NOWHERE,
        flag: 0,
        next: 0,
    };
    match w {
        Whereabouts::At(place) => Line { place, ..gone },
        Whereabouts::LastKnown(place) => Line {
            place,
            flag: 1,
            ..gone
        },
        Whereabouts::Moving { from, to } => Line {
            place: from,
            flag: 2,
            next: place_told(to),
            ..gone
        },
        Whereabouts::NotHere => gone,
    }
}

// A line as eight bytes.
fn line_bytes(l: Line) -> [u8; 8]
    ensures { result ≡ line_bytes l }
{
    let four = codec::four_bytes(l.card);
    [
        four[0], four[1], four[2], four[3], l.place, l.flag, l.next, 0,
    ]
}

// No line.
fn no_lines() -> Lines
    ensures { result ≡ held_lines [] }
{
    Lines {
        count: 0,
        bytes: [0; 496],
    }
}

// A line behind others, where there is room; one with the card 0 is none.
fn with_line(lines: Lines, l: Line) -> Lines
    ensures { result ≡ line_laid lines l }
{
    if l.card == 0 {
        return lines;
    }
    if MOST <= lines.count {
        return lines;
    }
    let mut bytes = lines.bytes;
    let at = 8 * (lines.count as usize);
    codec::copy(&line_bytes(l), &mut bytes[at..at + 8]);
    Lines {
        count: lines.count + 1,
        bytes,
    }
}

// ---- the line of an element

// The place of a card, also of the one that waits.
fn card_place(numbers: [u32; 42], card: u32) -> u8
    ensures { result ≡ card_place numbers card }
{
    let k = cards::where_is(numbers, card);
    if k != NOT_HERE {
        return k;
    }
    if numbers[41] == card {
        return COMING;
    }
    NOT_HERE
}

// A card, unless it is left out.
// Kept: card 0 is no line, as `with_line`, `moved_line` and `new_line` say it (specs/Lines).
fn card_unless(out: bool, card: u32) -> u32
    ensures { result ≡ cond out 0 card }
{
    if out {
        return 0;
    }
    card
}

// A card that would leave or change places.
fn moved_line(apart: u64, old: [u32; 42], new: [u32; 42], j: u8) -> Line
    requires { j < 42 }
    ensures { result ≡ moved_line apart old new j }
{
    let card = old[j as usize];
    let place = place_of(j);
    let to = card_place(new, card);
    Line {
        card: card_unless(place == to, card),
        place,
        flag: is_under(apart, place) as u8,
        next: place_told(to),
    }
}

// A card that would appear.
fn new_line(old: [u32; 42], new: [u32; 42], j: u8) -> Line
    requires { j < 42 }
    ensures { result ≡ new_line old new j }
{
    let card = new[j as usize];
    Line {
        card: card_unless(cards::known(old, card), card),
        place: NOWHERE,
        flag: 0,
        next: place_of(j),
    }
}

// The lines of all elements, behind others.
fn gathered<F: Fn(u8) -> Line>(lines: Lines, line: F) -> Lines
    requires { (j : ℕ) → j < 42 → F.pre line j }
    ensures { (f : ℕ → Line) → ((j : ℕ) → j < 42 → (l : Line) → F.post line j l → l ≡ f j) → result ≡ lines_laid lines 42 f }
{
    let mut all = lines;
    for j in 0..NUMBERS {
        all = with_line(all, line(j));
    }
    all
}

impl Desk {
    // The car of an element.
    fn element_line(self, j: u8) -> Line
        requires { j < 42 }
        ensures { result ≡ element_line self j }
    {
        let card = self.numbers[j as usize];
        where_line(card, self.placed(card, place_of(j)))
    }

    // ---- the questions

    // Every car, in the order of an image's numbers.
    pub fn list(self) -> Lines
        ensures { result ≡ held_lines (listed_cars self) }
    {
        gathered(no_lines(), |j| self.element_line(j))
    }

    // What is outstanding.
    #[tactic(auto, unfolding(crate::specs::Lines::outstanding))]
    pub fn outstanding(self) -> OpenSet
        ensures { result ≡ outstanding self }
    {
        // Kept: an array of a struct goes into another struct through a variable (the prover covers no other way).
        let set = self.station.set;
        OpenSet {
            issue: self.station.next.wrapping_sub(1),
            count: self.station.count,
            answered: self.station.answered,
            set,
        }
    }

    // What changes from these numbers to those.
    fn changed(self, new: [u32; 42]) -> Lines
        ensures { result ≡ held_lines (card_changes self.station.apart self.numbers new) }
    {
        let moved = gathered(no_lines(), |j| {
            moved_line(self.station.apart, self.numbers, new, j)
        });
        gathered(moved, |j| new_line(self.numbers, new, j))
    }

    // What an image with `count` numbers would be answered, and what it would change.
    pub fn compare(self, picture: Picture, count: u8, given: [u32; 31]) -> Comparison
        ensures { result ≡ compared self picture count given }
    {
        let o = self.image(picture, count, given);
        if o.reply.number() != 0 {
            return Comparison {
                reply: o.reply,
                lines: no_lines(),
            };
        }
        Comparison {
            reply: o.reply,
            lines: self.changed(o.desk.numbers),
        }
    }
}
