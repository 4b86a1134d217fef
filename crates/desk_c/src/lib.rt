// The entries for a street desk in C or Rust: numbers and runs of bytes alone. A desk is lent as 228 bytes, a station's and then its 42
// numbers, an answer is its number plus 256 times its place plus 65536 times its issue, and a refused call writes nothing. What each
// answers and leaves stands in specs/Entries.antt.
#![tactic(auto)]

ghost use Rattle.std.specs.Prelude.{◌≡◌, ◌++◌, ◌≤◌, ◌*◌, ◌-◌, length, drop, replicate};
ghost use Rattle.codec.specs.Bytes.{little_endian};
ghost use Rattle.codec.specs.Fours.{fours_in, fours_bytes};
ghost use Rattle.answers.specs.declared.Answer.{Answer};
ghost use Rattle.rooms.specs.Rooms.{LeavesRoom, writes};
ghost use Rattle.desk.specs.declared.Reply.{Reply};
ghost use Rattle.desk.specs.Desk.{start_desk};
ghost use Rattle.desk.specs.Calls as calls;
ghost use Rattle.desk_c.specs.Entries.{desk_numbers, desk_size, desk_bytes, desk_of, replied, shows, desk_entry, lent_bytes, desk_request_of, most_numbers, desk_image_of, desk_asking, where_said, finding, parting};

use answers::{Answer, NOWHERE};
use desk::{AskError, Desk, DeskOutcome, Reply, Whereabouts};
use rooms::{say, tell};
use station::{Picture, Report, Station};

mod listing;

// The bytes of a lent desk, and of its station.
const DESK: usize = 228;

const STATION: usize = 60;

// How many numbers it has, and how many an image can come with.
const NUMBERS: usize = 42;

const GIVEN: usize = 31;

// The bytes of a record and what is set apart, of a set's instruction, and of a number.
const IMAGE: usize = 16;

const CODE: usize = 5;

const CARD: usize = 4;

// ---- desks and replies in bytes and numbers

// The 42 numbers that a run begins with.
fn numbers_in(run: &[u8]) -> [u32; NUMBERS]
    requires { 4 * desk_numbers ≤ length run.now }
    ensures { result ≡ fours_in desk_numbers run.now }
{
    let mut numbers = [0u32; NUMBERS];
    for place in 0..NUMBERS {
        numbers[place] = codec::four_at(run, 4 * place);
    }
    numbers
}

// The desk that the first 228 bytes hold.
fn load(room: &[u8]) -> Desk
    requires { desk_size ≤ length room.now }
    ensures { result ≡ desk_of room.now }
{
    let station = rooms::station_of(room);
    let numbers = numbers_in(&room[STATION..]);
    Desk { station, numbers }
}

// The 42 numbers, written to the start of a run.
fn put_numbers(numbers: &[u32; NUMBERS], run: &mut [u8])
    requires { 4 * desk_numbers ≤ length run.old }
    ensures { run.new ≡ fours_bytes desk_numbers numbers.now ++ drop (4 * desk_numbers) run.old }
{
    for place in 0..NUMBERS {
        let four = codec::four_bytes(numbers[place]);
        codec::copy(&four, &mut run[4 * place..4 * place + 4]);
    }
}

// A desk as 228 bytes.
fn stored(d: Desk) -> [u8; DESK]
    ensures { result ≡ desk_bytes d }
{
    let mut b = [0u8; DESK];
    put_numbers(&d.numbers, &mut b[STATION..DESK]);
    codec::copy(&rooms::station_bytes(d.station), &mut b[..STATION]);
    b
}

// Kept: sums, here and in place_told: C is told one number, which replied and where_said say so.
// A reply as one number.
fn told(a: Reply) -> u32
    ensures { result ≡ replied a }
{
    a.number() as u32 + 256 * (a.place() as u32) + 65536 * (a.issue() as u32)
}

// Answers a call's outcome, and writes its desk to room if that is "taken".
fn keep(o: DeskOutcome, room: &mut [u8]) -> u32
    requires { desk_size ≤ length room.old }
    ensures { LeavesRoom (shows o.reply (desk_bytes o.desk) room.old) result room.new }
{
    tell(told(o.reply), &stored(o.desk), room)
}

// ---- the calls on a lent desk

// Kept: each entry tests the room that it is lent, for of each a wrong version is named that refuses the shortest room that does
// (must-fail/wrong_programs.edit), and it has to be refused in the entry's own proof.

// Writes the start desk.
#[unsafe(no_mangle)]
pub extern "C" fn desk_start(room: &mut [u8]) -> u32
    ensures { LeavesRoom (desk_entry (λ d. calls.desk_refused start_desk (Reply.Told Answer.Taken)) room.old) result room.new }
{
    if room.len() < DESK {
        return say(Answer::NoRoom);
    }
    let o = DeskOutcome {
        desk: Desk::start(),
        reply: Reply::Told(Answer::Taken),
    };
    keep(o, room)
}

// How many bytes `count` things are lent in, of more than so many none.
fn lent(most: u8, each: usize, count: u8) -> usize
    requires { each ≤ 8 }
    ensures { result ≡ lent_bytes most each count }
{
    if most < count {
        return 0;
    }
    each * (count as usize)
}

// The desk as it was: fewer bytes were lent than a count says.
fn too_few(desk: Desk) -> DeskOutcome
    ensures { result ≡ calls.desk_refused desk (Reply.Told Answer.TooFewBytes) }
{
    DeskOutcome {
        desk,
        reply: Reply::Told(Answer::TooFewBytes),
    }
}

// A request on a desk, its set as a run of bytes.
fn requested(d: Desk, count: u8, set: &[u8]) -> DeskOutcome
    ensures { result ≡ desk_request_of count set.now d }
{
    let size = lent(Station::MOST, CODE, count);
    if set.len() < size {
        return too_few(d);
    }
    d.request(count, wire::set_of(&set[..size]))
}

// A request of `count` instructions, five bytes each.
#[unsafe(no_mangle)]
pub extern "C" fn desk_request(room: &mut [u8], count: u8, set: &[u8]) -> u32
    ensures { LeavesRoom (desk_entry (desk_request_of count set.now) room.old) result room.new }
{
    if room.len() < DESK {
        return say(Answer::NoRoom);
    }
    let o = requested(load(room), count, set);
    keep(o, room)
}

// A car event, with a card's number where a drive-in begins.
#[unsafe(no_mangle)]
pub extern "C" fn desk_event(room: &mut [u8], way: u8, card: u32) -> u32
    ensures { LeavesRoom (desk_entry (λ d. calls.desk_event d way card) room.old) result room.new }
{
    if room.len() < DESK {
        return say(Answer::NoRoom);
    }
    let o = load(room).event(way, card);
    keep(o, room)
}

// The result of an instruction, by the issue of its set and its number from 0: 0 failed, 1 done, 2 stuck.
#[unsafe(no_mangle)]
pub extern "C" fn desk_result(room: &mut [u8], issue: u16, number: u8, ending: u8) -> u32
    ensures { LeavesRoom (desk_entry (λ d. calls.desk_result d (record { issue = issue; number = number; ending = ending })) room.old) result room.new }
{
    if room.len() < DESK {
        return say(Answer::NoRoom);
    }
    let o = load(room).result(Report {
        issue,
        number,
        ending,
    });
    keep(o, room)
}

// Some bytes with zeros behind them.
fn padded(run: &[u8]) -> [u8; 124]
    requires { length run.now ≤ 124 }
    ensures { result ≡ run.now ++ replicate (124 - length run.now) 0 }
{
    let mut b = [0u8; 124];
    codec::copy(run, &mut b);
    b
}

// The 31 numbers that 124 bytes say.
// Kept: beside `numbers_in`, since a wrong version of each is named and has to be refused in its own proof.
fn given(b: [u8; 124]) -> [u32; GIVEN]
    ensures { result ≡ fours_in most_numbers b }
{
    let mut numbers = [0u32; GIVEN];
    for place in 0..GIVEN {
        numbers[place] = codec::four_at(&b, 4 * place);
    }
    numbers
}

// An image on a desk, its numbers as a run of bytes.
fn pictured(d: Desk, picture: Picture, count: u8, run: &[u8]) -> DeskOutcome
    ensures { result ≡ desk_image_of picture.bits picture.apart count run.now d }
{
    let size = lent(31, CARD, count);
    if run.len() < size {
        return too_few(d);
    }
    d.image(picture, count, given(padded(&run[..size])))
}

// An image with `count` numbers, four bytes each, which becomes the record with nothing set apart.
#[unsafe(no_mangle)]
pub extern "C" fn desk_image(
    room: &mut [u8],
    image: u64,
    apart: u64,
    count: u8,
    cards: &[u8],
) -> u32
    ensures { LeavesRoom (desk_entry (desk_image_of image apart count cards.now) room.old) result room.new }
{
    if room.len() < DESK {
        return say(Answer::NoRoom);
    }
    let o = pictured(load(room), Picture { bits: image, apart }, count, cards);
    keep(o, room)
}

// ---- questions on a lent desk

// The record's eight bytes and then those of what is set apart, to a room of their own.
#[unsafe(no_mangle)]
pub extern "C" fn desk_ask(room: &[u8], image: &mut [u8]) -> u32
    ensures { LeavesRoom (desk_asking room.now image.old) result image.new }
{
    if room.len() < DESK {
        return say(Answer::NoRoom);
    }
    if image.len() < IMAGE {
        return say(Answer::NoRoom);
    }
    let d = load(room);
    let b = rooms::image_in(d.station.bits, d.station.apart);
    tell(told(d.ask().reply), &b, image)
}

// Where a card's car is, as one number.
fn place_told(w: Result<Whereabouts, AskError>) -> u32
    ensures { result ≡ where_said w }
{
    match w {
        Ok(Whereabouts::At(k)) => 256 * (k as u32),
        Ok(Whereabouts::LastKnown(k)) => 256 * (k as u32) + 65536,
        Ok(Whereabouts::Moving { from, to }) => {
            256 * (from as u32) + 131072 + 16777216 * (to as u32)
        }
        Ok(Whereabouts::NotHere) => 256 * (NOWHERE as u32),
        Err(AskError::Unfit) => say(Answer::Unfit),
    }
}

// Where a card's car is: its place, whether that is the last known one, or the place that it would get; or that it is not here.
#[unsafe(no_mangle)]
pub extern "C" fn desk_where(room: &[u8], card: u32) -> u32
    ensures { result ≡ finding room.now card }
{
    if room.len() < DESK {
        return say(Answer::NoRoom);
    }
    place_told(load(room).whereabouts(card))
}

// A card's number, written to a room of its own.
fn put_card(card: u32, out: &mut [u8]) -> u32
    requires { 4 ≤ length out.old }
    ensures { LeavesRoom (writes Answer.Taken (little_endian 4 card) out.old) result out.new }
{
    tell(say(Answer::Taken), &codec::four_bytes(card), out)
}

// Which card is leaving: its number's four bytes, those of 0 where none is, to a room of their own.
#[unsafe(no_mangle)]
pub extern "C" fn desk_leaving(room: &[u8], card: &mut [u8]) -> u32
    ensures { LeavesRoom (parting room.now card.old) result card.new }
{
    if room.len() < DESK {
        return say(Answer::NoRoom);
    }
    if card.len() < CARD {
        return say(Answer::NoRoom);
    }
    let Ok(leaving) = load(room).leaving() else {
        return say(Answer::Unfit);
    };
    put_card(leaving.unwrap_or(0), card)
}
