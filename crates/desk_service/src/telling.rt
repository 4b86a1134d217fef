// What a message is told, written into lent room. What that is stands in specs/.
ghost use Rattle.std.specs.Prelude.{◌≡◌, ◌∷◌, ◌++◌, ◌+◌, ◌*◌, ◌/◌, ◌%◌, ◌≤◌, length, take};
ghost use Rattle.codec.specs.Bytes.{little_endian};
ghost use Rattle.wire.specs.Writes.{LeavesMessage, put};
ghost use Rattle.desk_service.specs.declared.DeskTold.{DeskTold};
ghost use Rattle.desk_service.specs.DeskService.{brief_bytes, brief, body_message, LeavesReply};

use super::{DeskAnswered, DeskReply, DeskTold};
use answers::Answer;
use desk::Lines;
use wire::What;

// Puts all of src at the start of room, or refuses with 17 and writes nothing.
fn put(src: &[u8], room: &mut [u8]) -> Result<usize, Answer>
    ensures { LeavesMessage (put src.now room.old) result room.new }
{
    if room.len() < src.len() {
        return Err(Answer::NoRoom);
    }
    Ok(codec::copy(src, room))
}

// The bytes of an answer.
fn answer_bytes(number: u8, place: u8, issue: u16) -> [u8; 8]
    ensures { result ≡ brief_bytes (DeskTold.Answer number place issue) }
{
    let issue = issue.to_le_bytes();
    [6, 0, 128, 0, number, place, issue[0], issue[1]]
}

// The bytes of where a car is.
fn place_bytes(place: u8, flag: u8, next: u8) -> [u8; 7]
    ensures { result ≡ brief_bytes (DeskTold.Place place flag next) }
{
    [5, 0, 136, 0, place, flag, next]
}

// The bytes of a card.
fn card_bytes(card: u32) -> [u8; 8]
    ensures { result ≡ brief_bytes (DeskTold.Card card) }
{
    let card = codec::four_bytes(card);
    [6, 0, 137, 0, card[0], card[1], card[2], card[3]]
}

// Writes what a message is told at the start of room: 17, or all of it; bytes past it keep their values.
fn write(told: DeskTold, room: &mut [u8]) -> Result<usize, Answer>
    ensures { LeavesMessage (put (brief_bytes told) room.old) result room.new }
{
    match told {
        DeskTold::Answer {
            number,
            place,
            issue,
        } => put(&answer_bytes(number, place, issue), room),
        DeskTold::Held { bits, apart } => {
            wire::writing::write_plain(What::Held { bits, apart }, room)
        }
        DeskTold::Place { place, flag, next } => put(&place_bytes(place, flag, next), room),
        DeskTold::Card { card } => put(&card_bytes(card), room),
    }
}

// A reply with an answer: its desk, and what is written of it.
pub fn briefly(r: DeskReply, room: &mut [u8]) -> DeskAnswered
    ensures { LeavesReply (brief r) room.old result room.new }
{
    DeskAnswered {
        desk: r.desk,
        written: write(r.told, room),
    }
}

// ---- lines, and what is outstanding

// The first n bytes of src, put at the start of room.
fn put_first(src: &[u8], n: usize, room: &mut [u8]) -> Result<usize, Answer>
    requires { n ≤ length src.now }
    ensures { LeavesMessage (put (take n src.now) room.old) result room.new }
{
    put(&src[..n], room)
}

// A message of so many lines, with all bytes behind them.
fn with_lines(kind: u8, count: u8, lines: [u8; 496]) -> [u8; 501]
    ensures { result ≡ (3 + 8 * count) % 256 ∷ (3 + 8 * count) / 256 ∷ kind ∷ 0 ∷ count ∷ lines }
{
    let size = 3 + 8 * (count as u16);
    let mut b = [0u8; 501];
    codec::copy(&lines, &mut b[5..501]);
    b[0] = (size % 256) as u8;
    b[1] = (size / 256) as u8;
    b[2] = kind;
    b[3] = 0;
    b[4] = count;
    b
}

// Writes lines as a message of this kind.
pub fn put_lines(kind: u8, lines: Lines, room: &mut [u8]) -> Result<usize, Answer>
    requires { lines.count ≤ 62 }
    ensures { LeavesMessage (put (body_message kind (lines.count ∷ take (8 * lines.count) lines.bytes)) room.old) result room.new }
{
    let count = lines.count;
    let eight_each = lines.bytes;
    let b = with_lines(kind, count, eight_each);
    put_first(&b, 5 + 8 * (count as usize), room)
}

// A message of what is outstanding, with the whole set.
fn with_set(issue: u16, answered: u8, count: u8, set: [u8; 40]) -> [u8; 48]
    ensures { result ≡ (6 + 5 * count) % 256 ∷ (6 + 5 * count) / 256 ∷ 139 ∷ 0 ∷ issue % 256 ∷ issue / 256 ∷ answered ∷ count ∷ set }
{
    let size = 6 + 5 * (count as u16);
    let mut b = [0u8; 48];
    codec::copy(&set, &mut b[8..48]);
    b[0] = (size % 256) as u8;
    b[1] = (size / 256) as u8;
    b[2] = 139;
    b[3] = 0;
    b[4] = (issue % 256) as u8;
    b[5] = (issue / 256) as u8;
    b[6] = answered;
    b[7] = count;
    b
}

// Writes what is outstanding.
pub fn put_set(
    issue: u16,
    answered: u8,
    count: u8,
    set: [u8; 40],
    room: &mut [u8],
) -> Result<usize, Answer>
    requires { count ≤ 8 }
    ensures { LeavesMessage (put (body_message 139 (little_endian 2 issue ++ (answered ∷ count ∷ take (5 * count) set))) room.old) result room.new }
{
    let b = with_set(issue, answered, count, set);
    put_first(&b, 8 + 5 * (count as usize), room)
}
