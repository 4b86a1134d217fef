// What the entries for C share: a station and an image in bytes, an answer as one number, and what an entry leaves in a room that it is
// lent. Every function takes every input. What each answers and leaves stands in specs/Rooms.antt.
#![tactic(auto)]

ghost use Rattle.std.specs.Prelude.{◌≡◌, ◌≤◌, length};
ghost use Rattle.rooms.specs.Rooms.{station_size, station_bytes, station_of, lent_station, image_bytes, returned, LeavesRoom, telling, outcome_kept, bytes_asked};

use answers::Answer;
use station::{Outcome, Station};

// The bytes of a lent station, where the issue of the next set stands in it, and what is set apart.
const STATION: usize = 60;

const NEXT: usize = 50;

const APART: usize = 52;

// The bytes of a record and what is set apart.
const IMAGE: usize = 16;

// The station that the first 60 bytes hold.
fn load(room: &[u8]) -> Station
    requires { station_size ≤ length room.now }
    ensures { result ≡ station_of room.now }
{
    Station {
        bits: wire::image_of(room),
        count: room[8],
        answered: room[9],
        set: wire::set_of(&room[10..NEXT]),
        next: wire::word(room[NEXT], room[NEXT + 1]),
        apart: wire::image_of(&room[APART..STATION]),
    }
}

// The station that a room's first 60 bytes hold; one of zeros, which is not fit, where it has fewer.
pub fn station_of(room: &[u8]) -> Station
    ensures { result ≡ lent_station room.now }
{
    if room.len() < STATION {
        return Station {
            bits: 0,
            count: 0,
            answered: 0,
            set: [0; 40],
            next: 0,
            apart: 0,
        };
    }
    load(room)
}

// A station as 60 bytes, by its fields.
fn stored(bits: u64, count: u8, answered: u8, set: [u8; 40], next: u16, apart: u64) -> [u8; STATION]
    ensures { result ≡ station_bytes (record { bits = bits; count = count; answered = answered; set = set; next = next; apart = apart }) }
{
    let mut b = [0u8; STATION];
    codec::copy(&wire::image_bytes(apart), &mut b[APART..STATION]);
    codec::copy(&next.to_le_bytes(), &mut b[NEXT..APART]);
    codec::copy(&set, &mut b[10..NEXT]);
    codec::copy(&wire::image_bytes(bits), &mut b[..8]);
    b[8] = count;
    b[9] = answered;
    b
}

// A station as 60 bytes.
pub fn station_bytes(s: Station) -> [u8; STATION]
    ensures { result ≡ station_bytes s }
{
    stored(s.bits, s.count, s.answered, s.set, s.next, s.apart)
}

// A record and what is set apart, as an image's sixteen bytes.
pub fn image_in(bits: u64, apart: u64) -> [u8; IMAGE]
    ensures { result ≡ image_bytes bits apart }
{
    let b = wire::image_bytes(bits);
    let a = wire::image_bytes(apart);
    [
        b[0], b[1], b[2], b[3], b[4], b[5], b[6], b[7], a[0], a[1], a[2], a[3], a[4], a[5], a[6],
        a[7],
    ]
}

// Kept: a sum, as returned has it: wrong versions of say are named that leave the 32 bits (must-fail/wrong_programs.edit).
// An answer as one number.
pub fn say(a: Answer) -> u32
    ensures { result ≡ returned a }
{
    a.number() as u32 + 256 * (a.place() as u32) + 65536 * (a.issue() as u32)
}

// Kept: a number and no Answer: desk_c, drawing_c and plan_c tell numbers that are no answers of a station (telling).
// Says a number, and writes src to the start of room where that is "taken"; where src does not fit, says so and writes nothing.
pub fn tell(said: u32, src: &[u8], room: &mut [u8]) -> u32
    ensures { LeavesRoom (telling said src.now room.old) result room.new }
{
    if room.len() < src.len() {
        return say(Answer::NoRoom);
    }
    if said % 256 != 0 {
        return said;
    }
    codec::copy(src, room);
    said
}

// The same of a call's outcome: its answer, and its station in bytes.
pub fn keep(o: Outcome, room: &mut [u8]) -> u32
    ensures { LeavesRoom (outcome_kept o room.old) result room.new }
{
    tell(say(o.answer), &station_bytes(o.station), room)
}

// How many bytes a request asks for: of more than eight instructions none is looked at.
pub fn bytes_asked(count: u8) -> usize
    ensures { result ≡ bytes_asked count }
{
    if Station::MOST < count {
        return 0;
    }
    5 * (count as usize)
}
