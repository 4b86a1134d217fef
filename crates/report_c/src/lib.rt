// The entries for a host in C that keeps the report's totals beside its station: the totals are lent as 208 bytes, an answer is its number
// plus 256 times a place, and a refused call writes nothing. What each answers and leaves stands in specs/Entries.antt.
#![tactic(auto)]

ghost use Rattle.std.specs.Prelude.{◌≡◌, ◌++◌, ◌≤◌, length, take, drop};
ghost use Rattle.totals.specs.Totals.{totals_of};
ghost use Rattle.rooms.specs.Rooms.{LeavesRoom};
ghost use Rattle.report_c.specs.Entries.{totals_size, totals_bytes, totals_in, starting, counting, full_by, known_full, texting, lining};

use answers::{Answer, NOWHERE};
use report_text::Text;
use rooms::say;
use totals::Totals;

// The number of totals.
const SIZE: usize = 52;

// The bytes that they take.
const TOTALS: usize = 208;

// The bytes of a lent station.
const STATION: usize = 60;

// The number of the answer that a total is full.
const FULL: u32 = 40;

// The number that stands for no total.
// Kept: report_lines takes it from C, and report_message tells a full total's place in a number.
const NOTHING: u8 = 255;

// ---- totals in bytes

// The totals that the first 208 bytes hold.
fn load(room: &[u8]) -> Totals
    requires { totals_size ≤ length room.now }
    ensures { result ≡ totals_in room.now }
{
    let mut counts = [0; SIZE];
    for place in 0..SIZE {
        counts[place] = codec::four_at(room, 4 * place);
    }
    Totals { counts }
}

// The bytes of totals, written to the room's first 208.
fn keep(counts: &[u32; SIZE], room: &mut [u8])
    requires { totals_size ≤ length room.old }
    ensures { room.new ≡ totals_bytes (totals_of counts.now) ++ drop totals_size room.old }
{
    for place in 0..SIZE {
        let four = codec::four_bytes(counts[place]);
        codec::copy(&four, &mut room[4 * place..4 * place + 4]);
    }
}

// ---- the entries

// Writes the totals of a new report.
pub fn report_start(totals: &mut [u8]) -> u32
    ensures { LeavesRoom (starting totals.old) result totals.new }
{
    if totals.len() < TOTALS {
        return say(Answer::NoRoom);
    }
    keep(&[0; SIZE], totals);
    say(Answer::Taken)
}

// Kept: a sum, here and in put: C is told one number, which counting and texting say so.
// Counts the first message of a run, as it is before the lent station is given it; where a total is full, its place is told.
pub fn report_message(totals: &mut [u8], station: &[u8], message: &[u8]) -> u32
    ensures { LeavesRoom (counting totals.old station.now message.now) result totals.new }
{
    if totals.len() < TOTALS {
        return say(Answer::NoRoom);
    }
    if station.len() < STATION {
        return say(Answer::NoRoom);
    }
    let s = rooms::station_of(station);
    let t = load(totals);
    let mut counts = t.counts;
    if let Some(full) = week::count_message(&mut counts, s, message) {
        return FULL + 256 * (full as u32);
    }
    keep(&counts, totals);
    say(Answer::Taken)
}

// Whether what is full is a place of the totals, or none.
fn known(full: u8) -> bool
    ensures { result ≡ known_full full }
{
    ((full as usize) < SIZE) | (full == NOTHING)
}

// The total that a host says is full, or none.
fn full_by(full: u8) -> Option<u8>
    ensures { result ≡ full_by full }
{
    if full == NOTHING { None } else { Some(full) }
}

// Writes the first bytes of a line to a room that has as many, and says how many they are.
fn put(text: &Text, out: &mut [u8]) -> u32
    requires { text.now.size ≤ length text.now.bytes }
    ensures { LeavesRoom (texting (take text.now.size text.now.bytes) out.old) result out.new }
{
    if out.len() < text.size {
        return say(Answer::NoRoom);
    }
    codec::copy(&text.bytes[..text.size], out);
    say(Answer::Taken) + 65536 * (text.size as u32)
}

// The report's text: one line for each total in force, or the name of the one that is full.
pub fn report_lines(totals: &[u8], full: u8, out: &mut [u8]) -> u32
    ensures { LeavesRoom (lining totals.now full out.old) result out.new }
{
    if !known(full) {
        return say(Answer::BadField(NOWHERE));
    }
    if totals.len() < TOTALS {
        return say(Answer::NoRoom);
    }
    let t = load(totals);
    put(&report_text::report(t, full_by(full)), out)
}
