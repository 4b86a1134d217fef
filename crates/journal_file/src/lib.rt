// A journal's file as bytes: its head, and its appends, each with a checksum that goes on from the one before. Nothing here reads or writes
// a file. What each byte says, and which bytes are a journal, stands in specs/.
#![tactic(auto)]

ghost use Rattle.std.specs.Prelude.{◌≡◌, not, [], ◌∷◌, ◌+◌, ◌≤◌, eqb, length, take, drop};
ghost use Rattle.codec.specs.Bytes.{from_little_endian};
ghost use Rattle.rooms.specs.Rooms.{lent_station};
ghost use Rattle.station.specs.declared.Station.{Station};
ghost use Rattle.checksum.specs.Slices.{crc_by};
ghost use Rattle.journal_file.specs.Appends.{title_of, opening_of, sum_after, closing_of, carried_of, titled, payload_right, no_front, whole_front, front_of, written, lost_from, zeroed};
ghost use Rattle.journal_file.specs.Heads.{title_bytes, head_sum, head_kind, head_of, name_byte, is_garage};
ghost use Rattle.journal_file.specs.Replaying.{LeavesStep, stepping};

mod steps;

use station::Station;
use steps::{lead_in, not_taken, take_mark, take_messages};

const MOST: usize = 65536;

const AROUND: usize = 13;

const SECTOR: usize = 512;

const END: u8 = 10;

// What a head begins with: what the file is, in words, and the number of its format.
const MAGIC: &[u8] = b"Vargsnida, journal.\n";

const FORMAT: u8 = 2;

// The kinds of appends, by the byte that each has in a file.
// Kept: no enum, since opening and sum_after take any byte, as a file may hold any: a match over these names is the whole conversion.
const MESSAGES: u8 = 1;

const CUT_SHORT: u8 = 2;

const WRONG_LENGTH: u8 = 3;

const CLOSED: u8 = 4;

const NUMBERS: u8 = 5;

// ---- an append

// Kept: whole and short beside the values, here and in no_front: theorems name whole of a front (specs/Promises, specs/Damage).
// What stands at the front of some bytes: whether it is a whole append, or the bytes end inside of one; its kind, how many bytes it carries,
// and its checksum.
#[derive(Clone, Copy)]
pub struct Front {
    pub whole: bool,
    pub short: bool,
    pub kind: u8,
    pub carries: usize,
    pub sum: u32,
}

// The kind and the number of bytes carried, as bytes.
fn title_of(kind: u8, size: usize) -> [u8; 4]
    ensures { result ≡ title_of kind size }
{
    let n = size.to_le_bytes();
    [kind, n[0], n[1], n[2]]
}

// What stands before the bytes of an append of this kind, behind an append with this checksum.
pub fn opening(t: &[u32], sum: u32, kind: u8, size: usize) -> [u8; 8]
    ensures { result ≡ opening_of (crc_by t.now) sum kind size }
{
    let title = title_of(kind, size);
    let s = codec::four_bytes(checksum::continue_by(t, sum, &title));
    [
        title[0], title[1], title[2], title[3], s[0], s[1], s[2], s[3],
    ]
}

// The checksum of an append of this kind that carries these bytes.
pub fn sum_after(t: &[u32], sum: u32, kind: u8, bytes: &[u8]) -> u32
    ensures { result ≡ sum_after (crc_by t.now) sum kind bytes.now }
{
    let title = title_of(kind, bytes.len());
    checksum::continue_by(t, checksum::continue_by(t, sum, &title), bytes)
}

// What stands behind them.
pub fn closing(sum: u32) -> [u8; 5]
    ensures { result ≡ closing_of sum }
{
    let s = codec::four_bytes(sum);
    [s[0], s[1], s[2], s[3], END]
}

// The number that three bytes say, the lowest first.
fn joined(a: u8, b: u8, c: u8) -> usize
    ensures { result ≡ from_little_endian 3 0 (a ∷ b ∷ c ∷ []) }
{
    u32::from_le_bytes([a, b, c, 0]) as usize
}

// How many bytes are carried, as the title says.
fn carried_of(m: &[u8]) -> usize
    requires { 8 ≤ length m.now }
    ensures { result ≡ carried_of m.now }
{
    joined(m[1], m[2], m[3])
}

// Whether the title is right.
fn is_titled(t: &[u32], sum: u32, m: &[u8]) -> bool
    requires { 8 ≤ length m.now }
    ensures { result ≡ titled (crc_by t.now) sum m.now }
{
    let said = codec::four_at(m, 4);
    (said == checksum::continue_by(t, sum, &m[..4])) & (carried_of(m) <= MOST)
}

// Whether what is carried is right.
fn is_carried(t: &[u32], m: &[u8], n: usize) -> bool
    requires { (n ≡ carried_of m.now) × (n + 13 ≤ length m.now) }
    ensures { result ≡ payload_right (crc_by t.now) m.now }
{
    let before = codec::four_at(m, 4);
    let said = codec::four_at(m, n + 8);
    (said == checksum::continue_by(t, before, &m[8..n + 8])) & (m[n + 12] == END)
}

fn no_front(short: bool) -> Front
    ensures { result ≡ no_front short }
{
    Front {
        whole: false,
        short,
        kind: 0,
        carries: 0,
        sum: 0,
    }
}

// What stands at the front of some bytes, behind an append with this checksum.
pub fn front_of(t: &[u32], sum: u32, m: &[u8]) -> Front
    ensures { result ≡ front_of (crc_by t.now) sum m.now }
{
    if m.len() < 8 {
        return no_front(true);
    }
    if !is_titled(t, sum, m) {
        return no_front(false);
    }
    let n = carried_of(m);
    if m.len() < n + AROUND {
        return no_front(true);
    }
    if is_carried(t, m, n) {
        return Front {
            whole: true,
            short: false,
            kind: m[0],
            carries: n,
            sum: codec::four_at(m, n + 8),
        };
    }
    no_front(false)
}

// ---- cut off by a lost power supply

// How many bytes there are up to the last that is not zero.
fn written_of(m: &[u8]) -> usize
    ensures { result ≡ written m.now }
{
    m.iter().rposition(|b| *b != 0).map_or(0, |last| last + 1)
}

// The first place from the n-th byte on at which a sector begins.
fn lost_from(at: usize, n: usize) -> usize
    requires { n ≤ 65549 }
    ensures { result ≡ lost_from at n }
{
    if n == 0 {
        return 0;
    }
    n + (SECTOR - (at % SECTOR + n) % SECTOR) % SECTOR
}

// Whether an append that is not right, with all bytes to the file's end, was cut off by a lost power supply: there are only zeros from its
// beginning on, or from a sector's. Its first byte is at this place in the file.
pub fn is_zeroed(t: &[u32], sum: u32, at: usize, m: &[u8]) -> bool
    ensures { result ≡ zeroed (crc_by t.now) sum at m.now }
{
    if MOST + AROUND < m.len() {
        return false;
    }
    let lost = lost_from(at, written_of(m));
    if m.len() <= lost {
        return false;
    }
    if lost < 8 {
        return true;
    }
    if is_titled(t, sum, m) {
        return m.len() == carried_of(m) + AROUND;
    }
    false
}

// ---- the head

// What the bytes are that a file begins with: no journal, one of another format, damaged, one whose station is not fit, or a good one.
#[derive(Clone, Copy)]
pub enum Kind {
    NoJournal,
    OtherFormat,
    Damaged,
    Unfit,
    Good,
}

// Kept: what it is beside the station, as JournalWeek names the kind of a head (report_program/specs/Journals).
// A head: what it is, the station to begin with, and the checksum that the first append goes on from.
#[derive(Clone, Copy)]
pub struct Head {
    pub kind: Kind,
    pub station: Station,
    pub sum: u32,
}

// What stands before the garage's name.
pub fn title() -> [u8; 24]
    ensures { result ≡ title_bytes }
{
    let version = codec::four_bytes(version::number());
    let mut title = [FORMAT; 24];
    codec::copy(MAGIC, &mut title[..20]);
    codec::copy(&version[..3], &mut title[21..]);
    title
}

// The checksum of a head with this name, filled up with zeros, and this station.
pub fn head_sum(t: &[u32], name: &[u8], station: Station) -> u32
    ensures { result ≡ head_sum (crc_by t.now) name.now station }
{
    let title = title();
    let bytes = rooms::station_bytes(station);
    let named = checksum::continue_by(t, checksum::continue_by(t, 0, &title), name);
    checksum::continue_by(t, named, &bytes)
}

// Whether a byte can be one of a garage's name.
fn is_name_byte(b: u8) -> bool
    ensures { result ≡ name_byte b }
{
    ((33 <= b) & (b <= 126)) | (128 <= b)
}

// Whether a word can be a garage's name.
pub fn is_garage(word: &[u8]) -> bool
    ensures { result ≡ is_garage word.now }
{
    if word.len() < 1 {
        return false;
    }
    if 40 < word.len() {
        return false;
    }
    word.iter().all(|b| is_name_byte(*b))
}

// What the bytes of a head are.
fn kind_of(t: &[u32], m: &[u8], station: Station) -> Kind
    requires { (128 ≤ length m.now) × (station ≡ lent_station (take 60 (drop 64 m.now))) }
    ensures { result ≡ head_kind (crc_by t.now) m.now }
{
    if !commands::is_text(&m[..20], MAGIC) {
        return Kind::NoJournal;
    }
    if m[20] != FORMAT {
        return Kind::OtherFormat;
    }
    if codec::four_at(m, 124) != checksum::continue_by(t, 0, &m[..124]) {
        return Kind::Damaged;
    }
    if !station.fit() {
        return Kind::Unfit;
    }
    Kind::Good
}

// The head that some bytes begin with.
pub fn head_of(t: &[u32], m: &[u8]) -> Head
    ensures { result ≡ head_of (crc_by t.now) m.now }
{
    if m.len() < 128 {
        return Head {
            kind: Kind::NoJournal,
            station: rooms::station_of(&[]),
            sum: 0,
        };
    }
    let station = rooms::station_of(&m[64..124]);
    let kind = kind_of(t, m, station);
    Head {
        kind,
        station,
        sum: codec::four_at(m, 124),
    }
}

// ---- a replay

// The station after the appends so far, the checksum of the last one, and whether it says that the journal is closed.
#[derive(Clone, Copy)]
pub struct Replay {
    pub station: Station,
    pub sum: u32,
    pub closed: bool,
}

// Kept: took is 0 where none was, and short stands beside it (also in not_taken), as ClosedTakesNothing names took (journal_laws).
// What became of an append: the replay then, and how many bytes it took; where none was taken, whether the bytes end inside of one.
#[derive(Clone, Copy)]
pub struct Step {
    pub replay: Replay,
    pub took: usize,
    pub short: bool,
}

// Takes the append at the front of some bytes. The room is for answers, which are not to be written.
pub fn take_append(t: &[u32], r: Replay, m: &[u8], room: &mut [u8]) -> Step
    ensures { LeavesStep (stepping (crc_by t.now) r m.now room.old) result room.new }
{
    let f = front_of(t, r.sum, m);
    if !f.whole {
        return not_taken(r, f.short);
    }
    if r.closed {
        return not_taken(r, false);
    }
    match f.kind {
        MESSAGES | NUMBERS => {
            let from = 8 + lead_in(f);
            take_messages(r, f, &m[from..8 + f.carries], room)
        }
        _ => take_mark(r, f),
    }
}
