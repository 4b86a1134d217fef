// Messages written into lent room. What they mean stands in specs/.
ghost use Rattle.std.specs.Prelude.{◌≡◌, ◌∷◌, ◌++◌, ◌≤◌, ◌+◌, ◌*◌, get_or, length, take};
ghost use Rattle.wire.specs.declared.What.{What};
ghost use Rattle.codec.specs.Bytes.{little_endian};
ghost use Rattle.wire.specs.Kinds.{plain};
ghost use Rattle.wire.specs.Writes.{LeavesMessage, message_bytes, put, writing_message};

use super::kinds::{in_range, least_bad};
use super::{Message, What, image_bytes};
use answers::Answer;

// Puts all of src at the start of room, or refuses with 17 and writes nothing.
fn put(src: &[u8], room: &mut [u8]) -> Result<usize, Answer>
    ensures { LeavesMessage (put src.now room.old) result room.new }
{
    if room.len() < src.len() {
        return Err(Answer::NoRoom);
    }
    let size = codec::copy(src, room);
    Ok(size)
}

// A record and what is set apart, in a message of this kind.
fn image_message(kind: u8, bits: u64, apart: u64) -> [u8; 20]
    ensures { result ≡ 18 ∷ 0 ∷ kind ∷ 0 ∷ little_endian 8 bits ++ little_endian 8 apart }
{
    let b = image_bytes(bits);
    let a = image_bytes(apart);
    [
        18, 0, kind, 0, b[0], b[1], b[2], b[3], b[4], b[5], b[6], b[7], a[0], a[1], a[2], a[3],
        a[4], a[5], a[6], a[7],
    ]
}

// The bytes of a message that holds no instruction, and zeros past them; the first says how many come after the first two.
fn bytes_of(what: What) -> [u8; 20]
    ensures { (2 + get_or result 0 0 ≤ length result) × (take (2 + get_or result 0 0) result ≡ message_bytes (plain what)) }
{
    match what {
        What::Request => [3, 0, 1, 0, 0, 0, 0, 0, 0, 0, 0, 0, 0, 0, 0, 0, 0, 0, 0, 0],
        What::Event { way } => [3, 0, 2, 0, way, 0, 0, 0, 0, 0, 0, 0, 0, 0, 0, 0, 0, 0, 0, 0],
        What::Result {
            issue,
            number: n,
            ending: e,
        } => {
            let [l, h] = u16::to_le_bytes(issue);
            [6, 0, 3, 0, l, h, n, e, 0, 0, 0, 0, 0, 0, 0, 0, 0, 0, 0, 0]
        }
        What::Image { bits, apart } => image_message(4, bits, apart),
        What::Ask => [2, 0, 5, 0, 0, 0, 0, 0, 0, 0, 0, 0, 0, 0, 0, 0, 0, 0, 0, 0],
        What::Answer {
            number: n,
            place: p,
            issue,
        } => {
            let [l, h] = u16::to_le_bytes(issue);
            [6, 0, 128, 0, n, p, l, h, 0, 0, 0, 0, 0, 0, 0, 0, 0, 0, 0, 0]
        }
        What::Held { bits, apart } => image_message(129, bits, apart),
    }
}

// The first bytes of a request of so many instructions, and then those of the set.
fn request_bytes(count: u8, set: [u8; 40]) -> [u8; 45]
    requires { count ≤ 8 }
    ensures { result ≡ (3 + 5 * count) ∷ 0 ∷ 1 ∷ 0 ∷ count ∷ set }
{
    let mut m = [0u8; 45];
    codec::copy(&[3 + 5 * count, 0, 1, 0, count], &mut m);
    codec::copy(&set, &mut m[5..]);
    m
}

// Writes a request: 5, 4 at the least bad instruction, then 17, or all of it.
fn write_request(count: u8, set: [u8; 40], room: &mut [u8]) -> Result<usize, Answer>
    ensures { LeavesMessage (writing_message (record { what = What.Request; count = count; set = set }) room.old) result room.new }
{
    if 8 < count {
        return Err(Answer::TooMany);
    }
    let m = request_bytes(count, set);
    let bad = least_bad(&m, count);
    if bad < count {
        return Err(Answer::BadField(bad));
    }
    let size = 5 + 5 * (count as usize);
    put(&m[..size], room)
}

// Writes a message that holds no instruction at the start of room: 4, then 17, or all of it; bytes past it keep their values.
pub fn write_plain(what: What, room: &mut [u8]) -> Result<usize, Answer>
    ensures { LeavesMessage (writing_message (plain what) room.old) result room.new }
{
    if in_range(what) {
        let m = bytes_of(what);
        let size = 2 + m[0] as usize;
        return put(&m[..size], room);
    }
    Err(Answer::BadField(answers::NOWHERE))
}

// The same of any message, a request's count and instructions first: 5, 4, then 17, or all of it.
pub fn write(m: Message, room: &mut [u8]) -> Result<usize, Answer>
    ensures { LeavesMessage (writing_message m room.old) result room.new }
{
    match m.what {
        What::Request => write_request(m.count, m.set, room),
        _ => write_plain(m.what, room),
    }
}
