// Each kind of message, read from exactly its own bytes, and the ranges of its fields. What they mean stands in specs/.
ghost use Rattle.std.specs.Prelude.{◌≡◌, ◌≤◌, ◌+◌, ◌*◌, length, drop};
ghost use Rattle.bits.specs.Search.{least};
ghost use Rattle.wire.specs.Kinds.{first_instruction, kinds_known, kinds_asked, in_range};
ghost use Rattle.wire.specs.Reads.{as_parsed, sized, is_bad, bad_in, read_request, read_among, read_whole};

use super::{Message, Parsed, What, byte, held, image_at, plain, refused, word_at};
use answers::Answer;
use rules::Instruction;

// Whether the fields of a message are in their ranges, a request's instructions aside.
pub fn in_range(what: What) -> bool
    ensures { result ≡ in_range what }
{
    match what {
        What::Event { way } => (1 <= way) & (way <= 4),
        What::Result { ending, .. } => ending <= 2,
        What::Answer { number, place, .. } => answers::in_table(number)
            & ((place <= 7) | (place == answers::NOWHERE)),
        _ => true,
    }
}

// A message of a kind whose body has one size: taken if it is n bytes long and its fields are in their ranges.
fn sized(m: &[u8], n: usize, what: What) -> Parsed
    ensures { result ≡ as_parsed (sized m.now n what) }
{
    let used = m.len();
    if used != n {
        return refused(Answer::BadLength, used);
    }
    if in_range(what) {
        let message = plain(what);
        return Parsed {
            used,
            says: Ok(message),
        };
    }
    refused(Answer::BadField(answers::NOWHERE), used)
}

fn is_bad(one: Option<Instruction>) -> bool
    ensures { result ≡ is_bad one }
{
    one.is_none()
}

// The least bad instruction of a request of n, or n where none is: each is read from its own five bytes.
pub fn least_bad(m: &[u8], n: u8) -> u8
    requires { (n ≤ 8) × (5 + 5 * n ≤ length m.now) }
    ensures { result ≡ least n (bad_in (drop first_instruction m.now)) }
{
    for i in 0..n {
        let at = 5 + 5 * (i as usize);
        let one = rules::read_bytes(&m[at..]);
        if is_bad(one) {
            return i;
        }
    }
    n
}

// A request whose bytes are exactly m.
pub fn read_request(m: &[u8]) -> Parsed
    ensures { result ≡ as_parsed (read_request m.now) }
{
    let used = m.len();
    let count = byte(m, 4);
    if 8 < count {
        return refused(Answer::TooMany, used);
    }
    if used != 5 + 5 * (count as usize) {
        return refused(Answer::BadLength, used);
    }
    let bad = least_bad(m, count);
    if bad < count {
        return refused(Answer::BadField(bad), used);
    }
    let set = held(&m[5..]);
    let message = Message {
        what: What::Request,
        count,
        set,
    };
    Parsed {
        used,
        says: Ok(message),
    }
}

// A message whose bytes are exactly m, of a kind besides requests that a station reads.
pub fn among(m: &[u8]) -> Parsed
    ensures { result ≡ as_parsed (read_among kinds_asked m.now) }
{
    let kind = word_at(m, 2);
    match kind {
        2 => sized(m, 5, What::Event { way: byte(m, 4) }),
        3 => sized(
            m,
            8,
            What::Result {
                issue: word_at(m, 4),
                number: byte(m, 6),
                ending: byte(m, 7),
            },
        ),
        4 => {
            let bits = image_at(m, 4);
            let apart = image_at(m, 12);
            sized(m, 20, What::Image { bits, apart })
        }
        5 => sized(m, 4, What::Ask),
        _ => refused(Answer::UnknownKind, m.len()),
    }
}

// The same with requests.
pub fn whole_asked(m: &[u8]) -> Parsed
    ensures { result ≡ as_parsed (read_whole kinds_asked m.now) }
{
    let kind = word_at(m, 2);
    if kind == 1 {
        return read_request(m);
    }
    among(m)
}

// The same for any kind.
pub fn whole(m: &[u8]) -> Parsed
    ensures { result ≡ as_parsed (read_whole kinds_known m.now) }
{
    let kind = word_at(m, 2);
    match kind {
        128 => sized(
            m,
            8,
            What::Answer {
                number: byte(m, 4),
                place: byte(m, 5),
                issue: word_at(m, 6),
            },
        ),
        129 => sized(
            m,
            20,
            What::Held {
                bits: image_at(m, 4),
                apart: image_at(m, 12),
            },
        ),
        _ => whole_asked(m),
    }
}
