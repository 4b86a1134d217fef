// Messages: what they say, how they are read from bytes, in `kinds` each by its kind, and, in `writing`, how they are written. What they
// mean stands in specs/.
#![tactic(auto)]

ghost use Rattle.std.specs.Prelude.{◌≡◌, [], ◌∷◌, ◌++◌, ◌≤◌, ◌<◌, ◌-◌, get_or, length, replicate};
ghost use Rattle.std.specs.declared.result.Result.TheVariants.{Err};
ghost use Rattle.codec.specs.Bytes.{little_endian, from_little_endian};
ghost use Rattle.wire.specs.Kinds.{kinds_asked, plain, set_of};
ghost use Rattle.wire.specs.Reads.{kind_at, frame_of, as_parsed, said_in, read_request, read_among, read_message, read_asked};

use answers::Answer;

mod kinds;
pub mod writing;

// What a message asks or tells; a request's instructions stand beside it, in Message. An image is the record and what is set apart.
#[derive(Clone, Copy)]
pub enum What {
    Request,
    Event { way: u8 },
    Result { issue: u16, number: u8, ending: u8 },
    Image { bits: u64, apart: u64 },
    Ask,
    Answer { number: u8, place: u8, issue: u16 },
    Held { bits: u64, apart: u64 },
}

// A message: a request's instructions are held as their own five bytes each, the unused places zero.
// Kept: the count beside its array, as theorem InstructionsOneForm names them; there is no heap.
#[derive(Clone, Copy)]
pub struct Message {
    pub what: What,
    pub count: u8,
    pub set: [u8; 40],
}

// What a reader answers: how many bytes the message took, none where they can't be told, and the message, or why it is refused.
#[derive(Clone, Copy)]
pub struct Parsed {
    pub used: usize,
    pub says: Result<Message, Answer>,
}

// How far the first message of some bytes goes, by its length alone: cut short, of a wrong length, or so many bytes.
// Kept: no Result, since neither of the others is its one error: a run waits for the rest of the one and ends at the other.
#[derive(Clone, Copy)]
pub enum Frame {
    Cut,
    Wrong,
    Whole(usize),
}

// ---- bytes and numbers

// A byte of a run, or zero past its end.
pub fn byte(s: &[u8], i: usize) -> u8
    ensures { result ≡ get_or s.now i 0 }
{
    if i < s.len() {
        return s[i];
    }
    0
}

// Two bytes as a number, the lower first.
pub fn word(low: u8, high: u8) -> u16
    ensures { result ≡ from_little_endian 2 0 (low ∷ high ∷ []) }
{
    u16::from_le_bytes([low, high])
}

// The number that two bytes say from place i on, the lower first; bytes that are not there count as zero.
fn word_at(s: &[u8], i: usize) -> u16
    requires { i < 45 }
    ensures { result ≡ from_little_endian 2 i s.now }
{
    let low = byte(s, i);
    let high = byte(s, i + 1);
    word(low, high)
}

// The same of eight bytes, the lowest first.
fn image_at(s: &[u8], i: usize) -> u64
    requires { i < 39 }
    ensures { result ≡ from_little_endian 8 i s.now }
{
    u64::from_le_bytes([
        byte(s, i),
        byte(s, i + 1),
        byte(s, i + 2),
        byte(s, i + 3),
        byte(s, i + 4),
        byte(s, i + 5),
        byte(s, i + 6),
        byte(s, i + 7),
    ])
}

// The same of the first eight.
pub fn image_of(s: &[u8]) -> u64
    ensures { result ≡ from_little_endian 8 0 s.now }
{
    image_at(s, 0)
}

// The eight bytes that say a number, the lowest first.
pub fn image_bytes(x: u64) -> [u8; 8]
    ensures { result ≡ little_endian 8 x }
{
    u64::to_le_bytes(x)
}

// At most forty bytes as the places of a set, the unused ones zero.
fn held(s: &[u8]) -> [u8; 40]
    requires { length s.now ≤ 40 }
    ensures { result ≡ s.now ++ replicate (40 - length s.now) 0 }
{
    let mut set = [0u8; 40];
    codec::copy(s, &mut set);
    set
}

// The same of any run: what goes past the fortieth is not looked at.
pub fn set_of(s: &[u8]) -> [u8; 40]
    ensures { result ≡ set_of s.now }
{
    if 40 < s.len() {
        return held(&s[..40]);
    }
    held(s)
}

// ---- reading

// How far the first message of s goes.
pub fn framed(s: &[u8]) -> Frame
    ensures { result ≡ frame_of s.now }
{
    if s.len() < 2 {
        return Frame::Cut;
    }
    let n = word_at(s, 0) as usize;
    if n < 2 {
        return Frame::Wrong;
    }
    if 43 < n {
        return Frame::Wrong;
    }
    if s.len() < n + 2 {
        return Frame::Cut;
    }
    Frame::Whole(n + 2)
}

// The places of a set that holds no instruction.
fn unused() -> [u8; 40]
    ensures { result ≡ replicate 40 0 }
{
    [0; 40]
}

// A message that holds no instruction.
pub fn plain(what: What) -> Message
    ensures { result ≡ plain what }
{
    let set = unused();
    Message {
        what,
        count: 0,
        set,
    }
}

fn refused(answer: Answer, used: usize) -> Parsed
    ensures { result ≡ record { used = used; says = Err answer } }
{
    Parsed {
        used,
        says: Err(answer),
    }
}

// The kind of a message.
pub fn kind_at(m: &[u8]) -> u16
    ensures { result ≡ kind_at m.now }
{
    word_at(m, 2)
}

// A request whose bytes are exactly m.
pub fn request_in(m: &[u8]) -> Parsed
    ensures { result ≡ as_parsed (read_request m.now) }
{
    kinds::read_request(m)
}

// What a message whose bytes are exactly m says to a station, if it is no request: no set is filled in.
pub fn saying(m: &[u8]) -> Result<What, Answer>
    ensures { result ≡ said_in (read_among kinds_asked m.now) }
{
    match kinds::among(m).says {
        Ok(message) => Ok(message.what),
        Err(answer) => Err(answer),
    }
}

// The first message of s, of any kind; what stands after it is not looked at.
pub fn read(s: &[u8]) -> Parsed
    ensures { result ≡ as_parsed (read_message s.now) }
{
    match framed(s) {
        Frame::Cut => refused(Answer::TooFewBytes, 0),
        Frame::Wrong => refused(Answer::BadLength, 0),
        Frame::Whole(n) => kinds::whole(&s[..n]),
    }
}

// The same for a station, to which kinds 128 and 129 are unknown.
pub fn read_asked(s: &[u8]) -> Parsed
    ensures { result ≡ as_parsed (read_asked s.now) }
{
    match framed(s) {
        Frame::Cut => refused(Answer::TooFewBytes, 0),
        Frame::Wrong => refused(Answer::BadLength, 0),
        Frame::Whole(n) => kinds::whole_asked(&s[..n]),
    }
}
