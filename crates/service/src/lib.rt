// Messages answered on a station: one, and a run of them. What they are answered with stands in specs/.
#![tactic(auto)]

ghost use Rattle.std.specs.Prelude.{◌≡◌, true, false, ◌++◌, ◌≤◌, leb, length, drop, replicate};
ghost use Rattle.answers.specs.declared.Answer.TheVariants.{Taken};
ghost use Rattle.station.specs.Station.{fit};
ghost use Rattle.station.specs.Calls.{refused, resulted};
ghost use Rattle.station.specs.Turns.{turn_of, after_turn};
ghost use Rattle.wire.specs.declared.What.TheVariants.{Held};
ghost use Rattle.wire.specs.Kinds.{first_instruction, request_kind, result_kind, set_of};
ghost use Rattle.wire.specs.Reads.{kind_at};
ghost use Rattle.wire.specs.Writes.{LeavesMessage};
ghost use Rattle.service.specs.Service.{answer_message, respond, called_known, respond_known, answer_bytes};
ghost use Rattle.service.specs.Private.{makes_call, is_result, message_call, reply_said, message_reply, Puts};
ghost use Rattle.service.specs.Runs.{Serves, run, enough, served, serving, finishing};

use answers::{Answer, NOWHERE};
use station::{Picture, Report, Station, Turn};
use wire::{Frame, What};

pub mod buffer;

// What a message leaves: the next station, and what it is answered with.
#[derive(Clone, Copy)]
pub struct Reply {
    pub station: Station,
    pub answer: What,
}

// What a run of messages leaves: Taken, or NoRoom and nothing done; the next station, how many bytes of the input were taken and of the
// room written, and whether nothing more is to be read.
// Kept: no Result, since callers go on from the station and the zeros where nothing is done (`turning`, `messages_taken`).
#[derive(Clone, Copy)]
pub struct Served {
    pub answer: Answer,
    pub station: Station,
    pub used: usize,
    pub made: usize,
    pub stop: bool,
}

// ---- one message

// Whether a message makes a call: kinds 128 and 129 make none.
fn makes_call(what: What) -> bool
    ensures { result ≡ makes_call what }
{
    match what {
        What::Answer { .. } | What::Held { .. } => false,
        _ => true,
    }
}

// Kept: beside Station::unmoved: of each a wrong version is named, and has to be refused in its own proof (must-fail/).
// The station as it was, and the answer.
fn unmoved(s: Station, answer: Answer) -> Turn
    ensures { result ≡ turn_of (refused s answer) }
{
    Turn {
        answer,
        bits: s.bits,
        count: s.count,
        answered: s.answered,
        next: s.next,
        apart: s.apart,
    }
}

// A result past the test of fitness. It is sure that a station is fit where that was tested, and not where a caller says so: then a success
// is not judged.
// Kept: `known` and `sure` are two bools: definitions take `known` alone, and each contract would open an enum of both again.
fn resulted(sure: bool, s: Station, report: Report) -> Turn
    requires { sure ≡ true → fit s ≡ true }
    ensures { result ≡ turn_of (resulted s report) }
{
    if sure {
        return s.settled(report);
    }
    s.resulted(report)
}

// The turn of the call that a message makes on a station of which it is known whether it is fit, if it is no result and has no instructions.
fn turn(known: bool, what: What, s: Station) -> Turn
    requires { is_result what ≡ false }
    ensures { result ≡ turn_of (called_known known what s 0 (replicate 40 0)) }
{
    if makes_call(what) & !known {
        return unmoved(s, Answer::Unfit);
    }
    match what {
        What::Request => {
            if 0 < s.count {
                return unmoved(s, Answer::SetOutstanding);
            }
            unmoved(s, Answer::EmptySet)
        }
        What::Event { way } => s.evented(way),
        What::Image { bits, apart } => s.imaged(Picture { bits, apart }),
        What::Ask => unmoved(s, Answer::Taken),
        What::Result { .. } => unmoved(s, Answer::UnknownKind),
        What::Answer { .. } => unmoved(s, Answer::UnknownKind),
        What::Held { .. } => unmoved(s, Answer::UnknownKind),
    }
}

// The places of the set that a request brings.
fn fresh(m: &[u8]) -> [u8; 40]
    ensures { result ≡ set_of (drop first_instruction m.now) }
{
    if m.len() < 5 {
        return [0; 40];
    }
    wire::set_of(&m[5..])
}

// A request on a fit station that holds no set: its instructions are read once, by the call, which tells a bad one as a reader does.
fn opening(s: Station, m: &[u8]) -> Turn
    requires { (kind_at m.now ≡ request_kind) × (s.count ≡ 0) }
    ensures { result ≡ turn_of (message_call true s m.now) }
{
    let count = wire::byte(m, 4);
    if 8 < count {
        return unmoved(s, Answer::TooMany);
    }
    if m.len() != 5 + 5 * (count as usize) {
        return unmoved(s, Answer::BadLength);
    }
    let set = fresh(m);
    s.requested(count, set)
}

// A request on any station.
fn asked(known: bool, s: Station, m: &[u8]) -> Turn
    requires { kind_at m.now ≡ request_kind }
    ensures { result ≡ turn_of (message_call known s m.now) }
{
    if known & (s.count == 0) {
        return opening(s, m);
    }
    match wire::request_in(m).says {
        Err(answer) => unmoved(s, answer),
        Ok(_) => {
            if known {
                return unmoved(s, Answer::SetOutstanding);
            }
            unmoved(s, Answer::Unfit)
        }
    }
}

// A result, read as it stands: most messages are results.
fn reported(known: bool, sure: bool, s: Station, m: &[u8]) -> Turn
    requires { (sure ≡ true → fit s ≡ true) × (kind_at m.now ≡ result_kind.number) }
    ensures { result ≡ turn_of (message_call known s m.now) }
{
    if m.len() != 8 {
        return unmoved(s, Answer::BadLength);
    }
    let ending = wire::byte(m, 7);
    if 2 < ending {
        return unmoved(s, Answer::BadField(NOWHERE));
    }
    if !known {
        return unmoved(s, Answer::Unfit);
    }
    let issue = wire::word(wire::byte(m, 4), wire::byte(m, 5));
    let number = wire::byte(m, 6);
    resulted(
        sure,
        s,
        Report {
            issue,
            number,
            ending,
        },
    )
}

// The turn of a message whose bytes are exactly m.
fn heard(known: bool, sure: bool, s: Station, m: &[u8]) -> Turn
    requires { sure ≡ true → fit s ≡ true }
    ensures { result ≡ turn_of (message_call known s m.now) }
{
    let kind = wire::kind_at(m);
    if kind == 1 {
        return asked(known, s, m);
    }
    if kind == 3 {
        return reported(known, sure, s, m);
    }
    match wire::saying(m) {
        Ok(what) => turn(known, what, s),
        Err(answer) => unmoved(s, answer),
    }
}

// An answer as a message.
fn answer_message(answer: Answer) -> What
    ensures { result ≡ answer_message answer }
{
    What::Answer {
        number: answer.number(),
        place: answer.place(),
        issue: answer.issue(),
    }
}

// What a message of this kind is told after its turn: an ask that was taken, the image.
fn told(kind: u16, t: Turn) -> What
    ensures { result ≡ reply_said kind t }
{
    if (kind == 5) & (t.answer.number() == 0) {
        return What::Held {
            bits: t.bits,
            apart: t.apart,
        };
    }
    answer_message(t.answer)
}

// The station that a turn leaves where its set changes.
fn left(s: Station, t: Turn, m: &[u8]) -> Station
    ensures { result ≡ (after_turn s t (set_of (drop first_instruction m.now))).station }
{
    if s.count < t.count {
        return s.after(t, fresh(m)).station;
    }
    s.after(t, s.set).station
}

// The reply to a message whose bytes are exactly m.
fn answered(known: bool, sure: bool, s: Station, m: &[u8]) -> Reply
    requires { sure ≡ true → fit s ≡ true }
    ensures { result ≡ message_reply (kind_at m.now) (message_call known s m.now) }
{
    let t = heard(known, sure, s, m);
    let answer = told(wire::kind_at(m), t);
    let station = left(s, t, m);
    Reply { station, answer }
}

// What cannot be read is told, and makes no call.
fn unread(s: Station, answer: Answer) -> Reply
    ensures { result ≡ record { station = s; answer = answer_message answer } }
{
    let answer = answer_message(answer);
    Reply { station: s, answer }
}

// The reply to the first message of m, on a station of which it is known, or sure, whether it is fit.
fn replied(known: bool, sure: bool, s: Station, m: &[u8]) -> Reply
    requires { sure ≡ true → fit s ≡ true }
    ensures { result ≡ respond_known known s m.now }
{
    match wire::framed(m) {
        Frame::Cut => unread(s, Answer::TooFewBytes),
        Frame::Wrong => unread(s, Answer::BadLength),
        Frame::Whole(n) => answered(known, sure, s, &m[..n]),
    }
}

// The same where a caller says whether it is fit: results are judged.
pub fn respond_known(known: bool, s: Station, m: &[u8]) -> Reply
    ensures { result ≡ respond_known known s m.now }
{
    replied(known, false, s, m)
}

// The reply to the first message of m.
pub fn respond(s: Station, m: &[u8]) -> Reply
    ensures { result ≡ respond s m.now }
{
    let tested = s.fit();
    replied(tested, tested, s, m)
}

// ---- a run of messages

// Puts the image at the start of out, in its twenty bytes, and says how many they are.
fn show(bits: u64, apart: u64, out: &mut [u8]) -> usize
    requires { length (answer_bytes (Held bits apart)) ≤ length out.old }
    ensures { Puts (answer_bytes (Held bits apart)) out.old result out.new }
{
    let b = wire::image_bytes(bits);
    let a = wire::image_bytes(apart);
    codec::copy(
        &[
            18, 0, 129, 0, b[0], b[1], b[2], b[3], b[4], b[5], b[6], b[7], a[0], a[1], a[2], a[3],
            a[4], a[5], a[6], a[7],
        ],
        out,
    );
    20
}

// Puts an answer at the start of out, in its eight bytes, and says how many they are.
fn put(answer: Answer, out: &mut [u8]) -> usize
    requires { length (answer_bytes (answer_message answer)) ≤ length out.old }
    ensures { Puts (answer_bytes (answer_message answer)) out.old result out.new }
{
    let number = answer.number();
    let place = answer.place();
    let [low, high] = u16::to_le_bytes(answer.issue());
    codec::copy(&[6, 0, 128, 0, number, place, low, high], out);
    8
}

// What most messages are told.
fn done(out: &mut [u8]) -> usize
    requires { length (answer_bytes (answer_message Taken)) ≤ length out.old }
    ensures { Puts (answer_bytes (answer_message Taken)) out.old result out.new }
{
    codec::copy(&[6, 0, 128, 0, 0, 255, 0, 0], out);
    8
}

// The same of what a message of this kind is told after its turn.
fn tell(kind: u16, t: Turn, out: &mut [u8]) -> usize
    requires { length (answer_bytes (reply_said kind t)) ≤ length out.old }
    ensures { Puts (answer_bytes (reply_said kind t)) out.old result out.new }
{
    if (kind == 5) & (t.answer.number() == 0) {
        return show(t.bits, t.apart, out);
    }
    match t.answer {
        Answer::Taken => done(out),
        _ => put(t.answer, out),
    }
}

// Answers every whole message of input, one after another, in room that is long enough. Fitness is tested once: every call keeps it. A set
// that stays is not copied.
fn answer_all(s: Station, input: &[u8], out: &mut [u8]) -> Served
    requires { enough (length input.now) ≤ length out.old }
    ensures { Serves (served (run s input.now) out.old) result out.new }
{
    let known = s.fit();
    let mut s = s;
    let mut at: usize = 0;
    let mut made: usize = 0;
    loop {
        let rest = &input[at..];
        match wire::framed(rest) {
            Frame::Cut => {
                return Served {
                    answer: Answer::Taken,
                    station: s,
                    used: at,
                    made,
                    stop: false,
                };
            }
            Frame::Wrong => {
                let n = put(Answer::BadLength, &mut out[made..]);
                return Served {
                    answer: Answer::Taken,
                    station: s,
                    used: at,
                    made: made + n,
                    stop: true,
                };
            }
            Frame::Whole(n) => {
                let m = &rest[..n];
                let t = heard(known, known, s, m);
                made += tell(wire::kind_at(m), t, &mut out[made..]);
                at += n;
                if t.count != s.count {
                    s = left(s, t, m);
                    continue;
                }
                s.bits = t.bits;
                s.answered = t.answered;
                s.next = t.next;
                s.apart = t.apart;
            }
        }
    }
}

// Whether a room is long enough for any input of n bytes.
fn fits(n: usize, room: usize) -> bool
    ensures { result ≡ leb (enough n) room }
{
    n <= room / 5
}

// Answers every whole message of input into out, one after another. It asks for room of five bytes for each of the input; where there
// is less it does nothing.
pub fn serve(s: Station, input: &[u8], out: &mut [u8]) -> Served
    ensures { Serves (serving s input.now out.old) result out.new }
{
    if fits(input.len(), out.len()) {
        return answer_all(s, input, out);
    }
    Served {
        answer: Answer::NoRoom,
        station: s,
        used: 0,
        made: 0,
        stop: false,
    }
}

// The end of the input: where bytes of a message that was cut short are left over, they are answered with 1.
pub fn finish(held: &[u8], out: &mut [u8]) -> Result<usize, Answer>
    ensures { LeavesMessage (finishing held.now out.old) result out.new }
{
    if held.len() == 0 {
        return Ok(0);
    }
    wire::writing::write_plain(answer_message(Answer::TooFewBytes), out)
}
