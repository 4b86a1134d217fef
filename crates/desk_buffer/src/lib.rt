// A run of messages on a desk, answered into lent room, with what its station is sent by them. What that is stands in specs/.
#![tactic(auto)]

ghost use Rattle.std.specs.Prelude.{◌≡◌, true, false, ◌≤◌, length};
ghost use Rattle.wire.specs.declared.Frame.TheVariants.{Wrong};
ghost use Rattle.wire.specs.Kinds.{in_range, plain};
ghost use Rattle.wire.specs.Writes.{message_bytes};
ghost use Rattle.desk_wire.specs.DeskReads.{frame_up_to, most_length};
ghost use Rattle.desk_buffer.specs.DeskServing.{number_in, held_back, begin_form, image_form, station_form, passed_on, answered_ran, wrong_ran, desk_step, desk_run, DeskServes, served_desk, desk_serving};
ghost use Rattle.desk_buffer.specs.Private.{LeavesBytes, DeskSteps, DeskPasses};

use answers::Answer;
use desk::Desk;
use wire::{Frame, What};

// Kept: stop and full beside the desk, as theorem DeskRestIsShort names both; callers go on from the desk (desk_turning).
// What a run of messages leaves: Taken, or NoRoom and nothing done; the next desk, how many bytes of the input were taken, how many of
// answers and of the station's messages were written, whether nothing more is to be read, and whether it ended where an answer had no room.
#[derive(Clone, Copy)]
pub struct DeskServed {
    pub answer: Answer,
    pub desk: Desk,
    pub used: usize,
    pub made: usize,
    pub passed: usize,
    pub stop: bool,
    pub full: bool,
}

// What one message leaves: the same, and whether more may follow.
#[derive(Clone, Copy)]
struct Step {
    desk: Desk,
    used: usize,
    made: usize,
    passed: usize,
    on: bool,
    stop: bool,
    full: bool,
}

// ---- what the station is sent

// The number that an answer tells.
fn number_in(b: &[u8]) -> u8
    ensures { result ≡ number_in b.now }
{
    if wire::kind_at(b) == 128 {
        wire::byte(b, 4)
    } else {
        0
    }
}

// Whether a message whose answer has this number is kept from the station.
fn held_back(n: u8) -> bool
    ensures { result ≡ held_back n }
{
    matches!(n, 1..=5 | 37..=39)
}

// Writes one of the station's messages that has no instruction.
fn pass_plain(what: What, room: &mut [u8]) -> usize
    requires { (in_range what ≡ true) × (length (message_bytes (plain what)) ≤ length room.old) }
    ensures { LeavesBytes (message_bytes (plain what)) result room.old room.new }
{
    wire::writing::write_plain(what, room).unwrap_or(0)
}

// Writes a begin without its card.
fn pass_begin(m: &[u8], room: &mut [u8]) -> usize
    requires { length m.now ≤ length room.old }
    ensures { LeavesBytes (begin_form m.now) result room.old room.new }
{
    if m.len() < 8 {
        return 0;
    }
    pass_plain(What::Event { way: 1 }, room)
}

// Writes an image without its cards.
fn pass_image(m: &[u8], room: &mut [u8]) -> usize
    requires { length m.now ≤ length room.old }
    ensures { LeavesBytes (image_form m.now) result room.old room.new }
{
    if m.len() < 20 {
        return 0;
    }
    let bits = wire::image_of(&m[4..]);
    let apart = wire::image_of(&m[12..]);
    pass_plain(What::Image { bits, apart }, room)
}

// Writes a message as one of the station's.
fn pass(m: &[u8], room: &mut [u8]) -> usize
    requires { length m.now ≤ length room.old }
    ensures { LeavesBytes (station_form m.now) result room.old room.new }
{
    match wire::kind_at(m) {
        0..=5 => codec::copy(m, room),
        6 => pass_begin(m, room),
        7 => pass_image(m, room),
        _ => 0,
    }
}

// Writes what the station is sent by a message with this answer.
fn pass_on(b: &[u8], m: &[u8], room: &mut [u8]) -> usize
    requires { length m.now ≤ length room.old }
    ensures { LeavesBytes (passed_on b.now m.now) result room.old room.new }
{
    if held_back(number_in(b)) {
        return 0;
    }
    pass(m, room)
}

// ---- one message

// No message is taken.
fn ended(desk: Desk, made: usize, stop: bool, full: bool) -> Step
    ensures { result ≡ record { desk = desk; used = 0; made = made; passed = 0; on = false; stop = stop; full = full } }
{
    Step {
        desk,
        used: 0,
        made,
        passed: 0,
        on: false,
        stop,
        full,
    }
}

// Answers a message whose length is out of range.
fn refuse(d: Desk, m: &[u8], out: &mut [u8]) -> Step
    requires { frame_up_to most_length m.now ≡ Wrong }
    ensures { DeskSteps (wrong_ran (length out.old) d) result out.old out.new }
{
    match desk_service::respond(d, m, out).written {
        Ok(size) => ended(d, size, true, false),
        Err(_) => ended(d, 0, false, true),
    }
}

// Answers a message whose bytes are exactly m.
fn reply(d: Desk, m: &[u8], out: &mut [u8], sent: &mut [u8]) -> Step
    requires { length m.now ≤ length sent.old }
    ensures { DeskPasses (answered_ran (length out.old) d m.now) result out.old out.new sent.old sent.new }
{
    let r = desk_service::respond(d, m, out);
    match r.written {
        Ok(size) => {
            let passed = pass_on(&out[..size], m, sent);
            Step {
                desk: r.desk,
                used: m.len(),
                made: size,
                passed,
                on: true,
                stop: false,
                full: false,
            }
        }
        Err(_) => ended(d, 0, false, true),
    }
}

// Answers the message at the front of some bytes.
fn first(d: Desk, rest: &[u8], out: &mut [u8], sent: &mut [u8]) -> Step
    requires { length rest.now ≤ length sent.old }
    ensures { DeskPasses (desk_step (length out.old) d rest.now) result out.old out.new sent.old sent.new }
{
    match desk_service::framed(rest, 143) {
        Frame::Cut => ended(d, 0, false, false),
        Frame::Wrong => refuse(d, rest, out),
        Frame::Whole(n) => reply(d, &rest[..n], out, sent),
    }
}

// ---- all of them

// Answers message after message, in room that is long enough for what is sent.
fn answer_all(d: Desk, input: &[u8], out: &mut [u8], sent: &mut [u8]) -> DeskServed
    requires { length input.now ≤ length sent.old }
    ensures { DeskServes (served_desk (desk_run (length out.old) d input.now) out.old sent.old) result out.new sent.new }
{
    let mut d = d;
    let mut at: usize = 0;
    let mut made: usize = 0;
    let mut passed: usize = 0;
    loop {
        let w = first(d, &input[at..], &mut out[made..], &mut sent[passed..]);
        at += w.used;
        made += w.made;
        passed += w.passed;
        d = w.desk;
        if !w.on {
            return DeskServed {
                answer: Answer::Taken,
                desk: d,
                used: at,
                made,
                passed,
                stop: w.stop,
                full: w.full,
            };
        }
    }
}

// Answers the whole messages at the front of input into out, one after another, as long as there is room for their answers, and writes what
// the station inside is sent by them into `sent`. Where `sent` is shorter than the input it does nothing.
pub fn serve(d: Desk, input: &[u8], out: &mut [u8], sent: &mut [u8]) -> DeskServed
    ensures { DeskServes (desk_serving d input.now out.old sent.old) result out.new sent.new }
{
    if sent.len() < input.len() {
        return DeskServed {
            answer: Answer::NoRoom,
            desk: d,
            used: 0,
            made: 0,
            passed: 0,
            stop: false,
            full: false,
        };
    }
    answer_all(d, input, out, sent)
}
