// Reads a plan from standard input to its end and prints its judgement in one line on standard output: `accepted`, or the number and what it
// stands for, and the first set refused. What is judged stands in plans, what is tried again and what is told of a failure in streams; no
// contract can say what is read and written.
#![tactic(auto)]

ghost use Rattle.std.specs.Prelude.{◌≤◌, length, IfOk};

use plan::{Judged, NONE_REFUSED};
use streams::{Result, Told};

// One byte more than the longest plan that there can be: 18 bytes, and 255 sets of 1 + 5 * 255. Of a longer input no more is read: whatever
// follows, bytes are left over.
const ROOM: usize = 325399;

// Reads to the end of the input, or until the buffer is full.
fn read_all(rt: &HostRuntime, buf: &mut [u8]) -> Result<usize>
    ensures { IfOk result (λ n. n ≤ length buf.new) }
{
    streams::read_all(rt, &mut rt.stdin(), buf, b"plan: standard input").map_err(|_| Told)
}

// Writes some text; where that fails, it is told.
fn say(rt: &HostRuntime, text: &[u8]) -> Result<()> {
    streams::send(
        rt,
        &mut rt.stdout(),
        text,
        text.len(),
        b"plan: standard output",
    )
}

fn say_number(rt: &HostRuntime, n: u8) -> Result<()> {
    let mut digits = [0u8; 20];
    let k = io::decimal(n as u64, &mut digits);
    say(rt, &digits[..k])
}

// What a number stands for in a judgement of the whole plan.
fn of_plan(number: u8) -> &'static [u8] {
    match number {
        1 => b"fewer bytes than it says",
        4 => b"a field out of range: a wish that is neither 0 nor 1, or bytes left over",
        15 => b"image not sound",
        35 => b"more than 64 sets",
        _ => b"wish not met",
    }
}

// Why an instruction is not allowed, by its number from 20 on.
fn reason(number: u8) -> &'static [u8] {
    match number {
        20 => b"nothing named",
        21 => b"a gap between those named",
        22 => b"not available",
        23 => b"no free place to move to",
        24 => b"odd count: a car would be torn",
        25 => b"half move in row 2 or 3",
        26 => b"already at that height",
        27 => b"not at rotation height",
        _ => b"cells not free for the tilt or the rotation",
    }
}

// What it stands for in the answer to a set.
fn of_set(number: u8) -> &'static [u8] {
    match number {
        4 => b"a field out of range",
        5 => b"more than eight instructions",
        7 => b"empty set",
        8 => b"overlap",
        20..=28 => reason(number),
        _ => b"out of turn: the lift in an area while a drive is under way",
    }
}

// A judgement, without the end of its line; after a write that failed nothing more is written.
fn say_judged(rt: &HostRuntime, j: Judged) -> Result<()> {
    if j.number == 0 {
        return say(rt, b"accepted");
    }
    say_number(rt, j.number)?;
    say(rt, b" ")?;
    if j.set == NONE_REFUSED {
        return say(rt, of_plan(j.number));
    }
    say(rt, of_set(j.number))?;
    say(rt, b", set ")?;
    say_number(rt, j.set)
}

// Judges what is read, and says so in a line.
fn session(rt: &HostRuntime, buf: &mut [u8]) -> Result<()> {
    let n = read_all(rt, buf)?;
    say_judged(rt, plan::judge(&buf[..n]))?;
    say(rt, b"\n")
}

fn main(rt: HostRuntime) {
    if commands::told_version(&rt, b"plan", b"plan: standard output") {
        return;
    }
    if commands::has_words(&rt, b"plan: usage: plan < PLAN\n") {
        return;
    }
    let mut buf = [0u8; ROOM];
    let _ = session(&rt, &mut buf);
}
