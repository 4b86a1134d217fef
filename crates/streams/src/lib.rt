// Bytes in and out, for programs: a read or a write that was interrupted or would have to wait is tried again for as long as it takes, and
// one that fails for good is told in one line on standard error, as what the caller names. What the system reads and writes no contract can
// say.
#![tactic(auto)]

ghost use Rattle.std.specs.Prelude.{◌≤◌, length, IfOk, IfErr};
ghost use Rattle.streams.specs.Input.{Fills};

use std::io::{self, Cursor, Error, ErrorKind, Read, Write};
use std::time::{Clock, Duration};

// It can't be gone on, and why was told on standard error, where it can come about at all.
#[derive(Clone, Copy, Debug, PartialEq, Eq)]
pub struct Told;

pub type Result<T, E = Told> = std::result::Result<T, E>;

// Why a read was no good: it failed, and that was told; or the buffer has no room.
#[derive(Clone, Copy, Debug, PartialEq, Eq)]
pub enum Unread {
    Failed,
    Full,
}

// ---- what is told

// Writes something on standard error; where that fails there is no place left to tell it.
pub fn tell(rt: &HostRuntime, text: &[u8]) -> Told {
    let _ = Print::write_all(&rt.stderr(), text);
    Told
}

// Where the system's own text ends in an error's: std puts the error's number in brackets behind it.
fn system_text(text: &[u8]) -> usize
    ensures { result ≤ length text.now }
{
    for (i, b) in text.iter().enumerate().rev() {
        if *b == b'(' {
            return i.saturating_sub(1);
        }
    }
    text.len()
}

// Tells in a line on standard error what failed, as the caller names it, and why, in the system's words.
pub fn fail(rt: &HostRuntime, name: &[u8], error: Error) -> Told {
    let mut room = Cursor::new([0u8; 320]);
    let _ = write!(room, "{error}");
    let n = (room.position() as usize).min(320);
    let text = room.into_inner();
    let all = &text[..n];
    let end = match error.raw_os_error() {
        Some(_) => system_text(all),
        None => n,
    };
    tell(rt, name);
    tell(rt, b": ");
    tell(rt, &all[..end]);
    tell(rt, b"\n")
}

// Whether a call that failed so may do better.
fn may_pass(error: Error) -> bool {
    matches!(error.kind(), ErrorKind::Interrupted | ErrorKind::WouldBlock)
}

// Waits for a millisecond.
fn pause(rt: &HostRuntime) {
    rt.sleep(Duration::from_millis(1));
}

// ---- what comes in

// Reads once.
fn read_some<R: Read>(rt: &HostRuntime, from: &mut R, buf: &mut [u8]) -> io::Result<usize>
    ensures { IfOk result (λ n. n ≤ length buf.new) }
{
    for _ in 1..u64::MAX {
        match from.read(buf) {
            Err(error) if may_pass(error) => pause(rt),
            outcome => return outcome,
        }
    }
    from.read(buf)
}

// Kept: have beside the buffer: main lends that whole, and Fills says that what is held stays (no heap, fixed memory).
// Reads once into buf past the first `have` bytes, which stay as they were, and says how many there are then; none where the input has
// ended.
pub fn fill<R: Read>(
    rt: &HostRuntime,
    from: &mut R,
    buf: &mut [u8],
    have: usize,
    name: &[u8],
) -> Result<Option<usize>, Unread>
    ensures { Fills buf.old have result buf.new }
{
    if buf.len() <= have {
        return Err(Unread::Full);
    }
    match read_some(rt, from, &mut buf[have..]) {
        Ok(0) => Ok(None),
        Ok(came) => Ok(Some(have + came)),
        Err(error) => {
            fail(rt, name, error);
            Err(Unread::Failed)
        }
    }
}

// A read failed, and that was told; so many bytes had come before.
#[derive(Clone, Copy, Debug, PartialEq, Eq)]
pub struct Broken {
    pub have: usize,
}

// Reads to the end of the input, or until the buffer is full, and says how many bytes came.
pub fn read_all<R: Read>(
    rt: &HostRuntime,
    from: &mut R,
    buf: &mut [u8],
    name: &[u8],
) -> Result<usize, Broken>
    ensures { IfOk result (λ n. n ≤ length buf.new) × IfErr result (λ b. b.have ≤ length buf.new) }
{
    let mut have: usize = 0;
    loop {
        match fill(rt, from, buf, have, name) {
            Ok(Some(end)) => have = end,
            Ok(None) | Err(Unread::Full) => return Ok(have),
            Err(Unread::Failed) => return Err(Broken { have }),
        }
    }
}

// Where so many lines of what came end, at least one; where there are fewer, the bytes do.
pub fn lines_end(bytes: &[u8], lines: u8) -> usize
    ensures { result ≤ length bytes.now }
{
    let mut left = lines;
    for (i, b) in bytes.iter().enumerate() {
        if *b != b'\n' {
            continue;
        }
        if left <= 1 {
            return i + 1;
        }
        left -= 1;
    }
    bytes.len()
}

// ---- what goes out

// Writes some of the bytes, and says how many.
fn write_some<W: Write>(rt: &HostRuntime, out: &mut W, bytes: &[u8]) -> io::Result<usize>
    ensures { IfOk result (λ n. n ≤ length bytes.now) }
{
    for _ in 1..u64::MAX {
        match out.write(bytes) {
            Err(error) if may_pass(error) => pause(rt),
            outcome => return outcome,
        }
    }
    out.write(bytes)
}

// Writes the first n bytes, or all where there are fewer, each once and in order. After the first failure it writes nothing more.
pub fn send<W: Write>(
    rt: &HostRuntime,
    out: &mut W,
    bytes: &[u8],
    n: usize,
    name: &[u8],
) -> Result<()> {
    let mut rest = &bytes[..n.min(bytes.len())];
    while !rest.is_empty() {
        match write_some(rt, out, rest) {
            Ok(0) => return Err(fail(rt, name, Error::from(ErrorKind::WriteZero))),
            Ok(took) => rest = &rest[took..],
            Err(error) => return Err(fail(rt, name, error)),
        }
    }
    Ok(())
}
