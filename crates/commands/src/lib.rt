// The words that the programs are started with: all of them tell their version, and those that take no words say how they are used. What
// the system hands over and writes no contract can say.
#![tactic(auto)]

ghost use Rattle.std.specs.Prelude.{◌≡◌, ◌≤◌, length, IfOk};
ghost use Rattle.commands.specs.Words.{is_text, is_version};

use std::env::{Env, FillError};
use std::io::Error;

// Whether a word is this text.
pub fn is_text(word: &[u8], text: &[u8]) -> bool
    ensures { result ≡ is_text text.now word.now }
{
    word == text
}

// Whether a word is --version.
fn is_version(word: &[u8]) -> bool
    ensures { result ≡ is_version word.now }
{
    is_text(word, b"--version")
}

// How many words there are, the program's own name among them.
pub fn word_count(rt: &HostRuntime) -> usize {
    for i in 0..usize::MAX {
        let mut room = [0u8; 1];
        if let Err(FillError::NotPresent) = rt.arg(i, &mut room) {
            return i;
        }
    }
    usize::MAX
}

// How long word i is, which is put at the front of the room; one that is missing or longer than the room comes as an empty one.
pub fn word(rt: &HostRuntime, i: usize, room: &mut [u8]) -> usize
    ensures { result ≤ length room.new }
{
    rt.arg(i, room).unwrap_or(0)
}

// The error numbers of the system's library for a word that is missing, and for one that is too long.
const MISSING: i32 = 22;

const TOO_LONG: i32 = 36;

// How long word i is, which is put whole at the front of the room, or why it can't be.
pub fn whole_word(rt: &HostRuntime, i: usize, room: &mut [u8]) -> std::io::Result<usize>
    ensures { IfOk result (λ n. n ≤ length room.new) }
{
    match rt.arg(i, room) {
        Ok(n) => Ok(n),
        Err(FillError::NotPresent) => Err(Error::from_raw_os_error(MISSING)),
        Err(FillError::TooLong) => Err(Error::from_raw_os_error(TOO_LONG)),
    }
}

// Whether the first argument is --version; one that is longer than the room comes as an empty one.
fn asks_version(rt: &HostRuntime) -> bool {
    let mut room = [0u8; 16];
    let n = word(rt, 1, &mut room);
    is_version(&room[..n])
}

// Writes some text; where that fails, it is told.
fn say(rt: &HostRuntime, text: &[u8], output: &[u8]) -> streams::Result<()> {
    streams::send(rt, &mut rt.stdout(), text, text.len(), output)
}

// Writes a mark and a number.
fn say_number(rt: &HostRuntime, mark: &[u8], n: u32, output: &[u8]) -> streams::Result<()> {
    let mut digits = [0u8; 20];
    let k = io::decimal(n as u64, &mut digits);
    say(rt, mark, output)?;
    say(rt, &digits[..k], output)
}

// Writes the program's name and its version in one line; after a write that failed nothing more is written.
fn say_version(rt: &HostRuntime, name: &[u8], output: &[u8]) -> streams::Result<()> {
    say(rt, name, output)?;
    say_number(rt, b" ", version::FIRST, output)?;
    say_number(rt, b".", version::SECOND, output)?;
    say_number(rt, b".", version::THIRD, output)?;
    say(rt, b"\n", output)
}

// Whether --version is the one word; it is then answered with the program's name and its version. `output` is what a write that fails is
// told as.
pub fn told_version(rt: &HostRuntime, name: &[u8], output: &[u8]) -> bool {
    if word_count(rt) != 2 || !asks_version(rt) {
        return false;
    }
    let _ = say_version(rt, name, output);
    true
}

// Whether there are words, for a program that takes none: it then says how it is used.
pub fn has_words(rt: &HostRuntime, usage: &[u8]) -> bool {
    if word_count(rt) < 2 {
        return false;
    }
    streams::tell(rt, usage);
    true
}
