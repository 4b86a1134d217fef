// The entries for a host in C that draws records, and what is set apart, and reads drawings: numbers and runs of bytes alone. An answer is
// its number plus 256 times a place, and a refused call writes nothing. What each answers and leaves stands in specs/Entries.antt.
#![tactic(auto)]

ghost use Rattle.std.specs.Prelude.{◌≡◌, true, false, ◌+◌, ◌*◌};
ghost use Rattle.answers.specs.Answers.{nowhere};
ghost use Rattle.rooms.specs.Rooms.{LeavesRoom};
ghost use Rattle.drawing_c.specs.Entries.{written_said, drawn_into, read_into};

use answers::{Answer, NOWHERE};
use drawing::{Unread, Unwritten};
use rooms::{say, tell};

// The bytes of a record.
const RECORD: usize = 8;

// Kept: numbers, as C is told them (theorem DrawingNumbersReturned).
// The numbers that are told.
const TAKEN: u8 = 0;

const UNSOUND: u8 = 15;

const NO_ROOM: u8 = 17;

const BAD_LINE: u8 = 41;

// A number without a place.
fn unplaced(number: u8) -> u32
    ensures { result ≡ number + 256 * nowhere }
{
    number as u32 + 256 * (NOWHERE as u32)
}

// What writing says, as one number.
fn said(w: Result<u8, Unwritten>) -> u32
    ensures { result ≡ written_said w }
{
    match w {
        Ok(size) => unplaced(TAKEN) + 65536 * (size as u32),
        Err(Unwritten::HasNone) => unplaced(UNSOUND),
        Err(Unwritten::NoRoom) => unplaced(NO_ROOM),
    }
}

// Writes the drawing of a record: 15 for one that isn't sound, then 17 where it doesn't fit; how many bytes are written is told too.
#[unsafe(no_mangle)]
pub extern "C" fn drawing_write(image: u64, text: &mut [u8]) -> u32
    ensures { LeavesRoom (drawn_into false image text.old) result text.new }
{
    said(drawing::write(false, image, text))
}

// Writes the drawing of what is set apart: 15 where that has a bit past the 53 parts.
#[unsafe(no_mangle)]
pub extern "C" fn drawing_write_apart(apart: u64, text: &mut [u8]) -> u32
    ensures { LeavesRoom (drawn_into true apart text.old) result text.new }
{
    said(drawing::write(true, apart, text))
}

// Kept: a bool, as drawing::read and its definition reading take it.
// Reads a drawing into eight bytes.
fn read_into(apart: bool, text: &[u8], room: &mut [u8]) -> u32
    ensures { LeavesRoom (read_into apart text.now room.old) result room.new }
{
    if room.len() < RECORD {
        return say(Answer::NoRoom);
    }
    match drawing::read(apart, text) {
        Ok(image) => tell(unplaced(TAKEN), &wire::image_bytes(image), room),
        Err(Unread::BadLine(line)) => BAD_LINE as u32 + 256 * (line as u32),
        Err(Unread::Unsound) => unplaced(UNSOUND),
    }
}

// Reads a drawing into a record's eight bytes: 17 where there is no room for them, then 41 with the first bad line, then 15.
#[unsafe(no_mangle)]
pub extern "C" fn drawing_read(text: &[u8], room: &mut [u8]) -> u32
    ensures { LeavesRoom (read_into false text.now room.old) result room.new }
{
    read_into(false, text, room)
}

// Reads a drawing of what is set apart: the same, and never 15.
#[unsafe(no_mangle)]
pub extern "C" fn drawing_read_apart(text: &[u8], room: &mut [u8]) -> u32
    ensures { LeavesRoom (read_into true text.now room.old) result room.new }
{
    read_into(true, text, room)
}
