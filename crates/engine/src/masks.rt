// The places of a record by their kind, to be picked out of an area; and the height of the lift.
ghost use Rattle.std.specs.Prelude.{◌≡◌};
ghost use Rattle.bits.specs.Bits.{bit};
ghost use Rattle.floor.specs.Tests.{holds, height_is};

use floor::masks::HEIGHT_AT;

// All cells, and those of rows 2 and 3.
pub const CELLS: u64 = 0xFF_FFFF_FFFF;

pub const ROW_2: u64 = 0x3FF0_0000;

pub const ROW_3: u64 = 0xFF_C000_0000;

// All slots, the lowered ones and the tilted ones, each six bits above the lowered slot of its row and side.
pub const SLOTS: u64 = 0xF_FF00_0000_0000;

pub const LOWERED: u64 = 0x3F00_0000_0000;

pub const TILTED: u64 = 0xF_C000_0000_0000;

// What belts need: slots and the lift's height; and which of these bits must be 1.
pub const NEEDED: u64 = 0x6F_FF00_0000_0000;

pub const NEEDED_SET: u64 = 0x4F_FF00_0000_0000;

// The lift is at a height: its two bits are the digits of the height.
pub fn height_is(r: u64, height: u8) -> bool
    ensures { result ≡ holds (height_is height) (bit r) }
{
    (r >> HEIGHT_AT) % 4 == (height % 4) as u64
}
