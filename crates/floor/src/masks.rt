// The bits of the record, as numbers of bits and as masks. Code above goes by these names; it writes numbers of bits itself only for whole
// kinds of places (`engine`'s masks) and in whole images (the start record, those of the programs that run examples).

// The first slot of a shuttle, the car on the raised lift, the low digit of the lift's height.
pub const FIRST_SLOT: u8 = 40;

pub const RAISED: u64 = 52;

pub const HEIGHT_AT: u8 = 53;

// Row 1, rows 2 and 3, and the lift's two cells with those on either side of it.
pub const ROW_1: u64 = 0xF_FFFF;

pub const ROWS_2_3: u64 = 0xFF_FFF0_0000;

pub const LIFT_CELLS: u64 = 0x1800;

pub const LEFT_OF_LIFT: u64 = 0x7FF;

pub const RIGHT_OF_LIFT: u64 = 0xF_E000;

// The belts of row 1 and the middle belts of rows 2 and 3 that are no shuttle's and not the lift's.
pub const LEFT_BELT: u64 = 0x7FC;

pub const RIGHT_BELT: u64 = 0x3_E000;

pub const MIDDLE_BELT_2: u64 = 0x1FE0_0000;

pub const MIDDLE_BELT_3: u64 = 0x7F_8000_0000;

// The cells that must be free for the lift to turn.
pub const TURNING_CELLS: u64 = 0xE700;

// A shuttle's cells, by side and row.
pub const LEFT_CELLS_1: u64 = 0x3;

pub const LEFT_CELLS_2: u64 = 0x10_0000;

pub const LEFT_CELLS_3: u64 = 0x4000_0000;

pub const RIGHT_CELLS_1: u64 = 0xC_0000;

pub const RIGHT_CELLS_2: u64 = 0x2000_0000;

pub const RIGHT_CELLS_3: u64 = 0x80_0000_0000;

// A lowered shuttle's slot, by side and row.
pub const LEFT_SLOT_1: u64 = 0x100_0000_0000;

pub const LEFT_SLOT_2: u64 = 0x200_0000_0000;

pub const LEFT_SLOT_3: u64 = 0x400_0000_0000;

pub const RIGHT_SLOT_1: u64 = 0x800_0000_0000;

pub const RIGHT_SLOT_2: u64 = 0x1000_0000_0000;

pub const RIGHT_SLOT_3: u64 = 0x2000_0000_0000;

// A side's lowered slots, its tilted ones and the first of these, and both.
pub const LEFT_LOWERED: u64 = 0x700_0000_0000;

pub const LEFT_TILTED: u64 = 0x1_C000_0000_0000;

pub const LEFT_TILTED_1: u64 = 0x4000_0000_0000;

pub const LEFT_SLOTS: u64 = 0x1_C700_0000_0000;

pub const RIGHT_LOWERED: u64 = 0x3800_0000_0000;

pub const RIGHT_TILTED: u64 = 0xE_0000_0000_0000;

pub const RIGHT_TILTED_1: u64 = 0x2_0000_0000_0000;

pub const RIGHT_SLOTS: u64 = 0xE_3800_0000_0000;

// The lift: the car on it when raised, the two digits of its height, both digits, all three bits, and these with its cells.
pub const RAISED_CAR: u64 = 0x10_0000_0000_0000;

pub const HEIGHT_LOW: u64 = 0x20_0000_0000_0000;

pub const HEIGHT_HIGH: u64 = 0x40_0000_0000_0000;

pub const HEIGHT: u64 = 0x60_0000_0000_0000;

pub const LIFT: u64 = 0x70_0000_0000_0000;

pub const LIFT_AND_CELLS: u64 = 0x70_0000_0000_1800;

// The lift with the cells that must be free for it to turn.
pub const LIFT_AND_TURNING_CELLS: u64 = 0x70_0000_0000_E700;

// A shuttle's position: its lowered slot and its cells, by side and row.
pub const LEFT_1: u64 = 0x100_0000_0003;

pub const LEFT_2: u64 = 0x200_0010_0000;

pub const LEFT_3: u64 = 0x400_4000_0000;

pub const RIGHT_1: u64 = 0x800_000C_0000;

pub const RIGHT_2: u64 = 0x1000_2000_0000;

pub const RIGHT_3: u64 = 0x2080_0000_0000;

// A drive-in, a drive-out, and either of them, is under way; the bits that an event may change.
pub const DRIVE_IN: u64 = 0x80_0000_0000_0000;

pub const DRIVE_OUT: u64 = 0x100_0000_0000_0000;

pub const DRIVES: u64 = 0x180_0000_0000_0000;

pub const RAISED_CAR_AND_DRIVES: u64 = 0x190_0000_0000_0000;

// What stands for nothing.
pub const SPARE: u64 = 0xFE00_0000_0000_0000;
