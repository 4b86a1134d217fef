// Instructions as rows of masks, made from their areas: what each asks of a record, in the rules' order, and which fails first, if any.
ghost use Rattle.std.specs.Prelude.{◌≡◌, ◌<◌, T};
ghost use Rattle.rules.specs.declared.Instruction.{Instruction};
ghost use Rattle.rules.specs.Named.{step};
ghost use Rattle.rules.specs.Rules.{well_formed};
ghost use Rattle.engine.specs.Private.{verdict_by};
ghost use Rattle.rows.specs.Private.{judged_row, looks_asked, shifted, span_within, gaps, belts_row, shuttles_row, tilt_row, rotate_row};

use super::masks::{CELLS, LOWERED, NEEDED, NEEDED_SET, SLOTS, TILTED};
use answers::Reason;
use floor::masks::{FIRST_SLOT, HEIGHT, HEIGHT_LOW, ROW_1, TURNING_CELLS};

// Kept: early is a bool, as in looks_asked, by which rows say what each instruction asks (specs/Private there).
// What a row asks of a record: bits that are as needed, room that is there and free, and an even number of occupied cells, before the room
// or after it.
fn judged(
    r: u64,
    care: u64,
    need: u64,
    why: Reason,
    early: bool,
    pairs: u64,
    room: u64,
    late: Reason,
) -> Option<Reason>
    ensures { verdict_by result ≡ judged_row (looks_asked care need why early pairs room late) r }
{
    let even = bits::even(r, pairs);
    if r & care != need {
        return Some(why);
    }
    if early & !even {
        return Some(Reason::OddCount);
    }
    if room == 0 {
        return Some(late);
    }
    if r & room != 0 {
        return Some(late);
    }
    if !early & !even {
        return Some(Reason::OddCount);
    }
    None
}

// By how many cells belts shift.
pub fn step(row: u8, size: u8) -> u8
    ensures { result ≡ step row size }
{
    if (row == 1) & (size == 1) { 2 } else { 1 }
}

// A mask shifted up and then down.
pub fn shifted(m: u64, up: u8, down: u8) -> u64
    requires { (up < 64) × (down < 64) }
    ensures { result ≡ shifted m up down }
{
    (m << up) >> down
}

// The places of a span that are still in it when they are shifted by n.
pub fn within(span: u64, toward: u8, n: u8) -> u64
    requires { (toward < 2) × (n < 3) }
    ensures { result ≡ span_within span toward n }
{
    if toward == 0 {
        return span & shifted(span, n, 0);
    }
    span & shifted(span, 0, n)
}

// A mask of belts has a gap: adding the lowest bit clears a run of bits.
pub fn gaps(mask: u8) -> bool
    requires { mask < 32 }
    ensures { result ≡ gaps mask }
{
    let low = mask & (32 - mask);
    (mask + low) & mask != 0
}

// Belts: the slots and the lift's height are as needed, the end of the span is free, and in row 1 it holds pairs.
pub fn belts_judged(r: u64, a: u64, row: u8, mask: u8, toward: u8, size: u8) -> Option<Reason>
    requires { T (well_formed (Instruction.Belts row mask toward size)) }
    ensures { verdict_by result ≡ judged_row (belts_row a row mask toward size) r }
{
    if !((row == 1) | (size == 1)) {
        return Some(Reason::HalfMove);
    }
    if mask == 0 {
        return Some(Reason::NothingNamed);
    }
    if gaps(mask) {
        return Some(Reason::Gap);
    }
    let span = a & CELLS;
    let room = span & !within(span, toward, step(row, size));
    judged(
        r,
        a & NEEDED,
        a & NEEDED_SET,
        Reason::NotAvailable,
        false,
        a & ROW_1,
        room,
        Reason::NotFree,
    )
}

// Shuttles: the named slots are taken, a lowered one in row 1 has a pair, and the slot that is moved into is there and free.
pub fn shuttles_judged(r: u64, a: u64, side: u8, mask: u8, orientation: u8) -> Option<Reason>
    requires { (side < 2) × (mask < 8) × (orientation < 2) }
    ensures { verdict_by result ≡ judged_row (shuttles_row a side mask orientation) r }
{
    if mask == 0 {
        return Some(Reason::NothingNamed);
    }
    if mask == 5 {
        return Some(Reason::Gap);
    }
    let rows = mask as u64;
    let named = rows << (FIRST_SLOT + orientation * 6 + side * 3);
    judged(
        r,
        named,
        named,
        Reason::NotAvailable,
        true,
        rows % 2 * (a & ROW_1),
        a & SLOTS & !named,
        Reason::NotFree,
    )
}

// Tilting: from lowered, the side's three are lowered and the cells free; from tilted, the slot is taken and the lowered one free.
pub fn tilt_judged(r: u64, a: u64, orientation: u8) -> Option<Reason>
    ensures { verdict_by result ≡ judged_row (tilt_row a orientation) r }
{
    if orientation == 0 {
        let low = a & LOWERED;
        return judged(
            r,
            low,
            low,
            Reason::NotAvailable,
            false,
            0,
            a & CELLS,
            Reason::CellsNotFree,
        );
    }
    let high = a & TILTED;
    judged(
        r,
        high,
        high,
        Reason::NotAvailable,
        false,
        0,
        a & LOWERED,
        Reason::NotFree,
    )
}

// Rotating: at rotation height with its six cells free.
pub fn rotate_judged(r: u64) -> Option<Reason>
    ensures { verdict_by result ≡ judged_row rotate_row r }
{
    judged(
        r,
        HEIGHT,
        HEIGHT_LOW,
        Reason::NotAtRotation,
        false,
        0,
        TURNING_CELLS,
        Reason::CellsNotFree,
    )
}
