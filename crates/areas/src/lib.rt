// The area of an instruction as a mask of the record's bits, and whether two instructions overlap. Masks are put together from
// parts of the floor; that they are the areas of the rules is one computed test over all well-formed instructions, in proofs/.
#![tactic(auto)]

ghost use Rattle.std.specs.Prelude.{◌≡◌};
ghost use Rattle.rules.specs.Verdicts.{mask_of, sharing_of, code_mask, code_sharing};
ghost use Rattle.areas.specs.Located.{locate};
ghost use Rattle.areas.specs.Private.{three, belts_mask, rows_mask, positions, tilted_slots, shuttles_mask, corner, tilt_mask, area_mask};

use floor::masks::{
    LEFT_1, LEFT_2, LEFT_3, LEFT_BELT, LEFT_LOWERED, LEFT_TILTED_1, LIFT_AND_CELLS,
    LIFT_AND_TURNING_CELLS, MIDDLE_BELT_2, MIDDLE_BELT_3, RIGHT_1, RIGHT_2, RIGHT_3, RIGHT_BELT,
    RIGHT_LOWERED, RIGHT_TILTED_1,
};
use rules::{Code, Instruction, Sharing};

// ---- the parts

// Of three parts those that the three lowest bits of a mask pick.
fn three(m: u64, first: u64, second: u64, third: u64) -> u64
    ensures { result ≡ three m first second third }
{
    m % 2 * first | m / 2 % 2 * second | m / 4 % 2 * third
}

// The belts that a mask names: their cells, the lowered slots of shuttle belts, and the lift with its belt.
#[tactic(auto, unfolding(crate::specs::Private::belts_mask))]
fn belts_mask(row: u8, mask: u8) -> u64
    ensures { result ≡ belts_mask row mask }
{
    let m = mask as u64;
    if row == 1 {
        return three(m, LEFT_1, LEFT_BELT, LIFT_AND_CELLS)
            | m / 8 % 2 * RIGHT_BELT
            | m / 16 % 2 * RIGHT_1;
    }
    if row == 2 {
        return three(m, LEFT_2, MIDDLE_BELT_2, RIGHT_2);
    }
    three(m, LEFT_3, MIDDLE_BELT_3, RIGHT_3)
}

// The rows that a mask names with the row next to each, as a mask of rows.
#[tactic(auto, unfolding(crate::specs::Private::rows_mask))]
fn rows_mask(mask: u8, toward: u8) -> u64
    ensures { result ≡ rows_mask mask toward }
{
    let m = mask as u64;
    if toward == 1 {
        return (m | m * 2) % 8;
    }
    (m | m / 2) % 8
}

// A side's positions in the rows of a mask.
#[tactic(auto, unfolding(crate::specs::Private::positions))]
fn positions(side: u8, rows: u64) -> u64
    ensures { result ≡ positions side rows }
{
    if side == 0 {
        return three(rows, LEFT_1, LEFT_2, LEFT_3);
    }
    three(rows, RIGHT_1, RIGHT_2, RIGHT_3)
}

// A side's tilted slots in the rows of a mask.
#[tactic(auto, unfolding(crate::specs::Private::tilted_slots))]
fn tilted_slots(side: u8, rows: u64) -> u64
    ensures { result ≡ tilted_slots side rows }
{
    if side == 0 {
        return rows % 8 * LEFT_TILTED_1;
    }
    rows % 8 * RIGHT_TILTED_1
}

// A side's position in a row, with its tilted slot.
#[tactic(auto, unfolding(crate::specs::Private::corner))]
fn corner(side: u8, row: u8) -> u64
    ensures { result ≡ corner side row }
{
    match (side, row) {
        (0, 1) => LEFT_1 | LEFT_TILTED_1,
        (0, 2) => LEFT_2 | LEFT_TILTED_1 * 2,
        (0, _) => LEFT_3 | LEFT_TILTED_1 * 4,
        (_, 1) => RIGHT_1 | RIGHT_TILTED_1,
        (_, 2) => RIGHT_2 | RIGHT_TILTED_1 * 2,
        (_, _) => RIGHT_3 | RIGHT_TILTED_1 * 4,
    }
}

// ---- the areas

// Lowered shuttles take the positions of the rows moved, tilted ones their tilted slots.
#[tactic(auto, unfolding(crate::specs::Private::shuttles_mask))]
fn shuttles_mask(side: u8, mask: u8, orientation: u8, toward: u8) -> u64
    ensures { result ≡ shuttles_mask side mask orientation toward }
{
    let rows = rows_mask(mask, toward);
    if orientation == 0 {
        return positions(side, rows);
    }
    tilted_slots(side, rows)
}

// Both slots and the cells of the position; from lowered also the side's lowered slots.
#[tactic(auto, unfolding(crate::specs::Private::tilt_mask))]
fn tilt_mask(side: u8, row: u8, orientation: u8) -> u64
    ensures { result ≡ tilt_mask side row orientation }
{
    let here = corner(side, row);
    if orientation == 1 {
        return here;
    }
    if side == 0 {
        return here | LEFT_LOWERED;
    }
    here | RIGHT_LOWERED
}

// The area of each; the lift's with its two cells, rotate's with its six.
#[tactic(auto, unfolding(crate::specs::Private::area_mask))]
fn area_mask(i: Instruction) -> u64
    ensures { result ≡ area_mask i }
{
    match i {
        Instruction::Belts { row, mask, .. } => belts_mask(row, mask),
        Instruction::Shuttles {
            side,
            mask,
            orientation,
            toward,
        } => shuttles_mask(side, mask, orientation, toward),
        Instruction::Tilt {
            side,
            row,
            orientation,
        } => tilt_mask(side, row, orientation),
        Instruction::Lift { .. } => LIFT_AND_CELLS,
        Instruction::Rotate => LIFT_AND_TURNING_CELLS,
    }
}

// ---- the answers

// An instruction's area.
#[tactic(auto, using(crate::proofs::Areas::mask_is, crate::proofs::Areas::mask_none))]
pub fn area(i: Instruction) -> Option<u64>
    ensures { result ≡ mask_of i }
{
    // Kept: no `then_some`, which takes the area of what is not well formed too: with it garage_area missed its bar in tests/board/limits.
    if rules::well_formed(i) {
        return Some(area_mask(i));
    }
    None
}

// Whether two instructions overlap: whether their areas share anything.
#[tactic(auto, using(crate::proofs::Areas::apart, crate::proofs::Areas::overlapping, crate::proofs::Areas::not_shared))]
pub fn overlap(i: Instruction, j: Instruction) -> Sharing
    ensures { result ≡ sharing_of i j }
{
    if !(rules::well_formed(i) & rules::well_formed(j)) {
        return Sharing::IllFormed;
    }
    if area_mask(i) & area_mask(j) == 0 {
        Sharing::Apart
    } else {
        Sharing::Overlap
    }
}

// An instruction that five bytes say, and its area.
#[derive(Clone, Copy)]
pub struct Located {
    pub instruction: Instruction,
    pub area: u64,
}

// A well-formed instruction with its area.
fn with_area(instruction: Instruction) -> Located
    ensures { result ≡ record { instruction = instruction; area = area_mask instruction } }
{
    Located {
        instruction,
        area: area_mask(instruction),
    }
}

// Kept: a match here and a return in code_area, so that a wrong version of each case is refused by itself.
// Reads five bytes and takes the area of what they say: an instruction that was read is well formed, and is not tested again.
pub fn locate(x: Code) -> Option<Located>
    ensures { result ≡ locate x }
{
    match rules::read(x) {
        Some(i) => Some(with_area(i)),
        None => None,
    }
}

// The area of the instruction that five bytes say.
pub fn code_area(x: Code) -> Option<u64>
    ensures { result ≡ code_mask x }
{
    let Some(i) = rules::read(x) else {
        return None;
    };
    Some(area_mask(i))
}

// Whether the instructions that five bytes and five others say overlap.
#[tactic(auto, using(crate::proofs::Areas::both_read, crate::proofs::Areas::one_bad, crate::proofs::Areas::other_bad))]
pub fn code_overlap(x: Code, y: Code) -> Sharing
    ensures { result ≡ code_sharing x y }
{
    let Some(i) = rules::read(x) else {
        return Sharing::IllFormed;
    };
    match rules::read(y) {
        Some(j) => overlap(i, j),
        None => Sharing::IllFormed,
    }
}
