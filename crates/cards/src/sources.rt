// From which place a place takes its number when an instruction succeeds: what the rules list, found place by place.
ghost use Rattle.std.specs.Prelude.{◌≡◌, ◌<◌};
ghost use Rattle.bits.specs.Bits.{bit};
ghost use Rattle.floor.specs.Tests.{holds, at_basement};
ghost use Rattle.rules.specs.Cells.{cell_named, row_named, row_behind};
ghost use Rattle.rules.specs.Named.{step};
ghost use Rattle.std.specs.declared.option.Option.TheVariants.{Some, None};
ghost use Rattle.cards.specs.Private.{against, belt_source, row_at, place_at, shuttle_source, taken_along, lift_source, source_of};

use floor::masks::{HEIGHT_HIGH, HEIGHT_LOW, RAISED};
use rules::Instruction;

// Where the number of a car on the lift's cells stands.
const ON_LIFT: u64 = 11;

// The lift is in the basement.
pub fn low(r: u64) -> bool
    ensures { result ≡ holds at_basement (bit r) }
{
    bits::free(r, HEIGHT_LOW) & bits::all(r, HEIGHT_HIGH)
}

// The cell is on a belt of the row that the mask names.
fn named(row: u8, mask: u8, cell: u64) -> bool
    ensures { result ≡ cell_named row mask cell }
{
    match floor::belt_of(cell) {
        Some(belt) => (belt.row == row) & bits::bit(mask as u64, belt.number as u64),
        None => false,
    }
}

// By how many cells a move shifts.
fn step(row: u8, size: u8) -> u8
    ensures { result ≡ step row size }
{
    if (row == 1) & (size == 1) { 2 } else { 1 }
}

// The cell n further down, unless that goes below 0, or up.
#[tactic(auto, unfolding(crate::specs::Private::against))]
fn against(cell: u8, up: bool, n: u8) -> Option<u64>
    ensures { result ≡ against cell up n }
{
    if !up {
        return Some(cell as u64 + n as u64);
    }
    if cell < n {
        return None;
    }
    Some((cell - n) as u64)
}

// A cell of the span takes from the cell behind it in the span, from nowhere if there is none.
#[tactic(auto, unfolding(crate::specs::Private::belt_source))]
fn belt_source(row: u8, mask: u8, toward: u8, size: u8, cell: u8) -> Option<u64>
    ensures { result ≡ belt_source row mask toward size cell }
{
    if !named(row, mask, cell as u64) {
        return Some(cell as u64);
    }
    let k = against(cell, toward == 1, step(row, size))?;
    if named(row, mask, k) {
        return Some(k);
    }
    None
}

// The place of the number at a side's position.
#[tactic(auto, unfolding(crate::specs::Private::place_at))]
fn place_at(side: u8, row: u8) -> u64
    ensures { result ≡ place_at side row }
{
    if row == 1 {
        return side as u64 * 18;
    }
    if row == 2 {
        return 20 + side as u64 * 9;
    }
    30 + side as u64 * 9
}

// The row of a side's position by the place of its number.
#[tactic(auto, unfolding(crate::specs::Private::row_at))]
fn row_at(side: u8, k: u8) -> Option<u8>
    ensures { result ≡ row_at side k }
{
    if k as u64 == place_at(side, 1) {
        return Some(1);
    }
    if k as u64 == place_at(side, 2) {
        return Some(2);
    }
    if k as u64 == place_at(side, 3) {
        return Some(3);
    }
    None
}

// The mask names the row.
#[tactic(auto, unfolding(rules::specs::Cells::row_named))]
fn row_named(mask: u8, row: u8) -> bool
    ensures { result ≡ row_named mask row }
{
    if row == 0 {
        return false;
    }
    bits::bit(mask as u64, (row - 1) as u64)
}

// The row behind.
#[tactic(auto, unfolding(rules::specs::Cells::row_behind))]
fn row_behind(toward: u8, row: u8) -> u8
    requires { (0 < row) × (row < 4) }
    ensures { result ≡ row_behind toward row }
{
    if toward == 1 {
        return row - 1;
    }
    row + 1
}

// A row takes from the named row behind it; a named one with none behind from nowhere.
#[tactic(auto, unfolding(crate::specs::Private::shuttle_source))]
fn shuttle_source(side: u8, mask: u8, toward: u8, k: u8) -> Option<u64>
    ensures { result ≡ shuttle_source side mask toward k }
{
    let Some(row) = row_at(side, k) else {
        return Some(k as u64);
    };
    let behind = row_behind(toward, row);
    if row_named(mask, behind) {
        return Some(place_at(side, behind));
    }
    if row_named(mask, row) {
        return None;
    }
    Some(k as u64)
}

// One place takes its number from another, which is left with none.
fn taken_along(from: u64, to: u64, k: u64) -> Option<u64>
    ensures { result ≡ taken_along from to k }
{
    if k == to {
        return Some(from);
    }
    if k == from {
        return None;
    }
    Some(k)
}

// The lift's cells and the raised lift.
#[tactic(auto, unfolding(crate::specs::Private::lift_source))]
fn lift_source(height: u8, low: bool, k: u8) -> Option<u64>
    ensures { result ≡ lift_source height low k }
{
    if height == 2 {
        return taken_along(RAISED, ON_LIFT, k as u64);
    }
    if low {
        return taken_along(ON_LIFT, RAISED, k as u64);
    }
    Some(k as u64)
}

// The place from which a place takes its number.
#[tactic(auto, unfolding(crate::specs::Private::source_of))]
pub fn source(i: Instruction, low: bool, k: u8) -> Option<u64>
    ensures { result ≡ source_of i low k }
{
    match i {
        Instruction::Belts {
            row,
            mask,
            toward,
            size,
        } => belt_source(row, mask, toward, size, k),
        Instruction::Shuttles {
            side,
            mask,
            orientation: 0,
            toward,
        } => shuttle_source(side, mask, toward, k),
        Instruction::Lift { height } => lift_source(height, low, k),
        Instruction::Shuttles { .. } | Instruction::Tilt { .. } | Instruction::Rotate => {
            Some(k as u64)
        }
    }
}
