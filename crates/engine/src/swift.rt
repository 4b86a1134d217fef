// What most instructions are told, at once: belts that the record allows, by areas that are looked up, and runs of the raised lift. Nothing is
// said of the others.
ghost use Rattle.std.specs.Prelude.{◌≡◌, true, ◌<◌, IfSome};
ghost use Rattle.engine.specs.Judged.{judge};
ghost use Rattle.engine.specs.Private.{runs, code_runs, fitting, code_lifts};

use super::judging::{step, within};
use super::masks::{CELLS, NEEDED, NEEDED_SET, height_is};
use floor::masks::{LIFT_AND_CELLS, ROW_1};
use rules::Code;

// Kept: a table for each row, since wrong versions of run_1 and run_2 are named (must-fail/wrong_programs.edit).
// The areas of belts without a gap: row 1, and the two rows of three belts.
#[tactic(auto, unfolding(areas::specs::Private::belts_mask))]
fn run_1(mask: u8) -> Option<u64>
    ensures { IfSome result (λ a. runs 1 mask a ≡ true) }
{
    Some(match mask {
        1 => 0x100_0000_0003,
        2 => 0x7FC,
        3 => 0x100_0000_07FF,
        4 => 0x70_0000_0000_1800,
        6 => 0x70_0000_0000_1FFC,
        7 => 0x70_0100_0000_1FFF,
        8 => 0x3_E000,
        12 => 0x70_0000_0003_F800,
        14 => 0x70_0000_0003_FFFC,
        15 => 0x70_0100_0003_FFFF,
        16 => 0x800_000C_0000,
        24 => 0x800_000F_E000,
        28 => 0x70_0800_000F_F800,
        30 => 0x70_0800_000F_FFFC,
        31 => 0x70_0900_000F_FFFF,
        _ => return None,
    })
}

#[tactic(auto, unfolding(areas::specs::Private::belts_mask))]
fn run_2(mask: u8) -> Option<u64>
    ensures { IfSome result (λ a. runs 2 mask a ≡ true) }
{
    Some(match mask {
        1 => 0x200_0010_0000,
        2 => 0x1FE0_0000,
        3 => 0x200_1FF0_0000,
        4 => 0x1000_2000_0000,
        6 => 0x1000_3FE0_0000,
        7 => 0x1200_3FF0_0000,
        _ => return None,
    })
}

#[tactic(auto, unfolding(areas::specs::Private::belts_mask))]
fn run_3(mask: u8) -> Option<u64>
    ensures { IfSome result (λ a. runs 3 mask a ≡ true) }
{
    Some(match mask {
        1 => 0x400_4000_0000,
        2 => 0x7F_8000_0000,
        3 => 0x47F_C000_0000,
        4 => 0x2080_0000_0000,
        6 => 0x20FF_8000_0000,
        7 => 0x24FF_C000_0000,
        _ => return None,
    })
}

// What it needs is not to be in the frame of `area`.
#[inline(never)]
fn run(row: u8, mask: u8) -> Option<u64>
    ensures { IfSome result (λ a. runs row mask a ≡ true) }
{
    match row {
        1 => run_1(mask),
        2 => run_2(mask),
        3 => run_3(mask),
        _ => None,
    }
}

// The area of well-formed belts without a gap.
pub fn named(x: Code) -> Option<u64>
    ensures { IfSome result (λ a. code_runs x a ≡ true) }
{
    if x.op != 1 || 1 < x.c || 1 < x.d {
        return None;
    }
    run(x.a, x.b)
}

// A record has the bits that belts with this area need, their room is free, and row 1 holds pairs.
fn fits(a: u64, toward: u8, n: u8, r: u64) -> bool
    requires { (toward < 2) × (n < 3) }
    ensures { result ≡ fitting a toward n r }
{
    let span = a & CELLS;
    let room = span & !within(span, toward, n);
    if r & (a & NEEDED) != a & NEEDED_SET {
        return false;
    }
    if r & room != 0 {
        return false;
    }
    bits::even(r, a & ROW_1)
}

// The area of belts that the record is seen to allow: above row 1 there is no half move.
#[tactic(auto, using(crate::proofs::Shortcuts::belts_pass))]
fn belts(x: Code, r: u64) -> Option<u64>
    ensures { IfSome result (λ a. record { area = a; good = true; allowed = true } ≡ judge x r) }
{
    let a = named(x)?;
    if (x.a != 1) & (x.d == 0) {
        return None;
    }
    if fits(a, x.c, step(x.a, x.d), r) {
        return Some(a);
    }
    None
}

// Five bytes say a run of the lift.
pub fn runs_lift(x: Code) -> bool
    ensures { result ≡ code_lifts x }
{
    (x.op == 4) & (x.a <= 2) & (x.b == 0) & (x.c == 0) & (x.d == 0)
}

// A lift that is not in the basement runs to another height.
fn rises(x: Code, r: u64) -> bool
    ensures { result ≡ true → record { area = 0x70000000001800; good = true; allowed = true } ≡ judge x r }
{
    runs_lift(x) & !height_is(r, x.a) & !height_is(r, 2)
}

// The area of what the record is seen to allow. Its frame is not to be in that of a search through a set.
#[inline(never)]
pub fn area(x: Code, r: u64) -> Option<u64>
    ensures { IfSome result (λ a. record { area = a; good = true; allowed = true } ≡ judge x r) }
{
    if x.op == 1 {
        return belts(x, r);
    }
    if rises(x, r) {
        return Some(LIFT_AND_CELLS);
    }
    None
}
