// A set of instructions as the station holds it, and the searches through it.
ghost use Rattle.std.specs.Prelude.{◌≡◌, ◌-◌, ◌*◌, ◌||◌, ◌++◌, take, replicate, ◌==◌, nat_lt, slice_index};
ghost use Rattle.bits.specs.Search.{every, least};
ghost use Rattle.station.specs.Held.{code_at, bad, touches, overlaps_earlier, stranded, lift_in};
ghost use Rattle.station.specs.Turns.{kept_set};
ghost use Rattle.station.specs.Private.{first_of};

use crate::held;
use crate::held::PARTS;
use floor::masks::LIFT;
use rules::Code;

// Instruction i of a set; past the eighth there are only zeros. What it needs is not to be in the frame of a search through a set.
#[inline(never)]
pub fn code_at(set: &[u8; 40], i: u8) -> Code
    ensures { result ≡ code_at set.now i }
{
    if 8 <= i {
        return Code {
            op: 0,
            a: 0,
            b: 0,
            c: 0,
            d: 0,
        };
    }
    let at = 5 * (i as usize);
    Code {
        op: set[at],
        a: set[at + 1],
        b: set[at + 2],
        c: set[at + 3],
        d: set[at + 4],
    }
}

// Kept: a number, here and in Faults, and no Option: four of these take more stack than the boards' tests allow (tests/board/limits). And
// two returns, since each has a wrong version of its own (must-fail/wrong_programs.edit).
// What a search upward has found, with i at fault or not: the least one, or n.
fn first(found: u8, n: u8, here: bool, i: u8) -> u8
    ensures { result ≡ first_of found n here i }
{
    if here & (found == n) {
        return i;
    }
    found
}

// Of the first n instructions the least that is bad, the least that touches a part set apart, the least that overlaps an earlier one and, of
// those without a mark, the least that is not allowed on the record r, or n; and whether one has the lift in its area. Each is read once, and
// one without a fault is passed at once.
#[derive(Clone, Copy)]
pub struct Faults {
    pub bad: u8,
    pub touching: u8,
    pub overlap: u8,
    pub barred: u8,
    pub lift: bool,
}

pub fn search(set: &[u8; 40], n: u8, marks: u8, r: u64, apart: u64) -> Faults
    ensures { (result.bad ≡ least n (bad set.now)) × (result.touching ≡ least n (touches set.now apart)) × (result.overlap ≡ least n (overlaps_earlier set.now)) × (result.barred ≡ least n (stranded marks set.now r)) × (result.lift ≡ lift_in set.now n) }
{
    let mut seen: u64 = 0;
    let mut bad = n;
    let mut touching = n;
    let mut overlap = n;
    let mut barred = n;
    let held = apart & PARTS;
    for i in 0..n {
        let x = engine::judge(code_at(set, i), r);
        if x.allowed {
            if x.area & (seen | held) == 0 {
                seen |= x.area;
                continue;
            }
        }
        bad = first(bad, n, !x.good, i);
        touching = first(touching, n, x.area & held != 0, i);
        overlap = first(overlap, n, x.area & seen != 0, i);
        barred = first(
            barred,
            n,
            !bits::bit(marks as u64, i as u64) & !x.allowed,
            i,
        );
        seen |= x.area;
    }
    Faults {
        bad,
        touching,
        overlap,
        barred,
        lift: seen & LIFT != 0,
    }
}

// One of the first n instructions has the lift in its area.
pub fn lift_in(set: &[u8; 40], n: u8) -> bool
    ensures { result ≡ lift_in set.now n }
{
    for i in 0..n {
        if held::has_lift(code_at(set, i)) {
            return true;
        }
    }
    false
}

// The places past the first n instructions are zero.
pub fn rest_zero(set: &[u8; 40], n: u8) -> bool
    ensures { result ≡ every 40 (λ k. nat_lt k (5 * n) || (slice_index set.now k) == 0) }
{
    let mut seen: u8 = 0;
    for k in 5 * (n as usize)..40 {
        seen |= set[k];
    }
    seen == 0
}

// The bytes of the first n instructions, the unused places zero.
pub fn only(set: [u8; 40], n: u8) -> [u8; 40]
    ensures { result ≡ take (5 * n) set ++ replicate (40 - 5 * n) 0 }
{
    if 8 <= n {
        return set;
    }
    let mut kept = [0u8; 40];
    for k in 0..5 * (n as usize) {
        kept[k] = set[k];
    }
    kept
}

// The set after a call that found `before` instructions and left `after`.
pub fn kept(held: [u8; 40], before: u8, after: u8, fresh: [u8; 40]) -> [u8; 40]
    ensures { result ≡ kept_set held before after fresh }
{
    if before < after {
        return fresh;
    }
    if after < before {
        return [0; 40];
    }
    held
}
