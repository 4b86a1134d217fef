// What an instruction or a car event does to a record: whether it is allowed or why not, and the next record.
#![tactic(auto)]

ghost use Rattle.std.specs.Prelude.{◌≡◌, true};
ghost use Rattle.bits.specs.Bits.{bit, image};
ghost use Rattle.rules.specs.declared.Event.TheVariants.{EndDone};
ghost use Rattle.rules.specs.Rules.{well_formed, area, clauses, next_record};
ghost use Rattle.rules.specs.Events.{in_turn, possible, places_open, after_event};
ghost use Rattle.rules.specs.Verdicts.{judged, verdict_of, moved_by, moved_of, driven_of, code_verdict, code_moved};
ghost use Rattle.rows.specs.Private.{whole};
ghost use Rattle.engine.specs.Judged.{judge, judged_as, code_next};
ghost use Rattle.engine.specs.Private.{verdict_by};

use answers::Reason;
use rules::{Code, Event, Instruction, Refusal, Undriven};

mod judging;
mod lifts;
mod masks;
mod moves;
mod swift;

use floor::masks::{DRIVE_IN, DRIVE_OUT, DRIVES, RAISED_CAR, RAISED_CAR_AND_DRIVES};
use judging::{belts_judged, gaps, rotate_judged, shuttles_judged, tilt_judged};
use lifts::{lift_judged, lift_next};
use masks::height_is;
use moves::{belts_next, shuttles_next, tilt_next};

// ---- instructions

// The verdict by the reason against it, or by none. Down to here a reason stands alone: a verdict takes one register more to hand back, and
// garage_next eight bytes of stack more (docs/BOARD.md).
fn verdict_by(why: Option<Reason>) -> Result<(), Refusal>
    ensures { result ≡ verdict_by why }
{
    match why {
        None => Ok(()),
        Some(why) => Err(Refusal::NotAllowed(why)),
    }
}

// The first condition of a well-formed instruction that fails, if any, given its area.
fn told(i: Instruction, a: u64, r: u64) -> Option<Reason>
    requires { (well_formed i ≡ true) × (a ≡ image (area i)) }
    ensures { verdict_by result ≡ judged (clauses i) (bit r) }
{
    match i {
        Instruction::Belts {
            row,
            mask,
            toward,
            size,
        } => belts_judged(r, a, row, mask, toward, size),
        Instruction::Shuttles {
            side,
            mask,
            orientation,
            ..
        } => shuttles_judged(r, a, side, mask, orientation),
        Instruction::Tilt { orientation, .. } => tilt_judged(r, a, orientation),
        Instruction::Lift { height } => lift_judged(r, height),
        Instruction::Rotate => rotate_judged(r),
    }
}

// The record after a well-formed instruction whose belts or rows leave no gap, given its area. Nothing is asked of the record.
fn next(i: Instruction, a: u64, r: u64) -> u64
    requires { (well_formed i ≡ true) × (whole i ≡ true) × (a ≡ image (area i)) }
    ensures { result ≡ image (next_record i (bit r)) }
{
    match i {
        Instruction::Belts {
            row,
            toward,
            size,
            ..
        } => belts_next(r, a, row, toward, size),
        Instruction::Shuttles { toward, .. } => shuttles_next(r, a, toward),
        Instruction::Tilt { orientation, .. } => tilt_next(r, a, orientation),
        Instruction::Lift { height } => lift_next(r, height),
        Instruction::Rotate => r,
    }
}

// A verdict with the record that is next where it allows.
fn decided(verdict: Result<(), Refusal>, next: u64) -> Result<u64, Refusal>
    ensures { result ≡ moved_by verdict next }
{
    verdict?;
    Ok(next)
}

// The record after a well-formed instruction, where it is allowed. What takes few steps is done at once.
#[tactic(auto, using(crate::proofs::Answers::taken, crate::proofs::Answers::no_gap))]
fn stepped(i: Instruction, a: u64, r: u64) -> Result<u64, Refusal>
    requires { (well_formed i ≡ true) × (a ≡ image (area i)) }
    ensures { result ≡ moved_of i r }
{
    match i {
        Instruction::Tilt { orientation, .. } => decided(
            verdict_by(tilt_judged(r, a, orientation)),
            tilt_next(r, a, orientation),
        ),
        Instruction::Lift { height } => decided(
            verdict_by(lift_judged(r, height)),
            lift_next(r, height),
        ),
        _ => {
            verdict_by(told(i, a, r))?;
            Ok(next(i, a, r))
        }
    }
}

// Whether an instruction is allowed, and why not.
pub fn verdict(i: Instruction, r: u64) -> Result<(), Refusal>
    ensures { result ≡ verdict_of i r }
{
    let Some(area) = areas::area(i) else {
        return Err(Refusal::IllFormed);
    };
    verdict_by(told(i, area, r))
}

// The record after an instruction, where it is allowed.
pub fn moved(i: Instruction, r: u64) -> Result<u64, Refusal>
    ensures { result ≡ moved_of i r }
{
    let Some(a) = areas::area(i) else {
        return Err(Refusal::IllFormed);
    };
    stepped(i, a, r)
}

// The same of five bytes.
pub fn code_moved(x: Code, r: u64) -> Result<u64, Refusal>
    ensures { result ≡ code_moved x r }
{
    let Some(at) = areas::locate(x) else {
        return Err(Refusal::IllFormed);
    };
    stepped(at.instruction, at.area, r)
}

// What five bytes are told on a record: whether they say an instruction, its area, or none, and whether it is allowed.
#[derive(Clone, Copy)]
pub struct Judged {
    pub area: u64,
    pub good: bool,
    pub allowed: bool,
}

// The same by a verdict.
fn judged_as(area: u64, verdict: Result<(), Refusal>) -> Judged
    ensures { result ≡ judged_as area verdict }
{
    match verdict {
        Ok(()) => Judged {
            area,
            good: true,
            allowed: true,
        },
        Err(Refusal::NotAllowed(_)) => Judged {
            area,
            good: true,
            allowed: false,
        },
        Err(Refusal::IllFormed) => Judged {
            area,
            good: false,
            allowed: false,
        },
    }
}

// The exact way, byte by byte: a struct would be kept in memory for it by callers that seldom go this way.
fn exact(op: u8, a: u8, b: u8, c: u8, d: u8, r: u64) -> Judged
    ensures { result ≡ judge (record { op = op; a = a; b = b; c = c; d = d }) r }
{
    match areas::locate(Code { op, a, b, c, d }) {
        Some(at) => judged_as(at.area, verdict_by(told(at.instruction, at.area, r))),
        None => judged_as(0, Err(Refusal::IllFormed)),
    }
}

// Most are told at once.
pub fn judge(x: Code, r: u64) -> Judged
    ensures { result ≡ judge x r }
{
    if let Some(at_once) = swift::area(x, r) {
        return Judged {
            area: at_once,
            good: true,
            allowed: true,
        };
    }
    exact(x.op, x.a, x.b, x.c, x.d, r)
}

// The verdict alone.
pub fn code_verdict(x: Code, r: u64) -> Result<(), Refusal>
    ensures { result ≡ code_verdict x r }
{
    let Some(said) = areas::locate(x) else {
        return Err(Refusal::IllFormed);
    };
    verdict_by(told(said.instruction, said.area, r))
}

// The belts or rows that an instruction names leave no gap.
fn whole(i: Instruction) -> bool
    requires { well_formed i ≡ true }
    ensures { result ≡ whole i }
{
    match i {
        Instruction::Belts { mask, .. } => !gaps(mask),
        Instruction::Shuttles { mask, .. } => mask != 5,
        Instruction::Tilt { .. } | Instruction::Lift { .. } | Instruction::Rotate => true,
    }
}

// The record after the instruction that five bytes say, whether it is allowed or not: for callers who know that it is. Where belts or rows
// leave a gap, and for bad bytes, the record stays.
pub fn code_next(x: Code, r: u64) -> u64
    ensures { result ≡ code_next x r }
{
    if let Some(named) = swift::named(x) {
        return belts_next(r, named, x.a, x.c, x.d);
    }
    if swift::runs_lift(x) {
        return lift_next(r, x.a);
    }
    match areas::locate(x) {
        Some(at) if whole(at.instruction) => next(at.instruction, at.area, r),
        // Kept: two arms, so that a wrong version of each is refused by itself.
        Some(_) => r,
        None => r,
    }
}

// ---- car events

// A begin comes in turn while no drive is under way, an end while one is.
#[tactic(auto, unfolding(rules::specs::Events::in_turn))]
fn in_turn(e: Event, r: u64) -> bool
    ensures { result ≡ in_turn e (bit r) }
{
    let driving = floor::under_way(r);
    match e {
        Event::BeginIn | Event::BeginOut => !driving,
        Event::EndDone | Event::EndNotDone => driving,
    }
}

// In its turn, a drive-in can begin at street height if the lift is empty, a drive-out if it is not; an end always comes.
#[tactic(auto, using(crate::proofs::Lifting::done_law, crate::proofs::Lifting::not_done_law))]
pub fn possible(e: Event, r: u64) -> bool
    ensures { result ≡ possible e (bit r) }
{
    let due = in_turn(e, r);
    match e {
        Event::BeginIn => due & (height_is(r, 0) & bits::free(r, RAISED_CAR)),
        Event::BeginOut => due & (height_is(r, 0) & bits::all(r, RAISED_CAR)),
        Event::EndDone | Event::EndNotDone => due,
    }
}

// With so many cars no drive-in begins.
const FILLED: u64 = 27;

// A drive-in can begin while there are fewer; no other event is asked how many there are.
#[tactic(auto, unfolding(rules::specs::Events::places_open))]
fn places_open(e: Event, r: u64) -> bool
    ensures { result ≡ places_open e (bit r) }
{
    match e {
        Event::BeginIn => floor::cars_in(r) < FILLED,
        _ => true,
    }
}

// A drive that is done: the car that was driven in is on the raised lift, one that was driven out is not.
fn arrived(r: u64) -> u64
    ensures { result ≡ image (after_event EndDone (bit r)) }
{
    if bits::all(r, DRIVE_IN) {
        return bits::laid(r, RAISED_CAR_AND_DRIVES, RAISED_CAR);
    }
    bits::laid(r, RAISED_CAR_AND_DRIVES, 0)
}

// The drive is under way, or at its end no more; where it is done, the raised lift has the car that was driven in, or none.
fn after(e: Event, r: u64) -> u64
    ensures { result ≡ image (after_event e (bit r)) }
{
    match e {
        Event::BeginIn => bits::laid(r, DRIVE_IN, DRIVE_IN),
        Event::BeginOut => bits::laid(r, DRIVE_OUT, DRIVE_OUT),
        Event::EndDone => arrived(r),
        Event::EndNotDone => bits::laid(r, DRIVES, 0),
    }
}

// The record after a car event, where it comes in turn, is possible and fills none of the places that are kept open.
pub fn driven(e: Event, r: u64) -> Result<u64, Undriven>
    ensures { result ≡ driven_of e r }
{
    if !in_turn(e, r) {
        return Err(Undriven::OutOfTurn);
    }
    if !possible(e, r) {
        return Err(Undriven::Impossible);
    }
    if !places_open(e, r) {
        return Err(Undriven::KeptOpen);
    }
    Ok(after(e, r))
}
