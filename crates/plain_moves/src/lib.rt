// What an instruction or a car event makes of a plain floor, and which parts of the garage an instruction takes. What each stands for is in
// specs/.
#![tactic(auto)]

ghost use Rattle.std.specs.Prelude.{◌≡◌, true};
ghost use Rattle.bits.specs.Bits.{bit};
ghost use Rattle.floor.specs.Tests.{holds, under_way};
ghost use Rattle.rules.specs.Rules.{allowed, next_record};
ghost use Rattle.rules.specs.Events.{in_turn, possible};
ghost use Rattle.plain.specs.Plain.{plain_bits, floor_of};
ghost use Rattle.plain_moves.specs.Moves.{moved_floor, driven_floor, opens_with, parts_of, area_parts};

use plain::Floor;
use rules::{Event, Instruction, Refusal};

mod areas;
mod belts;
mod lifts;
mod marks;
mod shuttles;

// Parts of the garage: some cells, some slots, and the lift or not. An area is such, and what is set apart.
#[derive(Clone, Copy)]
pub struct Parts {
    pub cells: [bool; 40],
    pub slots: [bool; 12],
    pub lift: bool,
}

impl Parts {
    // No part.
    pub const NONE: Parts = Parts {
        cells: [false; 40],
        slots: [false; 12],
        lift: false,
    };
}

// ---- instructions

// The floor after an instruction that is allowed. Rotating changes nothing.
fn after(f: Floor, i: Instruction) -> Floor
    requires { allowed i (plain_bits f) ≡ true }
    ensures { result ≡ floor_of (next_record i (plain_bits f)) }
{
    match i {
        Instruction::Belts {
            row,
            mask,
            toward,
            size,
        } => belts::run(f, row, mask, toward, size),
        Instruction::Shuttles {
            side,
            mask,
            orientation,
            toward,
        } => shuttles::moved(f, side, mask, orientation, toward),
        Instruction::Tilt {
            side,
            row,
            orientation,
        } => shuttles::tilted(f, side, row, orientation),
        Instruction::Lift { height } => lifts::moved(f, height),
        Instruction::Rotate => f,
    }
}

// The floor after an instruction, where it is allowed; else the floor as it was.
pub fn moved(f: Floor, i: Instruction) -> Floor
    ensures { result ≡ moved_floor i f }
{
    match f.verdict(i) {
        Ok(()) => after(f, i),
        // Kept: an arm for each, since each has a wrong program of its own (must-fail/wrong_programs.edit).
        Err(Refusal::NotAllowed(_)) => f,
        Err(Refusal::IllFormed) => f,
    }
}

// ---- car events

// A drive is under way: into the lift, or out of it.
fn under_way(f: Floor) -> bool
    ensures { result ≡ holds under_way (plain_bits f) }
{
    f.coming | f.going
}

// A begin comes in turn while no drive is under way, an end while one is.
pub fn in_turn(f: Floor, e: Event) -> bool
    ensures { result ≡ in_turn e (plain_bits f) }
{
    let driving = under_way(f);
    match e {
        Event::BeginIn | Event::BeginOut => !driving,
        Event::EndDone | Event::EndNotDone => driving,
    }
}

// An event is possible in its turn; a begin besides with the lift at street, in with it empty, out with a car on it.
pub fn possible(f: Floor, e: Event) -> bool
    ensures { result ≡ possible e (plain_bits f) }
{
    let turn = in_turn(f, e);
    let street = lifts::at_street(f);
    match e {
        Event::BeginIn => turn & (street & !f.car),
        Event::BeginOut => turn & (street & f.car),
        Event::EndDone | Event::EndNotDone => turn,
    }
}

// The floor after a car event: with a begin the drive is under way, with any end none is, and at one that is done the car that was driven in
// is there, the one that was driven out isn't.
pub fn driven(f: Floor, e: Event) -> Floor
    ensures { result ≡ driven_floor e f }
{
    match e {
        Event::BeginIn => Floor { coming: true, ..f },
        Event::BeginOut => Floor { going: true, ..f },
        Event::EndDone => Floor {
            car: f.coming,
            coming: false,
            going: false,
            ..f
        },
        Event::EndNotDone => Floor {
            coming: false,
            going: false,
            ..f
        },
    }
}

// How many cars the garage is filled with, as far as it may be.
const FILLED: u8 = 27;

// Whether an event may come with so many cars there: a drive-in begins only with fewer than the garage is filled with.
pub fn opens(e: Event, cars: u8) -> bool
    ensures { result ≡ opens_with e cars }
{
    match e {
        Event::BeginIn => cars < FILLED,
        Event::BeginOut | Event::EndDone | Event::EndNotDone => true,
    }
}

// ---- parts

// The parts that an instruction takes: its area; an ill-formed one takes none.
pub fn area(i: Instruction) -> Parts
    ensures { result ≡ area_parts i }
{
    if !rules::well_formed(i) {
        return areas::nothing();
    }
    match i {
        Instruction::Belts { row, mask, .. } => areas::of_belts(row, mask),
        Instruction::Shuttles {
            side,
            mask,
            orientation,
            toward,
        } => areas::of_shuttles(side, mask, orientation, toward),
        Instruction::Tilt {
            side,
            row,
            orientation,
        } => areas::of_tilt(side, row, orientation),
        Instruction::Lift { .. } => areas::of_lift(),
        Instruction::Rotate => areas::of_rotate(),
    }
}

// The parts that a floor has.
fn parts_in(f: Floor) -> Parts
    ensures { result ≡ record { cells = f.cells; slots = f.slots; lift = f.car } }
{
    // Kept: an array of a struct goes into another struct through a variable (the prover covers no other way).
    let cells = f.cells;
    let slots = f.slots;
    Parts {
        cells,
        slots,
        lift: f.car,
    }
}

// The parts that a number says: what a floor with that image has, since the bits are the image's and the lift's is the raised car's.
pub fn parts_of(n: u64) -> Parts
    ensures { result ≡ parts_of (bit n) }
{
    parts_in(plain::of_image(n))
}
