// An instruction, the five bytes that carry it, and the car events. What they mean stands in specs/.
#![tactic(auto)]

ghost use Rattle.std.specs.Prelude.{◌≡◌, cond};
ghost use Rattle.std.specs.declared.option.Option.TheVariants.{None};
ghost use Rattle.rules.specs.Rules.{well_formed};
ghost use Rattle.rules.specs.Codes.{code_of, well_formed_only, read_code, read_bytes, read_event};
ghost use Rattle.rules.specs.Verdicts.{answer_for};

use answers::{Answer, Reason};

// Kept: numbers, no enums, here and in areas and engine: a message carries any byte, and well_formed speaks of all of them.
// An instruction, by value. The fields hold the numbers that a message carries.
#[derive(Clone, Copy)]
pub enum Instruction {
    Belts {
        row: u8,
        mask: u8,
        toward: u8,
        size: u8,
    },
    Shuttles {
        side: u8,
        mask: u8,
        orientation: u8,
        toward: u8,
    },
    Tilt {
        side: u8,
        row: u8,
        orientation: u8,
    },
    Lift {
        height: u8,
    },
    Rotate,
}

// An instruction's five bytes.
#[derive(Clone, Copy)]
pub struct Code {
    pub op: u8,
    pub a: u8,
    pub b: u8,
    pub c: u8,
    pub d: u8,
}

// A driver begins to bring a car into the lift, or to take one out; the drive that is under way ends, and is done or not.
#[derive(Clone, Copy)]
pub enum Event {
    BeginIn,
    BeginOut,
    EndDone,
    EndNotDone,
}

// Why an instruction changes no record: one of its conditions fails on it, or the instruction is not well formed.
#[derive(Clone, Copy)]
pub enum Refusal {
    NotAllowed(Reason),
    IllFormed,
}

// Why a car event changes no record: it does not come in turn, is impossible, or would fill a place that is kept open.
#[derive(Clone, Copy)]
pub enum Undriven {
    OutOfTurn,
    Impossible,
    KeptOpen,
}

// Kept: no Option of a bool: sharing_of names the three, each is answered by its own (sharing_said), and a bool would name none.
// Whether two instructions may stand in one set.
#[derive(Clone, Copy)]
pub enum Sharing {
    Overlap,
    Apart,
    IllFormed,
}

// ---- what is answered

// What is answered for a verdict on the instruction at this place: taken, or why it is refused.
pub fn answer_for(verdict: Result<(), Refusal>, place: u8) -> Answer
    ensures { result ≡ answer_for verdict place }
{
    match verdict {
        Ok(()) => Answer::Taken,
        Err(Refusal::NotAllowed(why)) => Answer::NotAllowed(why, place),
        Err(Refusal::IllFormed) => Answer::BadField(place),
    }
}

// ---- which instructions are well formed: each number is in its range

fn belts_fine(row: u8, mask: u8, toward: u8, size: u8) -> bool
    ensures { result ≡ well_formed (Instruction.Belts row mask toward size) }
{
    if row == 1 {
        return (mask <= 31) & (toward <= 1) & (size <= 1);
    }
    (1 <= row) & (row <= 3) & (mask <= 7) & (toward <= 1) & (size <= 1)
}

fn shuttles_fine(side: u8, mask: u8, orientation: u8, toward: u8) -> bool
    ensures { result ≡ well_formed (Instruction.Shuttles side mask orientation toward) }
{
    (side <= 1) & (mask <= 7) & (orientation <= 1) & (toward <= 1)
}

fn tilt_fine(side: u8, row: u8, orientation: u8) -> bool
    ensures { result ≡ well_formed (Instruction.Tilt side row orientation) }
{
    (side <= 1) & ((1 <= row) & (row <= 3)) & (orientation <= 1)
}

// Whether an instruction is well formed.
pub fn well_formed(i: Instruction) -> bool
    ensures { result ≡ well_formed i }
{
    match i {
        Instruction::Belts {
            row,
            mask,
            toward,
            size,
        } => belts_fine(row, mask, toward, size),
        Instruction::Shuttles {
            side,
            mask,
            orientation,
            toward,
        } => shuttles_fine(side, mask, orientation, toward),
        Instruction::Tilt {
            side,
            row,
            orientation,
        } => tilt_fine(side, row, orientation),
        Instruction::Lift { height } => height <= 2,
        Instruction::Rotate => true,
    }
}

// ---- the five bytes

// An instruction's five bytes.
#[tactic(auto, unfolding(crate::specs::Codes::code_of))]
pub fn code_of(i: Instruction) -> Code
    ensures { result ≡ code_of i }
{
    match i {
        Instruction::Belts {
            row,
            mask,
            toward,
            size,
        } => Code {
            op: 1,
            a: row,
            b: mask,
            c: toward,
            d: size,
        },
        Instruction::Shuttles {
            side,
            mask,
            orientation,
            toward,
        } => Code {
            op: 2,
            a: side,
            b: mask,
            c: orientation,
            d: toward,
        },
        Instruction::Tilt {
            side,
            row,
            orientation,
        } => Code {
            op: 3,
            a: side,
            b: row,
            c: orientation,
            d: 0,
        },
        Instruction::Lift { height } => Code {
            op: 4,
            a: height,
            b: 0,
            c: 0,
            d: 0,
        },
        Instruction::Rotate => Code {
            op: 5,
            a: 0,
            b: 0,
            c: 0,
            d: 0,
        },
    }
}

// What five bytes say: a well-formed instruction whose spare bytes are zero, or none.
#[tactic(auto, unfolding(crate::specs::Codes::read_code))]
pub fn read(x: Code) -> Option<Instruction>
    ensures { result ≡ read_code x }
{
    let i = match (x.op, x.a, x.b, x.c, x.d) {
        (1, row, mask, toward, size) => Instruction::Belts {
            row,
            mask,
            toward,
            size,
        },
        (2, side, mask, orientation, toward) => Instruction::Shuttles {
            side,
            mask,
            orientation,
            toward,
        },
        (3, side, row, orientation, 0) => Instruction::Tilt {
            side,
            row,
            orientation,
        },
        (4, height, 0, 0, 0) => Instruction::Lift { height },
        (5, 0, 0, 0, 0) => Instruction::Rotate,
        _ => return None,
    };
    well_formed(i).then_some(i)
}

// What the first five bytes of a slice say; fewer say nothing.
#[tactic(auto, unfolding(crate::specs::Codes::read_bytes))]
pub fn read_bytes(b: &[u8]) -> Option<Instruction>
    ensures { result ≡ read_bytes b.now }
{
    let [op, a, b, c, d, ..] = *b else {
        return None;
    };
    read(Code { op, a, b, c, d })
}

// What an event's byte says.
#[tactic(auto, unfolding(crate::specs::Codes::read_event))]
pub fn event_of(b: u8) -> Option<Event>
    ensures { result ≡ read_event b }
{
    match b {
        1 => Some(Event::BeginIn),
        2 => Some(Event::BeginOut),
        3 => Some(Event::EndDone),
        4 => Some(Event::EndNotDone),
        _ => None,
    }
}
