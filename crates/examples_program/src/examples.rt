// Document 01's floor examples and its lines that are only run, by calls of the code. A line has the name of an example, then the calls
// with the numbers that they are answered with, and the records between them. What it must write, the file stdout, was written by hand
// from the paper. P1 to P12 are proved of the definitions in the crate examples.
ghost use Rattle.std.specs.Prelude.{◌≤◌};

use crate::writing::{number, text};
use answers::NOWHERE;
use rules::{Code, Instruction};
use station::{Outcome, Picture, Report, Station};
use std::num::wrapping_sub_u16;

// ---- what is written

// An image as the paper writes it, the lowest byte first.
fn show(rt: &HostRuntime, r: u64) {
    text(rt, " |");
    for b in r.to_le_bytes() {
        let _ = print!(rt; " {b:02X}");
    }
}

// How many cars a record has, if it is sound.
fn show_cars(rt: &HostRuntime, r: u64) {
    text(rt, " | ");
    match floor::cars(r) {
        Some(n) => {
            number(rt, n);
            text(rt, " cars");
        }
        None => text(rt, "not sound"),
    }
}

// A call's answer: its number, and the place where it names one.
pub fn told(rt: &HostRuntime, name: &str, o: Outcome) -> Station {
    text(rt, " | ");
    text(rt, name);
    text(rt, ": ");
    number(rt, o.answer.number() as u64);
    let place = o.answer.place();
    if place != NOWHERE {
        text(rt, " at ");
        number(rt, place as u64);
    }
    o.station
}

// ---- calls

// The five bytes of an instruction, at a place of a set.
fn put(set: &mut [u8; 40], at: usize, i: Instruction)
    requires { at ≤ 35 }
{
    let Code { op, a, b, c, d } = rules::code_of(i);
    set[at] = op;
    set[at + 1] = a;
    set[at + 2] = b;
    set[at + 3] = c;
    set[at + 4] = d;
}

// The bytes of a set of one or two instructions.
fn set_of(i: Instruction) -> [u8; 40] {
    let mut set = [0u8; 40];
    put(&mut set, 0, i);
    set
}

fn pair_of(i: Instruction, j: Instruction) -> [u8; 40] {
    let mut set = set_of(i);
    put(&mut set, 5, j);
    set
}

// One instruction is asked for.
fn asked(rt: &HostRuntime, s: Station, name: &str, i: Instruction) -> Station {
    told(rt, name, s.request(1, set_of(i)))
}

// The result of an instruction of the present set.
fn ended(rt: &HostRuntime, s: Station, name: &str, number: u8, ending: u8) -> Station {
    let issue = wrapping_sub_u16(s.next, 1);
    told(
        rt,
        name,
        s.result(Report {
            issue,
            number,
            ending,
        }),
    )
}

// One instruction is asked for and done, and the record shown.
fn moved(rt: &HostRuntime, s: Station, name: &str, i: Instruction) -> Station {
    let t = asked(rt, s, name, i);
    let u = ended(rt, t, "done", 0, 1);
    show(rt, u.bits);
    u
}

// A start with this image.
fn placed(rt: &HostRuntime, r: u64) -> Station {
    show(rt, r);
    told(
        rt,
        "image",
        Station::start().image(Picture { bits: r, apart: 0 }),
    )
}

// ---- the examples

fn p1(rt: &HostRuntime) {
    text(rt, "P1");
    let s = Station::start();
    show(rt, s.bits);
    show_cars(rt, s.bits);
    text(rt, "\n")
}

fn p2(rt: &HostRuntime) -> Station {
    text(rt, "P2");
    let s = told(rt, "begin in", Station::start().event(1));
    let t = told(rt, "done", s.event(3));
    let u = told(rt, "begin in", t.event(1));
    text(rt, "\n");
    u
}

fn p3(rt: &HostRuntime) {
    text(rt, "P3");
    told(rt, "begin out", Station::start().event(2));
    text(rt, "\n")
}

fn p4(rt: &HostRuntime, s: Station) -> Station {
    text(rt, "P4");
    let t = moved(rt, s, "lift to basement", Instruction::Lift { height: 2 });
    text(rt, "\n");
    t
}

fn p5(rt: &HostRuntime, s: Station) {
    text(rt, "P5");
    let t = moved(
        rt,
        s,
        "row 1 mask 6 lower half",
        Instruction::Belts {
            row: 1,
            mask: 6,
            toward: 0,
            size: 0,
        },
    );
    asked(rt, t, "lift to street", Instruction::Lift { height: 0 });
    text(rt, "\n")
}

fn p6(rt: &HostRuntime) {
    text(rt, "P6");
    let s = placed(rt, 0x49_1B00_0000_3C00);
    show_cars(rt, s.bits);
    let t = asked(rt, s, "lift to rotation", Instruction::Lift { height: 1 });
    asked(rt, t, "lift to street", Instruction::Lift { height: 0 });
    text(rt, "\n")
}

fn p7(rt: &HostRuntime) {
    text(rt, "P7");
    placed(rt, 0x9_1B00_0000_0001);
    text(rt, "\n")
}

// The left lowered shuttles of rows 1 and 2, higher.
const UP: Instruction = Instruction::Shuttles {
    side: 0,
    mask: 3,
    orientation: 0,
    toward: 1,
};

fn p8(rt: &HostRuntime) {
    text(rt, "P8");
    moved(
        rt,
        placed(rt, 0x9_1B00_0000_0003),
        "left lowered rows 1 and 2 higher",
        UP,
    );
    text(rt, "\n")
}

fn p9(rt: &HostRuntime) {
    text(rt, "P9");
    asked(
        rt,
        placed(rt, 0x9_1B00_0000_0006),
        "left lowered rows 1 and 2 higher",
        UP,
    );
    text(rt, "\n")
}

// The tilted shuttle of row 3 is lowered.
fn lowers(side: u8) -> Instruction {
    Instruction::Tilt {
        side,
        row: 3,
        orientation: 1,
    }
}

// The second of the set with this result.
fn p10(rt: &HostRuntime, name: &str, ending: u8) {
    text(rt, "P10");
    let set = pair_of(lowers(0), lowers(1));
    let s = told(rt, "both lowered", Station::start().request(2, set));
    let t = ended(rt, s, "done", 0, 1);
    let u = ended(rt, t, name, 1, ending);
    show(rt, u.bits);
    text(rt, "\n")
}

fn p11(rt: &HostRuntime) {
    text(rt, "P11");
    moved(
        rt,
        placed(rt, 0x29_1B00_0000_00C0),
        "rotate",
        Instruction::Rotate,
    );
    text(rt, "\nP11");
    asked(
        rt,
        placed(rt, 0x29_1B00_0000_0180),
        "rotate",
        Instruction::Rotate,
    );
    text(rt, "\n")
}

fn p12(rt: &HostRuntime) {
    text(rt, "P12");
    let set = pair_of(lowers(0), lowers(0));
    told(rt, "same tilt twice", Station::start().request(2, set));
    text(rt, "\n")
}

// Writes all.
pub fn all(rt: &HostRuntime) {
    p1(rt);
    let s = p2(rt);
    p3(rt);
    let t = p4(rt, s);
    p5(rt, t);
    p6(rt);
    p7(rt);
    p8(rt);
    p9(rt);
    p10(rt, "done", 1);
    p10(rt, "failed", 0);
    p11(rt);
    p12(rt);
    crate::run_only::all(rt)
}
