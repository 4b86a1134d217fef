// One set of eight instructions on a floor with ten cars. Its results come in several orders, with the same car events among them (a car
// is driven in, a driver who would drive out gives up, the next one drives out), and the last record is the same each time, and so
// is what is set apart. The order is proved not to matter (station_laws); here it is seen in the code.
use crate::writing::{hex, text};
use station::{Outcome, Picture, Report, Station};
use std::num::wrapping_sub_u16;

// The orders of the acts: a drive begins, in or out; it ends, done or not; or the result of the instruction with this digit.
const ORDERS: [&[u8; 14]; 5] = [
    b"0i1d23o4n5o6d7",
    b"i7654d3on2o1d0",
    b"1357id0o2no4d6",
    b"63idonod150742",
    b"2i70d5o1n6od34",
];

// The start's shuttles and lift. Row 1 has cars in cells 2-3, 6-7, 14-15 and 18-19, row 2 in 20, 22, 25 and 29, row 3 in 31 and 36.
const FLOOR: u64 = 0x9_1B10_A25C_C0CC;

// No two overlap, and none has the lift in its area, so that cars can come and go.
const SET: [u8; 40] = [
    // 0: belts of row 1, left shuttle and left belt, lower, full
    1, 1, 3, 0, 1,
    // 1: belts of row 1, right belt, higher, half
    1, 1, 8, 1, 0,
    // 2: belts of row 2, between the shuttles, lower, full; this one fails
    1, 2, 2, 0, 1,
    // 3: belts of row 3, between the shuttles, higher, full
    1, 3, 2, 1, 1,
    // 4: left lowered shuttle of row 2, higher, with its car
    2, 0, 2, 0, 1,
    // 5: left tilted shuttle of row 3, lower; this one is stuck
    2, 0, 4, 1, 0,
    // 6: right lowered shuttles of rows 1 and 2, higher, with their cars
    2, 1, 3, 0, 1,
    // 7: right tilted shuttle of row 3, lower
    2, 1, 4, 1, 0,
];

// In every order instruction 2 fails and 5 is stuck.
fn reported(i: u8) -> u8 {
    match i {
        2 => 0,
        5 => 2,
        _ => 1,
    }
}

// The station that a call left, if it was taken.
fn taken(o: Outcome) -> Option<Station> {
    (o.answer.number() == 0).then_some(o.station)
}

// The set is outstanding.
fn opened() -> Option<Station> {
    let placed = taken(Station::start().image(Picture {
        bits: FLOOR,
        apart: 0,
    }))?;
    taken(placed.request(Station::MOST, SET))
}

// An act on a station.
fn acted(s: Station, act: u8) -> Option<Station> {
    match act {
        b'i' => taken(s.event(1)),
        b'o' => taken(s.event(2)),
        b'd' => taken(s.event(3)),
        b'n' => taken(s.event(4)),
        b'0'..=b'7' => {
            let i = act - b'0';
            taken(s.result(Report {
                issue: wrapping_sub_u16(s.next, 1),
                number: i,
                ending: reported(i),
            }))
        }
        _ => None,
    }
}

// The acts in this order.
fn run(order: &[u8]) -> Option<Station> {
    let mut s = opened()?;
    for act in order {
        s = acted(s, *act)?;
    }
    Some(s)
}

// Writes the order, the last record and what is set apart, which are answered too.
fn shown(rt: &HostRuntime, order: &[u8]) -> Option<(u64, u64)> {
    let _ = rt.write_all(order);
    match run(order) {
        Some(Station { bits, apart, .. }) => {
            hex(rt, bits);
            hex(rt, apart);
            text(rt, "\n");
            Some((bits, apart))
        }
        None => {
            text(rt, " with a call refused\n");
            None
        }
    }
}

// Writes all, and whether each order ends as the first does.
pub fn all(rt: &HostRuntime) {
    let first = shown(rt, ORDERS[0]);
    let mut same = true;
    for order in &ORDERS[1..] {
        same &= shown(rt, *order) == first;
    }
    if same {
        text(rt, "same\n")
    } else {
        text(rt, "different\n")
    }
}
