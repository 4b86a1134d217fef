// The cars of a floor, by walking its rows.
ghost use Rattle.std.specs.Prelude.{◌≡◌, false, ◌++◌, ◌<◌};
ghost use Rattle.floor.specs.Floor.{row_cells};
ghost use Rattle.plain.specs.Plain.{plain_bits};
ghost use Rattle.plain.specs.Walks.{pairs_from, singles_of, walked, walk_of};
ghost use Rattle.plain.specs.Private.{noted};

use super::places::occupied;
use super::{Floor, Walk};

// The place of a car on the raised lift.
const RAISED: u8 = 52;

// A walk with one car more, where one begins at this place.
fn noted(w: Walk, begins: bool, place: u8) -> Walk
    requires { w.count < 31 }
    ensures { result ≡ noted w begins place }
{
    if !begins {
        return w;
    }
    let count = w.count;
    let mut starts = w.starts;
    starts[count as usize] = place;
    Walk {
        starts,
        count: count + 1,
    }
}

// Row 1 from the left: an occupied cell begins a car, unless it is the other half of the one that began before it.
fn row_1(f: Floor) -> Walk
    ensures { result ≡ walk_of (pairs_from 20 0 false (plain_bits f)) }
{
    let mut w = Walk {
        starts: [0; 31],
        count: 0,
    };
    let mut half = false;
    for k in 0..20 {
        let here = occupied(f, k);
        let begins = here & !half;
        w = noted(w, begins, k);
        half = begins;
    }
    w
}

// Then rows 2 and 3: each occupied cell is a car.
fn all_rows(f: Floor) -> Walk
    ensures { result ≡ walk_of (pairs_from 20 0 false (plain_bits f) ++ singles_of (row_cells 2 ++ row_cells 3) (plain_bits f)) }
{
    let mut w = row_1(f);
    for k in 20..40 {
        w = noted(w, occupied(f, k), k);
    }
    w
}

impl Floor {
    // The cars of a floor: row 1, rows 2 and 3, and last the raised lift.
    pub fn walk(self) -> Walk
        ensures { result ≡ walk_of (walked (plain_bits self)) }
    {
        noted(all_rows(self), self.car, RAISED)
    }
}
