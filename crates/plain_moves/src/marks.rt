// What is asked of parts and made of them, part by part: 0 to 39 the cells, 40 to 51 the slots, 52 the lift.
ghost use Rattle.std.specs.Prelude.{◌≡◌, false, ◌||◌, ◌+◌};
ghost use Rattle.bits.specs.Bits.{image};
ghost use Rattle.plain.specs.declared.Height.TheVariants.{Street};
ghost use Rattle.plain.specs.Plain.{listed};
ghost use Rattle.plain_moves.specs.Moves.{parts_bits, meeting, together};

use super::Parts;
use plain::{Floor, Height};

// The part past the last.
const END: u8 = 53;

// The cells of two.
fn cells_with(p: Parts, q: Parts) -> [bool; 40]
    ensures { result ≡ listed 40 (λ k. parts_bits p k || parts_bits q k) }
{
    let mut cells = [false; 40];
    for k in 0..40 {
        cells[k as usize] = p.has(k) | q.has(k);
    }
    cells
}

// The slots of two.
fn slots_with(p: Parts, q: Parts) -> [bool; 12]
    ensures { result ≡ listed 12 (λ j. parts_bits p (40 + j) || parts_bits q (40 + j)) }
{
    let mut slots = [false; 12];
    for j in 0..12 {
        slots[j as usize] = p.has(40 + j) | q.has(40 + j);
    }
    slots
}

impl Parts {
    // Whether a part is among them, by its bit.
    fn has(self, k: u8) -> bool
        ensures { result ≡ parts_bits self k }
    {
        if k < 40 {
            return self.cells[k as usize];
        }
        if k < 52 {
            return self.slots[(k - 40) as usize];
        }
        (k == 52) & self.lift
    }

    // A floor that has these and nothing else.
    fn floor(self) -> Floor
        ensures { result ≡ record { cells = self.cells; slots = self.slots; car = self.lift; height = Street; coming = false; going = false } }
    {
        // Kept: an array of a struct goes into another struct through a variable (the prover covers no other way).
        let cells = self.cells;
        let slots = self.slots;
        Floor {
            cells,
            slots,
            car: self.lift,
            height: Height::Street,
            coming: false,
            going: false,
        }
    }

    // Their number: the image of that floor, since the bits are the image's and the lift's is the raised car's.
    pub fn number(self) -> u64
        ensures { result ≡ image (parts_bits self) }
    {
        self.floor().image()
    }

    // Whether two have a part in common.
    pub fn meets(self, q: Parts) -> bool
        ensures { result ≡ meeting self q }
    {
        for k in 0..END {
            if self.has(k) & q.has(k) {
                return true;
            }
        }
        false
    }

    // All parts of both.
    pub fn with(self, q: Parts) -> Parts
        ensures { result ≡ together self q }
    {
        Parts {
            cells: cells_with(self, q),
            slots: slots_with(self, q),
            lift: self.lift | q.lift,
        }
    }
}
