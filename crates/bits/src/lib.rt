// A record as one number: a bit of it, and what is asked of the bits that a mask names.
#![tactic(auto)]

ghost use Rattle.std.specs.Prelude.{◌≡◌, ◌%◌, eqb};
ghost use Rattle.bits.specs.Bits.{bit, image, count, all_set, laid};
ghost use Rattle.bits.specs.Places.{places};

// Bit k of the number; from 64 on there is none that is 1.
pub fn bit(r: u64, k: u64) -> bool
    ensures { result ≡ bit r k }
{
    if k < 64 {
        return (r >> k) % 2 == 1;
    }
    false
}

// Each bit that the mask names is 1.
pub fn all(r: u64, mask: u64) -> bool
    ensures { result ≡ all_set (places mask) (bit r) }
{
    r & mask == mask
}

// None of them is 1.
pub fn free(r: u64, mask: u64) -> bool
    ensures { result ≡ eqb (count (places mask) (bit r)) 0 }
{
    r & mask == 0
}

// How many of them are 1.
pub fn count(r: u64, mask: u64) -> u32
    ensures { result ≡ count (places mask) (bit r) }
{
    (r & mask).count_ones()
}

// An even number of them is 1.
pub fn even(r: u64, mask: u64) -> bool
    ensures { result ≡ eqb (count (places mask) (bit r) % 2) 0 }
{
    count(r, mask) % 2 == 0
}

// The number with the touched bits made anew: 1 where `new` has a 1.
pub fn laid(r: u64, touched: u64, new: u64) -> u64
    ensures { result ≡ image (laid r touched new) }
{
    (r & !touched) | (new & touched)
}
