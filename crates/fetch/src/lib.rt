// A test for planners: whether a drive-in now locks nobody in. What it promises is stated in the crate fetch_laws.
#![tactic(auto)]

ghost use Rattle.std.specs.Prelude.{◌≡◌, leb};
ghost use Rattle.bits.specs.Bits.{bit, count};
ghost use Rattle.bits.specs.Places.{places};
ghost use Rattle.fetch.specs.Room.{locks_nobody_in};

// At most two cars are on these cells of row 1.
fn few(r: u64, side: u64) -> bool
    ensures { result ≡ leb (count (places side) (bit r)) 4 }
{
    bits::count(r, side) <= 4
}

// Row 1 has at most two cars on one side of the lift, in cells 0 to 10 or 13 to 19.
pub fn locks_nobody_in(r: u64) -> bool
    ensures { result ≡ locks_nobody_in r }
{
    few(r, 0x7FF) | few(r, 0xFE000)
}
