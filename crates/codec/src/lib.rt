// Numbers of 32 bits in a run of bytes: one read from a place on, and the bytes of one. And bytes put at the front of a room.
#![tactic(auto)]

ghost use Rattle.std.specs.Prelude.{◌≡◌, [], ◌∷◌, ◌+◌, ◌≤◌, length};
ghost use Rattle.codec.specs.Bytes.{little_endian, from_little_endian};
ghost use Rattle.codec.specs.Copies.{Copied};
ghost use Rattle.codec.specs.Fours.{there, four_at};

// Four bytes stand in a run of so many from a place on.
fn there(size: usize, at: usize) -> bool
    ensures { result ≡ there size at }
{
    if size < 4 {
        return false;
    }
    at <= size - 4
}

// The number that four bytes say, the lowest first.
fn joined(a: u8, b: u8, c: u8, d: u8) -> u32
    ensures { result ≡ from_little_endian 4 0 (a ∷ b ∷ c ∷ d ∷ []) }
{
    u32::from_le_bytes([a, b, c, d])
}

fn got(run: &[u8], at: usize) -> u32
    requires { at + 4 ≤ length run.now }
    ensures { result ≡ from_little_endian 4 at run.now }
{
    joined(run[at], run[at + 1], run[at + 2], run[at + 3])
}

// The number that stands in a run from a place on, 0 where the run has no four bytes there.
// Kept: 0 and no Option where there are none, as definition `four_at` and what rests on it (`over_fours`) say.
pub fn four_at(run: &[u8], at: usize) -> u32
    ensures { result ≡ four_at at run.now }
{
    if !there(run.len(), at) {
        return 0;
    }
    got(run, at)
}

// The four bytes that say a number, the lowest first.
#[tactic(auto, using(crate::proofs::LittleEndian::four_laid))]
pub fn four_bytes(n: u32) -> [u8; 4]
    ensures { result ≡ little_endian 4 n }
{
    u32::to_le_bytes(n)
}

// Puts all of src at the front of room, and says how many bytes that are; where room is too short it puts nothing there.
// Kept: 0 and no Option where it puts nothing: but for `put` of wire and of desk_service every caller's room fits, and none looks.
pub fn copy(src: &[u8], room: &mut [u8]) -> usize
    ensures { Copied src.now room.old result room.new }
{
    let n = src.len();
    if room.len() < n {
        return 0;
    }
    for i in 0..n {
        room[i] = src[i];
    }
    n
}
