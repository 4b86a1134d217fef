// CRC-32C over a run of bytes, by tables of four times 256 numbers that the caller makes once and lends.
#![tactic(auto)]

ghost use Rattle.std.specs.Prelude.{◌≡◌, ◌≤◌, ◌<◌, length, drop};
ghost use Rattle.checksum.specs.Checksum.{over_bits, bits_of, crc_over};
ghost use Rattle.checksum.specs.Slices.{zeros_on, slices, over_byte, over_four, over_bytes, over_fours, crc_by};

const ONES: u32 = 0xFFFFFFFF;

// A byte after eight bits that are 0: the sum of what its bits become.
fn byte_moved(x: u32) -> u32
    requires { x < 256 }
    ensures { result ≡ zeros_on 8 x }
{
    (x % 2 * 0xF26B8303)
        ^ (x / 2 % 2 * 0xE13B70F7)
        ^ (x / 4 % 2 * 0xC79A971F)
        ^ (x / 8 % 2 * 0x8AD958CF)
        ^ (x / 16 % 2 * 0x105EC76F)
        ^ (x / 32 % 2 * 0x20BD8EDE)
        ^ (x / 64 % 2 * 0x417B1DBC)
        ^ (x / 128 % 2 * 0x82F63B78)
}

// A state after eight of them.
fn eight(s: u32) -> u32
    ensures { result ≡ zeros_on 8 s }
{
    (s / 256) ^ byte_moved(s % 256)
}

// The tables: the first from the bytes themselves, each further one from the one before.
pub fn tables() -> [u32; 1024]
    ensures { result ≡ slices }
{
    let mut t = [0u32; 1024];
    for p in 0..256 {
        t[p] = eight(p as u32);
    }
    for p in 256..1024 {
        let before = t[p - 256];
        t[p] = eight(before);
    }
    t
}

fn over_byte(t: &[u32; 1024], z: u32) -> u32
    ensures { result ≡ over_byte t.now z }
{
    (z / 256) ^ t[(z % 256) as usize]
}

fn over_four(t: &[u32; 1024], z: u32) -> u32
    ensures { result ≡ over_four t.now z }
{
    let w = z as usize;
    t[w / 16777216] ^ t[256 + w / 65536 % 256] ^ t[512 + w / 256 % 256] ^ t[768 + w % 256]
}

// A state after the bytes from a place on, one by one.
fn over_rest(t: &[u32; 1024], s: u32, bytes: &[u8], from: usize) -> u32
    requires { from ≤ length bytes.now }
    ensures { result ≡ over_bytes t.now s (drop from bytes.now) }
{
    let mut state = s;
    for i in from..bytes.len() {
        state = over_byte(t, state ^ (bytes[i] as u32));
    }
    state
}

// A state after all bytes, four by four as long as there are four.
fn over_fours(t: &[u32; 1024], s: u32, bytes: &[u8]) -> u32
    ensures { result ≡ over_fours t.now s bytes.now }
{
    let mut state = s;
    let fours = bytes.len() / 4;
    for k in 0..fours {
        state = over_four(t, state ^ codec::four_at(bytes, 4 * k));
    }
    over_rest(t, state, bytes, 4 * fours)
}

// A state after all bytes, without tables.
fn over_short(s: u32, bytes: &[u8]) -> u32
    ensures { result ≡ over_bits s (bits_of bytes.now) }
{
    let mut state = s;
    for byte in bytes {
        state = eight(state ^ (*byte as u32));
    }
    state
}

// The checksum that the lent tables give, of bytes that stand behind others whose checksum is c.
pub fn continue_by(t: &[u32], c: u32, bytes: &[u8]) -> u32
    ensures { result ≡ crc_by t.now c bytes.now }
{
    match <&[u32; 1024]>::try_from(t) {
        Ok(t) => over_fours(t, c ^ ONES, bytes) ^ ONES,
        Err(_) => 0,
    }
}

// The same without lent tables: few bytes are taken without any, for many it is worth while to make them.
pub fn continue_over(c: u32, bytes: &[u8]) -> u32
    ensures { result ≡ crc_over c bytes.now }
{
    if bytes.len() < 192 {
        return over_short(c ^ ONES, bytes) ^ ONES;
    }
    let t = tables();
    continue_by(&t, c, bytes)
}
