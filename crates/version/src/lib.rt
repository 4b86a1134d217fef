// The version of what is built here, which the programs and an entry for C tell. The first number moves where a caller must change
// something, the second where something was added, the third else.
#![tactic(auto)]

ghost use Rattle.std.specs.Prelude.{◌≡◌};
ghost use Rattle.version.specs.Version.{version};

pub const FIRST: u32 = 1;

pub const SECOND: u32 = 0;

pub const THIRD: u32 = 0;

// Kept: a sum, as definition version and STATION_VERSION in include/station.h have it.
// The three as one number.
pub fn number() -> u32
    ensures { result ≡ version }
{
    65536 * FIRST + 256 * SECOND + THIRD
}
