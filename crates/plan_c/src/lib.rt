// The entries for a host in C or Rust that tries plans: a plan is lent as its bytes, and the judgement is its number plus 256 times the first
// set refused, from 0, or 255. What is told of it stands in specs/Entries.antt.
#![tactic(auto)]

ghost use Rattle.std.specs.Prelude.{◌≡◌, ◌+◌, ◌*◌};
ghost use Rattle.plan.specs.Plans.{judgement};
ghost use Rattle.rooms.specs.Rooms.{LeavesRoom};
ghost use Rattle.plan_c.specs.Entries.{returned_judgement, grounds_bytes, explain_into};

use plan::Grounds;
use rooms::{image_in, tell};

// The bytes of the grounds.
const GROUNDS: usize = 18;

// Kept: number and set in one number, as C is told them (returned_judgement).
// A judgement as one number.
fn said(number: u8, set: u8) -> u32
    ensures { result ≡ number + 256 * set }
{
    number as u32 + 256 * (set as u32)
}

// Judges a plan.
#[unsafe(no_mangle)]
pub extern "C" fn plan_judge(plan: &[u8]) -> u32
    ensures { result ≡ returned_judgement (judgement plan.now) }
{
    let j = plan::judge(plan);
    said(j.number, j.set)
}

// The grounds in bytes. What it needs is not to be in plan_explain's frame.
#[inline(never)]
fn grounds_bytes(g: Grounds) -> [u8; GROUNDS]
    ensures { result ≡ grounds_bytes g }
{
    let mut bytes = [0; GROUNDS];
    bytes[..16].copy_from_slice(&image_in(g.bits, g.parts));
    bytes[16] = g.place;
    bytes[17] = g.earlier;
    bytes
}

// Judges a plan, and writes the grounds to a room of their own.
#[unsafe(no_mangle)]
pub extern "C" fn plan_explain(plan: &[u8], room: &mut [u8]) -> u32
    ensures { LeavesRoom (explain_into plan.now room.old) result room.new }
{
    let g = plan::explain(plan);
    let b = grounds_bytes(g);
    let told = tell(0, &b, room);
    if told != 0 {
        return told;
    }
    said(g.number, g.set)
}
