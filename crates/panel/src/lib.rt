// The service panel: of each condition of an instruction whether it holds on a plain floor, what is told where it is the first to fail, and
// the parts of the garage that decide it.
#![tactic(auto)]

ghost use Rattle.std.specs.Prelude.{◌≡◌};
ghost use Rattle.plain.specs.Plain.{plain_bits};
ghost use Rattle.panel.specs.Panel.{explained};

use plain::{Condition, Floor};
use plain_moves::Parts;
use rules::Instruction;

mod deciding;
mod shuttles;

// A condition explained: whether it holds and why not, and which cells, slots or whether the lift decide it.
#[derive(Clone, Copy)]
pub struct Explanation {
    pub condition: Condition,
    pub parts: Parts,
}

// Condition c of an instruction on a floor, in the paper's order from 0, if there is one.
pub fn explained(f: Floor, i: Instruction, c: u8) -> Option<Explanation>
    ensures { result ≡ explained i c (plain_bits f) }
{
    let condition = f.condition(i, c)?;
    let parts = deciding::parts(i, c);
    Some(Explanation { condition, parts })
}
