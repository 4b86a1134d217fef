// A condition as it is told.
ghost use Rattle.std.specs.Prelude.{◌≡◌};
ghost use Rattle.plain.specs.Private.{condition};

use super::Condition;
use answers::Reason;

// One that is there: whether it holds, and why not.
pub fn told(holds: bool, why: Reason) -> Option<Condition>
    ensures { result ≡ condition holds why }
{
    Some(Condition { holds, why })
}
