ghost use Rattle.std.specs.Prelude.{◌≡◌, Ok, IfOk, IfErr};
ghost use Rattle.cost_rule.specs.Beginning.{IsFaultOf};
ghost use Rattle.cost_rule.specs.Grammar.{Spells};

use crate::constraint::Constraint;
use crate::fault::ConstraintFault;
use crate::stage::Stage;

/// Reads a constraint: as an option an index of 1 to 2 digits in brackets and one or more blanks, then `gt`, `lt`,
/// `ge`, `le` or `eq`, one or more blanks, 1 to 16 digits, and as an option `.` and 1 to 6 digits. Blanks are spaces
/// and tabs. It takes no memory.
pub fn read_constraint(text: &[u8]) -> Result<Constraint, ConstraintFault>
    ensures ok { IfOk result (Spells text.now) }
    ensures only { (constraint : Constraint) → Spells text.now constraint → result ≡ Ok constraint }
    ensures err { IfErr result (IsFaultOf text.now) }
{
    let mut stage = Stage::Start;
    for (place, byte) in text.iter().enumerate() {
        match stage.after(*byte) {
            Some(next) => stage = next,
            None => return Err(ConstraintFault::BadAt(place)),
        }
    }
    stage.finish().ok_or(ConstraintFault::BadAt(text.len()))
}
