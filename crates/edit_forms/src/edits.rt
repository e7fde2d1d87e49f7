ghost use Rattle.std.specs.Prelude.{◌≡◌, ◌≤◌, [], IfOk, IfErr, length};

use crate::fault::FormFault;
use alto_edits::Edit;

/// The edits of a body's records, if there are some.
pub(crate) fn at_least_one(edits: Vec<Edit>) -> Result<Vec<Edit>, FormFault>
    ensures ok { IfOk result (λ some. (1 ≤ length some.items) × (some.items ≡ edits.items)) }
    ensures err { IfErr result (λ fault. (fault ≡ FormFault.Empty) × (edits.items ≡ [])) }
{
    if edits.is_empty() {
        Err(FormFault::Empty)
    } else {
        Ok(edits)
    }
}
