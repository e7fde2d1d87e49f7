//! Parts of a JSON text (RFC 8259) with no space, which are put at the end of bytes. A writer of tokens looks at each
//! token anew, and costs some hundred steps a pair more.
ghost use Rattle.std.specs.Prelude.{◌≡◌, ◌++◌, OnOk};
ghost use Rattle.serde_json.specs.Written.{compact_text};
ghost use Rattle.cost_docs.specs.CostMap.{number_data};

use std::alloc::AllocError;
use text_buffer::TextBuffer;

/// Puts a cost, null where there is none.
pub(crate) fn push_cost(cost: Option<u64>, out: &mut TextBuffer) -> Result<(), AllocError>
    ensures { OnOk result (out.new ≡ out.old ++ compact_text (number_data cost)) }
{
    match cost {
        Some(number) => out.push_number(number),
        None => out.push(b"null"),
    }
}
