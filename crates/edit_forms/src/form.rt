ghost use Rattle.std.specs.Prelude.{◌≡◌, ◌≢◌, Ok, Err, IfOk, IfErr, All};
ghost use Rattle.alto_edits.specs.Edits.{IsEdit};
ghost use Rattle.edit_forms.specs.Forms.{FormReads};

use crate::csv_body::read_csv;
use crate::fault::FormFault;
use crate::json_body::read_json;
use alto_edits::Edit;
use std::alloc::Global;

/// How the body of an import is written.
#[derive(Clone, Copy, Debug, PartialEq, Eq)]
pub enum Form {
    /// Records of comma-separated values (RFC 4180).
    Csv,
    /// One object of lists (RFC 8259).
    Json,
}

impl Form {
    /// The edits of a body in this form, or the first fault. Costs what `read_csv` and `read_json` cost.
    pub fn read(self, alloc: Global, body: &[u8]) -> Result<Vec<Edit>, FormFault>
        ensures ok { IfOk result (λ edits. FormReads self body.now (Ok edits.items)) }
        ensures err { IfErr result (λ fault. fault ≢ FormFault.Memory → FormReads self body.now (Err fault)) }
        ensures edits { IfOk result (λ edits. All IsEdit edits.items) }
    {
        match self {
            Form::Csv => read_csv(alloc, body),
            Form::Json => read_json(alloc, body),
        }
    }
}
