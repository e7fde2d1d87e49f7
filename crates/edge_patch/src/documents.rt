ghost use Rattle.std.specs.Prelude.{◌≡◌, true, IfOk};
ghost use Rattle.alto_rows.specs.Good.{AreGood};
ghost use Rattle.alto_rows.specs.Versions.{is_declared};
ghost use Rattle.serde_json.specs.Written.{compact_text};
ghost use Rattle.edge_patch.specs.Documents.{document};

use alto_rows::{Resource, RowStore};
use cost_docs::cost_text;
use net_docs::net_text;
use prop_docs::prop_text;
use std::alloc::{AllocError, Global};

/// The text of the document of a declared resource, which an edge from 0 holds whole (RFC 9569, section 3). Costs what
/// the document's text costs.
pub fn document_text<R: RowStore>(
    alloc: Global,
    resource: &Resource,
    rows: &R,
) -> Result<Vec<u8>, AllocError>
    requires good { AreGood (R.rows rows.now) }
    requires declared { is_declared (R.rows rows.now) resource.now ≡ true }
    ensures { IfOk result (λ bytes. bytes.items ≡ compact_text (document resource.now (R.rows rows.now))) }
{
    match resource {
        Resource::Net(net) => net_text(alloc, rows, net),
        Resource::Cost(net, metric) => cost_text(alloc, rows, net, metric),
        Resource::Prop(net) => prop_text(alloc, rows, net),
    }
}
