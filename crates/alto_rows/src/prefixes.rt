ghost use Rattle.std.specs.Prelude.{◌≡◌, IfOk};
ghost use Rattle.alto_rows.specs.Prefixes.{prefixes_in};
ghost use Rattle.alto_rows.specs.Prefixes as spec;

use crate::key::Key;
use crate::span::Span;
use crate::store::RowStore;
use crate::value::Value;
use crate::within::rows_in;
use alto_addr::Prefix;
use alto_names::{NetName, PidName};
use std::alloc::{AllocError, Global};

/// The prefixes of a network with their PIDs, in the order of their keys. One walk over the rows of these prefixes,
/// whose names are shared.
pub fn prefixes_of<R: RowStore>(
    alloc: Global,
    rows: &R,
    net: &NetName,
) -> Result<Vec<(Prefix, PidName)>, AllocError>
    ensures { IfOk result (λ prefixes. prefixes.items ≡ prefixes_in (R.rows rows.now) net.now) }
{
    let mut prefixes = Vec::new(alloc);
    for row in rows_in(rows, Span::Prefixes(net.clone()?)) {
        if let Some(prefix) = prefix_declared(row)? {
            prefixes.push(prefix)?;
        }
    }
    Ok(prefixes)
}

/// The prefix that a row gives a PID, and this PID.
fn prefix_declared(row: &(Key, Value)) -> Result<Option<(Prefix, PidName)>, AllocError>
    ensures { IfOk result (λ found. found ≡ spec.prefix_declared row.now) }
{
    match &row.0 {
        Key::Prefix(_, pid, prefix) => Ok(Some((prefix.prefix(), pid.clone()?))),
        _ => Ok(None),
    }
}
