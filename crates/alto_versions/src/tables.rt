//! The range tables of a version, made from those of the version before. All whose prefixes a batch left are shared.
ghost use Rattle.std.specs.Prelude.{◌≡◌, IfOk, IfSome, IsTrue, option_map};
ghost use Rattle.std.specs.Arc.{arc_value};
ghost use Rattle.alto_names.specs.Name.{IsNetName};
ghost use Rattle.alto_rows.specs.declared.span.Span.TheVariants as span;
ghost use Rattle.alto_rows.specs.Good.{AreGood};
ghost use Rattle.alto_rows.specs.Order.{same_name};
ghost use Rattle.alto_rows.specs.Prefixes.{prefixes_in};
ghost use Rattle.alto_rows.specs.Rows.{Rows};
ghost use Rattle.alto_rows.specs.Rows as spec;
ghost use Rattle.alto_rows.specs.Span.{is_in};
ghost use Rattle.alto_versions.specs.Front.{table_in, tables_in};
ghost use Rattle.alto_versions.specs.Graphs.{entries};
ghost use Rattle.alto_versions.specs.Tables as made;

use crate::resources::nets_of;
use alto_names::NetName;
use alto_rows::{Key, RowStore, Write, prefixes_of};
use pid_prefix::RangeTable;
use std::alloc::{AllocError, Global};
use std::sync::Arc;

/// The range tables after a batch with these writes, which led to these rows: one for each declared network. The tables
/// of networks whose prefixes the batch left are shared.
///
/// Costs a walk over the rows of the networks, a look at each write for each of them, and a table for each network
/// whose prefixes the batch wrote, or that had none.
pub(crate) fn tables_after<R: RowStore>(
    alloc: Global,
    tables: &[(NetName, Arc<RangeTable>)],
    rows: &R,
    writes: &[Write],
) -> Result<Vec<(NetName, Arc<RangeTable>)>, AllocError>
    requires { AreGood (R.rows rows.now) }
    ensures { IfOk result (λ after. (before : Rows) → R.rows rows.now ≡ spec.after before writes.now
        → entries tables.now ≡ tables_in before → entries after.items ≡ tables_in (R.rows rows.now)) }
{
    let mut after = Vec::new(alloc);
    for net in nets_of(alloc, rows)? {
        let table = table_after(alloc, table_of(tables, net.as_bytes()), &net, rows, writes)?;
        after.push((net, table))?;
    }
    Ok(after)
}

/// The range tables of the rows: one for each declared network.
///
/// Costs a walk over the rows of the networks, and a table for each.
pub(crate) fn tables_of<R: RowStore>(
    alloc: Global,
    rows: &R,
) -> Result<Vec<(NetName, Arc<RangeTable>)>, AllocError>
    requires { AreGood (R.rows rows.now) }
    ensures { IfOk result (λ tables. entries tables.items ≡ tables_in (R.rows rows.now)) }
{
    let mut tables = Vec::new(alloc);
    for net in nets_of(alloc, rows)? {
        let table = built(alloc, rows, &net)?;
        tables.push((net, table))?;
    }
    Ok(tables)
}

/// The table of the network that a text names, among these. Linear in their number.
pub(crate) fn table_of<'a>(
    tables: &'a [(NetName, Arc<RangeTable>)],
    text: &[u8],
) -> Option<&'a Arc<RangeTable>>
    ensures table { option_map (λ table. arc_value table.now) result ≡ table_in (entries tables.now) text.now }
    ensures name { IfSome result (λ _. IsNetName text.now) }
{
    for (name, table) in tables {
        if names(text, name) {
            return Some(table);
        }
    }
    None
}

/// Whether a text is the name of a network.
fn names(text: &[u8], net: &NetName) -> bool
    ensures same { result ≡ same_name text.now net.now }
    ensures name { IsTrue result → IsNetName text.now }
{
    text == net.as_bytes()
}

/// The table of a network after a batch with these writes, which led to these rows: the same where they have none of
/// its prefixes.
fn table_after<R: RowStore>(
    alloc: Global,
    table: Option<&Arc<RangeTable>>,
    net: &NetName,
    rows: &R,
    writes: &[Write],
) -> Result<Arc<RangeTable>, AllocError>
    requires { AreGood (R.rows rows.now) }
    ensures { IfOk result (λ after. arc_value after
        ≡ made.table_after (option_map (λ table. arc_value table.now) table.entry)
        net.now (R.rows rows.now) writes.now) }
{
    let Some(table) = table else {
        return built(alloc, rows, net);
    };
    if writes_prefix(net, writes) {
        return built(alloc, rows, net);
    }
    Arc::try_clone(table)
}

/// The table of the prefixes that a network has in these rows.
fn built<R: RowStore>(alloc: Global, rows: &R, net: &NetName) -> Result<Arc<RangeTable>, AllocError>
    requires { AreGood (R.rows rows.now) }
    ensures { IfOk result (λ table. arc_value table ≡ prefixes_in (R.rows rows.now) net.now) }
{
    let prefixes = prefixes_of(alloc, rows, net)?;
    Ok(Arc::new(alloc, RangeTable::build(alloc, &prefixes)?)?)
}

/// Whether one of these writes is of a prefix of the network.
fn writes_prefix(net: &NetName, writes: &[Write]) -> bool
    ensures { result ≡ made.writes_prefix net.now writes.now }
{
    writes.iter().any(|write| is_prefix_of(net, &write.key))
}

/// Whether a key is that of a prefix of the network.
fn is_prefix_of(net: &NetName, key: &Key) -> bool
    ensures { result ≡ is_in (span.Prefixes net.now) key.now }
{
    match key {
        Key::Prefix(of, _, _) => net == of,
        _ => false,
    }
}
