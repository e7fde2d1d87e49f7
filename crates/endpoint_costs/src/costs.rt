ghost use Rattle.std.specs.Prelude.{◌≡◌, ◌++◌, List, false, codes, IfOk, OnOk, map};
ghost use Rattle.std.specs.List.{AllByRecursion};
ghost use Rattle.serde_json.specs.Written.{compact_text, members_text};
ghost use Rattle.json_tree.specs.Tree.{members_in_order};
ghost use Rattle.alto_rows.specs.Good.{AreGood};
ghost use Rattle.alto_rows.specs.Prefixes.{prefixes_in};
ghost use Rattle.alto_maps.specs.Shape.{Name};
ghost use Rattle.alto_maps.specs.Writing.{AddsMember};
ghost use Rattle.cost_tables.specs.Tables.{AreCostsOf};
ghost use Rattle.cost_filters.specs.Text.{member_start};
ghost use Rattle.endpoint_costs.specs.Costs.{endpoint_costs, endpoint_meta, pairs_object};
ghost use Rattle.endpoint_costs.specs.Entries.{IsWritten, groups_at};

use crate::ask::EndAsk;
use crate::endpoint::{Endpoint, endpoints_at};
use crate::ordered::{in_order, pids_of, starts_of};
use alto_addr::Addr;
use alto_names::NetName;
use alto_rows::RowStore;
use cost_filters::{MemberStarts, Pairs, PairsBetween, push_group, write_types};
use cost_tables::CostTables;
use json::Writer;
use pid_prefix::RangeTable;
use std::alloc::{AllocError, Global};
use text_buffer::TextBuffer;

/// Room for a text, which those of most asks don't outgrow.
const FIRST_ROOM: usize = 4096;

/// The text of the costs between the addresses that are asked for (RFC 7285, section 11.5.1.6; RFC 8189,
/// section 4.2.3), by the network's prefixes, for a client at this address, if it is known. It has no space, and is
/// written without a tree.
///
/// For each ordinal type one walk over its metric. For each address one look-up in the table, and one sort of the
/// addresses. Then for each of the sources and each type that is asked for or tested one binary search for its PID, and
/// one look for each destination where the source before has the same destinations.
pub fn endpoint_cost_text<R: RowStore>(
    alloc: Global,
    rows: &R,
    tables: &CostTables,
    net: &NetName,
    table: &RangeTable,
    ask: &EndAsk,
    peer: Option<Addr>,
) -> Result<Vec<u8>, AllocError>
    requires good { AreGood (R.rows rows.now) }
    requires costs { AreCostsOf (R.rows rows.now) tables.now }
    requires table { table.now ≡ prefixes_in (R.rows rows.now) net.now }
    ensures { IfOk result (λ bytes. bytes.items
        ≡ compact_text (endpoint_costs (R.rows rows.now) net.now ask.now peer)) }
{
    let srcs = endpoints_at(alloc, table, &ask.srcs, peer)?;
    let dsts = endpoints_at(alloc, table, &ask.dsts, peer)?;
    let mut text = TextBuffer::with_room(alloc, FIRST_ROOM)?;
    text.push(b"{\"endpoint-cost-map\":")?;
    push_section(alloc, rows, tables, net, ask, srcs, dsts, &mut text)?;
    text.push(b",")?;
    let mut out = Writer::new(text.into_bytes());
    write_meta(ask, &mut out)?;
    let mut whole = out.into_inner();
    whole.push(b'}')?;
    Ok(whole)
}

/// Writes the meta with its name: the cost types.
fn write_meta(ask: &EndAsk, out: &mut Writer) -> Result<(), AllocError>
    ensures { OnOk result (AddsMember (codes "meta") (endpoint_meta ask.now) out.old out.new) }
{
    out.key("meta")?;
    out.begin_object()?;
    write_types(ask.multi, &ask.types, out)?;
    out.end_object()
}

/// Puts the object of the sources that have a pair, each with its pairs.
fn push_section<R: RowStore>(
    alloc: Global,
    rows: &R,
    tables: &CostTables,
    net: &NetName,
    ask: &EndAsk,
    srcs: Vec<Endpoint<'_>>,
    dsts: Vec<Endpoint<'_>>,
    out: &mut TextBuffer,
) -> Result<(), AllocError>
    requires good { AreGood (R.rows rows.now) }
    requires costs { AreCostsOf (R.rows rows.now) tables.now }
    requires srcs { AllByRecursion (IsWritten (prefixes_in (R.rows rows.now) net.now)) srcs.items }
    requires dsts { AllByRecursion (IsWritten (prefixes_in (R.rows rows.now) net.now)) dsts.items }
    ensures { OnOk result (out.new ≡ out.old
        ++ compact_text (pairs_object (R.rows rows.now) net.now ask.now srcs.entry.items dsts.entry.items)) }
{
    let pairs = Pairs::new(
        alloc,
        rows,
        tables,
        net,
        &ask.types,
        &ask.tested,
        &ask.alternatives,
    )?;
    let srcs = in_order(srcs);
    let dsts = in_order(dsts);
    let starts = starts_of(alloc, &dsts)?;
    let between = pairs.between(alloc, &pids_of(alloc, &srcs)?, &pids_of(alloc, &dsts)?)?;
    out.push(b"{")?;
    push_groups(ask.multi, &srcs, &starts, &between, out)
}

/// Puts the groups of the sources that have a pair, with the brace behind them.
fn push_groups(
    multi: bool,
    srcs: &[Endpoint],
    dsts: &MemberStarts,
    pairs: &PairsBetween,
    out: &mut TextBuffer,
) -> Result<(), AllocError>
    ensures { OnOk result ((names : List Name) → dsts.now ≡ map member_start names
        → out.new ≡ out.old
        ++ members_text false (members_in_order (groups_at multi names srcs.now pairs.now))) }
{
    let mut later = false;
    for (at, src) in srcs.iter().enumerate() {
        let found = pairs.from_source(at);
        later = push_group(multi, src.text.as_str(), dsts, &found, later, out)?;
    }
    out.push(b"}")?;
    Ok(())
}
