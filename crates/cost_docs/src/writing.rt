//! The groups of a cost map as JSON text, written without a tree.
ghost use Rattle.std.specs.Prelude.{◌≡◌, [], ◌∷◌, ◌++◌, Some, None, decimal, OnOk};
ghost use Rattle.std.specs.List.{filter_map};
ghost use Rattle.json.specs.Token.{key, number};
ghost use Rattle.alto_rows.specs.Good.{AreGood};
ghost use Rattle.alto_maps.specs.Shape.{section_object};
ghost use Rattle.alto_maps.specs.Writing.{AddsMembers, AddsValue};
ghost use Rattle.cost_docs.specs.CostMap.{cost_face};
ghost use Rattle.cost_docs.specs.Costs.{cost_given};
ghost use Rattle.cost_docs.specs.Writing.{AddsTokens, cost_tokens, end_tokens, groups_of, turn_tokens};
ghost use Rattle.cost_docs.specs.Writing.{current_behind, is_current, tokens_left};

use alto_names::{Metric, NetName, PidName};
use alto_rows::{Key, RowStore, Span, Value, Within, rows_in};
use json::Writer;
use std::alloc::{AllocError, Global};

/// Writes the groups. One search and one walk over the rows of the metric.
pub(crate) fn write_groups<R: RowStore>(
    rows: &R,
    net: &NetName,
    metric: &Metric,
    out: &mut Writer,
) -> Result<(), AllocError>
    requires { AreGood (R.rows rows.now) }
    ensures { OnOk result (AddsValue
        (section_object (cost_face net.now metric.now (R.rows rows.now))) out.old out.new) }
{
    out.begin_object()?;
    write_each_cost(rows, net, metric, out)?;
    out.end_object()
}

/// Writes the groups as members.
fn write_each_cost<R: RowStore>(
    rows: &R,
    net: &NetName,
    metric: &Metric,
    out: &mut Writer,
) -> Result<(), AllocError>
    requires { AreGood (R.rows rows.now) }
    ensures { OnOk result (AddsMembers (groups_of (R.rows rows.now) net.now metric.now) out.old out.new) }
{
    let mut costs = rows_in(rows, Span::CostsIn(net.clone()?, metric.clone()?));
    let written = write_costs(&mut costs, out);
    // a call, since what is dropped in place takes a proof for each kind of span
    drop(costs);
    written
}

/// Writes the costs that the rows of a walk give, in groups: each begins before the first cost of its source, and ends
/// behind the last.
fn write_costs<R: RowStore>(costs: &mut Within<R>, out: &mut Writer) -> Result<(), AllocError>
    ensures { OnOk result (AddsTokens (tokens_left None (filter_map cost_given costs.old)) out.old out.new) }
{
    let mut current = None;
    while let Some(row) = costs.next() {
        write_row(row, &mut current, out)?;
    }
    end_group(&current, out)
}

/// Writes the cost that a row gives, in the group of its source. A name is shared once a group.
fn write_row(
    row: &(Key, Value),
    current: &mut Option<PidName>,
    out: &mut Writer,
) -> Result<(), AllocError>
    ensures tokens { OnOk result (AddsTokens (cost_tokens current.old (cost_given row.now)) out.old out.new) }
    ensures source { OnOk result (current.new ≡ current_behind current.old (cost_given row.now)) }
{
    match (&row.0, &row.1) {
        (Key::Cost(_, _, source, destination), Value::Num(cost)) => {
            turn_to(source, current, out)?;
            write_cost(destination, *cost, out)
        }
        _ => Ok(()),
    }
}

/// Begins the group of a source, behind the end of another, unless it is begun.
fn turn_to(
    source: &PidName,
    current: &mut Option<PidName>,
    out: &mut Writer,
) -> Result<(), AllocError>
    ensures tokens { OnOk result (AddsTokens (turn_tokens current.old source.now) out.old out.new) }
    ensures source { OnOk result (current.new ≡ Some source.now) }
{
    if is_current(current, source) {
        return Ok(());
    }
    end_group(current, out)?;
    *current = Some(source.clone()?);
    out.key(source.as_str())?;
    out.begin_object()
}

/// Whether the group that is begun is that of a source.
pub(crate) fn is_current(current: &Option<PidName>, source: &PidName) -> bool
    ensures { result ≡ is_current current.now source.now }
{
    match current {
        Some(current) => current == source,
        None => false,
    }
}

/// Ends the group that is begun, if there is one.
fn end_group(current: &Option<PidName>, out: &mut Writer) -> Result<(), AllocError>
    ensures { OnOk result (AddsTokens (end_tokens current.now) out.old out.new) }
{
    match current {
        Some(_) => out.end_object(),
        None => Ok(()),
    }
}

/// Writes a cost with the name of its destination.
fn write_cost(destination: &PidName, cost: u64, out: &mut Writer) -> Result<(), AllocError>
    ensures { OnOk result (AddsTokens
        (key destination.now ∷ number (decimal cost) ∷ []) out.old out.new) }
{
    out.key(destination.as_str())?;
    out.u64(cost)
}
