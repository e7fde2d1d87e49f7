//! The costs that a patch is made of.
ghost use Rattle.std.specs.Prelude.{◌≡◌, IfOk, OnOk, option_copied};
ghost use Rattle.std.specs.List.{flat_map};
ghost use Rattle.alto_rows.specs.Costs.{number_at};
ghost use Rattle.alto_rows.specs.Good.{AreGood};
ghost use Rattle.alto_maps.specs.Shape.{group_object, stands};
ghost use Rattle.alto_maps.specs.Writing.{AddsMembers, AddsValue};
ghost use Rattle.cost_docs.specs.CostMap as spec;
ghost use Rattle.cost_docs.specs.Costs.{cost_given};
ghost use Rattle.cost_docs.specs.Writing.{AddsTokens, member_tokens, members_from};

use alto_names::{Metric, NetName, PidName};
use alto_rows::{Key, RowStore, Span, Value, Within, rows_in};
use json::Writer;
use std::alloc::AllocError;

/// The number that a row holds.
pub(crate) fn number_at(value: Option<&Value>) -> Option<u64>
    ensures { result ≡ number_at (option_copied value.entry) }
{
    match value {
        Some(Value::Num(number)) => Some(*number),
        _ => None,
    }
}

/// Whether a source has a cost of the metric. One search.
pub(crate) fn has_cost_from<R: RowStore>(
    rows: &R,
    net: &NetName,
    metric: &Metric,
    source: &PidName,
) -> Result<bool, AllocError>
    ensures { IfOk result (λ found. found
        ≡ stands (spec.cost_face net.now metric.now (R.rows rows.now)) source.now) }
{
    let span = Span::CostsFrom(net.clone()?, metric.clone()?, source.clone()?);
    let mut walk = rows_in(rows, span);
    let found = walk.next().is_some();
    // By a call: a walk that goes out of scope is dear to prove.
    drop(walk);
    Ok(found)
}

/// Writes the group of a source as an object. One search and one walk over its rows.
pub(crate) fn write_costs<R: RowStore>(
    rows: &R,
    net: &NetName,
    metric: &Metric,
    source: &PidName,
    out: &mut Writer,
) -> Result<(), AllocError>
    requires { AreGood (R.rows rows.now) }
    ensures { OnOk result (AddsValue
        (group_object (spec.cost_face net.now metric.now (R.rows rows.now)) source.now) out.old out.new) }
{
    out.begin_object()?;
    write_members(rows, net, metric, source, out)?;
    out.end_object()
}

/// Writes the costs of a source as members.
fn write_members<R: RowStore>(
    rows: &R,
    net: &NetName,
    metric: &Metric,
    source: &PidName,
    out: &mut Writer,
) -> Result<(), AllocError>
    requires { AreGood (R.rows rows.now) }
    ensures { OnOk result (AddsMembers
        (members_from (R.rows rows.now) net.now metric.now source.now) out.old out.new) }
{
    let span = Span::CostsFrom(net.clone()?, metric.clone()?, source.clone()?);
    let mut walk = rows_in(rows, span);
    let written = write_walked(&mut walk, out);
    drop(walk);
    written
}

/// Writes the costs that the rows of a walk give, as members. The walk is only borrowed: it is let go in one place.
fn write_walked<R: RowStore>(walk: &mut Within<R>, out: &mut Writer) -> Result<(), AllocError>
    ensures { OnOk result (AddsTokens (flat_map (λ row. member_tokens (cost_given row)) walk.old) out.old out.new) }
{
    while let Some(row) = walk.next() {
        write_member(row, out)?;
    }
    Ok(())
}

/// Writes the cost that a row gives, as a member.
fn write_member(row: &(Key, Value), out: &mut Writer) -> Result<(), AllocError>
    ensures { OnOk result (AddsTokens (member_tokens (cost_given row.now)) out.old out.new) }
{
    match (&row.0, &row.1) {
        (Key::Cost(_, _, _, destination), Value::Num(cost)) => {
            out.key(destination.as_str())?;
            out.u64(*cost)
        }
        _ => Ok(()),
    }
}
