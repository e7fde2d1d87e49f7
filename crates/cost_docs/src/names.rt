//! The names of the groups of a cost map.
ghost use Rattle.std.specs.Prelude.{◌≡◌, ◌++◌, IfOk, OnOk, Some, None};
ghost use Rattle.std.specs.List.{filter_map};
ghost use Rattle.alto_rows.specs.Good.{AreGood};
ghost use Rattle.cost_docs.specs.CostMap.{sources_of};
ghost use Rattle.cost_docs.specs.Costs.{cost_given};
ghost use Rattle.cost_docs.specs.Writing.{current_behind, name_begun, name_turned, names_left};

use crate::writing::is_current;
use alto_names::{Metric, NetName, PidName};
use alto_rows::{Key, RowStore, Span, Value, Within, rows_in};
use json_tree::Name;
use std::alloc::{AllocError, Global};

/// The names of the groups: the sources that have a cost of the metric, in byte order. One search and one walk over the
/// rows of the metric.
pub(crate) fn group_names<R: RowStore>(
    alloc: Global,
    rows: &R,
    net: &NetName,
    metric: &Metric,
) -> Result<Vec<Name>, AllocError>
    requires { AreGood (R.rows rows.now) }
    ensures { IfOk result (λ names. names.items ≡ sources_of (R.rows rows.now) net.now metric.now) }
{
    let mut costs = rows_in(rows, Span::CostsIn(net.clone()?, metric.clone()?));
    let names = names_begun(alloc, &mut costs);
    // a call, since what is dropped in place takes a proof for each kind of span
    drop(costs);
    names
}

/// The sources of the costs that the rows of a walk give, each once where its costs stand together.
fn names_begun<R: RowStore>(alloc: Global, costs: &mut Within<R>) -> Result<Vec<Name>, AllocError>
    ensures { IfOk result (λ names. names.items ≡ names_left None (filter_map cost_given costs.old)) }
{
    let mut names = Vec::new(alloc);
    let mut current = None;
    while let Some(row) = costs.next() {
        put_source(alloc, row, &mut current, &mut names)?;
    }
    Ok(names)
}

/// Puts the source of the cost that a row gives, unless it is the one before. A name is shared once a group.
fn put_source(
    alloc: Global,
    row: &(Key, Value),
    current: &mut Option<PidName>,
    names: &mut Vec<Name>,
) -> Result<(), AllocError>
    ensures names { OnOk result (names.new.items ≡ names.old.items ++ name_begun current.old (cost_given row.now)) }
    ensures source { OnOk result (current.new ≡ current_behind current.old (cost_given row.now)) }
{
    match (&row.0, &row.1) {
        (Key::Cost(_, _, source, _), Value::Num(_)) => turn_to(alloc, source, current, names),
        _ => Ok(()),
    }
}

/// Puts a source, unless it is the one before.
fn turn_to(
    alloc: Global,
    source: &PidName,
    current: &mut Option<PidName>,
    names: &mut Vec<Name>,
) -> Result<(), AllocError>
    ensures names { OnOk result (names.new.items ≡ names.old.items ++ name_turned current.old source.now) }
    ensures source { OnOk result (current.new ≡ Some source.now) }
{
    if is_current(current, source) {
        return Ok(());
    }
    *current = Some(source.clone()?);
    names.push(Name::from_str(alloc, source.as_str())?)?;
    Ok(())
}
