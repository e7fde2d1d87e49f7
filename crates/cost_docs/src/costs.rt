//! The costs of a metric, one by one.
ghost use Rattle.std.specs.Prelude.{◌≡◌, ◌++◌, [], ◌∷◌, IfOk, OnOk};
ghost use Rattle.std.specs.List.{filter_map};
ghost use Rattle.cost_docs.specs.Costs.{cost_given, costs_within};

use alto_names::PidName;
use alto_rows::{Key, RowStore, Span, Value, Within, rows_in};
use std::alloc::{AllocError, Global};

/// A cost from a source to a destination.
#[derive(Drop)]
pub(crate) struct Cost {
    pub(crate) source: PidName,
    pub(crate) destination: PidName,
    pub(crate) amount: u64,
}

/// The costs of a span, by their keys. One search and one walk over the rows of the span, whose names are shared.
pub(crate) fn costs_within<R: RowStore>(
    alloc: Global,
    rows: &R,
    span: Span,
) -> Result<Vec<Cost>, AllocError>
    ensures { IfOk result (λ costs. costs.items ≡ costs_within (R.rows rows.now) span) }
{
    let mut walk = rows_in(rows, span);
    let costs = costs_given(alloc, &mut walk);
    // a call, since what is dropped in place takes a proof for each kind of span
    drop(walk);
    costs
}

/// The costs that the rows of a walk give.
fn costs_given<R: RowStore>(alloc: Global, walk: &mut Within<R>) -> Result<Vec<Cost>, AllocError>
    ensures { IfOk result (λ costs. costs.items ≡ filter_map cost_given walk.old) }
{
    let mut costs = Vec::new(alloc);
    while let Some(row) = walk.next() {
        put_cost(row, &mut costs)?;
    }
    Ok(costs)
}

/// Puts the cost that a row gives.
fn put_cost(row: &(Key, Value), costs: &mut Vec<Cost>) -> Result<(), AllocError>
    ensures { OnOk result (costs.new.items ≡ costs.old.items ++ filter_map cost_given (row.now ∷ [])) }
{
    if let Some(cost) = cost_given(row)? {
        costs.push(cost)?;
    }
    Ok(())
}

/// The cost that a row gives.
fn cost_given(row: &(Key, Value)) -> Result<Option<Cost>, AllocError>
    ensures { IfOk result (λ cost. cost ≡ cost_given row.now) }
{
    match (&row.0, &row.1) {
        (Key::Cost(_, _, source, destination), Value::Num(amount)) => Ok(Some(Cost {
            source: source.clone()?,
            destination: destination.clone()?,
            amount: *amount,
        })),
        _ => Ok(None),
    }
}
