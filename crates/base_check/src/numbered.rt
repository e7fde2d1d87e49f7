ghost use Rattle.std.specs.Prelude.{◌≡◌, IfOk, Some};
ghost use Rattle.std.specs.List.{list_any};
ghost use Rattle.alto_rows.specs.declared.key.Key.TheVariants as key;
ghost use Rattle.alto_rows.specs.Versions.{number_in};
ghost use Rattle.alto_edits.specs.Rules.{lacks};
ghost use Rattle.base_check.specs.Numbered as told;

use alto_names::NetName;
use alto_rows::{Key, Resource, RowStore, Value, walk_from};
use std::alloc::AllocError;

/// Whether some row declares a resource that has no version, or gives a version above a number. A walk over all rows,
/// with a search or two for each network and metric.
pub(crate) fn some_misnumbered<R: RowStore>(rows: &R, number: u64) -> Result<bool, AllocError>
    ensures { IfOk result (λ some. some ≡ list_any (told.is_misnumbered (R.rows rows.now) number) (R.rows rows.now)) }
{
    for row in walk_from(rows, &Key::Epoch) {
        if is_misnumbered(rows, number, row)? {
            return Ok(true);
        }
    }
    Ok(false)
}

/// Whether a row declares a resource that has no version, or gives a version above a number.
fn is_misnumbered<R: RowStore>(
    rows: &R,
    number: u64,
    row: &(Key, Value),
) -> Result<bool, AllocError>
    ensures { IfOk result (λ is. is ≡ told.is_misnumbered (R.rows rows.now) number row.now) }
{
    match &row.0 {
        Key::Net(net) => lacks_net_version(rows, net),
        Key::Metric(net, metric) => {
            let cost = Resource::Cost(net.clone()?, metric.clone()?);
            Ok(lacks_version(rows, cost))
        }
        Key::Seq(_) => Ok(number < number_in(&row.1)),
        _ => Ok(false),
    }
}

/// Whether a network's map or its property map has no version.
fn lacks_net_version<R: RowStore>(rows: &R, net: &NetName) -> Result<bool, AllocError>
    ensures { IfOk result (λ lacks. lacks ≡ told.lacks_net_version (R.rows rows.now) net.now) }
{
    let map = Resource::Net(net.clone()?);
    let properties = Resource::Prop(net.clone()?);
    Ok(lacks_version(rows, map) || lacks_version(rows, properties))
}

/// Whether a resource has no version.
fn lacks_version<R: RowStore>(rows: &R, of: Resource) -> bool
    ensures { result ≡ lacks (R.rows rows.now) (key.Seq of) }
{
    rows.get(&Key::Seq(of)).is_none()
}

/// A value's number, 0 where it has none.
fn number_in(value: &Value) -> u64
    ensures { result ≡ number_in (Some value.now) }
{
    match value {
        Value::Num(n) => *n,
        _ => 0,
    }
}
