ghost use Rattle.std.specs.Prelude.{◌≡◌, IfOk, option_copied};
ghost use Rattle.alto_rows.specs.declared.resource.Resource.TheVariants as resource;
ghost use Rattle.alto_rows.specs.Rows.{value_of};
ghost use Rattle.alto_rows.specs.Versions.{epoch_of, number_in, version_of, tag_of};

use alto_names::NetName;
use alto_rows::{Key, Resource, RowStore, Value};
use json_tree::Name;
use std::alloc::{AllocError, Global};

/// The tag of the version that a resource has reached (RFC 7285, section 10.3): the epoch, a hyphen and the number.
/// Two searches.
pub fn tag<R: RowStore>(alloc: Global, rows: &R, of: &Resource) -> Result<Name, AllocError>
    ensures { IfOk result (λ tag. tag ≡ tag_of (R.rows rows.now) of.now) }
{
    let epoch = epoch(rows);
    let version = version(rows, of)?;
    Ok(Name::new(format!(in alloc; "{epoch}-{version}")?))
}

/// The tag of a network's map. Two searches.
pub(crate) fn net_tag<R: RowStore>(
    alloc: Global,
    rows: &R,
    net: &NetName,
) -> Result<Name, AllocError>
    ensures { IfOk result (λ tag. tag ≡ tag_of (R.rows rows.now) (resource.Net net.now)) }
{
    tag(alloc, rows, &Resource::Net(net.clone()?))
}

/// The epoch of the rows, empty where they have none.
pub fn epoch<R: RowStore>(rows: &R) -> &str
    ensures { result.now ≡ epoch_of (R.rows rows.now) }
{
    match rows.get(&Key::Epoch) {
        Some(Value::Text(epoch)) => epoch.as_str(),
        _ => "",
    }
}

/// The number of the version that a resource has reached, 0 before its first.
fn version<R: RowStore>(rows: &R, of: &Resource) -> Result<u64, AllocError>
    ensures { IfOk result (λ number. number ≡ version_of (R.rows rows.now) of.now) }
{
    Ok(number_at(rows, Key::Seq(of.clone()?)))
}

/// The number in the row of a key, 0 where it has none. One search.
fn number_at<R: RowStore>(rows: &R, key: Key) -> u64
    ensures { result ≡ number_in (value_of (R.rows rows.now) key) }
{
    let number = number_in(rows.get(&key));
    // a call, since what is dropped in place takes a proof for each kind of key
    drop(key);
    number
}

/// A row's number, 0 where it has none.
fn number_in(value: Option<&Value>) -> u64
    ensures { result ≡ number_in (option_copied value.entry) }
{
    match value {
        Some(Value::Num(number)) => *number,
        _ => 0,
    }
}
