ghost use Rattle.std.specs.Prelude.{◌≡◌, ◌↔◌, if◌then◌else◌, IfOk, MatchOption};
ghost use Rattle.alto_names.specs.Name.{IsNetName, IsMetric};
ghost use Rattle.alto_rows.specs.Good.{AreGood, IsResource};
ghost use Rattle.alto_rows.specs.Ids.{resource_id, resource_named};
ghost use Rattle.alto_rows.specs.Pieces.{ReadsRest};
ghost use Rattle.alto_rows.specs.Versions as spec;
ghost use Rattle.alto_rows.specs.declared.resource.Resource.{Resource as TheResource};
ghost use Rattle.alto_rows.specs.declared.resource.Resource.TheVariants as resource;

use crate::key::Key;
use crate::pieces::{behind, behind_first, net_end, read_name};
use crate::resource::Resource;
use crate::store::RowStore;
use alto_names::NetName;
use json_tree::Name;
use std::alloc::{AllocError, Global};

/// Two resources with one id are one.
pub fn ids_are_unambiguous()
    ensures { (one other : TheResource) → IsResource one → IsResource other → resource_id one ≡ resource_id other
        → one ≡ other }
{}

/// Writes the id of a resource (RFC 7285, section 9.1.1).
pub fn print_resource(alloc: Global, of: &Resource) -> Result<Name, AllocError>
    ensures { IfOk result (λ name. name ≡ resource_id of.now) }
{
    match of {
        Resource::Net(net) => Ok(Name::new(format!(in alloc; "{net}")?)),
        Resource::Cost(net, metric) => Ok(Name::new(format!(in alloc; "{net}:cost:{metric}")?)),
        Resource::Prop(net) => Ok(Name::new(format!(in alloc; "{net}:prop")?)),
    }
}

/// Reads an id: `None` exactly where the text is the id of no resource.
pub fn read_resource(alloc: Global, text: &[u8]) -> Result<Option<Resource>, AllocError>
    ensures { IfOk result (λ found. (of : TheResource)
        → (IsResource of × (resource_id of ≡ text.now)) ↔ (found ≡ Some of)) }
{
    let end = net_end(text);
    let rest = behind_first(text, end);
    match read_name(alloc, &text[..end])? {
        Some(net) => read_rest(alloc, net, rest),
        None => Ok(None),
    }
}

/// Reads what an id has behind the name of the network.
fn read_rest(alloc: Global, net: NetName, rest: &[u8]) -> Result<Option<Resource>, AllocError>
    requires { IsNetName net }
    ensures { IfOk result (λ found. ReadsRest net rest.now found) }
{
    if rest == b"".as_slice() {
        return Ok(Some(Resource::Net(net)));
    }
    if rest == b":prop".as_slice() {
        return Ok(Some(Resource::Prop(net)));
    }
    match behind(rest, b":cost:") {
        Some(metric) => read_cost(alloc, net, metric),
        None => Ok(None),
    }
}

/// The cost map of a metric.
fn read_cost(alloc: Global, net: NetName, metric: &[u8]) -> Result<Option<Resource>, AllocError>
    ensures { IfOk result (λ found. MatchOption found (¬ (IsMetric metric.now))
        (λ of. (of ≡ resource.Cost net metric.now) × IsMetric metric.now)) }
{
    match read_name(alloc, metric)? {
        Some(metric) => Ok(Some(Resource::Cost(net, metric))),
        None => Ok(None),
    }
}

/// The declared resource whose id the text is. One search.
pub fn find_resource<R: RowStore>(
    alloc: Global,
    rows: &R,
    text: &[u8],
) -> Result<Option<Resource>, AllocError>
    requires { AreGood (R.rows rows.now) }
    ensures { IfOk result (λ found. found ≡ resource_named (R.rows rows.now) text.now) }
{
    match read_resource(alloc, text)? {
        Some(of) => if_declared(rows, of),
        None => Ok(None),
    }
}

/// The resource, where it is declared.
fn if_declared<R: RowStore>(rows: &R, of: Resource) -> Result<Option<Resource>, AllocError>
    ensures { IfOk result (λ found. found ≡ (if spec.is_declared (R.rows rows.now) of then Some of else None)) }
{
    if is_declared(rows, &of)? {
        Ok(Some(of))
    } else {
        Ok(None)
    }
}

fn is_declared<R: RowStore>(rows: &R, of: &Resource) -> Result<bool, AllocError>
    ensures { IfOk result (λ declared. declared ≡ spec.is_declared (R.rows rows.now) of.now) }
{
    let key = declaring_key(of)?;
    Ok(rows.get(&key).is_some())
}

/// The key whose row declares a resource.
fn declaring_key(of: &Resource) -> Result<Key, AllocError>
    ensures { IfOk result (λ at. at ≡ spec.declaring_key of.now) }
{
    match of {
        Resource::Net(net) | Resource::Prop(net) => Ok(Key::Net(net.clone()?)),
        Resource::Cost(net, metric) => Ok(Key::Metric(net.clone()?, metric.clone()?)),
    }
}
