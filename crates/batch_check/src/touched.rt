ghost use Rattle.std.specs.Prelude.{◌≡◌, ◌||◌, IfOk, true};
ghost use Rattle.std.specs.BTreeSet.{Updates, contains};
ghost use Rattle.std.specs.List.{filter_map, flat_map};
ghost use Rattle.alto_rows.specs.declared.resource.Resource as resource;
ghost use Rattle.alto_rows.specs.Order.{resource_cmp};
ghost use Rattle.alto_rows.specs.Touches.{is_resource, part_of};
ghost use Rattle.alto_rows.specs.Versions.{cost_declared};
ghost use Rattle.batch_check.specs.Touched.{HasJoined, costs_of, dependents, is_among, is_part};

use alto_names::NetName;
use alto_rows::{Key, Resource, RowStore, Span, Value, Within, Write, rows_in};
use std::alloc::{AllocError, Global};
use std::collections::BTreeSet;

/// The resources that writes are part of.
pub fn parts_of(alloc: Global, writes: &[Write]) -> Result<BTreeSet<Resource>, AllocError>
    ensures { IfOk result (λ parts. (of : resource.Resource) → contains resource_cmp parts of ≡ is_part writes.now of) }
{
    let mut parts = BTreeSet::new(alloc);
    for write in writes {
        parts = with_part(parts, &write.key)?;
    }
    Ok(parts)
}

/// The resources with the one that a key is part of.
fn with_part(parts: BTreeSet<Resource>, key: &Key) -> Result<BTreeSet<Resource>, AllocError>
    ensures { IfOk result (λ all. (of : resource.Resource)
        → contains resource_cmp all of ≡ (contains resource_cmp parts of || is_resource (part_of key.now) of)) }
{
    match part_of(key)? {
        Some(part) => with_resource(parts, part),
        None => Ok(parts),
    }
}

/// The resource whose document a row is part of.
fn part_of(key: &Key) -> Result<Option<Resource>, AllocError>
    ensures { IfOk result (λ part. part ≡ part_of key.now) }
{
    Ok(match key {
        Key::Net(net) | Key::Pid(net, _) | Key::Prefix(net, _, _) => {
            Some(Resource::Net(net.clone()?))
        }
        Key::Metric(net, metric) | Key::Cost(net, metric, _, _) => {
            Some(Resource::Cost(net.clone()?, metric.clone()?))
        }
        Key::Prop(net, _, _) => Some(Resource::Prop(net.clone()?)),
        _ => None,
    })
}

/// The resources with one more.
fn with_resource(all: BTreeSet<Resource>, more: Resource) -> Result<BTreeSet<Resource>, AllocError>
    ensures { IfOk result (λ after. Updates resource_cmp all after more true) }
{
    let mut after = all;
    after.insert(more)?;
    Ok(after)
}

/// The resources with what depends on them.
pub fn all_dependents<R: RowStore>(
    alloc: Global,
    rows: &R,
    parts: &BTreeSet<Resource>,
) -> Result<BTreeSet<Resource>, AllocError>
    ensures { IfOk result (λ all. (one : resource.Resource)
        → contains resource_cmp all one ≡ is_among one (flat_map (dependents (R.rows rows.now)) parts.now.keys)) }
{
    let mut all = BTreeSet::new(alloc);
    for of in parts {
        all = with_dependents(rows, all, of)?;
    }
    Ok(all)
}

/// The resources with one more and what depends on it: with a network map the network's property map and its cost maps.
fn with_dependents<R: RowStore>(
    rows: &R,
    touched: BTreeSet<Resource>,
    of: &Resource,
) -> Result<BTreeSet<Resource>, AllocError>
    ensures { IfOk result (λ all. HasJoined touched (dependents (R.rows rows.now) of.now) all) }
{
    match of {
        Resource::Net(net) => with_map(rows, touched, net),
        _ => with_resource(touched, copied_resource(of)?),
    }
}

/// The resources with a network's map, its property map and its cost maps.
fn with_map<R: RowStore>(
    rows: &R,
    touched: BTreeSet<Resource>,
    net: &NetName,
) -> Result<BTreeSet<Resource>, AllocError>
    ensures { IfOk result (λ all. HasJoined touched (dependents (R.rows rows.now) (Resource.Net net.now)) all) }
{
    let with_net = with_resource(touched, Resource::Net(net.clone()?))?;
    let with_prop = with_resource(with_net, Resource::Prop(net.clone()?))?;
    let all = with_costs(rows, with_prop, net)?;
    Ok(all)
}

/// The resources with the cost maps that the rows declare of a network.
fn with_costs<R: RowStore>(
    rows: &R,
    touched: BTreeSet<Resource>,
    net: &NetName,
) -> Result<BTreeSet<Resource>, AllocError>
    ensures { IfOk result (λ all. HasJoined touched (costs_of (R.rows rows.now) net.now) all) }
{
    let mut metrics = rows_in(rows, Span::Metrics(net.clone()?));
    let all = with_all_costs(touched, &mut metrics);
    // A call, since what is dropped in place takes a proof for each kind of key.
    drop(metrics);
    all
}

/// The resources with the cost maps that the rows of a walk declare.
fn with_all_costs<R: RowStore>(
    touched: BTreeSet<Resource>,
    metrics: &mut Within<R>,
) -> Result<BTreeSet<Resource>, AllocError>
    ensures { IfOk result (λ all. HasJoined touched (filter_map cost_declared metrics.old) all) }
{
    let mut all = touched;
    while let Some(row) = metrics.next() {
        if let Some(cost) = cost_declared(row)? {
            all = with_resource(all, cost)?;
        }
    }
    Ok(all)
}

/// The cost map that a row declares.
fn cost_declared(row: &(Key, Value)) -> Result<Option<Resource>, AllocError>
    ensures { IfOk result (λ cost. cost ≡ cost_declared row.now) }
{
    Ok(match &row.0 {
        Key::Metric(net, metric) => Some(Resource::Cost(net.clone()?, metric.clone()?)),
        _ => None,
    })
}

/// A copy of a resource.
fn copied_resource(of: &Resource) -> Result<Resource, AllocError>
    ensures { IfOk result (λ copy. copy ≡ of.now) }
{
    of.clone()
}
