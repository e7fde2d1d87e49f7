//! The declared resources of rows.
ghost use Rattle.std.specs.Prelude.{◌≡◌, ◌++◌, IfOk, map};
ghost use Rattle.std.specs.List.{filter_map, flat_map};
ghost use Rattle.alto_rows.specs.declared.resource.Resource.TheVariants as resource;
ghost use Rattle.alto_rows.specs.Good.{AreGood};
ghost use Rattle.alto_rows.specs.Versions as spec;
ghost use Rattle.alto_rows.specs.Versions.{cost_declared, net_declared};
ghost use Rattle.alto_versions.specs.Resources.{costs_of};

use crate::graphs::copy_of;
use alto_names::{Metric, NetName};
use alto_rows::{Key, Resource, RowStore, Span, Within, rows_in};
use std::alloc::{AllocError, Global};

/// The declared resources, in their order.
///
/// Costs a walk over the rows of the networks, and for each network a search and a walk over the rows of its metrics.
pub(crate) fn resources_of<R: RowStore>(
    alloc: Global,
    rows: &R,
) -> Result<Vec<Resource>, AllocError>
    requires { AreGood (R.rows rows.now) }
    ensures { IfOk result (λ resources. resources.items ≡ spec.resources_of (R.rows rows.now)) }
{
    let nets = nets_of(alloc, rows)?;
    let mut resources = Vec::new(alloc);
    add_network_maps(&nets, &mut resources)?;
    add_cost_maps(rows, &nets, &mut resources)?;
    add_property_maps(&nets, &mut resources)?;
    Ok(resources)
}

/// Copies of resources.
pub(crate) fn copies_of(alloc: Global, resources: &[Resource]) -> Result<Vec<Resource>, AllocError>
    ensures { IfOk result (λ copies. copies.items ≡ resources.now) }
{
    let mut copies = Vec::with_capacity(alloc, resources.len())?;
    for of in resources {
        copies.push(copy_of(of)?)?;
    }
    Ok(copies)
}

/// The declared networks, in the order of their names.
pub(crate) fn nets_of<R: RowStore>(alloc: Global, rows: &R) -> Result<Vec<NetName>, AllocError>
    ensures { IfOk result (λ nets. nets.items ≡ spec.nets_of (R.rows rows.now)) }
{
    let mut walk = rows_in(rows, Span::Nets);
    let nets = nets_left(alloc, &mut walk);
    // a call: where each exit of a loop drops the walk in place, that takes long to prove
    drop(walk);
    nets
}

/// The networks that the rows of a walk declare.
fn nets_left<R: RowStore>(alloc: Global, walk: &mut Within<R>) -> Result<Vec<NetName>, AllocError>
    ensures { IfOk result (λ nets. nets.items ≡ filter_map net_declared walk.old) }
{
    let mut nets = Vec::new(alloc);
    while let Some(row) = walk.next() {
        if let Key::Net(net) = &row.0 {
            nets.push(net.clone()?)?;
        }
    }
    Ok(nets)
}

/// Puts the network maps of networks at the end.
fn add_network_maps(nets: &[NetName], resources: &mut Vec<Resource>) -> Result<(), AllocError>
    ensures { IfOk result (λ done. resources.new.items ≡ resources.old.items ++ map resource.Net nets.now) }
{
    for net in nets {
        resources.push(Resource::Net(net.clone()?))?;
    }
    Ok(())
}

/// Puts the cost maps of networks at the end.
fn add_cost_maps<R: RowStore>(
    rows: &R,
    nets: &[NetName],
    resources: &mut Vec<Resource>,
) -> Result<(), AllocError>
    ensures { IfOk result (λ done.
        resources.new.items ≡ resources.old.items ++ flat_map (costs_of (R.rows rows.now)) nets.now) }
{
    for net in nets {
        add_costs(rows, net, resources)?;
    }
    Ok(())
}

/// Puts the cost maps of a network at the end.
fn add_costs<R: RowStore>(
    rows: &R,
    net: &NetName,
    resources: &mut Vec<Resource>,
) -> Result<(), AllocError>
    ensures { IfOk result (λ done.
        resources.new.items ≡ resources.old.items ++ costs_of (R.rows rows.now) net.now) }
{
    let mut metrics = rows_in(rows, Span::Metrics(net.clone()?));
    let added = add_costs_left(&mut metrics, resources);
    drop(metrics);
    added
}

/// Puts the cost maps that the rows of a walk declare at the end.
fn add_costs_left<R: RowStore>(
    metrics: &mut Within<R>,
    resources: &mut Vec<Resource>,
) -> Result<(), AllocError>
    ensures { IfOk result (λ done.
        resources.new.items ≡ resources.old.items ++ filter_map cost_declared metrics.old) }
{
    while let Some(row) = metrics.next() {
        if let Key::Metric(net, metric) = &row.0 {
            resources.push(cost(net, metric)?)?;
        }
    }
    Ok(())
}

/// The cost map of a metric.
fn cost(net: &NetName, metric: &Metric) -> Result<Resource, AllocError>
    ensures { IfOk result (λ cost. cost ≡ resource.Cost net.now metric.now) }
{
    Ok(Resource::Cost(net.clone()?, metric.clone()?))
}

/// Puts the property maps of networks at the end.
fn add_property_maps(nets: &[NetName], resources: &mut Vec<Resource>) -> Result<(), AllocError>
    ensures { IfOk result (λ done. resources.new.items ≡ resources.old.items ++ map resource.Prop nets.now) }
{
    for net in nets {
        resources.push(Resource::Prop(net.clone()?))?;
    }
    Ok(())
}
