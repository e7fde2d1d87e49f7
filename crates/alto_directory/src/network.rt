ghost use Rattle.std.specs.Prelude.{◌≡◌, IfOk, map};
ghost use Rattle.std.specs.List.{filter_map};
ghost use Rattle.alto_rows.specs.Versions.{net_declared};
ghost use Rattle.alto_directory.specs.Network as spec;

use crate::names::{PropertyNames, property_names};
use alto_names::{Metric, NetName};
use alto_rows::{Key, RowStore, Span, Within, rows_in};
use std::alloc::{AllocError, Global};
use std::marker::Model;

/// What a directory tells of a network: its name, its metrics, and the names of its entities' properties.
#[derive(Drop)]
pub(crate) struct Network {
    pub(crate) name: NetName,
    pub(crate) metrics: Vec<Metric>,
    pub(crate) properties: PropertyNames,
}

impl Model for Network {
    ghost use Rattle.alto_directory.specs.Network.{NetworkData};

    ghost Value = { NetworkData };

    ghost view = { λ net. record { name = net.name; metrics = net.metrics.items; properties = net.properties } };
}

/// The declared networks, in the order of their names. One walk over the rows of the networks, and for each network one
/// over those of its metrics and one over those of its properties.
pub(crate) fn networks_of<R: RowStore>(alloc: Global, rows: &R) -> Result<Vec<Network>, AllocError>
    ensures { IfOk result (λ nets. nets.items ≡ spec.networks_of (R.rows rows.now)) }
{
    let mut nets = rows_in(rows, Span::Nets);
    let networks = networks_walked(alloc, rows, &mut nets);
    // dropped by a call: that is far cheaper to prove than a drop in place at each exit of the loop
    drop(nets);
    networks
}

/// The networks that the rows of a walk declare.
fn networks_walked<R: RowStore>(
    alloc: Global,
    rows: &R,
    nets: &mut Within<R>,
) -> Result<Vec<Network>, AllocError>
    ensures { IfOk result (λ networks. networks.items
        ≡ map (spec.network_of (R.rows rows.now)) (filter_map net_declared nets.old)) }
{
    let mut networks = Vec::new(alloc);
    while let Some(row) = nets.next() {
        if let Key::Net(net) = &row.0 {
            networks.push(network_of(alloc, rows, net)?)?;
        }
    }
    Ok(networks)
}

/// What is told of one network.
fn network_of<R: RowStore>(alloc: Global, rows: &R, net: &NetName) -> Result<Network, AllocError>
    ensures { IfOk result (λ network. network ≡ spec.network_of (R.rows rows.now) net.now) }
{
    Ok(Network {
        name: net.clone()?,
        metrics: metrics_of(alloc, rows, net)?,
        properties: property_names(alloc, rows, net)?,
    })
}

/// The metrics of a network, in the order of their names.
fn metrics_of<R: RowStore>(
    alloc: Global,
    rows: &R,
    net: &NetName,
) -> Result<Vec<Metric>, AllocError>
    ensures { IfOk result (λ metrics. metrics.items ≡ spec.metrics_of (R.rows rows.now) net.now) }
{
    let mut declared = rows_in(rows, Span::Metrics(net.clone()?));
    let metrics = metrics_walked(alloc, &mut declared);
    drop(declared);
    metrics
}

/// The metrics that the rows of a walk declare.
fn metrics_walked<R: RowStore>(
    alloc: Global,
    declared: &mut Within<R>,
) -> Result<Vec<Metric>, AllocError>
    ensures { IfOk result (λ metrics. metrics.items ≡ filter_map spec.metric_declared declared.old) }
{
    let mut metrics = Vec::new(alloc);
    while let Some(row) = declared.next() {
        if let Key::Metric(_, metric) = &row.0 {
            metrics.push(metric.clone()?)?;
        }
    }
    Ok(metrics)
}
