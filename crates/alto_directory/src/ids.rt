//! The ids of the resources that clients read by name.
ghost use Rattle.std.specs.Prelude.{◌≡◌, ◌++◌, IfOk, OnOk, map};
ghost use Rattle.alto_directory.specs.Entries as spec;

use crate::lists::set_of;
use crate::network::Network;
use alto_names::{Metric, NetName};
use json_tree::Name;
use std::alloc::{AllocError, Global};

/// Those of networks, in byte order. One search for each.
pub(crate) fn all_ids(alloc: Global, networks: &[Network]) -> Result<Vec<Name>, AllocError>
    ensures { IfOk result (λ ids. ids.items ≡ spec.all_ids networks.now) }
{
    let mut ids = Vec::new(alloc);
    for network in networks {
        push_ids(alloc, network, &mut ids)?;
    }
    set_of(alloc, ids)
}

/// Those of a network.
fn push_ids(alloc: Global, network: &Network, ids: &mut Vec<Name>) -> Result<(), AllocError>
    ensures { OnOk result (ids.new.items ≡ ids.old.items ++ spec.resource_ids network.now) }
{
    let net = &network.name;
    ids.push(Name::from_str(alloc, net.as_str())?)?;
    ids.push(Name::new(format!(in alloc; "{net}:prop")?))?;
    push_cost_ids(alloc, net, &network.metrics, ids)
}

/// Those of the cost maps of metrics.
fn push_cost_ids(
    alloc: Global,
    net: &NetName,
    metrics: &[Metric],
    ids: &mut Vec<Name>,
) -> Result<(), AllocError>
    ensures { OnOk result (ids.new.items ≡ ids.old.items ++ map (spec.cost_id net.now) metrics.now) }
{
    for metric in metrics {
        ids.push(Name::new(format!(in alloc; "{net}:cost:{metric}")?))?;
    }
    Ok(())
}
