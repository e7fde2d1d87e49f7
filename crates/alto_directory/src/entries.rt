//! The entries of a directory, one function each.
ghost use Rattle.std.specs.Prelude.{◌≡◌, ◌++◌, [], ◌∷◌, Some, IfOk, OnOk, map, option_map};
ghost use Rattle.alto_directory.specs.Entries as spec;
ghost use Rattle.alto_directory.specs.Entry.{shown};

use crate::capabilities::{
    asked_properties, cost_map_capabilities, cost_query_capabilities, mapping_capabilities,
    path_vector_capabilities, updates_capabilities,
};
use crate::entry::Entry;
use crate::ids::all_ids;
use crate::lists::only;
use crate::media_type::MediaType;
use crate::names::PropertyNames;
use crate::network::Network;
use alto_names::{Metric, NetName};
use json_tree::Name;
use std::alloc::{AllocError, Global};

/// The entries of networks.
pub(crate) fn entries_of(alloc: Global, networks: &[Network]) -> Result<Vec<Entry>, AllocError>
    ensures { IfOk result (λ entries. map shown entries.items ≡ spec.entries_of networks.now) }
{
    let mut entries = Vec::new(alloc);
    push_updates(alloc, networks, &mut entries)?;
    for network in networks {
        push_network(alloc, network, &mut entries)?;
    }
    Ok(entries)
}

/// The service of updates, where there is a network.
fn push_updates(
    alloc: Global,
    networks: &[Network],
    entries: &mut Vec<Entry>,
) -> Result<(), AllocError>
    ensures { OnOk result (map shown entries.new.items
        ≡ map shown entries.old.items ++ spec.updates_entry networks.now) }
{
    if networks.is_empty() {
        return Ok(());
    }
    entries.push(updates(alloc, all_ids(alloc, networks)?)?)?;
    Ok(())
}

/// Those of a network.
fn push_network(
    alloc: Global,
    network: &Network,
    entries: &mut Vec<Entry>,
) -> Result<(), AllocError>
    ensures { OnOk result (map shown entries.new.items
        ≡ map shown entries.old.items ++ spec.network_entries network.now) }
{
    let Network {
        name,
        metrics,
        properties,
    } = network;
    push_parts(alloc, name, metrics, properties, entries)
}

/// Those of a network with this name, these metrics and these properties.
fn push_parts(
    alloc: Global,
    net: &NetName,
    metrics: &[Metric],
    names: &PropertyNames,
    entries: &mut Vec<Entry>,
) -> Result<(), AllocError>
    ensures { OnOk result (map shown entries.new.items ≡ map shown entries.old.items
        ++ (spec.map_entries net.now ++ (spec.property_entries net.now names.now
        ++ (map (spec.cost_map net.now) metrics.now ++ spec.cost_queries net.now metrics.now)))) }
{
    push_maps(alloc, net, entries)?;
    push_property_maps(alloc, net, names, entries)?;
    push_cost_maps(alloc, net, metrics, entries)?;
    push_cost_queries(alloc, net, metrics, entries)?;
    Ok(())
}

/// The network's maps.
fn push_maps(alloc: Global, net: &NetName, entries: &mut Vec<Entry>) -> Result<(), AllocError>
    ensures { OnOk result (map shown entries.new.items
        ≡ map shown entries.old.items ++ spec.map_entries net.now) }
{
    entries.push(network_map(alloc, net)?)?;
    entries.push(filtered_network_map(alloc, net)?)?;
    entries.push(path_vectors(alloc, net)?)?;
    Ok(())
}

/// Its property maps.
fn push_property_maps(
    alloc: Global,
    net: &NetName,
    names: &PropertyNames,
    entries: &mut Vec<Entry>,
) -> Result<(), AllocError>
    ensures { OnOk result (map shown entries.new.items
        ≡ map shown entries.old.items ++ spec.property_entries net.now names.now) }
{
    entries.push(property_map(alloc, net, names)?)?;
    entries.push(filtered_property_map(alloc, net, names)?)?;
    Ok(())
}

/// The cost maps of metrics.
fn push_cost_maps(
    alloc: Global,
    net: &NetName,
    metrics: &[Metric],
    entries: &mut Vec<Entry>,
) -> Result<(), AllocError>
    ensures { OnOk result (map shown entries.new.items
        ≡ map shown entries.old.items ++ map (spec.cost_map net.now) metrics.now) }
{
    for metric in metrics {
        entries.push(cost_map(alloc, net, metric)?)?;
    }
    Ok(())
}

/// The queries of costs, where the network has a metric.
fn push_cost_queries(
    alloc: Global,
    net: &NetName,
    metrics: &[Metric],
    entries: &mut Vec<Entry>,
) -> Result<(), AllocError>
    ensures { OnOk result (map shown entries.new.items
        ≡ map shown entries.old.items ++ spec.cost_queries net.now metrics.now) }
{
    if metrics.is_empty() {
        return Ok(());
    }
    push_queries(alloc, net, metrics, entries)
}

/// The queries of costs.
fn push_queries(
    alloc: Global,
    net: &NetName,
    metrics: &[Metric],
    entries: &mut Vec<Entry>,
) -> Result<(), AllocError>
    ensures { OnOk result (map shown entries.new.items
        ≡ map shown entries.old.items ++ spec.query_entries net.now metrics.now) }
{
    entries.push(filtered_cost_map(alloc, net, metrics)?)?;
    entries.push(endpoint_costs(alloc, net, metrics)?)?;
    Ok(())
}

/// That a resource depends on the network map.
fn uses_network(alloc: Global, net: &NetName) -> Result<Option<Vec<Name>>, AllocError>
    ensures { IfOk result (λ uses. option_map (λ names. names.items) uses ≡ Some (net.now ∷ [])) }
{
    Ok(Some(only(alloc, Name::from_str(alloc, net.as_str())?)?))
}

/// The network map (RFC 7285, section 11.2.1).
fn network_map(alloc: Global, net: &NetName) -> Result<Entry, AllocError>
    ensures { IfOk result (λ entry. shown entry ≡ spec.network_map net.now) }
{
    Ok(Entry {
        id: Name::from_str(alloc, net.as_str())?,
        uri: Name::new(format!(in alloc; "/maps/{net}")?),
        media_type: MediaType::NetworkMap,
        accepts: None,
        capabilities: None,
        uses: None,
    })
}

/// The filtered network map (RFC 7285, section 11.3.1).
fn filtered_network_map(alloc: Global, net: &NetName) -> Result<Entry, AllocError>
    ensures { IfOk result (λ entry. shown entry ≡ spec.filtered_network_map net.now) }
{
    Ok(Entry {
        id: Name::new(format!(in alloc; "{net}:filter")?),
        uri: Name::new(format!(in alloc; "/filter/net/{net}")?),
        media_type: MediaType::NetworkMap,
        accepts: Some(MediaType::NetworkMapFilter),
        capabilities: None,
        uses: uses_network(alloc, net)?,
    })
}

/// The cost map of a metric (RFC 7285, section 11.2.3).
fn cost_map(alloc: Global, net: &NetName, metric: &Metric) -> Result<Entry, AllocError>
    ensures { IfOk result (λ entry. shown entry ≡ spec.cost_map net.now metric.now) }
{
    Ok(Entry {
        id: Name::new(format!(in alloc; "{net}:cost:{metric}")?),
        uri: Name::new(format!(in alloc; "/maps/{net}:cost:{metric}")?),
        media_type: MediaType::CostMap,
        accepts: None,
        capabilities: Some(cost_map_capabilities(alloc, metric)?),
        uses: uses_network(alloc, net)?,
    })
}

/// The filtered cost map (RFC 7285, section 11.3.2).
fn filtered_cost_map(alloc: Global, net: &NetName, metrics: &[Metric]) -> Result<Entry, AllocError>
    ensures { IfOk result (λ entry. shown entry ≡ spec.filtered_cost_map net.now metrics.now) }
{
    Ok(Entry {
        id: Name::new(format!(in alloc; "{net}:costs")?),
        uri: Name::new(format!(in alloc; "/filter/cost/{net}")?),
        media_type: MediaType::CostMap,
        accepts: Some(MediaType::CostMapFilter),
        capabilities: Some(cost_query_capabilities(alloc, metrics)?),
        uses: uses_network(alloc, net)?,
    })
}

/// The costs between endpoints (RFC 7285, section 11.5).
fn endpoint_costs(alloc: Global, net: &NetName, metrics: &[Metric]) -> Result<Entry, AllocError>
    ensures { IfOk result (λ entry. shown entry ≡ spec.endpoint_costs net.now metrics.now) }
{
    Ok(Entry {
        id: Name::new(format!(in alloc; "{net}:ends")?),
        uri: Name::new(format!(in alloc; "/endpointcost/{net}")?),
        media_type: MediaType::EndpointCost,
        accepts: Some(MediaType::EndpointCostParams),
        capabilities: Some(cost_query_capabilities(alloc, metrics)?),
        uses: None,
    })
}

/// The property map (RFC 9240, section 7).
fn property_map(alloc: Global, net: &NetName, names: &PropertyNames) -> Result<Entry, AllocError>
    ensures { IfOk result (λ entry. shown entry ≡ spec.property_map net.now names.now) }
{
    Ok(Entry {
        id: Name::new(format!(in alloc; "{net}:prop")?),
        uri: Name::new(format!(in alloc; "/maps/{net}:prop")?),
        media_type: MediaType::PropertyMap,
        accepts: None,
        capabilities: Some(mapping_capabilities(alloc, net, names)?),
        uses: uses_network(alloc, net)?,
    })
}

/// The filtered property map (RFC 9240, section 8).
fn filtered_property_map(
    alloc: Global,
    net: &NetName,
    names: &PropertyNames,
) -> Result<Entry, AllocError>
    ensures { IfOk result (λ entry. shown entry ≡ spec.filtered_property_map net.now names.now) }
{
    let asked = asked_properties(alloc, net, names)?;
    Ok(Entry {
        id: Name::new(format!(in alloc; "{net}:props")?),
        uri: Name::new(format!(in alloc; "/filter/prop/{net}")?),
        media_type: MediaType::PropertyMap,
        accepts: Some(MediaType::PropertyMapParams),
        capabilities: Some(mapping_capabilities(alloc, net, &asked)?),
        uses: uses_network(alloc, net)?,
    })
}

/// Path vectors (RFC 9275, section 7.2).
fn path_vectors(alloc: Global, net: &NetName) -> Result<Entry, AllocError>
    ensures { IfOk result (λ entry. shown entry ≡ spec.path_vectors net.now) }
{
    Ok(Entry {
        id: Name::new(format!(in alloc; "{net}:path")?),
        uri: Name::new(format!(in alloc; "/pathvector/{net}")?),
        media_type: MediaType::PathVector,
        accepts: Some(MediaType::CostMapFilter),
        capabilities: Some(path_vector_capabilities(alloc)?),
        uses: uses_network(alloc, net)?,
    })
}

/// The service of updates (RFC 9569, section 5) for these resources.
fn updates(alloc: Global, ids: Vec<Name>) -> Result<Entry, AllocError>
    ensures { IfOk result (λ entry. shown entry ≡ spec.updates ids.items) }
{
    Ok(Entry {
        id: Name::from_str(alloc, "alto:tips")?,
        uri: Name::from_str(alloc, "/tips")?,
        media_type: MediaType::Tips,
        accepts: Some(MediaType::TipsParams),
        capabilities: Some(updates_capabilities(alloc, &ids)?),
        uses: Some(ids),
    })
}
