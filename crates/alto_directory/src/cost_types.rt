//! The cost types of a directory and their names (RFC 7285, sections 9.2.2 and 10.7).
ghost use Rattle.std.specs.Prelude.{◌≡◌, IfOk, OnOk, map};
ghost use Rattle.json_tree.specs.Members.{members_data};
ghost use Rattle.json_tree.specs.Tree.{data_of};
ghost use Rattle.alto_maps.specs.MergeForm.{with_members};
ghost use Rattle.alto_directory.specs.CostTypes as spec;

use crate::network::Network;
use alto_names::Metric;
use json_tree::{Members, Name, Tree};
use std::alloc::{AllocError, Global};

/// The name of path vectors.
pub(crate) const PATH_VECTOR: &str = "path-vector";

/// The name of a metric's numerical costs.
pub(crate) fn numerical_name(alloc: Global, metric: &Metric) -> Result<Name, AllocError>
    ensures { IfOk result (λ name. name ≡ spec.numerical_name metric.now) }
{
    Ok(Name::new(format!(in alloc; "num-{metric}")?))
}

/// The name of a metric's ordinal costs.
pub(crate) fn ordinal_name(alloc: Global, metric: &Metric) -> Result<Name, AllocError>
    ensures { IfOk result (λ name. name ≡ spec.ordinal_name metric.now) }
{
    Ok(Name::new(format!(in alloc; "ord-{metric}")?))
}

/// The cost types of networks, by their names.
#[tactic(auto, using(crate::proofs::MemberLemmas::network_types_more, crate::proofs::MemberLemmas::members_joined))]
pub(crate) fn cost_types(alloc: Global, networks: &[Network]) -> Result<Tree, AllocError>
    ensures { IfOk result (λ tree. data_of tree ≡ spec.cost_types networks.now) }
{
    let mut types = Members::new(alloc);
    for network in networks {
        put_types(alloc, &network.metrics, &mut types)?;
    }
    put_path_vector(alloc, networks, &mut types)?;
    Ok(types.into_tree())
}

/// That of path vectors, where there is a network.
fn put_path_vector(
    alloc: Global,
    networks: &[Network],
    types: &mut Members,
) -> Result<(), AllocError>
    ensures { OnOk result (members_data types.new
        ≡ with_members (members_data types.old) (spec.path_vector_types networks.now)) }
{
    if networks.is_empty() {
        return Ok(());
    }
    types.put(alloc, PATH_VECTOR, cost_type(alloc, "ane-path", "array")?)
}

/// Those of metrics.
#[tactic(auto, using(crate::proofs::MemberLemmas::metric_types_more))]
fn put_types(alloc: Global, metrics: &[Metric], types: &mut Members) -> Result<(), AllocError>
    ensures { OnOk result (members_data types.new
        ≡ with_members (members_data types.old) (spec.metrics_types metrics.now)) }
{
    for metric in metrics {
        put_type(alloc, metric, types)?;
    }
    Ok(())
}

/// Those of a metric.
fn put_type(alloc: Global, metric: &Metric, types: &mut Members) -> Result<(), AllocError>
    ensures { OnOk result (members_data types.new
        ≡ with_members (members_data types.old) (spec.metric_types metric.now)) }
{
    let numerical = cost_type(alloc, metric.as_str(), "numerical")?;
    types.put_name(numerical_name(alloc, metric)?, numerical)?;
    let ordinal = cost_type(alloc, metric.as_str(), "ordinal")?;
    types.put_name(ordinal_name(alloc, metric)?, ordinal)
}

/// A cost type of this metric and mode.
fn cost_type(alloc: Global, metric: &str, mode: &str) -> Result<Tree, AllocError>
    ensures { IfOk result (λ tree. data_of tree ≡ spec.cost_type metric.now mode.now) }
{
    let mut members = Members::new(alloc);
    members.put(alloc, "cost-metric", Tree::text(alloc, metric)?)?;
    members.put(alloc, "cost-mode", Tree::text(alloc, mode)?)?;
    Ok(members.into_tree())
}
