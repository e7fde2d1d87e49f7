//! What the resources of a directory can do (RFC 7285, section 9.2.2).
ghost use Rattle.std.specs.Prelude.{◌≡◌, ◌++◌, [], ◌∷◌, true, IfOk, OnOk, codes, map};
ghost use Rattle.alto_directory.specs.MediaTypes.{change_types};
ghost use Rattle.serde_json.specs.Data.{boolean, number, string, unsigned};
ghost use Rattle.json_tree.specs.Document.{object_of, with_member};
ghost use Rattle.json_tree.specs.Members.{members_data};
ghost use Rattle.json_tree.specs.Tree.{data_of};
ghost use Rattle.alto_maps.specs.MergeForm.{with_members};
ghost use Rattle.alto_directory.specs.CostTypes.{numerical_name as numerical, ordinal_name as ordinal};
ghost use Rattle.alto_directory.specs.Entries as spec;
ghost use Rattle.alto_directory.specs.Entry.{texts as list_of_texts};

use crate::cost_types::{PATH_VECTOR, numerical_name, ordinal_name};
use crate::lists::{only, set_of, texts};
use crate::names::PropertyNames;
use alto_names::{Metric, NetName};
use json_tree::{Members, Name, Tree};
use std::alloc::{AllocError, Global};

/// The forms in which changes come: merge patches (RFC 7396) and JSON Patch (RFC 6902).
const CHANGE_TYPES: &str = "application/merge-patch+json,application/json-patch+json";

/// Those of a metric's cost map.
pub(crate) fn cost_map_capabilities(alloc: Global, metric: &Metric) -> Result<Tree, AllocError>
    ensures { IfOk result (λ tree. data_of tree ≡ spec.cost_map_capabilities metric.now) }
{
    let types = only(alloc, numerical_name(alloc, metric)?)?;
    let mut members = Members::new(alloc);
    members.put(alloc, "cost-type-names", texts(alloc, &types)?)?;
    Ok(members.into_tree())
}

/// Those of queries of costs, of which one may ask for 8 cost types at once.
pub(crate) fn cost_query_capabilities(alloc: Global, metrics: &[Metric]) -> Result<Tree, AllocError>
    ensures { IfOk result (λ tree. data_of tree ≡ spec.cost_query_capabilities metrics.now) }
{
    let asked = texts(alloc, &asked_types(alloc, metrics)?)?;
    let tested = texts(alloc, &tested_types(alloc, metrics)?)?;
    queries_of(alloc, asked, tested)
}

/// Those of queries of costs of these types, of which constraints may test these.
#[tactic(auto, unfolding(json_tree::specs::Tree::data_of, json_tree::specs::Document::with_member))]
fn queries_of(alloc: Global, asked: Tree, tested: Tree) -> Result<Tree, AllocError>
    ensures { IfOk result (λ tree. data_of tree ≡ object_of (
        (codes "cost-constraints", boolean true)
        ∷ (codes "cost-type-names", data_of asked)
        ∷ (codes "max-cost-types", number (unsigned 8))
        ∷ (codes "testable-cost-type-names", data_of tested)
        ∷ [])) }
{
    let mut members = Members::new(alloc);
    members.put(alloc, "cost-constraints", Tree::boolean(true))?;
    members.put(alloc, "cost-type-names", asked)?;
    members.put(alloc, "max-cost-types", Tree::number(8))?;
    members.put(alloc, "testable-cost-type-names", tested)?;
    Ok(members.into_tree())
}

/// The names of the cost types that a client may ask for, in byte order.
fn asked_types(alloc: Global, metrics: &[Metric]) -> Result<Vec<Name>, AllocError>
    ensures { IfOk result (λ names. names.items ≡ spec.asked_types metrics.now) }
{
    let mut names = Vec::new(alloc);
    push_numerical(alloc, metrics, &mut names)?;
    push_ordinal(alloc, metrics, &mut names)?;
    set_of(alloc, names)
}

/// The names of those that constraints may test, in byte order.
fn tested_types(alloc: Global, metrics: &[Metric]) -> Result<Vec<Name>, AllocError>
    ensures { IfOk result (λ names. names.items ≡ spec.tested_types metrics.now) }
{
    let mut tested = Vec::new(alloc);
    push_numerical(alloc, metrics, &mut tested)?;
    set_of(alloc, tested)
}

fn push_numerical(
    alloc: Global,
    metrics: &[Metric],
    names: &mut Vec<Name>,
) -> Result<(), AllocError>
    ensures { OnOk result (names.new.items ≡ names.old.items ++ map numerical metrics.now) }
{
    for metric in metrics {
        names.push(numerical_name(alloc, metric)?)?;
    }
    Ok(())
}

fn push_ordinal(alloc: Global, metrics: &[Metric], names: &mut Vec<Name>) -> Result<(), AllocError>
    ensures { OnOk result (names.new.items ≡ names.old.items ++ map ordinal metrics.now) }
{
    for metric in metrics {
        names.push(ordinal_name(alloc, metric)?)?;
    }
    Ok(())
}

/// Those of a property map: which properties the entities of each domain have.
pub(crate) fn mapping_capabilities(
    alloc: Global,
    net: &NetName,
    names: &PropertyNames,
) -> Result<Tree, AllocError>
    ensures { IfOk result (λ tree. data_of tree ≡ spec.mapping_capabilities net.now names.now) }
{
    let mut members = Members::new(alloc);
    members.put(alloc, "mappings", mappings(alloc, net, names)?)?;
    Ok(members.into_tree())
}

fn mappings(alloc: Global, net: &NetName, names: &PropertyNames) -> Result<Tree, AllocError>
    ensures { IfOk result (λ tree. data_of tree ≡ spec.mappings net.now names.now) }
{
    let pids = pid_text(alloc, net)?;
    let mut domains = Members::new(alloc);
    put_mapping(alloc, "ipv4", &names.ipv4, &mut domains)?;
    put_mapping(alloc, "ipv6", &names.ipv6, &mut domains)?;
    put_mapping(alloc, pids.as_str(), &names.pid, &mut domains)?;
    Ok(domains.into_tree())
}

/// The names of the properties of a domain, where there are any.
fn put_mapping(
    alloc: Global,
    domain: &str,
    names: &[Name],
    domains: &mut Members,
) -> Result<(), AllocError>
    ensures { OnOk result (members_data domains.new
        ≡ with_members (members_data domains.old) (spec.mapping domain.now names.now)) }
{
    if names.is_empty() {
        return Ok(());
    }
    domains.put(alloc, domain, texts(alloc, names)?)
}

/// The domain of a network's PIDs, and the property of addresses that is their PID.
fn pid_text(alloc: Global, net: &NetName) -> Result<Name, AllocError>
    ensures { IfOk result (λ name. name ≡ spec.pid_text net.now) }
{
    Ok(Name::new(format!(in alloc; "{net}.pid")?))
}

/// The names of the properties that a client may ask for.
pub(crate) fn asked_properties(
    alloc: Global,
    net: &NetName,
    names: &PropertyNames,
) -> Result<PropertyNames, AllocError>
    ensures { IfOk result (λ asked. asked ≡ spec.asked_properties net.now names.now) }
{
    Ok(PropertyNames {
        ipv4: with_pid(alloc, net, &names.ipv4)?,
        ipv6: with_pid(alloc, net, &names.ipv6)?,
        pid: names.pid.clone()?,
    })
}

/// Names of properties and that of the PID, in byte order.
fn with_pid(alloc: Global, net: &NetName, names: &[Name]) -> Result<Vec<Name>, AllocError>
    ensures { IfOk result (λ all. all.items ≡ spec.with_pid net.now names.now) }
{
    let mut all = Vec::with_capacity(alloc, names.len())?;
    for name in names {
        all.push(name.clone()?)?;
    }
    all.push(pid_text(alloc, net)?)?;
    set_of(alloc, all)
}

/// Those of path vectors.
pub(crate) fn path_vector_capabilities(alloc: Global) -> Result<Tree, AllocError>
    ensures { IfOk result (λ tree. data_of tree ≡ spec.path_vector_capabilities) }
{
    let properties = one_text(alloc, "max-reservable-bandwidth")?;
    let types = one_text(alloc, PATH_VECTOR)?;
    paths_of(alloc, properties, types)
}

/// A list with this text alone.
fn one_text(alloc: Global, text: &str) -> Result<Tree, AllocError>
    ensures { IfOk result (λ tree. data_of tree ≡ list_of_texts (text.now ∷ [])) }
{
    let names = only(alloc, Name::from_str(alloc, text)?)?;
    texts(alloc, &names)
}

/// Those of path vectors with these properties and cost types.
fn paths_of(alloc: Global, properties: Tree, types: Tree) -> Result<Tree, AllocError>
    ensures { IfOk result (λ tree. data_of tree ≡ object_of (
        (codes "ane-property-names", data_of properties)
        ∷ (codes "cost-type-names", data_of types)
        ∷ [])) }
{
    let mut members = Members::new(alloc);
    members.put(alloc, "ane-property-names", properties)?;
    members.put(alloc, "cost-type-names", types)?;
    Ok(members.into_tree())
}

/// Those of the service of updates for these resources: in which forms changes of each come.
pub(crate) fn updates_capabilities(alloc: Global, ids: &[Name]) -> Result<Tree, AllocError>
    ensures { IfOk result (λ tree. data_of tree ≡ spec.updates_capabilities ids.now) }
{
    let mut members = Members::new(alloc);
    members.put(
        alloc,
        "incremental-change-media-types",
        change_types(alloc, ids)?,
    )?;
    Ok(members.into_tree())
}

#[tactic(auto, using(crate::proofs::MemberLemmas::forms_more))]
fn change_types(alloc: Global, ids: &[Name]) -> Result<Tree, AllocError>
    ensures { IfOk result (λ tree. data_of tree ≡ spec.change_forms ids.now) }
{
    let mut forms = Members::new(alloc);
    for id in ids {
        put_forms(alloc, id, &mut forms)?;
    }
    Ok(forms.into_tree())
}

/// In which forms changes of a resource come.
fn put_forms(alloc: Global, id: &Name, forms: &mut Members) -> Result<(), AllocError>
    ensures { OnOk result (members_data forms.new
        ≡ with_member (spec.forms_of id.now).0 (spec.forms_of id.now).1 (members_data forms.old)) }
{
    let types = forms_tree(alloc)?;
    forms.put(alloc, id.as_str(), types)
}

/// The forms in which changes come, as JSON.
fn forms_tree(alloc: Global) -> Result<Tree, AllocError>
    ensures { IfOk result (λ tree. data_of tree ≡ string change_types) }
{
    Tree::text(alloc, CHANGE_TYPES)
}
