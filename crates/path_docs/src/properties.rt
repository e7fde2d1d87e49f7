//! The second part of an answer.
ghost use Rattle.std.specs.Prelude.{◌≡◌, [], ◌∷◌, IfOk, codes, fold, map, option_copied};
ghost use Rattle.json_tree.specs.Document.{object_of};
ghost use Rattle.json_tree.specs.Tree.{data_of};
ghost use Rattle.alto_maps.specs.Places.{set_of};
ghost use Rattle.path_docs.specs.Ask.{bandwidth_name};
ghost use Rattle.path_docs.specs.Found.{pairs_anes, sources_anes, with_names};
ghost use Rattle.path_docs.specs.PathProperties.{ane_entity, ane_properties, bandwidth_of, number_at};
ghost use Rattle.path_docs.specs.PathProperties.{properties_meta};

use crate::found::{Pair, Source};
use crate::meta::path_tag;
use alto_names::{AneName, NameFault, NetName, PropName};
use alto_rows::{Key, RowStore, Value};
use json_tree::{Members, Name, Tree};
use std::alloc::{AllocError, Global};
use std::collections::BTreeSet;

/// The property map of the ANEs of these sources, with their bandwidth where it is asked for.
pub(crate) fn properties_part<R: RowStore>(
    alloc: Global,
    rows: &R,
    net: &NetName,
    sources: &[Source<'_>],
    bandwidth: bool,
    n: u64,
) -> Result<Tree, AllocError>
    ensures { IfOk result (λ tree. data_of tree
        ≡ object_of ((codes "meta", properties_meta (R.rows rows.now) net.now n)
        ∷ (
          codes "property-map",
          object_of
              (map (λ ane. (ane_entity ane, ane_properties (R.rows rows.now) net.now bandwidth ane))
              (set_of (sources_anes sources.now))),
        ) ∷ [])) }
{
    let anes = list_of(alloc, distinct_anes(alloc, sources)?)?;
    let mut document = Members::new(alloc);
    document.put(alloc, "meta", properties_meta(alloc, rows, net, n)?)?;
    document.put(
        alloc,
        "property-map",
        entities(alloc, rows, net, &anes, bandwidth)?,
    )?;
    Ok(document.into_tree())
}

/// The meta. One search.
#[tactic(auto, unfolding(json_tree::specs::Document::with_member))]
fn properties_meta<R: RowStore>(
    alloc: Global,
    rows: &R,
    net: &NetName,
    n: u64,
) -> Result<Tree, AllocError>
    ensures { IfOk result (λ tree. data_of tree ≡ properties_meta (R.rows rows.now) net.now n) }
{
    let mut tags = Vec::new(alloc);
    tags.push(path_tag(alloc, rows, net, n)?)?;
    let mut meta = Members::new(alloc);
    meta.put(alloc, "dependent-vtags", Tree::list(tags))?;
    Ok(meta.into_tree())
}

/// The distinct ANEs of these sources.
#[tactic(auto, unfolding(alto_maps::specs::Places::set_of))]
fn distinct_anes(alloc: Global, sources: &[Source<'_>]) -> Result<BTreeSet<AneName>, AllocError>
    ensures { IfOk result (λ anes. anes.keys ≡ set_of (sources_anes sources.now)) }
{
    let mut anes = BTreeSet::new(alloc);
    for source in sources {
        anes = with_pairs(anes, &source.pairs)?;
    }
    Ok(anes)
}

/// The names of a set, in byte order.
fn list_of(alloc: Global, set: BTreeSet<AneName>) -> Result<Vec<AneName>, AllocError>
    ensures { IfOk result (λ list. list.items ≡ set.keys) }
{
    set.into_iter().collect(alloc)
}

/// A set with the ANEs of these pairs.
fn with_pairs(set: BTreeSet<AneName>, pairs: &[Pair<'_>]) -> Result<BTreeSet<AneName>, AllocError>
    ensures { IfOk result (λ anes. anes.keys ≡ with_names set.keys (pairs_anes pairs.now)) }
{
    let mut anes = set;
    for pair in pairs {
        anes = with_names(anes, pair.anes)?;
    }
    Ok(anes)
}

/// A set with these names.
fn with_names(set: BTreeSet<AneName>, names: &[AneName]) -> Result<BTreeSet<AneName>, AllocError>
    ensures { IfOk result (λ anes. anes.keys ≡ with_names set.keys names.now) }
{
    let mut anes = set;
    for name in names {
        anes.insert(name.clone()?)?;
    }
    Ok(anes)
}

/// The entities of these ANEs. One search for each, where their bandwidth is asked for.
fn entities<R: RowStore>(
    alloc: Global,
    rows: &R,
    net: &NetName,
    anes: &[AneName],
    bandwidth: bool,
) -> Result<Tree, AllocError>
    ensures { IfOk result (λ tree. data_of tree ≡ object_of
        (map (λ ane. (ane_entity ane, ane_properties (R.rows rows.now) net.now bandwidth ane)) anes.now)) }
{
    let name = bandwidth_name(alloc)?;
    let mut entities = Members::new(alloc);
    for ane in anes {
        let entity = ane_entity(alloc, ane)?;
        let properties = ane_properties(alloc, rows, net, bandwidth, ane, &name)?;
        entities.put_name(entity, properties)?;
    }
    Ok(entities.into_tree())
}

/// The entity that an ANE is.
fn ane_entity(alloc: Global, ane: &AneName) -> Result<Name, AllocError>
    ensures { IfOk result (λ name. name ≡ ane_entity ane.now) }
{
    Ok(Name::new(format!(in alloc; ".ane:{ane}")?))
}

/// The name of the property that is the bandwidth.
fn bandwidth_name(alloc: Global) -> Result<PropName, AllocError>
    ensures { IfOk result (λ name. name ≡ bandwidth_name) }
{
    match PropName::read(alloc, b"max-reservable-bandwidth") {
        Ok(name) => Ok(name),
        Err(fault) => {
            if fault == NameFault::Memory {
                return Err(AllocError);
            }
            unreachable!()
        }
    }
}

/// The properties of an ANE.
fn ane_properties<R: RowStore>(
    alloc: Global,
    rows: &R,
    net: &NetName,
    bandwidth: bool,
    ane: &AneName,
    name: &PropName,
) -> Result<Tree, AllocError>
    requires { name.now ≡ bandwidth_name }
    ensures { IfOk result (λ tree. data_of tree ≡ ane_properties (R.rows rows.now) net.now bandwidth ane.now) }
{
    let mut properties = Members::new(alloc);
    if bandwidth {
        if let Some(number) = bandwidth_of(rows, net, ane, name)? {
            properties.put(alloc, name.as_str(), Tree::number(number))?;
        }
    }
    Ok(properties.into_tree())
}

/// The bandwidth of an ANE, where it is set. One search.
fn bandwidth_of<R: RowStore>(
    rows: &R,
    net: &NetName,
    ane: &AneName,
    name: &PropName,
) -> Result<Option<u64>, AllocError>
    requires { name.now ≡ bandwidth_name }
    ensures { IfOk result (λ number. number ≡ bandwidth_of (R.rows rows.now) net.now ane.now) }
{
    let key = Key::AneProp(net.clone()?, ane.clone()?, name.clone()?);
    Ok(number_at(rows.get(&key)))
}

fn number_at(value: Option<&Value>) -> Option<u64>
    ensures { result ≡ number_at (option_copied value.entry) }
{
    match value {
        Some(Value::Num(number)) => Some(*number),
        _ => None,
    }
}
