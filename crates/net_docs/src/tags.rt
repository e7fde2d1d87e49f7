//! The version tag of a network's map, in the map itself and in those that depend on it.
ghost use Rattle.std.specs.Prelude.{◌≡◌, codes, IfOk, OnOk};
ghost use Rattle.serde_json.specs.Data.{string};
ghost use Rattle.json_tree.specs.Tree.{data_of};
ghost use Rattle.alto_maps.specs.Writing.{AddsMember, AddsValue};
ghost use Rattle.net_docs.specs.NetworkMap as spec;

use crate::document::version_tag;
use crate::version::net_tag;
use alto_names::NetName;
use alto_rows::RowStore;
use json::Writer;
use json_tree::Tree;
use std::alloc::{AllocError, Global};

/// The version tags that a map tells which depends on a network's map (RFC 7285, section 11.2.3.6): that map's alone.
/// Two searches.
pub fn dependent_tags<R: RowStore>(
    alloc: Global,
    rows: &R,
    net: &NetName,
) -> Result<Tree, AllocError>
    ensures { IfOk result (λ tree. data_of tree ≡ spec.dependent_tags (R.rows rows.now) net.now) }
{
    let mut tags = Vec::new(alloc);
    tags.push(version_tag(alloc, rows, net)?)?;
    Ok(Tree::list(tags))
}

/// Writes these tags as the member `dependent-vtags`. Two searches.
pub fn write_dependent_tags<R: RowStore>(
    alloc: Global,
    rows: &R,
    net: &NetName,
    out: &mut Writer,
) -> Result<(), AllocError>
    ensures { OnOk result (AddsMember (codes "dependent-vtags")
        (spec.dependent_tags (R.rows rows.now) net.now) out.old out.new) }
{
    out.key("dependent-vtags")?;
    out.begin_array()?;
    write_version_tag(alloc, rows, net, out)?;
    out.end_array()
}

/// Writes the version tag of a network's map (RFC 7285, section 10.3). Two searches.
pub(crate) fn write_version_tag<R: RowStore>(
    alloc: Global,
    rows: &R,
    net: &NetName,
    out: &mut Writer,
) -> Result<(), AllocError>
    ensures { OnOk result (AddsValue (spec.version_tag (R.rows rows.now) net.now) out.old out.new) }
{
    let tag = net_tag(alloc, rows, net)?;
    out.begin_object()?;
    write_text(out, "resource-id", net.as_str())?;
    write_text(out, "tag", tag.as_str())?;
    out.end_object()
}

/// Writes a text with its name.
pub fn write_text(out: &mut Writer, name: &str, text: &str) -> Result<(), AllocError>
    ensures { OnOk result (AddsMember name.now (string text.now) out.old out.new) }
{
    out.key(name)?;
    out.string(text)
}
