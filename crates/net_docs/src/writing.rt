//! A network map's parts as JSON text, written without a tree.
ghost use Rattle.std.specs.Prelude.{◌≡◌, true, false, not, map, IfOk, OnOk};
ghost use Rattle.json_tree.specs.Tree.{members_in_order};
ghost use Rattle.alto_rows.specs.Good.{AreGood};
ghost use Rattle.alto_maps.specs.Shape.{group_object, section_object};
ghost use Rattle.alto_maps.specs.Writing.{AddsValue, AddsMember, AddsMembers};
ghost use Rattle.doc_pieces.specs.Pieces.{member_text};
ghost use Rattle.net_docs.specs.NetworkMap.{is_empty, net_face};
ghost use Rattle.net_docs.specs.Prefixes.{group_of, texts_in_family};
ghost use Rattle.net_docs.specs.Writing.{AddsFamily, AddsTexts, groups_of};

use crate::pids::pids_of;
use crate::prefixes::{family, prefixes_of};
use crate::tags::write_version_tag;
use alto_addr::{Prefix, print_prefix};
use alto_names::{NetName, PidName};
use alto_rows::RowStore;
use json::Writer;
use std::alloc::{AllocError, Global};

/// Writes the meta. Two searches.
#[tactic(auto, unfolding(json_tree::specs::Document::with_member))]
pub(crate) fn write_meta<R: RowStore>(
    alloc: Global,
    rows: &R,
    net: &NetName,
    out: &mut Writer,
) -> Result<(), AllocError>
    ensures { OnOk result (AddsValue (net_face net.now (R.rows rows.now)).meta out.old out.new) }
{
    out.begin_object()?;
    out.key("vtag")?;
    write_version_tag(alloc, rows, net, out)?;
    out.end_object()
}

/// Writes the groups: one walk over the rows of the network's PIDs, and for each of them one search and one walk over
/// the rows of its prefixes.
pub(crate) fn write_groups<R: RowStore>(
    alloc: Global,
    rows: &R,
    net: &NetName,
    out: &mut Writer,
) -> Result<(), AllocError>
    requires { AreGood (R.rows rows.now) }
    ensures { OnOk result (AddsValue (section_object (net_face net.now (R.rows rows.now))) out.old out.new) }
{
    out.begin_object()?;
    write_each_group(alloc, rows, net, out)?;
    out.end_object()
}

/// Writes the groups as members.
fn write_each_group<R: RowStore>(
    alloc: Global,
    rows: &R,
    net: &NetName,
    out: &mut Writer,
) -> Result<(), AllocError>
    requires { AreGood (R.rows rows.now) }
    ensures { OnOk result (AddsMembers (groups_of (R.rows rows.now) net.now) out.old out.new) }
{
    let pids = pids_of(alloc, rows, net)?;
    write_groups_of(alloc, rows, net, &pids, out)
}

/// Writes the groups of these PIDs as members, in this order.
fn write_groups_of<R: RowStore>(
    alloc: Global,
    rows: &R,
    net: &NetName,
    pids: &[PidName],
    out: &mut Writer,
) -> Result<(), AllocError>
    ensures { OnOk result (AddsMembers
        (members_in_order (map (λ pid. (pid, group_object (net_face net.now (R.rows rows.now)) pid)) pids.now))
        out.old out.new) }
{
    for pid in pids {
        write_group(alloc, rows, net, pid, out)?;
    }
    Ok(())
}

/// Writes the group of a PID with its name. One search and one walk over the rows of its prefixes.
fn write_group<R: RowStore>(
    alloc: Global,
    rows: &R,
    net: &NetName,
    pid: &PidName,
    out: &mut Writer,
) -> Result<(), AllocError>
    ensures { OnOk result (AddsMember pid.now
        (group_object (net_face net.now (R.rows rows.now)) pid.now) out.old out.new) }
{
    let prefixes = prefixes_of(alloc, rows, net, pid)?;
    out.key(pid.as_str())?;
    write_families(alloc, &prefixes, out)
}

/// The group of a PID with its name, as text. One search and one walk over the rows of its prefixes.
pub(crate) fn group_text<R: RowStore>(
    alloc: Global,
    rows: &R,
    net: &NetName,
    pid: &PidName,
) -> Result<Vec<u8>, AllocError>
    ensures { IfOk result (λ text. text.items
        ≡ member_text pid.now (group_object (net_face net.now (R.rows rows.now)) pid.now)) }
{
    let mut out = Writer::new(Vec::new(alloc));
    write_group(alloc, rows, net, pid, &mut out)?;
    Ok(out.into_inner())
}

/// Writes the group of a PID that has these prefixes.
fn write_families(alloc: Global, prefixes: &[Prefix], out: &mut Writer) -> Result<(), AllocError>
    ensures { OnOk result (AddsValue (group_of prefixes.now) out.old out.new) }
{
    out.begin_object()?;
    write_family(alloc, prefixes, "ipv4", out)?;
    write_family(alloc, prefixes, "ipv6", out)?;
    out.end_object()
}

/// Writes those of the prefixes that are of this family with its name, where there are any.
fn write_family(
    alloc: Global,
    prefixes: &[Prefix],
    kind: &str,
    out: &mut Writer,
) -> Result<(), AllocError>
    ensures { OnOk result (AddsFamily kind.now prefixes.now out.old out.new) }
{
    if !has_family(prefixes, kind) {
        return Ok(());
    }
    out.key(kind)?;
    out.begin_array()?;
    write_texts(alloc, prefixes, kind, out)?;
    out.end_array()
}

/// Whether one of the prefixes is of this family.
fn has_family(prefixes: &[Prefix], kind: &str) -> bool
    ensures { result ≡ not (is_empty (texts_in_family kind.now prefixes.now)) }
{
    for prefix in prefixes {
        if family(prefix) == kind {
            return true;
        }
    }
    false
}

/// Writes the texts of those of the prefixes that are of this family.
fn write_texts(
    alloc: Global,
    prefixes: &[Prefix],
    kind: &str,
    out: &mut Writer,
) -> Result<(), AllocError>
    ensures { OnOk result (AddsTexts kind.now prefixes.now out.old out.new) }
{
    for prefix in prefixes {
        if family(prefix) == kind {
            out.string(print_prefix(alloc, prefix)?.as_str())?;
        }
    }
    Ok(())
}
