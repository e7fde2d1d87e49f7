ghost use Rattle.std.specs.Prelude.{◌≡◌, true, [], ◌∷◌, codes, filter, map, if◌then◌else◌, IfOk, OnOk};
ghost use Rattle.json_tree.specs.Document.{object_of};
ghost use Rattle.json_tree.specs.Members.{members_data};
ghost use Rattle.json_tree.specs.Tree.{data_of};
ghost use Rattle.alto_rows.specs.Good.{AreGood};
ghost use Rattle.alto_rows.specs.Rows.{has_row};
ghost use Rattle.alto_rows.specs.declared.key.Key.TheVariants as key;
ghost use Rattle.alto_maps.specs.Shape.{section_object};
ghost use Rattle.net_docs.specs.Ask.{NetAskData};
ghost use Rattle.net_docs.specs.Filter.{asked_group, filtered_face, filtered_network, is_asked};
ghost use Rattle.net_docs.specs.NetworkMap.{net_face, pids_of};
ghost use Rattle.net_docs.specs.Prefixes.{with_texts};

use crate::ask::{Family, NetAsk, Pick};
use crate::document::{meta_of, version_tag};
use crate::pids::{is_declared, pids_of};
use crate::prefixes::{prefixes_of, put_texts};
use alto_addr::Prefix;
use alto_names::{NetName, PidName};
use alto_rows::RowStore;
use json_tree::{Members, Tree};
use std::alloc::{AllocError, Global};

/// The network map of a declared network, cut to what is asked (RFC 7285, section 11.3.1.5). Costs three searches;
/// where all PIDs are asked for, what the whole map costs; else for each PID that is, two searches and one walk over
/// its prefixes.
#[tactic(auto, unfolding(alto_maps::specs::Shape::document))]
pub fn filter_net<R: RowStore>(
    alloc: Global,
    rows: &R,
    net: &NetName,
    ask: &NetAsk,
) -> Result<Tree, AllocError>
    requires good { AreGood (R.rows rows.now) }
    requires declared { has_row (R.rows rows.now) (key.Net net.now) ≡ true }
    ensures { IfOk result (λ tree. data_of tree ≡ filtered_network (R.rows rows.now) net.now ask.now) }
{
    let meta = meta_of(alloc, version_tag(alloc, rows, net)?)?;
    let groups = groups(alloc, rows, net, ask)?;
    document_of(alloc, meta, groups)
}

/// The document with these two members.
fn document_of(alloc: Global, meta: Tree, groups: Tree) -> Result<Tree, AllocError>
    ensures { IfOk result (λ tree. data_of tree
        ≡ object_of ((codes "meta", data_of meta) ∷ (codes "network-map", data_of groups) ∷ [])) }
{
    let mut document = Members::new(alloc);
    document.put(alloc, "meta", meta)?;
    document.put(alloc, "network-map", groups)?;
    Ok(document.into_tree())
}

/// The groups that are asked for.
fn groups<R: RowStore>(
    alloc: Global,
    rows: &R,
    net: &NetName,
    ask: &NetAsk,
) -> Result<Tree, AllocError>
    ensures { IfOk result (λ tree. data_of tree
        ≡ section_object (filtered_face ask.now (net_face net.now (R.rows rows.now)))) }
{
    match &ask.pids {
        Pick::All => all_groups(alloc, rows, net, &ask.families),
        Pick::Only(pids) => groups_among(alloc, rows, net, pids.as_slice(), &ask.families),
    }
}

/// The groups of all PIDs, each with the families that are asked for.
fn all_groups<R: RowStore>(
    alloc: Global,
    rows: &R,
    net: &NetName,
    families: &[Family],
) -> Result<Tree, AllocError>
    ensures { IfOk result (λ tree. data_of tree
        ≡ object_of (map (λ pid. (pid, asked_group (R.rows rows.now) net.now families.now pid))
        (pids_of (R.rows rows.now) net.now))) }
{
    let pids = pids_of(alloc, rows, net)?;
    groups_of(alloc, rows, net, &pids, families)
}

/// The groups of these PIDs.
fn groups_of<R: RowStore>(
    alloc: Global,
    rows: &R,
    net: &NetName,
    pids: &[PidName],
    families: &[Family],
) -> Result<Tree, AllocError>
    ensures { IfOk result (λ tree. data_of tree
        ≡ object_of (map (λ pid. (pid, asked_group (R.rows rows.now) net.now families.now pid)) pids.now)) }
{
    let mut groups = Members::new(alloc);
    for pid in pids {
        groups.put(alloc, pid.as_str(), group(alloc, rows, net, pid, families)?)?;
    }
    Ok(groups.into_tree())
}

/// The groups of those of the PIDs that are declared.
fn groups_among<R: RowStore>(
    alloc: Global,
    rows: &R,
    net: &NetName,
    pids: &[PidName],
    families: &[Family],
) -> Result<Tree, AllocError>
    ensures { IfOk result (λ tree. data_of tree
        ≡ object_of (map (λ pid. (pid, asked_group (R.rows rows.now) net.now families.now pid))
        (filter (λ pid. has_row (R.rows rows.now) (key.Pid net.now pid)) pids.now))) }
{
    let mut groups = Members::new(alloc);
    for pid in pids {
        if is_declared(rows, net, pid)? {
            groups.put(alloc, pid.as_str(), group(alloc, rows, net, pid, families)?)?;
        }
    }
    Ok(groups.into_tree())
}

/// The group of a PID, with the families that are asked for.
fn group<R: RowStore>(
    alloc: Global,
    rows: &R,
    net: &NetName,
    pid: &PidName,
    families: &[Family],
) -> Result<Tree, AllocError>
    ensures { IfOk result (λ tree. data_of tree ≡ asked_group (R.rows rows.now) net.now families.now pid.now) }
{
    let prefixes = prefixes_of(alloc, rows, net, pid)?;
    let mut group = Members::new(alloc);
    put_asked(alloc, &mut group, &prefixes, families, "ipv4")?;
    put_asked(alloc, &mut group, &prefixes, families, "ipv6")?;
    Ok(group.into_tree())
}

/// Puts the texts of the prefixes of a family, if it is asked for and there are any.
fn put_asked(
    alloc: Global,
    group: &mut Members,
    prefixes: &[Prefix],
    families: &[Family],
    kind: &str,
) -> Result<(), AllocError>
    ensures { OnOk result (members_data group.new
        ≡ (if is_asked families.now kind.now then with_texts kind.now prefixes.now (members_data group.old)
        else members_data group.old)) }
{
    if is_asked(families, kind) {
        put_texts(alloc, group, prefixes, kind)?;
    }
    Ok(())
}

/// Whether the family of a name is asked for.
fn is_asked(families: &[Family], kind: &str) -> bool
    ensures { result ≡ is_asked families.now kind.now }
{
    families.iter().any(|one| kind == one.as_str())
}
