ghost use Rattle.std.specs.Prelude.{◌≡◌, ◌++◌, [], ◌∷◌, IfOk, OnOk};
ghost use Rattle.std.specs.List.{filter_map};
ghost use Rattle.json_tree.specs.Tree.{data_of};
ghost use Rattle.alto_rows.specs.Good.{AreGood};
ghost use Rattle.alto_rows.specs.Rows.{has_row};
ghost use Rattle.alto_rows.specs.declared.key.Key.TheVariants as key;
ghost use Rattle.alto_maps.specs.Shape.{group_object, section_object};
ghost use Rattle.net_docs.specs.Merged.{merged_groups};
ghost use Rattle.net_docs.specs.NetworkMap.{net_face, pids_of};
ghost use Rattle.net_docs.specs.Prefixes.{group_of, leading_of, pid_in};

use crate::prefixes::{from_pid, group_of, leading_of, prefixes_of};
use alto_addr::Prefix;
use alto_names::{NetName, PidName};
use alto_rows::{Key, RowStore, Span, Value, rows_in};
use json_tree::{Members, Name, Tree};
use std::alloc::{AllocError, Global};

/// The groups of a network map: each PID of the network with its prefixes. One walk over the rows of these PIDs, and
/// one over those of their prefixes: both are in the order of the PIDs.
pub(crate) fn groups<R: RowStore>(
    alloc: Global,
    rows: &R,
    net: &NetName,
) -> Result<Tree, AllocError>
    requires { AreGood (R.rows rows.now) }
    ensures { IfOk result (λ tree. data_of tree ≡ section_object (net_face net.now (R.rows rows.now))) }
{
    let pids = pids_of(alloc, rows, net)?;
    let prefixes = alto_rows::prefixes_of(alloc, rows, net)?;
    merged_groups(alloc, &pids, &prefixes)
}

/// The groups of PIDs, each with those of the prefixes that are its own: both are in the order of the PIDs.
fn merged_groups(
    alloc: Global,
    pids: &[PidName],
    prefixes: &[(Prefix, PidName)],
) -> Result<Tree, AllocError>
    ensures { IfOk result (λ tree. data_of tree ≡ merged_groups pids.now prefixes.now) }
{
    let mut left = prefixes;
    let mut groups = Members::new(alloc);
    for pid in pids {
        left = from_pid(left, pid);
        groups.put(alloc, pid.as_str(), first_group(alloc, left, pid)?)?;
    }
    Ok(groups.into_tree())
}

/// The group of a PID whose prefixes stand first.
fn first_group(
    alloc: Global,
    prefixes: &[(Prefix, PidName)],
    pid: &PidName,
) -> Result<Tree, AllocError>
    ensures { IfOk result (λ tree. data_of tree ≡ group_of (leading_of pid.now prefixes.now)) }
{
    let own = leading_of(alloc, prefixes, pid)?;
    group_of(alloc, &own)
}

/// The PIDs of a network, in byte order. One walk over their rows, whose names are shared.
pub(crate) fn pids_of<R: RowStore>(
    alloc: Global,
    rows: &R,
    net: &NetName,
) -> Result<Vec<PidName>, AllocError>
    ensures { IfOk result (λ pids. pids.items ≡ pids_of (R.rows rows.now) net.now) }
{
    let mut pids = Vec::new(alloc);
    for row in rows_in(rows, Span::Pids(net.clone()?)) {
        put_pid(row, &mut pids)?;
    }
    Ok(pids)
}

/// Puts the PID that a row declares.
fn put_pid(row: &(Key, Value), pids: &mut Vec<PidName>) -> Result<(), AllocError>
    ensures { OnOk result (pids.new.items ≡ pids.old.items ++ filter_map pid_in (row.now ∷ [])) }
{
    if let Key::Pid(_, pid) = &row.0 {
        pids.push(pid.clone()?)?;
    }
    Ok(())
}

/// The names of the groups: the PIDs of the network, in byte order. One walk over their rows.
pub(crate) fn group_names<R: RowStore>(
    alloc: Global,
    rows: &R,
    net: &NetName,
) -> Result<Vec<Name>, AllocError>
    ensures { IfOk result (λ names. names.items ≡ pids_of (R.rows rows.now) net.now) }
{
    let pids = pids_of(alloc, rows, net)?;
    names_of(alloc, &pids)
}

/// The names of PIDs.
fn names_of(alloc: Global, pids: &[PidName]) -> Result<Vec<Name>, AllocError>
    ensures { IfOk result (λ names. names.items ≡ pids.now) }
{
    let mut names = Vec::new(alloc);
    for pid in pids {
        names.push(Name::from_str(alloc, pid.as_str())?)?;
    }
    Ok(names)
}

/// The group of a PID. One search and one walk over its prefixes.
pub(crate) fn group<R: RowStore>(
    alloc: Global,
    rows: &R,
    net: &NetName,
    pid: &PidName,
) -> Result<Tree, AllocError>
    ensures { IfOk result (λ tree. data_of tree ≡ group_object (net_face net.now (R.rows rows.now)) pid.now) }
{
    let prefixes = prefixes_of(alloc, rows, net, pid)?;
    group_of(alloc, &prefixes)
}

/// Whether a network has a PID. One search.
pub(crate) fn is_declared<R: RowStore>(
    rows: &R,
    net: &NetName,
    pid: &PidName,
) -> Result<bool, AllocError>
    ensures { IfOk result (λ declared. declared ≡ has_row (R.rows rows.now) (key.Pid net.now pid.now)) }
{
    Ok(has_row(rows, pid_key(net, pid)?))
}

/// Whether a key has a row. One search.
fn has_row<R: RowStore>(rows: &R, of: Key) -> bool
    ensures { result ≡ has_row (R.rows rows.now) of }
{
    let found = rows.get(&of).is_some();
    // a call, since what is dropped in place takes a proof for each kind of key
    drop(of);
    found
}

/// The key that declares a PID.
fn pid_key(net: &NetName, pid: &PidName) -> Result<Key, AllocError>
    ensures { IfOk result (λ made. made ≡ key.Pid net.now pid.now) }
{
    Ok(Key::Pid(net.clone()?, pid.clone()?))
}
