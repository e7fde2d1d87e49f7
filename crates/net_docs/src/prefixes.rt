//! The prefixes of a PID.
ghost use Rattle.std.specs.Prelude.{◌≡◌, IfOk, OnOk, map};
ghost use Rattle.serde_json.specs.Data.{string};
ghost use Rattle.json_tree.specs.Members.{members_data};
ghost use Rattle.json_tree.specs.Tree.{data_of};
ghost use Rattle.alto_addr.specs.Text.{prefix_text};
ghost use Rattle.net_docs.specs.NetworkMap.{family};
ghost use Rattle.std.specs.Ordering.{is_lt};
ghost use Rattle.alto_rows.specs.Order.{name_cmp};
ghost use Rattle.net_docs.specs.Prefixes.{from_pid, group_of, leading_of, prefix_in, prefixes_owned, texts_in_family};
ghost use Rattle.net_docs.specs.Prefixes.{with_texts};

use alto_addr::{Addr, Prefix, print_prefix};
use alto_names::{NetName, PidName};
use alto_rows::{Key, RowStore, Span, Value, rows_in};
use json_tree::{Members, Name, Tree};
use std::alloc::{AllocError, Global};

/// The prefixes of a PID, by address and length. One search and one walk over their rows.
pub(crate) fn prefixes_of<R: RowStore>(
    alloc: Global,
    rows: &R,
    net: &NetName,
    pid: &PidName,
) -> Result<Vec<Prefix>, AllocError>
    ensures { IfOk result (λ prefixes. prefixes.items ≡ prefixes_owned (R.rows rows.now) net.now pid.now) }
{
    let mut prefixes = Vec::new(alloc);
    for row in rows_in(rows, Span::PrefixesOf(net.clone()?, pid.clone()?)) {
        if let Some(prefix) = prefix_in(row) {
            prefixes.push(prefix)?;
        }
    }
    Ok(prefixes)
}

/// The prefix that a row gives a PID.
fn prefix_in(row: &(Key, Value)) -> Option<Prefix>
    ensures { result ≡ prefix_in row.now }
{
    match &row.0 {
        Key::Prefix(_, _, prefix) => Some(prefix.prefix()),
        _ => None,
    }
}

/// Prefixes of a network from the first that isn't of an earlier PID. Linear in the number of those before.
pub(crate) fn from_pid<'a>(
    prefixes: &'a [(Prefix, PidName)],
    pid: &PidName,
) -> &'a [(Prefix, PidName)]
    ensures { result.now ≡ from_pid pid.now prefixes.now }
{
    let mut left = prefixes;
    while let Some((first, rest)) = left.split_first() {
        if !is_before(&first.1, pid) {
            return left;
        }
        left = rest;
    }
    left
}

fn is_before(owner: &PidName, pid: &PidName) -> bool
    ensures { result ≡ is_lt (name_cmp owner.now pid.now) }
{
    owner.cmp(pid).is_lt()
}

/// Those of a PID that stand first among prefixes. Linear in their number.
pub(crate) fn leading_of(
    alloc: Global,
    prefixes: &[(Prefix, PidName)],
    pid: &PidName,
) -> Result<Vec<Prefix>, AllocError>
    ensures { IfOk result (λ own. own.items ≡ leading_of pid.now prefixes.now) }
{
    let mut own = Vec::new(alloc);
    let mut left = prefixes;
    while let Some((first, rest)) = left.split_first() {
        if *pid != first.1 {
            return Ok(own);
        }
        own.push(first.0)?;
        left = rest;
    }
    Ok(own)
}

/// The group of a PID that has these prefixes.
pub(crate) fn group_of(alloc: Global, prefixes: &[Prefix]) -> Result<Tree, AllocError>
    ensures { IfOk result (λ tree. data_of tree ≡ group_of prefixes.now) }
{
    let mut group = Members::new(alloc);
    put_texts(alloc, &mut group, prefixes, "ipv4")?;
    put_texts(alloc, &mut group, prefixes, "ipv6")?;
    Ok(group.into_tree())
}

/// Puts the texts of those of the prefixes that are of this family, where there are any.
pub(crate) fn put_texts(
    alloc: Global,
    group: &mut Members,
    prefixes: &[Prefix],
    kind: &str,
) -> Result<(), AllocError>
    ensures { OnOk result (members_data group.new ≡ with_texts kind.now prefixes.now (members_data group.old)) }
{
    let texts = texts_in_family(alloc, prefixes, kind)?;
    if !texts.is_empty() {
        group.put(alloc, kind, Tree::list(texts))?;
    }
    Ok(())
}

/// The texts of those of the prefixes that are of this family.
pub(crate) fn texts_in_family(
    alloc: Global,
    prefixes: &[Prefix],
    kind: &str,
) -> Result<Vec<Tree>, AllocError>
    ensures { IfOk result (λ texts. map data_of texts.items ≡ texts_in_family kind.now prefixes.now) }
{
    let mut texts = Vec::new(alloc);
    for prefix in prefixes {
        if family(prefix) == kind {
            texts.push(text_of(alloc, prefix)?)?;
        }
    }
    Ok(texts)
}

/// The text of a prefix, as a value.
fn text_of(alloc: Global, prefix: &Prefix) -> Result<Tree, AllocError>
    ensures { IfOk result (λ tree. data_of tree ≡ string (prefix_text prefix.now.addr prefix.now.len)) }
{
    Ok(Tree::from_name(Name::new(print_prefix(alloc, prefix)?)))
}

/// The name of a prefix's family.
pub(crate) fn family(prefix: &Prefix) -> &'static str
    ensures { result.now ≡ family prefix.now.addr }
{
    match prefix.addr {
        Addr::V4(_) => "ipv4",
        Addr::V6(_) => "ipv6",
    }
}
