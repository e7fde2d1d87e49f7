//! The pairs that are asked for, with their paths.
ghost use Rattle.std.specs.Prelude.{◌≡◌, IfOk, map, option_copied, option_map};
ghost use Rattle.std.specs.List.{filter_map};
ghost use Rattle.alto_rows.specs.Good.{AreGood};
ghost use Rattle.net_docs.specs.NetworkMap as net_spec;
ghost use Rattle.net_docs.specs.Prefixes.{pid_in};
ghost use Rattle.path_docs.specs.Found as spec;
ghost use Rattle.path_docs.specs.Found.{destinations_of, pairs_among, source_found, sources_found};
ghost use Rattle.path_docs.specs.PathCosts.{anes_at, path_of};

use crate::ask::PathAsk;
use alto_names::{AneName, NetName, PidName};
use alto_rows::{Key, RowStore, Span, Value, Within, rows_in};
use net_docs::Pick;
use std::alloc::{AllocError, Global};
use std::marker::Model;

/// A destination, and the ANEs on the path to it.
#[derive(Drop)]
pub(crate) struct Pair<'a> {
    pub(crate) dst: PidName,
    pub(crate) anes: &'a [AneName],
}

impl<'a> Model for Pair<'a> {
    ghost use Rattle.path_docs.specs.Found.{Pair};

    ghost Value = { Pair };

    ghost view = { λ pair. (pair.dst, pair.anes.now) };
}

/// A source, and the pairs that it makes.
#[derive(Drop)]
pub(crate) struct Source<'a> {
    pub(crate) src: PidName,
    pub(crate) pairs: Vec<Pair<'a>>,
}

impl<'a> Model for Source<'a> {
    ghost use Rattle.path_docs.specs.Found.{Source};

    ghost Value = { Source };

    ghost view = { λ source. (source.src, source.pairs.items) };
}

/// The sources that are asked for, each with the destinations that are. One walk over the rows of the network's PIDs
/// where all sources are asked for; then for each source one search and one walk over the rows of its paths where all
/// destinations are asked for, else one search for each of them.
pub(crate) fn sources_found<'a, R: RowStore>(
    alloc: Global,
    rows: &'a R,
    net: &NetName,
    ask: &PathAsk,
) -> Result<Vec<Source<'a>>, AllocError>
    requires { AreGood (R.rows rows.now) }
    ensures { IfOk result (λ sources. sources.items ≡ sources_found (R.rows rows.now) net.now ask.now) }
{
    match &ask.srcs {
        Pick::All => {
            let srcs = pids_of(alloc, rows, net)?;
            sources_among(alloc, rows, net, &srcs, &ask.dsts)
        }
        Pick::Only(srcs) => sources_among(alloc, rows, net, srcs.as_slice(), &ask.dsts),
    }
}

/// The PIDs of a network. One walk over their rows.
fn pids_of<R: RowStore>(alloc: Global, rows: &R, net: &NetName) -> Result<Vec<PidName>, AllocError>
    ensures { IfOk result (λ pids. pids.items ≡ net_spec.pids_of (R.rows rows.now) net.now) }
{
    let mut declared = rows_in(rows, Span::Pids(net.clone()?));
    let pids = pids_walked(alloc, &mut declared);
    // dropped by a call: that is far cheaper to prove than a drop in place at each exit of the loop
    drop(declared);
    pids
}

/// The PIDs that the rows of a walk declare.
fn pids_walked<R: RowStore>(
    alloc: Global,
    declared: &mut Within<R>,
) -> Result<Vec<PidName>, AllocError>
    ensures { IfOk result (λ pids. pids.items ≡ filter_map pid_in declared.old) }
{
    let mut pids = Vec::new(alloc);
    while let Some(row) = declared.next() {
        if let Key::Pid(_, pid) = &row.0 {
            pids.push(pid.clone()?)?;
        }
    }
    Ok(pids)
}

/// These sources with their pairs.
fn sources_among<'a, R: RowStore>(
    alloc: Global,
    rows: &'a R,
    net: &NetName,
    srcs: &[PidName],
    dsts: &Pick,
) -> Result<Vec<Source<'a>>, AllocError>
    requires { AreGood (R.rows rows.now) }
    ensures { IfOk result (λ sources. sources.items
        ≡ map (source_found (R.rows rows.now) net.now dsts.now) srcs.now) }
{
    let mut sources = Vec::with_capacity(alloc, srcs.len())?;
    for src in srcs {
        sources.push(source_found(alloc, rows, net, src, dsts)?)?;
    }
    Ok(sources)
}

/// A source with its pairs.
fn source_found<'a, R: RowStore>(
    alloc: Global,
    rows: &'a R,
    net: &NetName,
    src: &PidName,
    dsts: &Pick,
) -> Result<Source<'a>, AllocError>
    requires { AreGood (R.rows rows.now) }
    ensures { IfOk result (λ source. source ≡ source_found (R.rows rows.now) net.now dsts.now src.now) }
{
    let pairs = match dsts {
        Pick::All => all_pairs(alloc, rows, net, src)?,
        Pick::Only(dsts) => pairs_among(alloc, rows, net, src, dsts.as_slice())?,
    };
    let src = src.clone()?;
    Ok(Source { src, pairs })
}

/// All pairs of a source. One search, and one walk over the rows of its paths.
fn all_pairs<'a, R: RowStore>(
    alloc: Global,
    rows: &'a R,
    net: &NetName,
    src: &PidName,
) -> Result<Vec<Pair<'a>>, AllocError>
    requires { AreGood (R.rows rows.now) }
    ensures { IfOk result (λ pairs. pairs.items ≡ pairs_among (R.rows rows.now) net.now src.now
        (destinations_of (R.rows rows.now) net.now src.now)) }
{
    let mut paths = rows_in(rows, Span::PathsFrom(net.clone()?, src.clone()?));
    let pairs = pairs_walked(alloc, &mut paths);
    drop(paths);
    pairs
}

/// The pairs of the rows of a walk.
fn pairs_walked<'a, R: RowStore>(
    alloc: Global,
    paths: &mut Within<'a, R>,
) -> Result<Vec<Pair<'a>>, AllocError>
    ensures { IfOk result (λ pairs. pairs.items ≡ filter_map spec.pair_in paths.old) }
{
    let mut pairs = Vec::new(alloc);
    while let Some(row) = paths.next() {
        if let Some(pair) = pair_in(row)? {
            pairs.push(pair)?;
        }
    }
    Ok(pairs)
}

/// The pair of a row.
fn pair_in<'a>(row: &'a (Key, Value)) -> Result<Option<Pair<'a>>, AllocError>
    ensures { IfOk result (λ pair. pair ≡ spec.pair_in row.now) }
{
    match row {
        (Key::Path(_, _, dst), Value::Names(anes)) => Ok(Some(Pair {
            dst: dst.clone()?,
            anes: anes.as_slice(),
        })),
        _ => Ok(None),
    }
}

/// The pairs that a source makes with these destinations. One search for each.
fn pairs_among<'a, R: RowStore>(
    alloc: Global,
    rows: &'a R,
    net: &NetName,
    src: &PidName,
    dsts: &[PidName],
) -> Result<Vec<Pair<'a>>, AllocError>
    ensures { IfOk result (λ pairs. pairs.items ≡ pairs_among (R.rows rows.now) net.now src.now dsts.now) }
{
    let mut pairs = Vec::new(alloc);
    for dst in dsts {
        if let Some(anes) = path_of(rows, net, src, dst)? {
            pairs.push(Pair {
                dst: dst.clone()?,
                anes,
            })?;
        }
    }
    Ok(pairs)
}

/// The path of a pair, where it has one. One search.
fn path_of<'a, R: RowStore>(
    rows: &'a R,
    net: &NetName,
    src: &PidName,
    dst: &PidName,
) -> Result<Option<&'a [AneName]>, AllocError>
    ensures { IfOk result (λ path. option_map (λ anes. anes.now) path
        ≡ path_of (R.rows rows.now) net.now src.now dst.now) }
{
    let key = Key::Path(net.clone()?, src.clone()?, dst.clone()?);
    let anes = anes_at(rows.get(&key));
    drop(key);
    Ok(anes)
}

/// The ANEs that a row holds.
fn anes_at<'a>(value: Option<&'a Value>) -> Option<&'a [AneName]>
    ensures { option_map (λ anes. anes.now) result ≡ anes_at (option_copied value.entry) }
{
    match value {
        Some(Value::Names(anes)) => Some(anes.as_slice()),
        _ => None,
    }
}
