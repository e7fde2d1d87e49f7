//! The PIDs that are asked for, in byte order.
ghost use Rattle.std.specs.Prelude.{◌≡◌, IfOk, option_map};
ghost use Rattle.std.specs.List.{filter_map};
ghost use Rattle.alto_maps.specs.Places.{set_of};
ghost use Rattle.cost_filters.specs.Names.{names_given, pids_unless_given, srcs_among};
ghost use Rattle.net_docs.specs.NetworkMap as net_spec;
ghost use Rattle.net_docs.specs.Prefixes.{pid_in};

use crate::picks::PidPick;
use alto_names::{NetName, PidName};
use alto_rows::{Key, RowStore, Span, Within, rows_in};
use cost_tables::PidText;
use std::alloc::{AllocError, Global};

/// The distinct ones among names, in byte order. Costs one sort.
pub(crate) fn distinct_names(names: Vec<PidName>) -> Result<Vec<PidName>, AllocError>
    ensures { IfOk result (λ set. set.items ≡ set_of names.items) }
{
    let mut set = names;
    set.sort()?;
    set.dedup();
    Ok(set)
}

/// The same among names as they stand in a request.
pub(crate) fn distinct<'t>(
    alloc: Global,
    names: &[PidText<'t>],
) -> Result<Vec<PidText<'t>>, AllocError>
    ensures { IfOk result (λ set. set.items ≡ set_of names.now) }
{
    let mut set = copies(alloc, names)?;
    set.sort()?;
    set.dedup();
    Ok(set)
}

fn copies<'t>(alloc: Global, names: &[PidText<'t>]) -> Result<Vec<PidText<'t>>, AllocError>
    ensures { IfOk result (λ copies. copies.items ≡ names.now) }
{
    let mut copies = Vec::with_capacity(alloc, names.len())?;
    for name in names {
        copies.push(name.copied())?;
    }
    Ok(copies)
}

/// The names of PIDs as text.
pub(crate) fn texts_of(alloc: Global, names: &[PidName]) -> Result<Vec<PidText<'_>>, AllocError>
    ensures { IfOk result (λ texts. texts.items ≡ names.now) }
{
    let mut texts = Vec::with_capacity(alloc, names.len())?;
    for name in names {
        texts.push(PidText::of(name))?;
    }
    Ok(texts)
}

/// The PIDs of a network where no sources are given. One walk over their rows.
pub(crate) fn pids_unless_given<R: RowStore>(
    alloc: Global,
    rows: &R,
    net: &NetName,
    srcs: &PidPick,
) -> Result<Vec<PidName>, AllocError>
    ensures { IfOk result (λ pids. pids.items ≡ pids_unless_given (R.rows rows.now) net.now srcs.now) }
{
    match srcs.names() {
        Some(_) => Ok(Vec::new(alloc)),
        None => pids_of(alloc, rows, net),
    }
}

/// The PIDs that may be sources: those that are given in byte order, else these.
pub(crate) fn srcs_among<'t>(
    alloc: Global,
    pids: &'t [PidName],
    srcs: &PidPick<'t>,
) -> Result<Vec<PidText<'t>>, AllocError>
    ensures { IfOk result (λ names. names.items ≡ srcs_among pids.now srcs.now) }
{
    match srcs.names() {
        Some(names) => distinct(alloc, names),
        None => texts_of(alloc, pids),
    }
}

/// The destinations that are given in byte order, `None` where all are asked for.
pub(crate) fn names_given<'t>(
    alloc: Global,
    dsts: &PidPick<'t>,
) -> Result<Option<Vec<PidText<'t>>>, AllocError>
    ensures { IfOk result (λ given. option_map (λ names. names.items) given ≡ names_given dsts.now) }
{
    match dsts.names() {
        Some(names) => Ok(Some(distinct(alloc, names)?)),
        None => Ok(None),
    }
}

/// The PIDs of a network. One walk over their rows.
fn pids_of<R: RowStore>(alloc: Global, rows: &R, net: &NetName) -> Result<Vec<PidName>, AllocError>
    ensures { IfOk result (λ pids. pids.items ≡ net_spec.pids_of (R.rows rows.now) net.now) }
{
    // a walk that is let go by one call is cheaper to prove than one that a loop drops at each exit
    let mut walk = rows_in(rows, Span::Pids(net.clone()?));
    let pids = pids_in(alloc, &mut walk);
    drop(walk);
    pids
}

/// The PIDs that the rows of a walk declare.
fn pids_in<R: RowStore>(alloc: Global, walk: &mut Within<R>) -> Result<Vec<PidName>, AllocError>
    ensures { IfOk result (λ pids. pids.items ≡ filter_map pid_in walk.old) }
{
    let mut pids = Vec::new(alloc);
    while let Some(row) = walk.next() {
        if let Key::Pid(_, pid) = &row.0 {
            pids.push(pid.clone()?)?;
        }
    }
    Ok(pids)
}
