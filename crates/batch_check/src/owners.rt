ghost use Rattle.std.specs.Prelude.{◌≡◌, Decides, IfOk, Some, true};
ghost use Rattle.std.specs.BTreeMap.{Updates, get};
ghost use Rattle.std.specs.BTreeSet.{Updates as SetUpdates};
ghost use Rattle.std.specs.List.{list_any};
ghost use Rattle.alto_rows.specs.Good.{AreGood};
ghost use Rattle.alto_rows.specs.Order.{name_cmp};
ghost use Rattle.alto_rows.specs.Rows.{after};
ghost use Rattle.batch_check.specs.Owners as told;
ghost use Rattle.batch_check.specs.Owners.{AreGiven, HasNets, HaveOnePid, place_cmp};

use crate::lookup::has_row;
use crate::place::Place;
use alto_names::{NetName, PidName};
use alto_rows::{Key, PackedPrefix, RowStore, Span, Within, Write, rows_in};
use std::alloc::{AllocError, Global};
use std::collections::{BTreeMap, BTreeSet};

/// Whether a prefix stays in one PID of its network at most after a batch. Two searches for each prefix written, and a
/// walk over the prefixes of each network of these.
pub fn keep_one_pid<R: RowStore>(
    alloc: Global,
    rows: &R,
    next: &R,
    writes: &[Write],
) -> Result<bool, AllocError>
    requires good { AreGood (R.rows rows.now) }
    requires next { R.rows next.now ≡ after (R.rows rows.now) writes.now }
    ensures { IfOk result (λ keep. Decides keep (HaveOnePid (R.rows next.now))) }
{
    let owners = given(alloc, next, writes)?;
    let nets = nets_given(alloc, next, writes)?;
    Ok(!some_shared(next, &owners, &nets)?)
}

/// The PIDs that the writes give prefixes to and that have them. A search for each prefix written.
fn given<R: RowStore>(
    alloc: Global,
    next: &R,
    writes: &[Write],
) -> Result<BTreeMap<Place, PidName>, AllocError>
    ensures { IfOk result (λ owners. AreGiven (R.rows next.now) writes.now owners) }
{
    let mut owners = BTreeMap::new(alloc);
    for write in writes {
        owners = with_given(next, owners, &write.key)?;
    }
    Ok(owners)
}

/// The owners with the PID that a key gives a prefix to, if it has it.
fn with_given<R: RowStore>(
    next: &R,
    owners: BTreeMap<Place, PidName>,
    key: &Key,
) -> Result<BTreeMap<Place, PidName>, AllocError>
    ensures { IfOk result (λ all. told.HasGiven (told.owner_in (R.rows next.now) key.now) owners all) }
{
    match owner_given(key)? {
        Some((place, owner)) => {
            if has_row(next, key) {
                with_owner(owners, place, owner)
            } else {
                Ok(owners)
            }
        }
        None => Ok(owners),
    }
}

/// The prefix that a key gives a PID, and this PID.
fn owner_given(key: &Key) -> Result<Option<(Place, PidName)>, AllocError>
    ensures { IfOk result (λ owner. owner ≡ told.owner_given key.now) }
{
    match key {
        Key::Prefix(net, pid, prefix) => Ok(Some((place_of(net, prefix)?, pid.clone()?))),
        _ => Ok(None),
    }
}

/// A prefix of a network.
fn place_of(net: &NetName, prefix: &PackedPrefix) -> Result<Place, AllocError>
    ensures { IfOk result (λ at. at ≡ told.place_of net.now prefix.now) }
{
    Ok(Place {
        net: net.clone()?,
        prefix: prefix.clone()?,
    })
}

/// The owners with one more, or another one.
fn with_owner(
    owners: BTreeMap<Place, PidName>,
    place: Place,
    owner: PidName,
) -> Result<BTreeMap<Place, PidName>, AllocError>
    ensures { IfOk result (λ all. Updates place_cmp owners all place (Some owner)) }
{
    let mut all = owners;
    all.insert(place, owner)?;
    Ok(all)
}

/// The networks of the prefixes that the writes give to PIDs and that these have. A search for each prefix written.
fn nets_given<R: RowStore>(
    alloc: Global,
    next: &R,
    writes: &[Write],
) -> Result<BTreeSet<NetName>, AllocError>
    ensures { IfOk result (λ nets. HasNets (R.rows next.now) writes.now nets) }
{
    let mut nets = BTreeSet::new(alloc);
    for write in writes {
        nets = with_net_given(next, nets, &write.key)?;
    }
    Ok(nets)
}

/// The networks with that of the prefix that a key gives a PID, if it has it.
fn with_net_given<R: RowStore>(
    next: &R,
    nets: BTreeSet<NetName>,
    key: &Key,
) -> Result<BTreeSet<NetName>, AllocError>
    ensures { IfOk result (λ all. told.HasNetGiven (told.owner_in (R.rows next.now) key.now) nets all) }
{
    match owner_given(key)? {
        Some((place, _)) => {
            if has_row(next, key) {
                with_net(nets, place.net)
            } else {
                Ok(nets)
            }
        }
        None => Ok(nets),
    }
}

/// The networks with one more.
fn with_net(nets: BTreeSet<NetName>, net: NetName) -> Result<BTreeSet<NetName>, AllocError>
    ensures { IfOk result (λ all. SetUpdates name_cmp nets all net true) }
{
    let mut all = nets;
    all.insert(net)?;
    Ok(all)
}

/// Whether some prefix of these networks is in another PID than the one that is kept of it. A walk over the prefixes of
/// each network.
fn some_shared<R: RowStore>(
    next: &R,
    owners: &BTreeMap<Place, PidName>,
    nets: &BTreeSet<NetName>,
) -> Result<bool, AllocError>
    ensures { IfOk result (λ some. some ≡ list_any (told.is_shared_in (R.rows next.now) owners.now) nets.now.keys) }
{
    for net in nets {
        if is_shared_in(next, owners, net)? {
            return Ok(true);
        }
    }
    Ok(false)
}

/// Whether some prefix of a network is in another PID than the one that is kept of it. A walk over the prefixes.
fn is_shared_in<R: RowStore>(
    next: &R,
    owners: &BTreeMap<Place, PidName>,
    net: &NetName,
) -> Result<bool, AllocError>
    ensures { IfOk result (λ is. is ≡ told.is_shared_in (R.rows next.now) owners.now net.now) }
{
    let mut prefixes = rows_in(next, Span::Prefixes(net.clone()?));
    let shared = some_elsewhere(owners, &mut prefixes);
    // A call, since what is dropped in place takes a proof for each kind of key.
    drop(prefixes);
    shared
}

/// Whether a row of a walk gives its prefix to another PID than the one that is kept of it.
fn some_elsewhere<R: RowStore>(
    owners: &BTreeMap<Place, PidName>,
    prefixes: &mut Within<R>,
) -> Result<bool, AllocError>
    ensures { IfOk result (λ some. some ≡ list_any (λ row. told.is_elsewhere owners.now row.0) prefixes.old) }
{
    while let Some(row) = prefixes.next() {
        if is_elsewhere(owners, &row.0)? {
            return Ok(true);
        }
    }
    Ok(false)
}

/// Whether the prefix that a key gives a PID is kept with another one.
fn is_elsewhere(owners: &BTreeMap<Place, PidName>, key: &Key) -> Result<bool, AllocError>
    ensures { IfOk result (λ is. is ≡ told.is_elsewhere owners.now key.now) }
{
    match key {
        Key::Prefix(net, pid, prefix) => Ok(is_other(owners, &place_of(net, prefix)?, pid)),
        _ => Ok(false),
    }
}

/// Whether the PID that is kept of a prefix is another one.
fn is_other(owners: &BTreeMap<Place, PidName>, place: &Place, pid: &PidName) -> bool
    ensures { result ≡ told.is_other (get place_cmp owners.now place.now) pid.now }
{
    match owners.get(place) {
        Some(owner) => owner != pid,
        None => false,
    }
}
