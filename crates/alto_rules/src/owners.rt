ghost use Rattle.std.specs.Prelude.{◌≡◌, [], ◌∷◌, IfOk, OnOk, Some, true, is_some, map};
ghost use Rattle.std.specs.BTreeMap.{BTreeMap, Updates, get};
ghost use Rattle.std.specs.BTreeSet.{BTreeSet, Updates as SetUpdates, contains};
ghost use Rattle.std.specs.Ordering.{is_eq};
ghost use Rattle.alto_addr.specs.Order.{prefix_cmp};
ghost use Rattle.alto_rows.specs.Order.{name_cmp};
ghost use Rattle.alto_rows.specs.Rows.{Rows};
ghost use Rattle.alto_rules.specs.Draft.{HasOwner, HaveOneOwner};
ghost use Rattle.alto_rules.specs.Owners.{AreOwners, HasChanged, HasFilled, owner_among, owner_left, place_cmp};
ghost use Rattle.alto_rules.specs.Owners.{place_of, placed};

use crate::place::Place;
use alto_addr::Prefix;
use alto_names::{NetName, PidName};
use alto_rows::{Key, PackedPrefix, RowStore, prefixes_of};
use std::alloc::{AllocError, Global};
use std::collections::{BTreeMap, BTreeSet};

/// Which PID has a prefix after writes.
#[derive(Drop)]
pub struct Owners {
    /// The owners of the prefixes that were written, and of all prefixes of known networks; `None` where it has none.
    pub of: BTreeMap<Place, Option<PidName>>,
    /// The networks whose prefixes were all gone over.
    pub known: BTreeSet<NetName>,
}

impl Owners {
    /// The owners without any write, and no network known.
    pub fn new(alloc: Global) -> Owners
        ensures owners { result.of.entries ≡ [] }
        ensures known { result.known.keys ≡ [] }
    {
        Owners {
            of: BTreeMap::new(alloc),
            known: BTreeSet::new(alloc),
        }
    }

    /// What is kept of a prefix. One search.
    pub fn find(&self, place: &Place) -> Result<Option<Option<PidName>>, AllocError>
        ensures { IfOk result (λ owner. owner ≡ get place_cmp self.now.of place.now) }
    {
        match self.of.get(place) {
            Some(owner) => Ok(Some(copied_owner(owner)?)),
            None => Ok(None),
        }
    }

    /// The same of a prefix of a network.
    pub fn find_in(
        &self,
        net: &NetName,
        prefix: &Prefix,
    ) -> Result<Option<Option<PidName>>, AllocError>
        ensures { IfOk result (λ owner. owner ≡ get place_cmp self.now.of (place_of net.now prefix.now)) }
    {
        let place = place_of(net, prefix)?;
        let owner = self.find(&place);
        // a call: dropped in place at each exit of the caller the prefix takes long to prove
        drop(place);
        owner
    }

    /// Whether the prefixes of a network were all gone over.
    pub fn knows(&self, net: &NetName) -> bool
        ensures { result ≡ contains name_cmp self.now.known net.now }
    {
        self.known.contains(net)
    }

    /// Keeps whom a prefix is left to by a write of a key that had a row or not, and then has one or not.
    pub fn change(&mut self, key: &Key, had: bool, has: bool) -> Result<(), AllocError>
        ensures owners { OnOk result (HasChanged (owner_left key.now had has) self.old.of self.new.of) }
        ensures known { OnOk result (self.new.known ≡ self.old.known) }
    {
        match owner_left(key, had, has)? {
            Some((place, owner)) => set_owner(&mut self.of, place, owner),
            None => Ok(()),
        }
    }

    /// Adds the owners of all prefixes that a network has in the rows before the writes. One walk over these.
    pub fn know<R: RowStore>(
        &mut self,
        alloc: Global,
        rows: &R,
        net: &NetName,
    ) -> Result<(), AllocError>
        requires { HaveOneOwner (R.rows rows.now) }
        ensures { OnOk result ((later : Rows)
            → AreOwners (R.rows rows.now) later self.old.of self.old.known
            → AreOwners (R.rows rows.now) later self.new.of self.new.known) }
    {
        if self.known.contains(net) {
            return Ok(());
        }
        add_told(&mut self.of, net, prefixes_of(alloc, rows, net)?)?;
        add_net(&mut self.known, net)
    }
}

/// The PID that has a prefix before the writes. One walk over the prefixes of the network.
pub fn owner_before<R: RowStore>(
    alloc: Global,
    rows: &R,
    net: &NetName,
    prefix: &Prefix,
) -> Result<Option<PidName>, AllocError>
    requires { HaveOneOwner (R.rows rows.now) }
    ensures { IfOk result (λ owner. HasOwner (R.rows rows.now) net.now prefix.now owner) }
{
    Ok(owner_among(prefixes_of(alloc, rows, net)?, prefix))
}

/// The PID of a prefix among prefixes with their PIDs.
fn owner_among(told: Vec<(Prefix, PidName)>, prefix: &Prefix) -> Option<PidName>
    ensures { result ≡ owner_among told.items prefix.now }
{
    for (other, pid) in told {
        if is_same(prefix, &other) {
            return Some(pid);
        }
    }
    None
}

/// Whether two prefixes are one.
#[tactic(auto, unfolding(alto_addr::specs::Order::prefix_cmp, alto_addr::specs::Order::addr_cmp))]
fn is_same(prefix: &Prefix, other: &Prefix) -> bool
    ensures { result ≡ is_eq (prefix_cmp prefix.now other.now) }
{
    prefix.cmp(other).is_eq()
}

/// Adds the owners that are told of a network's prefixes, unless one is kept of the same prefix.
fn add_told(
    of: &mut BTreeMap<Place, Option<PidName>>,
    net: &NetName,
    told: Vec<(Prefix, PidName)>,
) -> Result<(), AllocError>
    ensures { OnOk result (HasFilled (map (placed net.now) told.items) of.old of.new) }
{
    for (prefix, pid) in told {
        add_one(of, place_of(net, &prefix)?, pid)?;
    }
    Ok(())
}

/// Adds an owner, unless one is kept of its prefix.
fn add_one(
    of: &mut BTreeMap<Place, Option<PidName>>,
    place: Place,
    owner: PidName,
) -> Result<(), AllocError>
    ensures { OnOk result (HasFilled ((place, owner) ∷ []) of.old of.new) }
{
    if is_kept(of, &place) {
        Ok(())
    } else {
        set_owner(of, place, Some(owner))
    }
}

/// Whether an owner is kept of a prefix.
fn is_kept(of: &BTreeMap<Place, Option<PidName>>, place: &Place) -> bool
    ensures { result ≡ is_some (get place_cmp of.now place.now) }
{
    of.contains_key(place)
}

/// The prefix whose owner a write changes, with the owner that it then has: the row of the write's key was there or
/// not, and then is there or not.
fn owner_left(
    key: &Key,
    had: bool,
    has: bool,
) -> Result<Option<(Place, Option<PidName>)>, AllocError>
    ensures { IfOk result (λ change. change ≡ owner_left key.now had has) }
{
    match key {
        Key::Prefix(net, pid, prefix) if has => {
            Ok(Some((place_of(net, &prefix.prefix())?, Some(pid.clone()?))))
        }
        Key::Prefix(net, _, prefix) if had => { Ok(Some((place_of(net, &prefix.prefix())?, None))) }
        _ => Ok(None),
    }
}

/// A prefix of a network.
pub fn place_of(net: &NetName, prefix: &Prefix) -> Result<Place, AllocError>
    ensures { IfOk result (λ at. at ≡ place_of net.now prefix.now) }
{
    Ok(Place {
        net: net.clone()?,
        prefix: PackedPrefix::new(prefix),
    })
}

/// Sets the owner of a prefix.
fn set_owner(
    of: &mut BTreeMap<Place, Option<PidName>>,
    place: Place,
    owner: Option<PidName>,
) -> Result<(), AllocError>
    ensures { OnOk result (Updates place_cmp of.old of.new place (Some owner)) }
{
    of.insert(place, owner)?;
    Ok(())
}

/// Adds a network.
fn add_net(known: &mut BTreeSet<NetName>, net: &NetName) -> Result<(), AllocError>
    ensures { OnOk result (SetUpdates name_cmp known.old known.new net.now true) }
{
    known.insert(net.clone()?)?;
    Ok(())
}

/// A copy of an owner.
fn copied_owner(owner: &Option<PidName>) -> Result<Option<PidName>, AllocError>
    ensures { IfOk result (λ copy. copy ≡ owner.now) }
{
    match owner {
        Some(pid) => Ok(Some(pid.clone()?)),
        None => Ok(None),
    }
}
