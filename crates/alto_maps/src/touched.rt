//! The places of a map, gathered by group.
ghost use Rattle.std.specs.Prelude.{◌≡◌, ◌++◌, ◌∷◌, [], None, List, IfOk, OnOk, option_map, unwrap_or};
ghost use Rattle.std.specs.BTreeMap.{is_at};
ghost use Rattle.std.specs.Cmp.Lexicographic.{slice_cmp};
ghost use Rattle.std.specs.List.{list_any};
ghost use Rattle.std.specs.Map.{lookup, remove_entry};
ghost use Rattle.std.specs.Ordering.{nat_cmp};
ghost use Rattle.alto_maps.specs.Places as spec;
ghost use Rattle.alto_maps.specs.Touched.{touched_parts, parts_of, with_option};
ghost use Rattle.alto_maps.specs.declared.place.Place.{Place};

use crate::place::Place;
use json_tree::Name;
use std::alloc::{AllocError, Global};
use std::collections::{BTreeMap, BTreeSet};
use std::marker::Model;

/// A group that places touch, and its touched members in byte order.
#[derive(Drop)]
pub(crate) struct Touched {
    pub(crate) group: Name,
    pub(crate) members: Vec<Name>,
}

impl Model for Touched {
    ghost use Rattle.alto_maps.specs.Touched.{Touched};

    ghost Value = { Touched };

    ghost view = { λ touched. (touched.group, touched.members.items) };
}

/// Whether the version in the meta is touched. Linear in the places.
pub(crate) fn touches_meta(places: &[Place]) -> bool
    ensures { result ≡ list_any spec.touches_meta places.now }
{
    places.iter().any(|place| matches!(place, Place::Meta))
}

/// The groups that places touch, in byte order. One pass over the places, a few searches for each.
pub(crate) fn touched_groups(alloc: Global, places: &[Place]) -> Result<Vec<Touched>, AllocError>
    ensures { IfOk result (λ groups. groups.items ≡ touched_parts places.now) }
{
    let mut groups = BTreeMap::new(alloc);
    for place in places {
        add(alloc, &mut groups, place)?;
    }
    list_of(alloc, groups)
}

/// One place more.
fn add(
    alloc: Global,
    groups: &mut BTreeMap<Name, BTreeSet<Name>>,
    place: &Place,
) -> Result<(), AllocError>
    ensures { OnOk result ((places : List Place) → parts_of groups.old.entries ≡ touched_parts places
        → parts_of groups.new.entries ≡ touched_parts (places ++ place.now ∷ [])) }
{
    match group_of(place) {
        Some(group) => {
            let members = take_members(alloc, groups, group);
            let members = with_member(members, member_of(group, place))?;
            drop(groups.insert(group.clone()?, members)?);
            Ok(())
        }
        None => Ok(()),
    }
}

/// The group that a place is in.
fn group_of(place: &Place) -> Option<&Name>
    ensures { option_map (λ name. name.now) result ≡ spec.group_of place.now }
{
    match place {
        Place::Group(group) | Place::Member(group, _) => Some(group),
        _ => None,
    }
}

/// The member of this group that a place is.
fn member_of<'p>(of: &Name, place: &'p Place) -> Option<&'p Name>
    ensures { option_map (λ name. name.now) result ≡ spec.member_of of.now place.now }
{
    match place {
        Place::Member(group, member) if of == group => Some(member),
        _ => None,
    }
}

/// The members of a group so far, which are taken out.
fn take_members(
    alloc: Global,
    groups: &mut BTreeMap<Name, BTreeSet<Name>>,
    group: &Name,
) -> BTreeSet<Name>
    ensures members { result.keys ≡ unwrap_or (option_map (λ set. set.keys)
        (lookup (is_at (slice_cmp nat_cmp group.now)) groups.old.entries)) [] }
    ensures others { groups.new.entries
        ≡ remove_entry (is_at (slice_cmp nat_cmp group.now)) groups.old.entries }
{
    match groups.remove(group) {
        Some(members) => members,
        None => BTreeSet::new(alloc),
    }
}

/// One member more, if there is one.
fn with_member(
    mut members: BTreeSet<Name>,
    member: Option<&Name>,
) -> Result<BTreeSet<Name>, AllocError>
    ensures { IfOk result (λ set. set.keys
        ≡ with_option members.keys (option_map (λ name. name.now) member.entry)) }
{
    if let Some(member) = member {
        members.insert(member.clone()?)?;
    }
    Ok(members)
}

/// The groups as a list.
fn list_of(
    alloc: Global,
    groups: BTreeMap<Name, BTreeSet<Name>>,
) -> Result<Vec<Touched>, AllocError>
    ensures { IfOk result (λ list. list.items ≡ parts_of groups.entries) }
{
    let mut list = Vec::with_capacity(alloc, groups.len())?;
    for (group, members) in groups {
        let members = members.into_iter().collect(alloc)?;
        list.push(Touched { group, members })?;
    }
    Ok(list)
}
