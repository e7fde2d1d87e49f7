//! The groups that places touch.
ghost use Rattle.std.specs.Prelude.{◌≡◌, ◌++◌, ◌∷◌, [], List, IfOk, OnOk, option_map};
ghost use Rattle.alto_maps.specs.Places as spec;
ghost use Rattle.alto_maps.specs.declared.place.Place.{Place};

use alto_maps::Place;
use json_tree::Name;
use std::alloc::{AllocError, Global};
use std::collections::BTreeSet;

/// The names of the groups that places touch, in byte order.
pub(crate) fn touched_names(alloc: Global, places: &[Place]) -> Result<Vec<Name>, AllocError>
    ensures { IfOk result (λ names. names.items ≡ spec.touched_groups places.now) }
{
    let mut names = BTreeSet::new(alloc);
    for place in places {
        add(&mut names, place)?;
    }
    names.into_iter().collect(alloc)
}

/// One place more. One comparison where its group is the last in order.
fn add(names: &mut BTreeSet<Name>, place: &Place) -> Result<(), AllocError>
    ensures { OnOk result ((places : List Place) → names.old.keys ≡ spec.touched_groups places
        → names.new.keys ≡ spec.touched_groups (places ++ place.now ∷ [])) }
{
    let Some(group) = group_of(place) else {
        return Ok(());
    };
    if names.last() == Some(group) {
        return Ok(());
    }
    names.insert(group.clone()?)?;
    Ok(())
}

/// The group that a place is in.
fn group_of(place: &Place) -> Option<&Name>
    ensures { option_map (λ name. name.now) result ≡ spec.group_of place.now }
{
    match place {
        Place::Group(group) | Place::Member(group, _) => Some(group),
        _ => None,
    }
}
