ghost use Rattle.std.specs.Prelude.{◌≡◌, IfOk, map};
ghost use Rattle.prop_docs.specs.PropertyMap as spec;

use alto_maps::Place;
use alto_names::NetName;
use alto_rows::{Key, Resource, print_entity};
use json_tree::Name;
use std::alloc::{AllocError, Global};

/// The places of a network's property map that keys touch, key by key.
pub fn prop_places(alloc: Global, net: &NetName, keys: &[Key]) -> Result<Vec<Place>, AllocError>
    ensures { IfOk result (λ places. places.items ≡ map (spec.prop_place net.now) keys.now) }
{
    let mut places = Vec::new(alloc);
    for key in keys {
        places.push(prop_place(alloc, net, key)?)?;
    }
    Ok(places)
}

/// The place of a network's property map that a key touches: a property of an entity, or the tag of the network map.
fn prop_place(alloc: Global, net: &NetName, key: &Key) -> Result<Place, AllocError>
    ensures { IfOk result (λ place. place ≡ spec.prop_place net.now key.now) }
{
    match key {
        Key::Prop(of, entity, name) if net == of => Ok(Place::Member(
            print_entity(alloc, net, entity)?,
            Name::from_str(alloc, name.as_str())?,
        )),
        Key::Seq(Resource::Net(of)) if net == of => Ok(Place::Meta),
        _ => Ok(Place::Nowhere),
    }
}
