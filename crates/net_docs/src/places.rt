ghost use Rattle.std.specs.Prelude.{◌≡◌, IfOk, map};
ghost use Rattle.net_docs.specs.NetworkMap as spec;

use crate::prefixes::family;
use alto_maps::Place;
use alto_names::NetName;
use alto_rows::{Key, Resource};
use json_tree::Name;
use std::alloc::{AllocError, Global};

/// The places of a network's map that keys touch, key by key.
pub fn net_places(alloc: Global, net: &NetName, keys: &[Key]) -> Result<Vec<Place>, AllocError>
    ensures { IfOk result (λ places. places.items ≡ map (spec.net_place net.now) keys.now) }
{
    let mut places = Vec::new(alloc);
    for key in keys {
        places.push(net_place(alloc, net, key)?)?;
    }
    Ok(places)
}

/// The place of a network's map that a key touches: a PID's group, the prefixes of a family in it, or the tag.
fn net_place(alloc: Global, net: &NetName, key: &Key) -> Result<Place, AllocError>
    ensures { IfOk result (λ place. place ≡ spec.net_place net.now key.now) }
{
    match key {
        Key::Pid(of, pid) if net == of => Ok(Place::Group(Name::from_str(alloc, pid.as_str())?)),
        Key::Prefix(of, pid, prefix) if net == of => Ok(Place::Member(
            Name::from_str(alloc, pid.as_str())?,
            Name::from_str(alloc, family(&prefix.prefix()))?,
        )),
        Key::Seq(Resource::Net(of)) if net == of => Ok(Place::Meta),
        _ => Ok(Place::Nowhere),
    }
}
