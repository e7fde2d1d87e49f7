ghost use Rattle.std.specs.Prelude.{◌≡◌, IfOk, map};
ghost use Rattle.cost_docs.specs.CostMap as spec;

use alto_maps::Place;
use alto_names::{Metric, NetName};
use alto_rows::{Key, Resource};
use json_tree::Name;
use std::alloc::{AllocError, Global};

/// The places of a cost map that keys touch, key by key.
pub fn cost_places(
    alloc: Global,
    net: &NetName,
    metric: &Metric,
    keys: &[Key],
) -> Result<Vec<Place>, AllocError>
    ensures { IfOk result (λ places. places.items ≡ map (spec.cost_place net.now metric.now) keys.now) }
{
    let mut places = Vec::new(alloc);
    for key in keys {
        places.push(cost_place(alloc, net, metric, key)?)?;
    }
    Ok(places)
}

/// The place of a cost map that a key touches: a pair's cost, or the tag of the network map.
fn cost_place(alloc: Global, net: &NetName, metric: &Metric, key: &Key) -> Result<Place, AllocError>
    ensures { IfOk result (λ place. place ≡ spec.cost_place net.now metric.now key.now) }
{
    match key {
        Key::Cost(of, kind, src, dst) if net == of && metric == kind => Ok(Place::Member(
            Name::from_str(alloc, src.as_str())?,
            Name::from_str(alloc, dst.as_str())?,
        )),
        Key::Seq(Resource::Net(of)) if net == of => Ok(Place::Meta),
        _ => Ok(Place::Nowhere),
    }
}
