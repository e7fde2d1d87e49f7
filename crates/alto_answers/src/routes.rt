ghost use Rattle.std.specs.Prelude.{◌≡◌, IsTrue, IfOk, OnOk, option_map};
ghost use Rattle.matchit.specs.Route.{parse_route};
ghost use Rattle.matchit.specs.Seek.{first};
ghost use Rattle.alto_answers.specs.declared.route.Side.TheVariants as side;
ghost use Rattle.alto_answers.specs.Routes.{fits, with_route, router_of, place_of};

use crate::route::{Place, Query, Side};
use matchit::{InsertError, Router};
use std::alloc::{AllocError, Global};
use std::marker::Model;
use std::str;

const DIRECTORY: &str = "/directory";

const MAPS: &str = "/maps/{resource}";

const LOOKUP: &str = "/lookup/{net}/{address}";

const FILTER_NET: &str = "/filter/net/{net}";

const FILTER_COST: &str = "/filter/cost/{net}";

const ENDPOINT_COST: &str = "/endpointcost/{net}";

const FILTER_PROP: &str = "/filter/prop/{net}";

const PATH_VECTOR: &str = "/pathvector/{net}";

const TIPS: &str = "/tips";

const EDGE: &str = "/tips/{resource}/ug/{i}/{j}";

const EDITS: &str = "/edits/{id}";

/// The routes of a side, made once for a connection. A contract sees the side.
#[derive(Drop)]
pub struct Routes {
    side: Side,
    router: Router<Place>,
}

impl Model for Routes {
    ghost use Rattle.std.specs.Prelude.{◌≡◌};
    ghost use Rattle.alto_answers.specs.declared.route.Side.{Side};
    ghost use Rattle.alto_answers.specs.Routes.{router_of};

    ghost Value = { Side };

    ghost view = { λ routes. routes.side };

    ghost invariant = { λ routes. routes.router ≡ router_of routes.side };
}

impl Routes {
    /// The routes of a side.
    pub fn new(alloc: Global, side: Side) -> Result<Routes, AllocError>
        ensures { IfOk result (λ routes. routes ≡ side) }
    {
        let router = match side {
            Side::Public => public_router(alloc)?,
            Side::Operator => operator_router(alloc)?,
            Side::Both => whole_router(alloc)?,
        };
        Ok(Routes { side, router })
    }

    /// Where a path leads on this side; `None` where it has no route, or isn't UTF-8.
    pub fn place(&self, path: &[u8]) -> Option<Place>
        ensures { result ≡ place_of self.now path.now }
    {
        match str::from_utf8(path) {
            Ok(path) => found(&self.router, path),
            Err(_) => None,
        }
    }
}

fn found(router: &Router<Place>, path: &str) -> Option<Place>
    ensures { result ≡ option_map (λ route. route.value) (first router.now path.now) }
{
    match router.at(path) {
        Ok(found) => Some(*found.value),
        Err(_) => None,
    }
}

fn public_router(alloc: Global) -> Result<Router<Place>, AllocError>
    ensures { IfOk result (λ router. router ≡ router_of side.Public) }
{
    let mut router = Router::new(alloc);
    add(&mut router, DIRECTORY, Place::Directory)?;
    add(&mut router, MAPS, Place::Maps)?;
    add(&mut router, LOOKUP, Place::Lookup)?;
    add(&mut router, FILTER_NET, Place::Query(Query::NetworkMap))?;
    add(&mut router, FILTER_COST, Place::Query(Query::CostMap))?;
    add(
        &mut router,
        ENDPOINT_COST,
        Place::Query(Query::EndpointCosts),
    )?;
    add(&mut router, FILTER_PROP, Place::Query(Query::PropertyMap))?;
    add(&mut router, PATH_VECTOR, Place::Query(Query::PathVector))?;
    add(&mut router, TIPS, Place::Tips)?;
    add(&mut router, EDGE, Place::Edge)?;
    Ok(router)
}

fn operator_router(alloc: Global) -> Result<Router<Place>, AllocError>
    ensures { IfOk result (λ router. router ≡ router_of side.Operator) }
{
    let mut router = Router::new(alloc);
    add(&mut router, EDITS, Place::Edits)?;
    Ok(router)
}

fn whole_router(alloc: Global) -> Result<Router<Place>, AllocError>
    ensures { IfOk result (λ router. router ≡ router_of side.Both) }
{
    let mut router = public_router(alloc)?;
    add(&mut router, EDITS, Place::Edits)?;
    Ok(router)
}

/// Adds a route that conflicts with none.
fn add(router: &mut Router<Place>, route: &str, place: Place) -> Result<(), AllocError>
    requires { IsTrue (fits (parse_route route.now) router.old) }
    ensures { OnOk result (router.new ≡ with_route place (parse_route route.now) router.old) }
{
    match router.insert(route, place) {
        Ok(()) => Ok(()),
        Err(InsertError::OutOfMemory) => Err(AllocError),
        Err(_) => unreachable!(),
    }
}
