ghost use Rattle.std.specs.Prelude.{◌≡◌, ◌≤◌, IfOk};
ghost use Rattle.alto_rows.specs.declared.resource.Resource.TheVariants as resource;
ghost use Rattle.alto_drill.specs.Drilled.{drilled_by, failures_in, trials_of};
ghost use Rattle.alto_drill.specs.Imports.{metric_name, net_name};

use crate::desk::drilled_desk;
use crate::drilled::Drilled;
use crate::names::{metric, net};
use crate::patches::try_resource;
use crate::trials::Trials;
use alto_desk::Desk;
use alto_keeper::MemKeeper;
use alto_rows::{Resource, RowStore};
use row_chunks::Chunks;
use std::alloc::{AllocError, Global};

/// Makes a book of so many batches by a number, and tries each edge that is available of its three resources: one from
/// 0 is read, and each other one is made in both forms of patch, and applied to the document at its beginning.
///
/// Costs what the batches cost to be accepted, and for each pair of kept numbers a few documents. Takes no more memory
/// than the book, the bodies and three documents.
pub fn drill(alloc: Global, number: u32, batches: u32) -> Result<Drilled, AllocError>
    requires at_least { 1 ≤ batches }
    requires at_most { batches ≤ 1000 }
    ensures drilled { IfOk result (λ drilled. drilled ≡ drilled_by number batches) }
    ensures none_fails { IfOk result (λ drilled. drilled.failed ≡ 0) }
{
    let desk: Desk<MemKeeper, Chunks> = drilled_desk(alloc, number, batches)?;
    let trials = trials_of(alloc, &desk)?;
    Ok(Drilled {
        batches,
        edges: trials.edges(),
        failed: trials.failed(),
        map: trials.digest(),
    })
}

/// The trials of all available edges, resource by resource.
fn trials_of<R: RowStore>(alloc: Global, desk: &Desk<MemKeeper, R>) -> Result<Trials, AllocError>
    ensures trials { IfOk result (λ trials. trials ≡ trials_of desk.now.ledger.book) }
    ensures none_fails { IfOk result (λ trials. failures_in trials.leads ≡ 0) }
{
    // The version says that the book is legal.
    let _version = desk.front();
    let mut trials = Trials::new(alloc);
    let network = network_map(alloc)?;
    try_resource(alloc, desk, &network, &mut trials)?;
    let costs = cost_map(alloc)?;
    try_resource(alloc, desk, &costs, &mut trials)?;
    let properties = property_map(alloc)?;
    try_resource(alloc, desk, &properties, &mut trials)?;
    Ok(trials)
}

fn network_map(alloc: Global) -> Result<Resource, AllocError>
    ensures { IfOk result (λ of. of ≡ resource.Net net_name) }
{
    Ok(Resource::Net(net(alloc)?))
}

fn cost_map(alloc: Global) -> Result<Resource, AllocError>
    ensures { IfOk result (λ of. of ≡ resource.Cost net_name metric_name) }
{
    Ok(Resource::Cost(net(alloc)?, metric(alloc)?))
}

fn property_map(alloc: Global) -> Result<Resource, AllocError>
    ensures { IfOk result (λ of. of ≡ resource.Prop net_name) }
{
    Ok(Resource::Prop(net(alloc)?))
}
