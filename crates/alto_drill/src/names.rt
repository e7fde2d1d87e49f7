//! The names that a drill uses.
ghost use Rattle.std.specs.Prelude.{◌≡◌, ◌<◌, ◌^◌, Ok, IfOk, codes};
ghost use Rattle.alto_names.specs.Name.{named};
ghost use Rattle.alto_drill.specs.Imports.{import_id, metric_name, net_name, pid_name, property_name};

use alto_names::{Epoch, ImportId, Kind, Label, Metric, NameFault, NetName, PidName, PropName};
use std::alloc::{AllocError, Global};

/// The name that a text is.
fn name_of<K: Kind>(alloc: Global, text: &[u8]) -> Result<Label<K>, AllocError>
    requires { named K.alphabet K.LONGEST text.now ≡ Ok text.now }
    ensures { IfOk result (λ name. name ≡ text.now) }
{
    match Label::read(alloc, text) {
        Ok(name) => Ok(name),
        Err(NameFault::Memory) => Err(AllocError),
        Err(_) => unreachable!(),
    }
}

/// The epoch of the book.
pub(crate) fn epoch(alloc: Global) -> Result<Epoch, AllocError>
    ensures { IfOk result (λ name. name ≡ codes "drill") }
{
    name_of(alloc, b"drill")
}

/// The name of the network.
pub(crate) fn net(alloc: Global) -> Result<NetName, AllocError>
    ensures { IfOk result (λ name. name ≡ net_name) }
{
    name_of(alloc, b"d")
}

/// The name of the metric.
pub(crate) fn metric(alloc: Global) -> Result<Metric, AllocError>
    ensures { IfOk result (λ name. name ≡ metric_name) }
{
    name_of(alloc, b"routingcost")
}

/// The name of the property.
pub(crate) fn property(alloc: Global) -> Result<PropName, AllocError>
    ensures { IfOk result (λ name. name ≡ property_name) }
{
    name_of(alloc, b"color")
}

/// The name of a PID, by its number.
#[tactic(auto, using(crate::proofs::NameLemmas::pid_named))]
pub(crate) fn pid(alloc: Global, number: u64) -> Result<PidName, AllocError>
    ensures { IfOk result (λ name. name ≡ pid_name number) }
{
    let text = format!(in alloc; "p{number}")?;
    name_of(alloc, text.as_bytes())
}

/// The id of an import, by its number.
#[tactic(auto, using(crate::proofs::NameLemmas::import_named))]
pub(crate) fn id(alloc: Global, number: u64) -> Result<ImportId, AllocError>
    ensures { IfOk result (λ name. name ≡ import_id number) }
{
    let text = format!(in alloc; "drill-{number}")?;
    name_of(alloc, text.as_bytes())
}
