//! Names that many keys share.
ghost use Rattle.std.specs.Prelude.{◌≡◌, IfOk};
ghost use Rattle.alto_rows.specs.declared.key.Key.TheVariants as key;

use alto_names::{AneName, Kind, Label, Metric, NetName, PidName, PropName};
use alto_rows::{Entity, Key, PackedPrefix, Resource, Write};
use std::alloc::{AllocError, Global};
use std::collections::BTreeSet;

/// One copy of each name that was read of a store. Keys that are read behind one another share it, so that a row takes
/// the memory of its pointers alone: contracts see names by value, and don't say it.
#[derive(Drop)]
pub struct Names {
    nets: BTreeSet<NetName>,
    pids: BTreeSet<PidName>,
    metrics: BTreeSet<Metric>,
    properties: BTreeSet<PropName>,
    anes: BTreeSet<AneName>,
}

impl Names {
    /// No name. Takes no memory.
    pub fn new(alloc: Global) -> Names {
        Names {
            nets: BTreeSet::new(alloc),
            pids: BTreeSet::new(alloc),
            metrics: BTreeSet::new(alloc),
            properties: BTreeSet::new(alloc),
            anes: BTreeSet::new(alloc),
        }
    }

    /// The same write, whose key has its names in common with those before. One search for each of its names.
    pub(crate) fn shared_write(&mut self, write: Write) -> Result<Write, AllocError>
        ensures { IfOk result (λ shared. shared ≡ write) }
    {
        let Write { key, value } = write;
        match self.shared(key) {
            Ok(key) => Ok(Write { key, value }),
            Err(fault) => {
                // By a call, which is far cheaper to prove than a drop in place, variant by variant.
                drop(value);
                Err(fault)
            }
        }
    }

    /// The same key, which has its names in common with those before. One search for each of its names.
    fn shared(&mut self, key: Key) -> Result<Key, AllocError>
        ensures { IfOk result (λ shared. shared ≡ key) }
    {
        match key {
            Key::Epoch => Ok(Key::Epoch),
            Key::Window => Ok(Key::Window),
            Key::Net(net) => Ok(Key::Net(one_of(&mut self.nets, net)?)),
            Key::Pid(net, pid) => self.shared_pid(net, pid),
            Key::Prefix(net, pid, prefix) => self.shared_prefix(net, pid, prefix),
            Key::Metric(net, metric) => self.shared_metric(net, metric),
            Key::Cost(net, metric, source, destination) => {
                self.shared_cost(net, metric, source, destination)
            }
            Key::Prop(net, entity, property) => self.shared_prop(net, entity, property),
            Key::Ane(net, ane) => self.shared_ane(net, ane),
            Key::AneProp(net, ane, property) => self.shared_ane_prop(net, ane, property),
            Key::Path(net, source, destination) => self.shared_path(net, source, destination),
            Key::Seq(resource) => Ok(Key::Seq(self.shared_resource(resource)?)),
        }
    }

    /// The same key of a PID.
    fn shared_pid(&mut self, net: NetName, pid: PidName) -> Result<Key, AllocError>
        ensures { IfOk result (λ shared. shared ≡ key.Pid net pid) }
    {
        let (net, pid) = two_of(&mut self.nets, &mut self.pids, net, pid)?;
        Ok(Key::Pid(net, pid))
    }

    /// The same key of a prefix.
    fn shared_prefix(
        &mut self,
        net: NetName,
        pid: PidName,
        prefix: PackedPrefix,
    ) -> Result<Key, AllocError>
        ensures { IfOk result (λ shared. shared ≡ key.Prefix net pid prefix) }
    {
        let (net, pid) = two_of(&mut self.nets, &mut self.pids, net, pid)?;
        Ok(Key::Prefix(net, pid, prefix))
    }

    /// The same key of a metric.
    fn shared_metric(&mut self, net: NetName, metric: Metric) -> Result<Key, AllocError>
        ensures { IfOk result (λ shared. shared ≡ key.Metric net metric) }
    {
        let (net, metric) = two_of(&mut self.nets, &mut self.metrics, net, metric)?;
        Ok(Key::Metric(net, metric))
    }

    /// The same key of a cost.
    fn shared_cost(
        &mut self,
        net: NetName,
        metric: Metric,
        source: PidName,
        destination: PidName,
    ) -> Result<Key, AllocError>
        ensures { IfOk result (λ shared. shared ≡ key.Cost net metric source destination) }
    {
        let (net, metric) = two_of(&mut self.nets, &mut self.metrics, net, metric)?;
        let (source, destination) = self.shared_pids(source, destination)?;
        Ok(Key::Cost(net, metric, source, destination))
    }

    /// The same two PIDs.
    fn shared_pids(
        &mut self,
        source: PidName,
        destination: PidName,
    ) -> Result<(PidName, PidName), AllocError>
        ensures { IfOk result (λ both. (both.0 ≡ source) × (both.1 ≡ destination)) }
    {
        let source = one_of(&mut self.pids, source)?;
        let destination = one_of(&mut self.pids, destination)?;
        Ok((source, destination))
    }

    /// The same key of a property.
    fn shared_prop(
        &mut self,
        net: NetName,
        entity: Entity,
        property: PropName,
    ) -> Result<Key, AllocError>
        ensures { IfOk result (λ shared. shared ≡ key.Prop net entity property) }
    {
        let (net, property) = two_of(&mut self.nets, &mut self.properties, net, property)?;
        Ok(Key::Prop(net, self.shared_entity(entity)?, property))
    }

    /// The same key of an abstract network element.
    fn shared_ane(&mut self, net: NetName, ane: AneName) -> Result<Key, AllocError>
        ensures { IfOk result (λ shared. shared ≡ key.Ane net ane) }
    {
        let (net, ane) = two_of(&mut self.nets, &mut self.anes, net, ane)?;
        Ok(Key::Ane(net, ane))
    }

    /// The same key of an abstract network element's property.
    fn shared_ane_prop(
        &mut self,
        net: NetName,
        ane: AneName,
        property: PropName,
    ) -> Result<Key, AllocError>
        ensures { IfOk result (λ shared. shared ≡ key.AneProp net ane property) }
    {
        let (net, ane) = two_of(&mut self.nets, &mut self.anes, net, ane)?;
        Ok(Key::AneProp(net, ane, one_of(&mut self.properties, property)?))
    }

    /// The same key of a path.
    fn shared_path(
        &mut self,
        net: NetName,
        source: PidName,
        destination: PidName,
    ) -> Result<Key, AllocError>
        ensures { IfOk result (λ shared. shared ≡ key.Path net source destination) }
    {
        let net = one_of(&mut self.nets, net)?;
        let (source, destination) = self.shared_pids(source, destination)?;
        Ok(Key::Path(net, source, destination))
    }

    /// The same entity, so.
    fn shared_entity(&mut self, entity: Entity) -> Result<Entity, AllocError>
        ensures { IfOk result (λ shared. shared ≡ entity) }
    {
        Ok(match entity {
            Entity::Pid(pid) => Entity::Pid(one_of(&mut self.pids, pid)?),
            Entity::Block(block) => Entity::Block(block),
        })
    }

    /// The same resource, so.
    fn shared_resource(&mut self, resource: Resource) -> Result<Resource, AllocError>
        ensures { IfOk result (λ shared. shared ≡ resource) }
    {
        Ok(match resource {
            Resource::Net(net) => Resource::Net(one_of(&mut self.nets, net)?),
            Resource::Cost(net, metric) => {
                Resource::Cost(
                    one_of(&mut self.nets, net)?,
                    one_of(&mut self.metrics, metric)?,
                )
            }
            Resource::Prop(net) => Resource::Prop(one_of(&mut self.nets, net)?),
        })
    }
}

/// The same two names, of two sets.
fn two_of<A: Kind, B: Kind>(
    firsts: &mut BTreeSet<Label<A>>,
    seconds: &mut BTreeSet<Label<B>>,
    first: Label<A>,
    second: Label<B>,
) -> Result<(Label<A>, Label<B>), AllocError>
    ensures { IfOk result (λ both. (both.0 ≡ first) × (both.1 ≡ second)) }
{
    let one = one_of(firsts, first)?;
    let other = one_of(seconds, second)?;
    Ok((one, other))
}

/// The same name: a clone of that which stands among names, where it does, and else it stands there from now on.
fn one_of<K: Kind>(names: &mut BTreeSet<Label<K>>, name: Label<K>) -> Result<Label<K>, AllocError>
    ensures { IfOk result (λ one. one ≡ name) }
{
    if let Some(known) = names.get(&name) {
        let one = known.clone()?;
        return Ok(one);
    }
    names.insert(name.clone()?)?;
    Ok(name)
}
