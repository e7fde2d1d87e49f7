ghost use Rattle.std.specs.Prelude.{◌≡◌, ◌||◌, [], IfOk, IsTrue, OnOk, Some, true};
ghost use Rattle.std.specs.BTreeSet.{BTreeSet, Updates as SetUpdates, contains};
ghost use Rattle.alto_rows.specs.Order.{resource_cmp};
ghost use Rattle.alto_rows.specs.declared.resource.Resource as resource;
ghost use Rattle.alto_rows.specs.Touches.{is_resource, part_of};
ghost use Rattle.alto_rules.specs.Written.{Gains, told};

use crate::shared::are_same;
use crate::written::Written;
use alto_rows::{Key, Resource};
use std::alloc::{AllocError, Global};
use std::collections::BTreeSet;

/// What a draft keeps of its writes, so that no question goes over them.
#[derive(Drop)]
pub struct Index {
    /// Which written keys have rows after the writes.
    pub written: Written,
    /// The resources that the writes are part of.
    pub parts: BTreeSet<Resource>,
}

impl Index {
    /// The index of no writes.
    pub fn new(alloc: Global) -> Index
        ensures put { result.written.put ≡ [] }
        ensures other { result.written.other.entries ≡ [] }
        ensures parts { result.parts.keys ≡ [] }
    {
        Index {
            written: Written::new(alloc),
            parts: BTreeSet::new(alloc),
        }
    }

    /// Whether a key has a row after the writes, `None` where no write is of the key. Two searches.
    pub fn has(&self, key: &Key) -> Option<bool>
        ensures { result ≡ told self.now.written key.now }
    {
        self.written.has(key)
    }

    /// Adds a write, whether its key has a row after it, and gives what `has` told before.
    pub fn add(&mut self, alloc: Global, key: &Key, has: bool) -> Result<Option<bool>, AllocError>
        ensures written { OnOk result (Gains self.old.written self.new.written key.now has) }
        ensures parts { OnOk result ((of : resource.Resource) → contains resource_cmp self.new.parts of
            ≡ (contains resource_cmp self.old.parts of || is_resource (part_of key.now) of)) }
        ensures old { IfOk result (λ before. before ≡ told self.old.written key.now) }
    {
        let before = self.written.add(alloc, key, has)?;
        add_part(&mut self.parts, key)?;
        Ok(before)
    }
}

/// Adds the resource that a key is part of. A few comparisons where this is the last one, else a search.
fn add_part(parts: &mut BTreeSet<Resource>, key: &Key) -> Result<(), AllocError>
    ensures { OnOk result ((of : resource.Resource) → contains resource_cmp parts.new of
        ≡ (contains resource_cmp parts.old of || is_resource (part_of key.now) of)) }
{
    if ends_with_part(parts, key) {
        return Ok(());
    }
    match part_of(key)? {
        Some(part) => add_resource(parts, part),
        None => Ok(()),
    }
}

/// Whether the last of the resources is the one that a key is part of.
fn ends_with_part(parts: &BTreeSet<Resource>, key: &Key) -> bool
    ensures { IsTrue result → (of : resource.Resource) → contains resource_cmp parts.now of
        ≡ (contains resource_cmp parts.now of || is_resource (part_of key.now) of) }
{
    match parts.last() {
        Some(last) => is_part_of(key, last),
        None => false,
    }
}

/// Whether a row is part of the document of a resource.
fn is_part_of(key: &Key, of: &Resource) -> bool
    ensures { IsTrue result → part_of key.now ≡ Some of.now }
{
    match (key, of) {
        (Key::Net(net) | Key::Pid(net, _) | Key::Prefix(net, _, _), Resource::Net(other))
        | (Key::Prop(net, _, _), Resource::Prop(other)) => are_same(net, other),
        (
            Key::Metric(net, metric) | Key::Cost(net, metric, _, _),
            Resource::Cost(other, other_metric),
        ) => are_same(net, other) && are_same(metric, other_metric),
        _ => false,
    }
}

/// Adds a resource.
pub fn add_resource(all: &mut BTreeSet<Resource>, more: Resource) -> Result<(), AllocError>
    ensures { OnOk result (SetUpdates resource_cmp all.old all.new more true) }
{
    all.insert(more)?;
    Ok(())
}

/// The resource whose document a row is part of.
fn part_of(key: &Key) -> Result<Option<Resource>, AllocError>
    ensures { IfOk result (λ part. part ≡ part_of key.now) }
{
    Ok(match key {
        Key::Net(net) | Key::Pid(net, _) | Key::Prefix(net, _, _) => {
            Some(Resource::Net(net.clone()?))
        }
        Key::Metric(net, metric) | Key::Cost(net, metric, _, _) => {
            Some(Resource::Cost(net.clone()?, metric.clone()?))
        }
        Key::Prop(net, _, _) => Some(Resource::Prop(net.clone()?)),
        _ => None,
    })
}
