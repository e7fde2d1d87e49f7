ghost use Rattle.std.specs.Prelude.{◌≡◌, ◌+◌, ◌++◌, ◌^◌, ◌<◌, ◌∷◌, [], IfOk, true, filter, map, option_copied};
ghost use Rattle.std.specs.BTreeSet.{Updates, contains};
ghost use Rattle.std.specs.List.{filter_map, flat_map};
ghost use Rattle.alto_rows.specs.declared.key.Key.TheVariants as key;
ghost use Rattle.alto_rows.specs.declared.resource.Resource as resource;
ghost use Rattle.alto_rows.specs.declared.span.Span.TheVariants as span;
ghost use Rattle.alto_rows.specs.Order.{resource_cmp};
ghost use Rattle.alto_rows.specs.Versions.{declaring_key, is_declared, number_in, version_of};
ghost use Rattle.alto_edits.specs.Laws.{HaveNextVersions};
ghost use Rattle.alto_edits.specs.Versions.{next_version, sequence_writes};
ghost use Rattle.alto_rules.specs.Withdrawal.{named_in};
ghost use Rattle.alto_rules.specs.Draft.{HasJoined, HasTouched, HaveNoVersions, cost_of, costs_of, dependents};
ghost use Rattle.alto_rules.specs.Draft.{drafted_rows, is_among, wrote};

use crate::draft::Draft;
use crate::index::add_resource;
use crate::keys::net_key;
use crate::withdrawal::named_in;
use alto_names::{Metric, NetName};
use alto_rows::{Key, Resource, RowStore, Span, Value, Write};
use std::alloc::{AllocError, Global};
use std::collections::BTreeSet;

impl<'a, R: RowStore> Draft<'a, R> {
    /// The draft with the version rows of the declared resources that its writes touch. Some searches for each, and for
    /// a network's map a walk over its metrics.
    pub fn versioned(self) -> Result<Self, AllocError>
        requires edits { HaveNoVersions self.writes }
        requires room { HaveNextVersions self.rows }
        ensures { IfOk result (λ draft. draft ≡ wrote self.entry (sequence_writes self.entry.rows self.entry.writes)) }
    {
        let versions = self.versions()?;
        let mut draft = self;
        for version in versions {
            draft = draft.write(version.key, version.value)?;
        }
        Ok(draft)
    }

    /// The version rows of the declared resources that the writes touch.
    fn versions(&self) -> Result<Vec<Write>, AllocError>
        requires edits { HaveNoVersions self.now.writes }
        requires room { HaveNextVersions self.now.rows }
        ensures { IfOk result (λ versions. versions.items ≡ sequence_writes self.now.rows self.now.writes) }
    {
        let mut versions = Vec::new(*self.writes.allocator());
        for of in self.touched()? {
            versions = self.with_version(versions, of)?;
        }
        Ok(versions)
    }

    /// The version rows with that of a resource, where it is declared.
    fn with_version(&self, versions: Vec<Write>, of: Resource) -> Result<Vec<Write>, AllocError>
        requires { HaveNextVersions self.now.rows }
        ensures { IfOk result (λ all. all.items ≡ versions.items
            ++ map (next_version self.now.rows) (filter (is_declared (drafted_rows self.now)) (of ∷ []))) }
    {
        match self.declares(&of) {
            Ok(true) => with_write(versions, self.next_version(of)),
            Ok(false) => {
                // a call: dropped in place the resource takes long to prove, variant by variant
                drop(of);
                Ok(versions)
            }
            Err(fault) => {
                drop(of);
                Err(fault)
            }
        }
    }

    /// Whether the resource is declared after the writes.
    fn declares(&self, of: &Resource) -> Result<bool, AllocError>
        ensures { IfOk result (λ declares. declares ≡ is_declared (drafted_rows self.now) of.now) }
    {
        let key = declaring_key(of)?;
        let declares = self.has(&key);
        drop(key);
        Ok(declares)
    }

    /// The resources that the writes touch, and perhaps some that aren't declared.
    fn touched(&self) -> Result<BTreeSet<Resource>, AllocError>
        requires { HaveNoVersions self.now.writes }
        ensures { IfOk result (λ touched. HasTouched self.now.rows self.now.writes touched) }
    {
        all_dependents(*self.writes.allocator(), self.rows, &self.kept.index.parts)
    }

    /// The write that gives a resource its next version.
    fn next_version(&self, of: Resource) -> Write
        requires { version_of self.now.rows of + 1 < 2 ^ 63 }
        ensures { result ≡ next_version self.now.rows of }
    {
        next_version(self.rows, of)
    }
}

/// The writes with one more.
fn with_write(writes: Vec<Write>, write: Write) -> Result<Vec<Write>, AllocError>
    ensures { IfOk result (λ all. all.items ≡ writes.items ++ write ∷ []) }
{
    let mut all = writes;
    all.push(write)?;
    Ok(all)
}

/// The resources with what depends on them.
fn all_dependents<R: RowStore>(
    alloc: Global,
    rows: &R,
    parts: &BTreeSet<Resource>,
) -> Result<BTreeSet<Resource>, AllocError>
    ensures { IfOk result (λ all. (one : resource.Resource)
        → contains resource_cmp all one ≡ is_among one (flat_map (dependents (R.rows rows.now)) parts.now.keys)) }
{
    let mut all = BTreeSet::new(alloc);
    for of in parts {
        all = with_dependents(alloc, rows, all, of)?;
    }
    Ok(all)
}

/// The resources with one more and what depends on it: with a network map the network's property map and its cost maps.
fn with_dependents<R: RowStore>(
    alloc: Global,
    rows: &R,
    touched: BTreeSet<Resource>,
    of: &Resource,
) -> Result<BTreeSet<Resource>, AllocError>
    ensures { IfOk result (λ all. HasJoined touched (dependents (R.rows rows.now) of.now) all) }
{
    match of {
        Resource::Net(net) => with_map(alloc, rows, touched, net),
        _ => with_resource(touched, copied_resource(of)?),
    }
}

/// The resources with a network's map, its property map and its cost maps.
fn with_map<R: RowStore>(
    alloc: Global,
    rows: &R,
    touched: BTreeSet<Resource>,
    net: &NetName,
) -> Result<BTreeSet<Resource>, AllocError>
    ensures { IfOk result (λ all. HasJoined touched (dependents (R.rows rows.now) (Resource.Net net.now)) all) }
{
    let with_net = with_resource(touched, Resource::Net(net.clone()?))?;
    let with_prop = with_resource(with_net, Resource::Prop(net.clone()?))?;
    let all = with_costs(alloc, rows, with_prop, net)?;
    Ok(all)
}

/// The resources with the cost maps that the rows declare of a network.
fn with_costs<R: RowStore>(
    alloc: Global,
    rows: &R,
    touched: BTreeSet<Resource>,
    net: &NetName,
) -> Result<BTreeSet<Resource>, AllocError>
    ensures { IfOk result (λ all. HasJoined touched (costs_of (R.rows rows.now) net.now) all) }
{
    let metrics = metrics_in(alloc, rows, net)?;
    with_metrics(touched, &metrics)
}

/// The keys of the metrics that the rows declare of a network.
fn metrics_in<R: RowStore>(alloc: Global, rows: &R, net: &NetName) -> Result<Vec<Key>, AllocError>
    ensures { IfOk result (λ all. all.items ≡ named_in (R.rows rows.now) (span.Metrics net.now) (key.Net net.now)) }
{
    let declared = net_key(net)?;
    let metrics = metrics_named(alloc, rows, net, &declared);
    drop(declared);
    metrics
}

/// The keys of the metrics of a network that name what a key declares.
fn metrics_named<R: RowStore>(
    alloc: Global,
    rows: &R,
    net: &NetName,
    declared: &Key,
) -> Result<Vec<Key>, AllocError>
    ensures { IfOk result (λ all. all.items ≡ named_in (R.rows rows.now) (span.Metrics net.now) declared.now) }
{
    named_in(alloc, rows, Span::Metrics(net.clone()?), declared)
}

/// The resources with the cost maps of keys that declare them.
fn with_metrics(touched: BTreeSet<Resource>, keys: &[Key]) -> Result<BTreeSet<Resource>, AllocError>
    ensures { IfOk result (λ all. HasJoined touched (filter_map cost_of keys.now) all) }
{
    let mut all = touched;
    for key in keys {
        all = with_cost(all, key)?;
    }
    Ok(all)
}

/// The resources with the cost map of a key that declares one.
fn with_cost(touched: BTreeSet<Resource>, key: &Key) -> Result<BTreeSet<Resource>, AllocError>
    ensures { IfOk result (λ all. HasJoined touched (filter_map cost_of (key.now ∷ [])) all) }
{
    match key {
        Key::Metric(net, metric) => with_resource(touched, cost(net, metric)?),
        _ => Ok(touched),
    }
}

/// The cost map of a metric.
fn cost(net: &NetName, metric: &Metric) -> Result<Resource, AllocError>
    ensures { IfOk result (λ cost. cost ≡ Resource.Cost net.now metric.now) }
{
    Ok(Resource::Cost(net.clone()?, metric.clone()?))
}

/// The key that declares a resource.
fn declaring_key(of: &Resource) -> Result<Key, AllocError>
    ensures { IfOk result (λ key. key ≡ declaring_key of.now) }
{
    Ok(match of {
        Resource::Net(net) | Resource::Prop(net) => Key::Net(net.clone()?),
        Resource::Cost(net, metric) => Key::Metric(net.clone()?, metric.clone()?),
    })
}

/// The resources with one more.
fn with_resource(all: BTreeSet<Resource>, more: Resource) -> Result<BTreeSet<Resource>, AllocError>
    ensures { IfOk result (λ after. Updates resource_cmp all after more true) }
{
    let mut after = all;
    add_resource(&mut after, more)?;
    Ok(after)
}

/// A copy of a resource.
fn copied_resource(of: &Resource) -> Result<Resource, AllocError>
    ensures { IfOk result (λ copy. copy ≡ of.now) }
{
    of.clone()
}

/// The write that gives a resource its next version.
fn next_version<R: RowStore>(rows: &R, of: Resource) -> Write
    requires { version_of (R.rows rows.now) of + 1 < 2 ^ 63 }
    ensures { result ≡ next_version (R.rows rows.now) of }
{
    let key = Key::Seq(of);
    let version = number_in(rows.get(&key));
    Write {
        key,
        value: Some(Value::Num(version + 1)),
    }
}

/// A row's number, 0 where it has none.
fn number_in(value: Option<&Value>) -> u64
    ensures { result ≡ number_in (option_copied value.entry) }
{
    match value {
        Some(Value::Num(n)) => *n,
        _ => 0,
    }
}
