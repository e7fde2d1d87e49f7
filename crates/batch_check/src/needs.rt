ghost use Rattle.std.specs.Prelude.{◌≡◌, ◌++◌, [], ◌∷◌, IfOk, map};
ghost use Rattle.std.specs.List.{list_any};
ghost use Rattle.alto_rows.specs.declared.key.Key.TheVariants as key;
ghost use Rattle.alto_rows.specs.Good as spec;
ghost use Rattle.alto_edits.specs.Rules.{lacks};
ghost use Rattle.batch_check.specs.Named as told;
ghost use Rattle.alto_rows.specs.Rows.{value_of};

use crate::lookup::has_row;
use alto_names::{AneName, Metric, NetName, PidName};
use alto_rows::{Entity, Key, RowStore, Value, Write};
use std::alloc::{AllocError, Global};

/// The keys that declare what a row names.
pub fn needs(alloc: Global, key: &Key, value: &Value) -> Result<Vec<Key>, AllocError>
    ensures { IfOk result (λ keys. keys.items ≡ spec.needs key.now value.now) }
{
    match key {
        Key::Pid(net, _) | Key::Metric(net, _) | Key::Ane(net, _) => only_net(alloc, net),
        Key::Prefix(net, pid, _) => net_and_pid(alloc, net, pid),
        Key::Cost(net, metric, source, destination) => {
            with_pids(
                net_and_metric(alloc, net, metric)?,
                net,
                source,
                destination,
            )
        }
        Key::Prop(net, entity, _) => entity_needs(alloc, net, entity),
        Key::AneProp(net, ane, _) => net_and_ane(alloc, net, ane),
        Key::Path(net, source, destination) => {
            let keys = with_pid(net_and_pid(alloc, net, source)?, net, destination)?;
            with_value_needs(keys, net, value)
        }
        Key::Epoch | Key::Window | Key::Net(_) | Key::Seq(_) => Ok(Vec::new(alloc)),
    }
}

/// The key that declares a network.
fn only_net(alloc: Global, net: &NetName) -> Result<Vec<Key>, AllocError>
    ensures { IfOk result (λ keys. keys.items ≡ key.Net net.now ∷ []) }
{
    let mut keys = Vec::new(alloc);
    keys.push(Key::Net(net.clone()?))?;
    Ok(keys)
}

/// The keys that declare a network and a PID of it.
fn net_and_pid(alloc: Global, net: &NetName, pid: &PidName) -> Result<Vec<Key>, AllocError>
    ensures { IfOk result (λ keys. keys.items ≡ key.Net net.now ∷ key.Pid net.now pid.now ∷ []) }
{
    with_pid(only_net(alloc, net)?, net, pid)
}

/// The keys that declare a network and a metric of it.
fn net_and_metric(alloc: Global, net: &NetName, metric: &Metric) -> Result<Vec<Key>, AllocError>
    ensures { IfOk result (λ keys. keys.items ≡ key.Net net.now ∷ key.Metric net.now metric.now ∷ []) }
{
    let mut keys = only_net(alloc, net)?;
    keys.push(Key::Metric(net.clone()?, metric.clone()?))?;
    Ok(keys)
}

/// The keys that declare a network and an abstract network element of it.
fn net_and_ane(alloc: Global, net: &NetName, ane: &AneName) -> Result<Vec<Key>, AllocError>
    ensures { IfOk result (λ keys. keys.items ≡ key.Net net.now ∷ key.Ane net.now ane.now ∷ []) }
{
    let mut keys = only_net(alloc, net)?;
    keys.push(Key::Ane(net.clone()?, ane.clone()?))?;
    Ok(keys)
}

/// Keys, and that which declares a PID.
fn with_pid(keys: Vec<Key>, net: &NetName, pid: &PidName) -> Result<Vec<Key>, AllocError>
    ensures { IfOk result (λ all. all.items ≡ keys.items ++ (key.Pid net.now pid.now ∷ [])) }
{
    let mut all = keys;
    all.push(Key::Pid(net.clone()?, pid.clone()?))?;
    Ok(all)
}

/// Keys, and those that declare two PIDs.
fn with_pids(
    keys: Vec<Key>,
    net: &NetName,
    source: &PidName,
    destination: &PidName,
) -> Result<Vec<Key>, AllocError>
    ensures { IfOk result (λ all. all.items
        ≡ (keys.items ++ (key.Pid net.now source.now ∷ [])) ++ (key.Pid net.now destination.now ∷ [])) }
{
    with_pid(with_pid(keys, net, source)?, net, destination)
}

/// The keys that declare a network and what an entity of it names.
fn entity_needs(alloc: Global, net: &NetName, entity: &Entity) -> Result<Vec<Key>, AllocError>
    ensures { IfOk result (λ keys. keys.items ≡ key.Net net.now ∷ spec.entity_needs net.now entity.now) }
{
    match entity {
        Entity::Block(_) => only_net(alloc, net),
        Entity::Pid(pid) => net_and_pid(alloc, net, pid),
    }
}

/// Keys, and those that declare the names in a value.
fn with_value_needs(keys: Vec<Key>, net: &NetName, value: &Value) -> Result<Vec<Key>, AllocError>
    ensures { IfOk result (λ all. all.items ≡ keys.items ++ spec.value_needs net.now value.now) }
{
    match value {
        Value::Names(anes) => with_anes(keys, net, anes.as_slice()),
        _ => Ok(keys),
    }
}

/// Keys, and those that declare these abstract network elements.
fn with_anes(keys: Vec<Key>, net: &NetName, anes: &[AneName]) -> Result<Vec<Key>, AllocError>
    ensures { IfOk result (λ all. all.items ≡ keys.items ++ map (key.Ane net.now) anes.now) }
{
    let mut all = keys;
    for ane in anes {
        all.push(Key::Ane(net.clone()?, ane.clone()?))?;
    }
    Ok(all)
}

/// Whether a row that is written names what isn't declared. Some searches for each write.
pub fn puts_orphan<R: RowStore>(
    alloc: Global,
    next: &R,
    writes: &[Write],
) -> Result<bool, AllocError>
    ensures { IfOk result (λ puts. puts ≡ told.puts_orphan (R.rows next.now) writes.now) }
{
    for write in writes {
        if orphans(alloc, next, &write.key)? {
            return Ok(true);
        }
    }
    Ok(false)
}

/// Whether the row of a key, if there is one, names what isn't declared.
fn orphans<R: RowStore>(alloc: Global, next: &R, key: &Key) -> Result<bool, AllocError>
    ensures { IfOk result (λ is. is ≡ told.orphans (R.rows next.now) key.now (value_of (R.rows next.now) key.now)) }
{
    match next.get(key) {
        Some(value) => {
            let keys = needs(alloc, key, value)?;
            Ok(lacks_some(next, &keys))
        }
        None => Ok(false),
    }
}

/// Whether one of the keys has no row.
fn lacks_some<R: RowStore>(next: &R, keys: &[Key]) -> bool
    ensures { result ≡ list_any (lacks (R.rows next.now)) keys.now }
{
    keys.iter().any(|key| !has_row(next, key))
}
