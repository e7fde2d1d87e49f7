ghost use Rattle.std.specs.Prelude.{◌≡◌, IfOk};
ghost use Rattle.alto_rows.specs.declared.key.Key.TheVariants as keys;

use alto_addr::Prefix;
use alto_names::{AneName, Metric, NetName, PidName, PropName};
use alto_rows::{Entity, Key, PackedPrefix};
use std::alloc::AllocError;

/// The key of a network.
pub fn net_key(net: &NetName) -> Result<Key, AllocError>
    ensures { IfOk result (λ key. key ≡ keys.Net net.now) }
{
    Ok(Key::Net(net.clone()?))
}

/// The key of a PID.
pub fn pid_key(net: &NetName, pid: &PidName) -> Result<Key, AllocError>
    ensures { IfOk result (λ key. key ≡ keys.Pid net.now pid.now) }
{
    Ok(Key::Pid(net.clone()?, pid.clone()?))
}

/// The key of a prefix in a PID.
pub fn prefix_key(net: &NetName, pid: &PidName, prefix: &Prefix) -> Result<Key, AllocError>
    ensures { IfOk result (λ key. key ≡ keys.Prefix net.now pid.now prefix.now) }
{
    let net = net.clone()?;
    Ok(Key::Prefix(net, pid.clone()?, PackedPrefix::new(prefix)))
}

/// The key of a cost metric.
pub fn metric_key(net: &NetName, metric: &Metric) -> Result<Key, AllocError>
    ensures { IfOk result (λ key. key ≡ keys.Metric net.now metric.now) }
{
    Ok(Key::Metric(net.clone()?, metric.clone()?))
}

/// The key of a cost.
pub fn cost_key(
    net: &NetName,
    metric: &Metric,
    source: &PidName,
    destination: &PidName,
) -> Result<Key, AllocError>
    ensures { IfOk result (λ key. key ≡ keys.Cost net.now metric.now source.now destination.now) }
{
    let net = net.clone()?;
    let metric = metric.clone()?;
    Ok(Key::Cost(net, metric, source.clone()?, destination.clone()?))
}

/// The key of a property.
pub fn prop_key(net: &NetName, entity: &Entity, name: &PropName) -> Result<Key, AllocError>
    ensures { IfOk result (λ key. key ≡ keys.Prop net.now entity.now name.now) }
{
    Ok(Key::Prop(net.clone()?, entity.clone()?, name.clone()?))
}

/// The key of an abstract network element.
pub fn ane_key(net: &NetName, ane: &AneName) -> Result<Key, AllocError>
    ensures { IfOk result (λ key. key ≡ keys.Ane net.now ane.now) }
{
    Ok(Key::Ane(net.clone()?, ane.clone()?))
}

/// The key of a property of an abstract network element.
pub fn ane_prop_key(net: &NetName, ane: &AneName, name: &PropName) -> Result<Key, AllocError>
    ensures { IfOk result (λ key. key ≡ keys.AneProp net.now ane.now name.now) }
{
    Ok(Key::AneProp(net.clone()?, ane.clone()?, name.clone()?))
}

/// The key of a path.
pub fn path_key(net: &NetName, source: &PidName, destination: &PidName) -> Result<Key, AllocError>
    ensures { IfOk result (λ key. key ≡ keys.Path net.now source.now destination.now) }
{
    Ok(Key::Path(net.clone()?, source.clone()?, destination.clone()?))
}
