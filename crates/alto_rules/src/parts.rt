ghost use Rattle.std.specs.Prelude.{◌≡◌, IfOk};
ghost use Rattle.alto_edits.specs.Writes.{property_value};
ghost use Rattle.alto_rules.specs.Parts.{edit_key, edit_net, edit_value};

use crate::keys::{
    ane_key, ane_prop_key, cost_key, metric_key, net_key, path_key, pid_key, prefix_key, prop_key,
};
use alto_edits::{Edit, PropValue};
use alto_names::NetName;
use alto_rows::{Key, Value};
use std::alloc::AllocError;

/// The network of an edit.
pub fn edit_net(edit: &Edit) -> &NetName
    ensures { result.now ≡ edit_net edit.now }
{
    match edit {
        Edit::NetAdd { net }
        | Edit::NetDrop { net }
        | Edit::PidAdd { net, .. }
        | Edit::PidDrop { net, .. }
        | Edit::PrefixPut { net, .. }
        | Edit::PrefixDel { net, .. }
        | Edit::MetricAdd { net, .. }
        | Edit::MetricDrop { net, .. }
        | Edit::CostPut { net, .. }
        | Edit::CostDel { net, .. }
        | Edit::PropPut { net, .. }
        | Edit::PropDel { net, .. }
        | Edit::AneAdd { net, .. }
        | Edit::AneSet { net, .. }
        | Edit::PathPut { net, .. }
        | Edit::PathDel { net, .. } => net,
    }
}

/// The key that an edit is about.
pub fn edit_key(edit: &Edit) -> Result<Key, AllocError>
    ensures { IfOk result (λ key. key ≡ edit_key edit.now) }
{
    let net = edit_net(edit);
    match edit {
        Edit::NetAdd { .. } | Edit::NetDrop { .. } => net_key(net),
        Edit::PidAdd { pid, .. } | Edit::PidDrop { pid, .. } => pid_key(net, pid),
        Edit::PrefixPut { pid, prefix, .. } | Edit::PrefixDel { pid, prefix, .. } => {
            prefix_key(net, pid, prefix)
        }
        Edit::MetricAdd { metric, .. } | Edit::MetricDrop { metric, .. } => {
            metric_key(net, metric)
        }
        Edit::CostPut {
            metric,
            source,
            destination,
            ..
        }
        | Edit::CostDel {
            metric,
            source,
            destination,
            ..
        } => cost_key(net, metric, source, destination),
        Edit::PropPut { entity, name, .. } | Edit::PropDel { entity, name, .. } => {
            prop_key(net, entity, name)
        }
        Edit::AneAdd { ane, .. } => ane_key(net, ane),
        Edit::AneSet { ane, name, .. } => ane_prop_key(net, ane, name),
        Edit::PathPut {
            source,
            destination,
            ..
        }
        | Edit::PathDel {
            source,
            destination,
            ..
        } => path_key(net, source, destination),
    }
}

/// The value that an edit leaves at that key.
pub fn edit_value(edit: &Edit) -> Result<Option<Value>, AllocError>
    ensures { IfOk result (λ value. value ≡ edit_value edit.now) }
{
    Ok(match edit {
        Edit::NetAdd { .. }
        | Edit::PidAdd { .. }
        | Edit::PrefixPut { .. }
        | Edit::MetricAdd { .. }
        | Edit::AneAdd { .. } => Some(Value::Unit),
        Edit::CostPut { cost, .. } => Some(Value::Num(*cost)),
        Edit::PropPut { value, .. } => Some(property_value(value)?),
        Edit::AneSet { number, .. } => Some(Value::Num(*number)),
        Edit::PathPut { anes, .. } => Some(Value::Names(anes.clone()?)),
        Edit::NetDrop { .. }
        | Edit::PidDrop { .. }
        | Edit::PrefixDel { .. }
        | Edit::MetricDrop { .. }
        | Edit::CostDel { .. }
        | Edit::PropDel { .. }
        | Edit::PathDel { .. } => None,
    })
}

/// The value of a property as a row has it.
fn property_value(value: &PropValue) -> Result<Value, AllocError>
    ensures { IfOk result (λ copy. copy ≡ property_value value.now) }
{
    Ok(match value {
        PropValue::Text(text) => Value::Text(text.clone()?),
        PropValue::Number(n) => Value::Num(*n),
    })
}
