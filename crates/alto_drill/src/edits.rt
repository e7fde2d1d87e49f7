//! The edits of a drill's imports.
ghost use Rattle.std.specs.Prelude.{◌≡◌, ◌≤◌, [], ◌∷◌, ◌++◌, IfOk, OnOk};
ghost use Rattle.alto_rows.specs.declared.entity.Entity.TheVariants as entity;
ghost use Rattle.alto_edits.specs.declared.edit.Edit.TheVariants as edit;
ghost use Rattle.alto_edits.specs.declared.edit.PropValue.TheVariants as property;
ghost use Rattle.alto_drill.specs.Imports.{later_edits, metric_name, net_name, opening_edits, pid_name, prefix_of};
ghost use Rattle.alto_drill.specs.Imports.{property_name, renewal_edits};

use crate::choice::Choice;
use crate::names::{metric, net, pid, property};
use alto_addr::{Addr, Prefix};
use alto_edits::{Edit, PropValue};
use alto_rows::Entity;
use std::alloc::{AllocError, Global};

/// The edits of the first import.
#[tactic(auto, unfolding(crate::specs::Imports::opening_edits))]
pub(crate) fn opening_edits(alloc: Global) -> Result<Vec<Edit>, AllocError>
    ensures { IfOk result (λ edits. edits.items ≡ opening_edits) }
{
    let mut edits = Vec::with_capacity(alloc, 10)?;
    edits.push(net_add(alloc)?)?;
    for number in 0..8 {
        edits.push(pid_add(alloc, number)?)?;
    }
    edits.push(metric_add(alloc)?)?;
    Ok(edits)
}

/// The edits of import `k`, from the second on.
#[tactic(auto, unfolding(crate::specs::Imports::later_edits))]
pub(crate) fn later_edits(alloc: Global, k: u64, choice: Choice) -> Result<Vec<Edit>, AllocError>
    requires { k ≤ 1000 }
    ensures { IfOk result (λ edits. edits.items ≡ later_edits k choice) }
{
    let mut edits = Vec::with_capacity(alloc, 5)?;
    if k % 5 == 0 {
        renew(alloc, k / 5 % 8, &mut edits)?;
    }
    edits.push(prefix_put(alloc, choice.owner, block(k))?)?;
    edits.push(cost_put(alloc, choice.source, choice.destination, choice.cost)?)?;
    edits.push(prop_put(alloc, choice.holder, choice.color)?)?;
    Ok(edits)
}

/// Withdraws a PID and declares it again.
fn renew(alloc: Global, number: u64, edits: &mut Vec<Edit>) -> Result<(), AllocError>
    ensures { OnOk result (edits.new.items ≡ edits.old.items
        ++ edit.PidDrop net_name (pid_name number) ∷ edit.PidAdd net_name (pid_name number) ∷ []) }
{
    edits.push(pid_drop(alloc, number)?)?;
    edits.push(pid_add(alloc, number)?)?;
    Ok(())
}

fn net_add(alloc: Global) -> Result<Edit, AllocError>
    ensures { IfOk result (λ made. made ≡ edit.NetAdd net_name) }
{
    Ok(Edit::NetAdd { net: net(alloc)? })
}

fn metric_add(alloc: Global) -> Result<Edit, AllocError>
    ensures { IfOk result (λ made. made ≡ edit.MetricAdd net_name metric_name) }
{
    Ok(Edit::MetricAdd {
        net: net(alloc)?,
        metric: metric(alloc)?,
    })
}

fn pid_add(alloc: Global, number: u64) -> Result<Edit, AllocError>
    ensures { IfOk result (λ made. made ≡ edit.PidAdd net_name (pid_name number)) }
{
    Ok(Edit::PidAdd {
        net: net(alloc)?,
        pid: pid(alloc, number)?,
    })
}

fn pid_drop(alloc: Global, number: u64) -> Result<Edit, AllocError>
    ensures { IfOk result (λ made. made ≡ edit.PidDrop net_name (pid_name number)) }
{
    Ok(Edit::PidDrop {
        net: net(alloc)?,
        pid: pid(alloc, number)?,
    })
}

fn prefix_put(alloc: Global, owner: u64, prefix: Prefix) -> Result<Edit, AllocError>
    ensures { IfOk result (λ made. made ≡ edit.PrefixPut net_name (pid_name owner) prefix) }
{
    Ok(Edit::PrefixPut {
        net: net(alloc)?,
        pid: pid(alloc, owner)?,
        prefix,
    })
}

fn cost_put(alloc: Global, source: u64, destination: u64, cost: u64) -> Result<Edit, AllocError>
    ensures { IfOk result (λ made. made
        ≡ edit.CostPut net_name metric_name (pid_name source) (pid_name destination) cost) }
{
    Ok(Edit::CostPut {
        net: net(alloc)?,
        metric: metric(alloc)?,
        source: pid(alloc, source)?,
        destination: pid(alloc, destination)?,
        cost,
    })
}

fn prop_put(alloc: Global, holder: u64, color: u64) -> Result<Edit, AllocError>
    ensures { IfOk result (λ made. made
        ≡ edit.PropPut net_name (entity.Pid (pid_name holder)) property_name (property.Number color)) }
{
    Ok(Edit::PropPut {
        net: net(alloc)?,
        entity: Entity::Pid(pid(alloc, holder)?),
        name: property(alloc)?,
        value: PropValue::Number(color),
    })
}

/// The prefix of import `k`: `10.<k / 256>.<k mod 256>.0/24`.
#[tactic(auto, unfolding(crate::specs::Imports::prefix_of))]
fn block(k: u64) -> Prefix
    requires { k ≤ 1000 }
    ensures { result ≡ prefix_of k }
{
    let number = ((10 * 256 + k as u32 / 256) * 256 + k as u32 % 256) * 256;
    Prefix {
        addr: Addr::V4(number),
        len: 24,
    }
}
