//! The rows of the PIDs that costs go to, mostly one behind another.
ghost use Rattle.std.specs.Prelude.{◌≡◌, IfOk, IfSome, true};
ghost use Rattle.alto_rows.specs.declared.key.Key.TheVariants as keys;
ghost use Rattle.alto_rows.specs.Rows.{Rows, has_row};
ghost use Rattle.alto_rules.specs.Kept.{HasAll};

use crate::keys::pid_key;
use crate::shared::are_same;
use alto_names::{NetName, PidName};
use alto_rows::{Key, RowStore, Value};
use std::alloc::AllocError;

/// The rows from a PID's on that lie together, none where it has no row. Two comparisons where the known rows begin at
/// it or at the row before it. Where none are known and the cost follows one of the same origin, whose PID had no row,
/// there is no search, and none are known then either. Else one search.
pub fn pids_from<'a, R: RowStore>(
    rows: &'a R,
    known: &'a [(Key, Value)],
    net: &NetName,
    pid: &PidName,
    follows: bool,
) -> Result<&'a [(Key, Value)], AllocError>
    requires { HasAll (R.rows rows.now) known.now }
    ensures { IfOk result (λ pids. HasAll (R.rows rows.now) pids.now) }
{
    match led_to(known, net, pid) {
        Some(pids) => Ok(pids),
        None if follows && known.is_empty() => Ok(known),
        None => searched(rows, net, pid),
    }
}

/// The same, by the search.
fn searched<'a, R: RowStore>(
    rows: &'a R,
    net: &NetName,
    pid: &PidName,
) -> Result<&'a [(Key, Value)], AllocError>
    ensures { IfOk result (λ pids. HasAll (R.rows rows.now) pids.now) }
{
    let key = pid_key(net, pid)?;
    let pids = rows.run_from(&key);
    // a call: dropped in place the key takes long to prove, variant by variant
    drop(key);
    Ok(if_first(pids, net, pid))
}

/// These rows, where the first is a PID's; else none.
fn if_first<'a>(pids: &'a [(Key, Value)], net: &NetName, pid: &PidName) -> &'a [(Key, Value)]
    ensures { (rows : Rows) → HasAll rows pids.now → HasAll rows result.now }
{
    match first_pid(pids, net, pid) {
        Some(_) => pids,
        None => &[],
    }
}

/// Known rows from a PID's on, where that is the second of them or the first.
fn led_to<'a>(known: &'a [(Key, Value)], net: &NetName, pid: &PidName) -> Option<&'a [(Key, Value)]>
    ensures { (rows : Rows) → HasAll rows known.now → IfSome result (λ pids. HasAll rows pids.now) }
{
    let (_, behind) = known.split_first()?;
    if first_pid(behind, net, pid).is_some() {
        return Some(behind);
    }
    if first_pid(known, net, pid).is_some() {
        return Some(known);
    }
    None
}

/// A PID's name as the first of some rows has it, where that row is the PID's. One comparison.
pub fn first_pid<'a>(pids: &'a [(Key, Value)], net: &NetName, pid: &PidName) -> Option<&'a PidName>
    ensures name { IfSome result (λ name. name.now ≡ pid.now) }
    ensures row { IfSome result (λ _. has_row pids.now (keys.Pid net.now pid.now) ≡ true) }
{
    let (key, _) = pids.first()?;
    match key {
        Key::Pid(of, name) if are_same(of, net) && are_same(name, pid) => Some(name),
        _ => None,
    }
}
