ghost use Rattle.std.specs.Prelude.{◌≡◌, ◌≢◌, ◌∷◌, ◌++◌, ℕ, List, Ok, IfOk, IfErr, MatchOption};
ghost use Rattle.alto_names.specs.Name.{named};
ghost use Rattle.alto_rows.specs.Good.{IsEntity, IsResource};
ghost use Rattle.code_bytes.specs.Pieces.{Names, name};
ghost use Rattle.code_bytes.specs.Stuck.{Pair, Stops};
ghost use Rattle.batch_code.specs.Grammar.{Entities, Fields, Resources, key_number};
ghost use Rattle.batch_code.specs.Spelling.{entity_bytes, resource_bytes};
ghost use Rattle.batch_code.specs.Storable.{IsKeyAt};
ghost use Rattle.batch_code.specs.declared.kinds.KeyKind.TheVariants as kind;

use crate::kinds::{KeyKind, ResourceKind};
use alto_names::{AneKind, Kind, Label, MetricKind, NetKind, PidKind, PropKind};
use alto_rows::{Entity, Key, PackedPrefix, Resource};
use code_bytes::{Stop, first_byte, read_name, read_prefix};
use std::alloc::Global;

/// Reads two names.
fn read_names<A: Kind, B: Kind>(
    alloc: Global,
    bytes: &[u8],
) -> Result<((Label<A>, Label<B>), &[u8]), Stop>
    ensures ok { IfOk result (λ x. (named A.alphabet A.LONGEST x.0.0 ≡ Ok x.0.0)
        × (named B.alphabet B.LONGEST x.0.1 ≡ Ok x.0.1)
        × (bytes.now ≡ (name x.0.0 ++ name x.0.1) ++ x.1.now)) }
    ensures stops { IfErr result (Stops (Pair (Names A.alphabet A.LONGEST) (Names B.alphabet B.LONGEST)) bytes.now) }
{
    let (first, rest) = read_name(alloc, bytes)?;
    let (second, rest) = read_name(alloc, rest)?;
    Ok(((first, second), rest))
}

/// Reads an entity.
fn read_entity(alloc: Global, bytes: &[u8]) -> Result<(Entity, &[u8]), Stop>
    ensures ok { IfOk result (λ x. IsEntity x.0 × (bytes.now ≡ entity_bytes x.0 ++ x.1.now)) }
    ensures stops { IfErr result (Stops Entities bytes.now) }
{
    if let Some(rest) = behind_pid(bytes) {
        let (pid, rest) = read_name(alloc, rest)?;
        return Ok((Entity::Pid(pid), rest));
    }
    let (block, rest) = read_prefix(bytes)?;
    Ok((Entity::Block(PackedPrefix::new(&block)), rest))
}

/// What is behind the byte of a PID, where the bytes begin with it.
fn behind_pid(bytes: &[u8]) -> Option<&[u8]>
    ensures { MatchOption result ((rest : List ℕ) → bytes.now ≢ 0x50 ∷ rest) (λ rest. bytes.now ≡ 0x50 ∷ rest.now) }
{
    match bytes {
        [0x50, rest @ ..] => Some(rest),
        _ => None,
    }
}

/// Reads a resource.
fn read_resource(alloc: Global, bytes: &[u8]) -> Result<(Resource, &[u8]), Stop>
    ensures ok { IfOk result (λ x. IsResource x.0 × (bytes.now ≡ resource_bytes x.0 ++ x.1.now)) }
    ensures stops { IfErr result (Stops Resources bytes.now) }
{
    let Some((number, rest)) = first_byte(bytes) else {
        return Err(Stop::Left(0));
    };
    match ResourceKind::of(number) {
        Some(ResourceKind::Net) => {
            let (net, rest) = read_name(alloc, rest)?;
            Ok((Resource::Net(net), rest))
        }
        Some(ResourceKind::Cost) => {
            let ((net, metric), rest) = read_names(alloc, rest)?;
            Ok((Resource::Cost(net, metric), rest))
        }
        Some(ResourceKind::Prop) => {
            let (net, rest) = read_name(alloc, rest)?;
            Ok((Resource::Prop(net), rest))
        }
        None => Err(Stop::Left(bytes.len())),
    }
}

/// Reads the fields of a key of this kind.
pub(crate) fn read_key(alloc: Global, of: KeyKind, bytes: &[u8]) -> Result<(Key, &[u8]), Stop>
    ensures ok { IfOk result (λ x. IsKeyAt (key_number of) bytes.now x.0 x.1.now) }
    ensures stops { IfErr result (Stops (Fields of) bytes.now) }
{
    match of {
        KeyKind::Net => read_net(alloc, bytes),
        KeyKind::Pid => read_pid(alloc, bytes),
        KeyKind::Prefix => read_block(alloc, bytes),
        KeyKind::Metric => read_metric(alloc, bytes),
        KeyKind::Cost => read_cost(alloc, bytes),
        KeyKind::Prop => read_prop(alloc, bytes),
        KeyKind::Ane => read_ane(alloc, bytes),
        KeyKind::AneProp => read_ane_prop(alloc, bytes),
        KeyKind::Path => read_path(alloc, bytes),
        KeyKind::Seq => read_seq(alloc, bytes),
    }
}

/// Reads the field of a network's key.
fn read_net(alloc: Global, bytes: &[u8]) -> Result<(Key, &[u8]), Stop>
    ensures ok { IfOk result (λ x. IsKeyAt 3 bytes.now x.0 x.1.now) }
    ensures stops { IfErr result (Stops (Fields kind.Net) bytes.now) }
{
    let (net, rest) = read_name(alloc, bytes)?;
    Ok((Key::Net(net), rest))
}

/// Reads the fields of a PID's key.
fn read_pid(alloc: Global, bytes: &[u8]) -> Result<(Key, &[u8]), Stop>
    ensures ok { IfOk result (λ x. IsKeyAt 4 bytes.now x.0 x.1.now) }
    ensures stops { IfErr result (Stops (Fields kind.Pid) bytes.now) }
{
    let ((net, pid), rest) = read_names(alloc, bytes)?;
    Ok((Key::Pid(net, pid), rest))
}

/// Reads the fields of a prefix's key.
fn read_block(alloc: Global, bytes: &[u8]) -> Result<(Key, &[u8]), Stop>
    ensures ok { IfOk result (λ x. IsKeyAt 5 bytes.now x.0 x.1.now) }
    ensures stops { IfErr result (Stops (Fields kind.Prefix) bytes.now) }
{
    let ((net, pid), rest) = read_names::<NetKind, PidKind>(alloc, bytes)?;
    let (block, rest) = read_prefix(rest)?;
    Ok((Key::Prefix(net, pid, PackedPrefix::new(&block)), rest))
}

/// Reads the fields of a metric's key.
fn read_metric(alloc: Global, bytes: &[u8]) -> Result<(Key, &[u8]), Stop>
    ensures ok { IfOk result (λ x. IsKeyAt 6 bytes.now x.0 x.1.now) }
    ensures stops { IfErr result (Stops (Fields kind.Metric) bytes.now) }
{
    let ((net, metric), rest) = read_names(alloc, bytes)?;
    Ok((Key::Metric(net, metric), rest))
}

/// Reads the fields of a cost's key.
fn read_cost(alloc: Global, bytes: &[u8]) -> Result<(Key, &[u8]), Stop>
    ensures ok { IfOk result (λ x. IsKeyAt 7 bytes.now x.0 x.1.now) }
    ensures stops { IfErr result (Stops (Fields kind.Cost) bytes.now) }
{
    let ((net, metric), rest) = read_names::<NetKind, MetricKind>(alloc, bytes)?;
    let ((source, destination), rest) = read_names::<PidKind, PidKind>(alloc, rest)?;
    Ok((Key::Cost(net, metric, source, destination), rest))
}

/// Reads the fields of a property's key.
fn read_prop(alloc: Global, bytes: &[u8]) -> Result<(Key, &[u8]), Stop>
    ensures ok { IfOk result (λ x. IsKeyAt 8 bytes.now x.0 x.1.now) }
    ensures stops { IfErr result (Stops (Fields kind.Prop) bytes.now) }
{
    let (net, rest) = read_name::<NetKind>(alloc, bytes)?;
    let (entity, rest) = read_entity(alloc, rest)?;
    let (property, rest) = read_name::<PropKind>(alloc, rest)?;
    Ok((Key::Prop(net, entity, property), rest))
}

/// Reads the fields of an abstract network element's key.
fn read_ane(alloc: Global, bytes: &[u8]) -> Result<(Key, &[u8]), Stop>
    ensures ok { IfOk result (λ x. IsKeyAt 9 bytes.now x.0 x.1.now) }
    ensures stops { IfErr result (Stops (Fields kind.Ane) bytes.now) }
{
    let ((net, ane), rest) = read_names(alloc, bytes)?;
    Ok((Key::Ane(net, ane), rest))
}

/// Reads the fields of the key of an abstract network element's property.
fn read_ane_prop(alloc: Global, bytes: &[u8]) -> Result<(Key, &[u8]), Stop>
    ensures ok { IfOk result (λ x. IsKeyAt 10 bytes.now x.0 x.1.now) }
    ensures stops { IfErr result (Stops (Fields kind.AneProp) bytes.now) }
{
    let ((net, ane), rest) = read_names::<NetKind, AneKind>(alloc, bytes)?;
    let (property, rest) = read_name::<PropKind>(alloc, rest)?;
    Ok((Key::AneProp(net, ane, property), rest))
}

/// Reads the fields of a path's key.
fn read_path(alloc: Global, bytes: &[u8]) -> Result<(Key, &[u8]), Stop>
    ensures ok { IfOk result (λ x. IsKeyAt 11 bytes.now x.0 x.1.now) }
    ensures stops { IfErr result (Stops (Fields kind.Path) bytes.now) }
{
    let (net, rest) = read_name::<NetKind>(alloc, bytes)?;
    let ((source, destination), rest) = read_names::<PidKind, PidKind>(alloc, rest)?;
    Ok((Key::Path(net, source, destination), rest))
}

/// Reads the field of a version's key.
fn read_seq(alloc: Global, bytes: &[u8]) -> Result<(Key, &[u8]), Stop>
    ensures ok { IfOk result (λ x. IsKeyAt 12 bytes.now x.0 x.1.now) }
    ensures stops { IfErr result (Stops (Fields kind.Seq) bytes.now) }
{
    let (of, rest) = read_resource(alloc, bytes)?;
    Ok((Key::Seq(of), rest))
}
