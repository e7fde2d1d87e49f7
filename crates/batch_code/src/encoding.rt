ghost use Rattle.std.specs.Prelude.{◌≡◌, ◌≤◌, ◌∷◌, ◌++◌, All, IfOk, OnOk, Some, length};
ghost use Rattle.std.specs.List.{flat_map};
ghost use Rattle.alto_rows.specs.Order.{kind_of};
ghost use Rattle.code_bytes.specs.Pieces.{name, number};
ghost use Rattle.batch_code.specs.Spelling.{batch_bytes, entity_bytes, fields, head_bytes};
ghost use Rattle.batch_code.specs.Spelling.{resource_bytes, value_bytes, write_bytes};
ghost use Rattle.batch_code.specs.Storable.{IsShort, IsStored};

use alto_names::{AneName, Epoch, ImportId};
use alto_rows::{AneNames, Batch, Entity, Key, Resource, Value, Write};
use code_bytes::{push_name, push_prefix};
use json_tree::Name;
use std::alloc::{AllocError, Global};

/// The bytes of a batch.
pub fn encode(alloc: Global, batch: &Batch) -> Result<Vec<u8>, AllocError>
    requires few { length batch.now.writes ≤ 16384 }
    requires writes { All IsStored batch.now.writes }
    ensures { IfOk result (λ bytes. bytes.items ≡ batch_bytes batch.now) }
{
    let mut out = Vec::new(alloc);
    push_import(&mut out, &batch.id, &batch.digest, batch.moment)?;
    push_list(&mut out, &batch.writes)?;
    Ok(out)
}

/// Writes what a batch has of its import, and its moment.
fn push_import(
    out: &mut Vec<u8>,
    id: &ImportId,
    digest: &[u8],
    moment: u64,
) -> Result<(), AllocError>
    ensures { OnOk result (out.new.items
        ≡ out.old.items ++ (0x42 ∷ 0x01 ∷ (name id.now ++ (digest.now ++ number 8 moment)))) }
{
    out.push(0x42)?;
    out.push(0x01)?;
    push_name(out, id)?;
    out.extend_from_slice(digest)?;
    out.extend_from_slice(&moment.to_be_bytes())
}

/// Writes writes behind their number.
fn push_list(out: &mut Vec<u8>, writes: &[Write]) -> Result<(), AllocError>
    requires few { length writes.now ≤ 16384 }
    requires stored { All IsStored writes.now }
    ensures { OnOk result (out.new.items
        ≡ out.old.items ++ (number 4 (length writes.now) ++ flat_map write_bytes writes.now)) }
{
    out.extend_from_slice(&(writes.len() as u32).to_be_bytes())?;
    push_writes(out, writes)
}

/// The bytes of the row before the batches, for a window of 2 to 32.
pub fn encode_head(alloc: Global, epoch: &Epoch, window: u32) -> Result<Vec<u8>, AllocError>
    requires window { (2 ≤ window) × (window ≤ 32) }
    ensures { IfOk result (λ bytes. bytes.items ≡ head_bytes epoch.now window) }
{
    let mut out = Vec::new(alloc);
    out.push(0x41)?;
    out.push(0x01)?;
    push_name(&mut out, epoch)?;
    out.extend_from_slice(&window.to_be_bytes())?;
    Ok(out)
}

/// Writes writes.
fn push_writes(out: &mut Vec<u8>, writes: &[Write]) -> Result<(), AllocError>
    requires { All IsStored writes.now }
    ensures { OnOk result (out.new.items ≡ out.old.items ++ flat_map write_bytes writes.now) }
{
    for write in writes {
        push_write(out, write)?;
    }
    Ok(())
}

/// Writes a write.
pub(crate) fn push_write(out: &mut Vec<u8>, write: &Write) -> Result<(), AllocError>
    requires { IsStored write.now }
    ensures { OnOk result (out.new.items ≡ out.old.items ++ write_bytes write.now) }
{
    out.push(kind_number(&write.key))?;
    push_fields(out, &write.key)?;
    push_value(out, &write.value)
}

/// Writes the write that puts this value.
pub fn push_row(out: &mut Vec<u8>, key: &Key, value: &Value) -> Result<(), AllocError>
    requires { IsStored (record { key = key.now; value = Some value.now }) }
    ensures { OnOk result (out.new.items
        ≡ out.old.items ++ write_bytes (record { key = key.now; value = Some value.now })) }
{
    out.push(kind_number(key))?;
    push_fields(out, key)?;
    push_some(out, value)
}

/// The number of a key's kind.
fn kind_number(key: &Key) -> u8
    ensures { result ≡ kind_of key.now }
{
    match key {
        Key::Epoch => 1,
        Key::Window => 2,
        Key::Net(..) => 3,
        Key::Pid(..) => 4,
        Key::Prefix(..) => 5,
        Key::Metric(..) => 6,
        Key::Cost(..) => 7,
        Key::Prop(..) => 8,
        Key::Ane(..) => 9,
        Key::AneProp(..) => 10,
        Key::Path(..) => 11,
        Key::Seq(..) => 12,
    }
}

/// Writes the fields of a key.
fn push_fields(out: &mut Vec<u8>, key: &Key) -> Result<(), AllocError>
    ensures { OnOk result (out.new.items ≡ out.old.items ++ fields key.now) }
{
    match key {
        Key::Epoch | Key::Window => Ok(()),
        Key::Net(net) => push_name(out, net),
        Key::Pid(net, pid) => {
            push_name(out, net)?;
            push_name(out, pid)
        }
        Key::Prefix(net, pid, block) => {
            push_name(out, net)?;
            push_name(out, pid)?;
            push_prefix(out, &block.prefix())
        }
        Key::Metric(net, metric) => {
            push_name(out, net)?;
            push_name(out, metric)
        }
        Key::Cost(net, metric, source, destination) => {
            push_name(out, net)?;
            push_name(out, metric)?;
            push_name(out, source)?;
            push_name(out, destination)
        }
        Key::Prop(net, entity, property) => {
            push_name(out, net)?;
            push_entity(out, entity)?;
            push_name(out, property)
        }
        Key::Ane(net, ane) => {
            push_name(out, net)?;
            push_name(out, ane)
        }
        Key::AneProp(net, ane, property) => {
            push_name(out, net)?;
            push_name(out, ane)?;
            push_name(out, property)
        }
        Key::Path(net, source, destination) => {
            push_name(out, net)?;
            push_name(out, source)?;
            push_name(out, destination)
        }
        Key::Seq(of) => push_resource(out, of),
    }
}

/// Writes an entity.
fn push_entity(out: &mut Vec<u8>, entity: &Entity) -> Result<(), AllocError>
    ensures { OnOk result (out.new.items ≡ out.old.items ++ entity_bytes entity.now) }
{
    match entity {
        Entity::Block(block) => push_prefix(out, &block.prefix()),
        Entity::Pid(pid) => {
            out.push(0x50)?;
            push_name(out, pid)
        }
    }
}

/// Writes a resource.
fn push_resource(out: &mut Vec<u8>, of: &Resource) -> Result<(), AllocError>
    ensures { OnOk result (out.new.items ≡ out.old.items ++ resource_bytes of.now) }
{
    match of {
        Resource::Net(net) => {
            out.push(0x01)?;
            push_name(out, net)
        }
        Resource::Cost(net, metric) => {
            out.push(0x02)?;
            push_name(out, net)?;
            push_name(out, metric)
        }
        Resource::Prop(net) => {
            out.push(0x03)?;
            push_name(out, net)
        }
    }
}

/// Writes a value, or a deletion.
fn push_value(out: &mut Vec<u8>, value: &Option<Value>) -> Result<(), AllocError>
    requires { IsShort value.now }
    ensures { OnOk result (out.new.items ≡ out.old.items ++ value_bytes value.now) }
{
    match value {
        None => {
            out.push(0x00)?;
            Ok(())
        }
        Some(value) => push_some(out, value),
    }
}

/// Writes a value.
fn push_some(out: &mut Vec<u8>, value: &Value) -> Result<(), AllocError>
    requires { IsShort (Some value.now) }
    ensures { OnOk result (out.new.items ≡ out.old.items ++ value_bytes (Some value.now)) }
{
    match value {
        Value::Unit => {
            out.push(0x01)?;
            Ok(())
        }
        Value::Num(number) => {
            out.push(0x02)?;
            out.extend_from_slice(&number.to_be_bytes())
        }
        Value::Text(text) => {
            out.push(0x03)?;
            push_text(out, text)
        }
        Value::Names(names) => {
            out.push(0x04)?;
            push_anes(out, names)
        }
    }
}

/// Writes a text behind its length.
fn push_text(out: &mut Vec<u8>, text: &Name) -> Result<(), AllocError>
    requires { length text.now ≤ 65535 }
    ensures { OnOk result (out.new.items ≡ out.old.items ++ (number 2 (length text.now) ++ text.now)) }
{
    let bytes = text.as_str().as_bytes();
    out.extend_from_slice(&(bytes.len() as u16).to_be_bytes())?;
    out.extend_from_slice(bytes)
}

/// Writes names of abstract network elements behind their number.
fn push_anes(out: &mut Vec<u8>, names: &AneNames) -> Result<(), AllocError>
    requires { length names.now ≤ 64 }
    ensures { OnOk result (out.new.items ≡ out.old.items ++ (number 2 (length names.now) ++ flat_map name names.now)) }
{
    let list = names.as_slice();
    out.extend_from_slice(&(list.len() as u16).to_be_bytes())?;
    push_names(out, list)
}

/// Writes names of abstract network elements.
fn push_names(out: &mut Vec<u8>, names: &[AneName]) -> Result<(), AllocError>
    ensures { OnOk result (out.new.items ≡ out.old.items ++ flat_map name names.now) }
{
    for ane in names {
        push_name(out, ane)?;
    }
    Ok(())
}
