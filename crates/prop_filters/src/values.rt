//! The properties of an entity, as JSON.
ghost use Rattle.std.specs.Prelude.{◌≡◌, ◌==◌, None, IfOk, MatchOption, option_copied, option_map, if◌then◌else◌};
ghost use Rattle.json_tree.specs.Tree.{data_of};
ghost use Rattle.alto_addr.specs.Bits.{width_of};
ghost use Rattle.alto_names.specs.Name.{IsPropName};
ghost use Rattle.alto_rows.specs.Good.{AreGood};
ghost use Rattle.alto_rows.specs.Order.{same_name};
ghost use Rattle.alto_rows.specs.Prefixes.{prefixes_in};
ghost use Rattle.alto_rows.specs.Rows.{value_of};
ghost use Rattle.alto_rows.specs.declared.entity.Entity.TheVariants as entities;
ghost use Rattle.alto_rows.specs.declared.key.Key.TheVariants as key;
ghost use Rattle.alto_rows.specs.declared.value.Value.TheVariants as values;
ghost use Rattle.pid_prefix.specs.Longest.{longest_prefix};
ghost use Rattle.prop_docs.specs.PropertyMap.{value_data};
ghost use Rattle.prop_filters.specs.Filter.{pid_property, property_of};

use crate::inherit::inherited;
use alto_addr::{Addr, Prefix};
use alto_names::{NameFault, NetName, PidName, PropName};
use alto_rows::{Entity, Key, RowStore, Value};
use json_tree::{Name, Tree};
use pid_prefix::RangeTable;
use prop_docs::value_tree;
use std::alloc::{AllocError, Global};

/// The value of a property of an entity, `None` exactly where it has none. For a PID one search of the rows; for a
/// block at most 33 or 129, and for its PID one of the table.
pub(crate) fn property_of<R: RowStore>(
    alloc: Global,
    rows: &R,
    net: &NetName,
    table: &RangeTable,
    entity: &Entity,
    name: &Name,
) -> Result<Option<Tree>, AllocError>
    requires good { AreGood (R.rows rows.now) }
    requires table { table.now ≡ prefixes_in (R.rows rows.now) net.now }
    ensures { IfOk result (λ found. option_map data_of found
        ≡ option_map value_data (property_of (R.rows rows.now) net.now entity.now name.now)) }
{
    match entity {
        Entity::Block(block) => property_of_block(alloc, rows, net, table, &block.prefix(), name),
        Entity::Pid(pid) => property_of_pid(alloc, rows, net, pid, name),
    }
}

/// The value of a property of a PID.
fn property_of_pid<R: RowStore>(
    alloc: Global,
    rows: &R,
    net: &NetName,
    pid: &PidName,
    name: &Name,
) -> Result<Option<Tree>, AllocError>
    requires { AreGood (R.rows rows.now) }
    ensures { IfOk result (λ found. option_map data_of found
        ≡ option_map value_data (property_of (R.rows rows.now) net.now (entities.Pid pid.now) name.now)) }
{
    match read_name(alloc, name)? {
        Some(name) => {
            let key = pid_key(net, pid, name)?;
            let value = shown(alloc, rows.get(&key));
            // a key that is let go by a call is cheaper to prove than one that is dropped in place, variant by variant
            drop(key);
            value
        }
        None => Ok(None),
    }
}

/// The key of a property of a PID.
fn pid_key(net: &NetName, pid: &PidName, name: PropName) -> Result<Key, AllocError>
    ensures { IfOk result (λ made. made ≡ key.Prop net.now (entities.Pid pid.now) name) }
{
    let net = net.clone()?;
    let pid = pid.clone()?;
    Ok(Key::Prop(net, Entity::Pid(pid), name))
}

/// The value of a property of a block.
fn property_of_block<R: RowStore>(
    alloc: Global,
    rows: &R,
    net: &NetName,
    table: &RangeTable,
    block: &Prefix,
    name: &Name,
) -> Result<Option<Tree>, AllocError>
    requires good { AreGood (R.rows rows.now) }
    requires table { table.now ≡ prefixes_in (R.rows rows.now) net.now }
    ensures { IfOk result (λ found. option_map data_of found
        ≡ option_map value_data (property_of (R.rows rows.now) net.now (entities.Block block.now) name.now)) }
{
    if is_pid_property(net, name) {
        return pid_of(alloc, table, block);
    }
    match read_name(alloc, name)? {
        Some(name) => shown(alloc, inherited(rows, net, block, &name)?),
        None => Ok(None),
    }
}

/// Whether a name is that of the property of an address that is its PID.
fn is_pid_property(net: &NetName, name: &Name) -> bool
    ensures { result ≡ same_name name.now (pid_property net.now) }
{
    match name.as_str().as_bytes().strip_prefix(net.as_bytes()) {
        Some(rest) => rest == b".pid".as_slice(),
        None => false,
    }
}

/// The PID of a block, if it is an address that has one. One search of the table.
fn pid_of(alloc: Global, table: &RangeTable, block: &Prefix) -> Result<Option<Tree>, AllocError>
    ensures { IfOk result (λ found. option_map data_of found ≡ option_map value_data
        (if block.now.len == width_of block.now.addr
        then option_map values.Text (longest_prefix table.now block.now.addr) else None)) }
{
    if is_address(block) {
        pid_text(alloc, table.pid_of(&block.addr))
    } else {
        Ok(None)
    }
}

/// Whether a block is of full length.
fn is_address(block: &Prefix) -> bool
    ensures { result ≡ (block.now.len == width_of block.now.addr) }
{
    match block.addr {
        Addr::V4(_) => block.len == 32,
        Addr::V6(_) => block.len == 128,
    }
}

/// A PID as a text, if there is one.
fn pid_text(alloc: Global, pid: Option<&PidName>) -> Result<Option<Tree>, AllocError>
    ensures { IfOk result (λ found. option_map data_of found
        ≡ option_map value_data (option_map values.Text (option_copied pid.entry))) }
{
    match pid {
        Some(pid) => Ok(Some(Tree::text(alloc, pid.as_str())?)),
        None => Ok(None),
    }
}

/// A value as JSON, if there is one.
fn shown(alloc: Global, value: Option<&Value>) -> Result<Option<Tree>, AllocError>
    ensures { IfOk result (λ found. option_map data_of found ≡ option_map value_data (option_copied value.entry)) }
{
    match value {
        Some(value) => Ok(Some(value_tree(alloc, value)?)),
        None => Ok(None),
    }
}

/// The name of a property that rows may have, `None` exactly where the text is no such name.
fn read_name(alloc: Global, name: &Name) -> Result<Option<PropName>, AllocError>
    ensures { IfOk result (λ found. MatchOption found (¬ (IsPropName name.now)) (λ read. read ≡ name.now)) }
{
    match PropName::read(alloc, name.as_str().as_bytes()) {
        Ok(name) => Ok(Some(name)),
        Err(NameFault::Memory) => Err(AllocError),
        Err(_) => Ok(None),
    }
}
