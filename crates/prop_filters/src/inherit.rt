//! The property of a block, found by its keys.
ghost use Rattle.std.specs.Prelude.{◌≡◌, IfOk, option_copied};
ghost use Rattle.alto_rows.specs.Good.{AreGood};
ghost use Rattle.alto_rows.specs.declared.entity.Entity.TheVariants as entities;
ghost use Rattle.alto_rows.specs.declared.key.Key.TheVariants as key;
ghost use Rattle.prop_filters.specs.Inherit as spec;

use crate::cut::cut;
use alto_addr::Prefix;
use alto_names::{NetName, PropName};
use alto_rows::{Entity, Key, PackedPrefix, RowStore, Value};
use std::alloc::AllocError;

/// The value of this property of the longest block that holds a block and has it (RFC 9240, section 6.1.3). It looks
/// for the block itself, then for it cut to ever fewer bits, and takes the first that is there: one search of the rows
/// for each length, so at most 33 for a block of IPv4 and 129 for one of IPv6.
pub(crate) fn inherited<'r, R: RowStore>(
    rows: &'r R,
    net: &NetName,
    block: &Prefix,
    name: &PropName,
) -> Result<Option<&'r Value>, AllocError>
    requires { AreGood (R.rows rows.now) }
    ensures { IfOk result (λ found. option_copied found
        ≡ spec.inherited (R.rows rows.now) net.now block.now name.now) }
{
    for fewer in 0..block.len + 1 {
        let outer = cut(block, block.len - fewer);
        if let Some(value) = value_at(rows, net, &outer, name)? {
            return Ok(Some(value));
        }
    }
    Ok(None)
}

/// The value of this property in the row of a block. One search.
fn value_at<'r, R: RowStore>(
    rows: &'r R,
    net: &NetName,
    block: &Prefix,
    name: &PropName,
) -> Result<Option<&'r Value>, AllocError>
    ensures { IfOk result (λ found. option_copied found
        ≡ spec.value_at (R.rows rows.now) net.now block.now name.now) }
{
    let key = block_key(net, block, name)?;
    let value = rows.get(&key);
    // a key that is let go by a call is cheaper to prove than one that is dropped in place, variant by variant
    drop(key);
    Ok(value)
}

/// The key of a property of a block.
fn block_key(net: &NetName, block: &Prefix, name: &PropName) -> Result<Key, AllocError>
    ensures { IfOk result (λ made. made ≡ key.Prop net.now (entities.Block block.now) name.now) }
{
    let net = net.clone()?;
    let name = name.clone()?;
    Ok(Key::Prop(net, Entity::Block(PackedPrefix::new(block)), name))
}
