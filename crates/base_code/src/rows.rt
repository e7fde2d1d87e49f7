ghost use Rattle.std.specs.Prelude.{◌≡◌, ◌≤◌, ◌∷◌, ◌++◌, ◌↔◌, [], All, IfOk, IfErr, OnOk, IsTrue, List, Some, map};
ghost use Rattle.alto_rows.specs.Order.{key_cmp};
ghost use Rattle.alto_rows.specs.Rows.{Rows, AreSorted};
ghost use Rattle.alto_rows.specs.declared.value.Value.{Value as TheValue};
ghost use Rattle.alto_rows.specs.declared.write.Write.{Write as TheWrite};
ghost use Rattle.batch_code.specs.Spelling.{write_bytes};
ghost use Rattle.batch_code.specs.Storable.{IsStored};
ghost use Rattle.base_code.specs.Bases.{AreStored, write_of};
ghost use Rattle.base_code.specs.Parts.{Denies, HasItems, HasRows};

use crate::part::read_head;
use alto_rows::{Key, Value, Write};
use batch_code::{Names, writes_of};
use code_bytes::Stop;
use std::alloc::Global;
use std::cmp::Ordering;

/// Reads a piece of `count` rows, and adds them to those before.
pub(crate) fn read_rows(
    alloc: Global,
    names: &mut Names,
    rows: &mut Vec<(Key, Value)>,
    piece: &[u8],
    count: u64,
) -> Result<(), Stop>
    requires stored { AreStored rows.old.items }
    requires few { count ≤ 4096 }
    ensures ok { OnOk result ((more : Rows) × HasRows rows.old.items count piece.now more
        × (rows.new.items ≡ rows.old.items ++ more)) }
    ensures stops { IfErr result (Denies ((more : Rows) × HasRows rows.old.items count piece.now more)) }
{
    let writes = read_puts(alloc, names, piece, count)?;
    push_puts(rows, writes)
}

/// Reads a piece of `count` writes.
fn read_puts(alloc: Global, names: &mut Names, piece: &[u8], count: u64) -> Result<Vec<Write>, Stop>
    requires { count ≤ 4096 }
    ensures ok { IfOk result (λ writes. HasItems 0x45 write_bytes IsStored count piece.now writes.items) }
    ensures stops { IfErr result (Denies ((writes : List TheWrite)
        × HasItems 0x45 write_bytes IsStored count piece.now writes)) }
{
    let rest = read_head(piece, 0x45, count)?;
    let (writes, rest) = writes_of(alloc, names, count, rest)?;
    if !rest.is_empty() {
        return Err(Stop::Left(rest.len()));
    }
    Ok(writes)
}

/// Adds the rows that these writes put, if none of them deletes and their keys rise.
fn push_puts(rows: &mut Vec<(Key, Value)>, writes: Vec<Write>) -> Result<(), Stop>
    requires rows { AreStored rows.old.items }
    requires writes { All IsStored writes.items }
    ensures ok { OnOk result ((more : Rows) × AreStored rows.new.items × (map write_of more ≡ writes.items)
        × (rows.new.items ≡ rows.old.items ++ more)) }
    ensures stops { IfErr result (Denies ((more : Rows) × AreStored (rows.old.items ++ more)
        × (map write_of more ≡ writes.items))) }
{
    for write in writes {
        push_put(rows, write)?;
    }
    Ok(())
}

/// Adds the row that a write puts, if it doesn't delete and its key is behind the others.
fn push_put(rows: &mut Vec<(Key, Value)>, write: Write) -> Result<(), Stop>
    requires rows { AreStored rows.old.items }
    requires stored { IsStored write }
    ensures ok { OnOk result ((value : TheValue) × AreStored rows.new.items × (write.value ≡ Some value)
        × (rows.new.items ≡ rows.old.items ++ ((write.key, value) ∷ []))) }
    ensures stops { IfErr result (Denies ((value : TheValue)
        × AreStored (rows.old.items ++ ((write.key, value) ∷ [])) × (write.value ≡ Some value))) }
{
    let Write { key, value } = write;
    let Some(value) = value else {
        return Err(Stop::Left(0));
    };
    if !rises(rows, &key) {
        return Err(Stop::Left(0));
    }
    rows.push((key, value))?;
    Ok(())
}

/// Whether the key is behind those of the rows.
fn rises(rows: &[(Key, Value)], key: &Key) -> bool
    requires { AreSorted rows.now }
    ensures { (value : TheValue) → IsTrue result ↔ AreSorted (rows.now ++ ((key.now, value) ∷ [])) }
{
    match rows.last() {
        Some(row) => order(key, &row.0).is_gt(),
        None => true,
    }
}

/// The order of two keys.
fn order(key: &Key, other: &Key) -> Ordering
    ensures { result ≡ key_cmp key.now other.now }
{
    key.cmp(other)
}
