//! Sets of keys.
ghost use Rattle.std.specs.Prelude.{◌≡◌, ◌≤◌, ◌++◌, false, IfOk, IsTrue, length};
ghost use Rattle.alto_rows.specs.Order.{key_cmp};
ghost use Rattle.tips_graph.specs.Keys.{key_set};

use alto_rows::Key;
use std::alloc::{AllocError, Global};
use std::cmp::Ordering;

/// The distinct keys, in their order. Where they rise, these are they, and cost one comparison a key; else n log n
/// comparisons and copies.
pub(crate) fn distinct_keys(alloc: Global, keys: Vec<Key>) -> Result<Vec<Key>, AllocError>
    ensures { IfOk result (λ distinct. distinct.items ≡ key_set keys.items) }
{
    if !are_rising(&keys) {
        return distinct_copies(alloc, &keys);
    }
    let mut distinct = keys;
    distinct.shrink_to_fit();
    Ok(distinct)
}

/// Copies of the distinct keys, in their order. Where the keys don't rise, both halves are made so, and merged.
fn distinct_copies(alloc: Global, keys: &[Key]) -> Result<Vec<Key>, AllocError>
    ensures { IfOk result (λ distinct. distinct.items ≡ key_set keys.now) }
{
    if are_rising(keys) {
        return copies_of(alloc, keys);
    }
    let (front, back) = keys.split_at(keys.len() / 2);
    let older = distinct_copies(alloc, front)?;
    let newer = distinct_copies(alloc, back)?;
    merged(alloc, &older, &newer)
}

/// Whether the keys rise. One comparison a key, up to the first that isn't after the one before it.
fn are_rising(keys: &[Key]) -> bool
    ensures set { IsTrue result → key_set keys.now ≡ keys.now }
    ensures many { result ≡ false → 2 ≤ length keys.now }
{
    let Some((first, rest)) = keys.split_first() else {
        return true;
    };
    let mut last = first;
    for key in rest {
        if !order(last, key).is_lt() {
            return false;
        }
        last = key;
    }
    true
}

/// Copies of the keys.
fn copies_of(alloc: Global, keys: &[Key]) -> Result<Vec<Key>, AllocError>
    ensures { IfOk result (λ copies. copies.items ≡ keys.now) }
{
    let mut copies = Vec::with_capacity(alloc, keys.len())?;
    append_copies(&mut copies, keys)?;
    Ok(copies)
}

/// The distinct keys of two sets in order, in their order. One comparison a key.
pub(crate) fn merged(alloc: Global, older: &[Key], newer: &[Key]) -> Result<Vec<Key>, AllocError>
    ensures { key_set older.now ≡ older.now → key_set newer.now ≡ newer.now
        → IfOk result (λ keys. keys.items ≡ key_set (older.now ++ newer.now)) }
{
    let mut keys = Vec::new(alloc);
    let mut i = 0;
    let mut j = 0;
    while i < older.len() && j < newer.len() {
        let (front, other) = (&older[i], &newer[j]);
        match order(front, other) {
            Ordering::Less => {
                keys.push(copy_of_key(front)?)?;
                i += 1;
            }
            Ordering::Equal => {
                keys.push(copy_of_key(front)?)?;
                i += 1;
                j += 1;
            }
            Ordering::Greater => {
                keys.push(copy_of_key(other)?)?;
                j += 1;
            }
        }
    }
    append_copies(&mut keys, &older[i..])?;
    append_copies(&mut keys, &newer[j..])?;
    Ok(keys)
}

/// Puts copies of the keys at the end.
fn append_copies(keys: &mut Vec<Key>, more: &[Key]) -> Result<(), AllocError>
    ensures { IfOk result (λ done. keys.new.items ≡ keys.old.items ++ more.now) }
{
    for key in more {
        keys.push(copy_of_key(key)?)?;
    }
    Ok(())
}

fn order(key: &Key, other: &Key) -> Ordering
    ensures { result ≡ key_cmp key.now other.now }
{
    key.cmp(other)
}

fn copy_of_key(key: &Key) -> Result<Key, AllocError>
    ensures { IfOk result (λ copy. copy ≡ key.now) }
{
    key.clone()
}
