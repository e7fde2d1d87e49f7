ghost use Rattle.std.specs.Prelude.{◌≡◌, [], Err, IfOk, IfSome, IsTrue, None, OnOk, Some, length, true};
ghost use Rattle.std.specs.BTreeMap.{Updates, get};
ghost use Rattle.alto_rows.specs.Order.{key_cmp};
ghost use Rattle.alto_rows.specs.Place.{place_of};
ghost use Rattle.alto_rows.specs.Rows.{has_row};
ghost use Rattle.alto_rules.specs.Written.{Gains, if_put, told, told_or};

use alto_rows::{Key, PlainRows, RowStore, Value};
use std::alloc::{AllocError, Global};
use std::collections::BTreeMap;
use std::mem;

/// Which keys have rows after writes of them. Where keys are put in their order, each costs one comparison.
#[derive(Drop)]
pub struct Written {
    /// Rows for keys that were put behind all before them. A key that is also in the map is told of by the map.
    pub put: PlainRows,
    /// Whether any other written key has a row after the writes.
    pub other: BTreeMap<Key, bool>,
}

impl Written {
    /// No writes. Takes no memory.
    pub fn new(alloc: Global) -> Written
        ensures put { result.put ≡ [] }
        ensures other { result.other.entries ≡ [] }
    {
        Written {
            put: PlainRows::new(alloc),
            other: BTreeMap::new(alloc),
        }
    }

    /// Whether a key has a row after the writes, `None` where no write is of the key. Two searches.
    pub fn has(&self, key: &Key) -> Option<bool>
        ensures { result ≡ told self.now key.now }
    {
        match self.other.get(key) {
            Some(has) => Some(*has),
            None => put_in(&self.put, key),
        }
    }

    /// Whether each write put a key behind all before it, so that all written keys have rows.
    pub fn only_puts(&self) -> bool
        ensures { IsTrue result → length self.now.other.entries ≡ 0 }
    {
        self.other.is_empty()
    }

    /// A written key as it is kept. Two searches.
    pub fn stored(&self, key: &Key) -> Option<&Key>
        ensures { IfSome result (λ at. at.now ≡ key.now) }
    {
        match self.other.get_key_value(key) {
            Some((at, _)) => if_same(at, key),
            None => stored_in(&self.put, key),
        }
    }

    /// Adds a write, whether its key has a row after it, and gives what `has` told before. One comparison for a row
    /// behind all that were put, and a search where there are other keys; else some searches.
    pub fn add(&mut self, alloc: Global, key: &Key, has: bool) -> Result<Option<bool>, AllocError>
        ensures gains { OnOk result (Gains self.old self.new key.now has) }
        ensures old { IfOk result (λ before. before ≡ told self.old key.now) }
    {
        if has {
            if self.ends_before(key) {
                self.add_put(alloc, key)?;
                return Ok(None);
            }
        }
        self.add_other(key, has)
    }

    /// Whether no write is of a key, and all rows that were put are before it. One comparison, and a search where
    /// there are other keys.
    fn ends_before(&self, key: &Key) -> bool
        ensures { IsTrue result → (place_of self.now.put key.now ≡ Err (length self.now.put))
            × (get key_cmp self.now.other key.now ≡ None) }
    {
        if !self.put.is_past(key) {
            return false;
        }
        match self.other.get(key) {
            Some(_) => false,
            None => true,
        }
    }

    /// Adds a key that is put behind all rows.
    fn add_put(&mut self, alloc: Global, key: &Key) -> Result<(), AllocError>
        requires last { place_of self.old.put key.now ≡ Err (length self.old.put) }
        requires new { get key_cmp self.old.other key.now ≡ None }
        ensures { OnOk result (Gains self.old self.new key.now true) }
    {
        let put = mem::replace(&mut self.put, PlainRows::new(alloc));
        self.put = put.with_last_row(copied(key)?, Value::Unit)?;
        Ok(())
    }

    /// Adds any other, and gives what `has` told before.
    fn add_other(&mut self, key: &Key, has: bool) -> Result<Option<bool>, AllocError>
        ensures gains { OnOk result (Gains self.old self.new key.now has) }
        ensures old { IfOk result (λ before. before ≡ told self.old key.now) }
    {
        let old = add_key(&mut self.other, key, has)?;
        Ok(told_first(old, &self.put, key))
    }
}

/// What is told of a key, or else that it has a row, where it was put.
fn told_first(other: Option<bool>, put: &PlainRows, key: &Key) -> Option<bool>
    ensures { result ≡ told_or other (if_put (has_row put.now key.now)) }
{
    match other {
        Some(has) => Some(has),
        None => put_in(put, key),
    }
}

/// That a key has a row, where it was put.
fn put_in(put: &PlainRows, key: &Key) -> Option<bool>
    ensures { result ≡ if_put (has_row put.now key.now) }
{
    if has_row(put, key) { Some(true) } else { None }
}

/// Whether a key has a row.
fn has_row(put: &PlainRows, key: &Key) -> bool
    ensures { result ≡ has_row put.now key.now }
{
    put.get(key).is_some()
}

/// Adds a key to the written ones, and gives what was there of it.
fn add_key(
    written: &mut BTreeMap<Key, bool>,
    key: &Key,
    has: bool,
) -> Result<Option<bool>, AllocError>
    ensures all { OnOk result (Updates key_cmp written.old written.new key.now (Some has)) }
    ensures old { IfOk result (λ old. old ≡ get key_cmp written.old key.now) }
{
    let old = written.insert(copied(key)?, has)?;
    Ok(old)
}

/// A key as a store has it. One search.
pub fn stored_in<'a, R: RowStore>(rows: &'a R, key: &Key) -> Option<&'a Key>
    ensures { IfSome result (λ at. at.now ≡ key.now) }
{
    match rows.next_from(key) {
        Some((at, _)) => if_same(at, key),
        None => None,
    }
}

/// The key at hand, where it is the one that is asked for.
fn if_same<'a>(at: &'a Key, key: &Key) -> Option<&'a Key>
    ensures { IfSome result (λ same. same.now ≡ key.now) }
{
    if at.cmp(key).is_eq() { Some(at) } else { None }
}

/// A copy of a key, which shares its names.
pub fn copied(key: &Key) -> Result<Key, AllocError>
    ensures { IfOk result (λ copy. copy ≡ key.now) }
{
    key.clone()
}
