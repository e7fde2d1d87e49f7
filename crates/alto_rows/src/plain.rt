ghost use Rattle.std.specs.Prelude.{◌≡◌, ◌∷◌, ◌++◌, [], Err, IfOk, IsTrue, OnOk, length, option_copied, option_map};
ghost use Rattle.std.specs.Prelude.{slice_get};
ghost use Rattle.std.specs.BTreeMap.{Updates};
ghost use Rattle.std.specs.List.Sorted.{IsSearchInRange};
ghost use Rattle.std.specs.Ordering.{is_lt};
ghost use Rattle.alto_rows.specs.Changes.{AreOrdered, DoAs, changed, own_row};
ghost use Rattle.alto_rows.specs.Order.{key_cmp};
ghost use Rattle.alto_rows.specs.Place.{place_of, rows_before};
ghost use Rattle.alto_rows.specs.Rows.{Rows, AreSorted, IsRunOf, value_of, after, rows_from, rows_past};
ghost use Rattle.alto_rows.specs.Span.{count_in, rows_from_span};

use crate::key::Key;
use crate::span::Span;
use crate::store::RowStore;
use crate::value::Value;
use crate::write::Write;
use std::alloc::{AllocError, Global};
use std::collections::BTreeMap;
use std::marker::Model;

/// Rows in one sorted vector: the plain store. `with` copies it whole, in one merge with the writes.
#[derive(Debug, Drop)]
pub struct PlainRows {
    rows: Vec<(Key, Value)>,
}

impl Model for PlainRows {
    ghost use Rattle.alto_rows.specs.Rows.{Rows, AreSorted};

    ghost Value = { Rows };

    ghost view = { λ store. store.rows.items };

    ghost invariant = { λ store. AreSorted store.rows.items };
}

impl RowStore for PlainRows {
    ghost rows = { λ store. store };

    fn empty(alloc: Global) -> Result<PlainRows, AllocError> {
        Ok(PlainRows {
            rows: Vec::new(alloc),
        })
    }

    fn get(&self, key: &Key) -> Option<&Value> {
        match place(&self.rows, key) {
            Ok(at) => Some(&self.rows[at].1),
            Err(_) => None,
        }
    }

    fn next_from(&self, key: &Key) -> Option<(&Key, &Value)> {
        let row = self.run_from(key).first()?;
        Some((&row.0, &row.1))
    }

    fn run_from(&self, key: &Key) -> &[(Key, Value)] {
        tail_from(&self.rows, key)
    }

    fn run_after(&self, key: &Key) -> &[(Key, Value)] {
        tail_after(&self.rows, key)
    }

    fn run_in(&self, span: &Span) -> &[(Key, Value)] {
        tail_in(&self.rows, span)
    }

    fn len(&self) -> usize {
        self.rows.len()
    }

    fn count_in(&self, span: &Span) -> usize {
        count_within(&self.rows, span)
    }

    /// One merge of the rows with the writes, sorted by their keys: n rows and w writes cost n + w log w. Names are
    /// shared, so a copied row takes no memory for them.
    fn with(&self, alloc: Global, writes: &[Write]) -> Result<PlainRows, AllocError> {
        let changes = last_values(alloc, writes)?;
        Ok(PlainRows {
            rows: merged(alloc, &self.rows, changes)?,
        })
    }
}

impl PlainRows {
    /// No rows. Takes no memory.
    pub fn new(alloc: Global) -> PlainRows
        ensures { result ≡ [] }
    {
        PlainRows {
            rows: Vec::new(alloc),
        }
    }

    /// Whether a key is after those of all rows. One comparison.
    pub fn is_past(&self, key: &Key) -> bool
        ensures { IsTrue result → place_of self.now key.now ≡ Err (length self.now) }
    {
        ends_before(&self.rows, key)
    }

    /// The rows with one more, whose key is after those of all others. No row is copied.
    pub fn with_last_row(self, key: Key, value: Value) -> Result<PlainRows, AllocError>
        requires { place_of self key ≡ Err (length self) }
        ensures { IfOk result (λ store. store ≡ self ++ (key, value) ∷ []) }
    {
        let PlainRows { mut rows } = self;
        rows.push((key, value))?;
        Ok(PlainRows { rows })
    }
}

/// Whether all rows are before a key. One comparison.
fn ends_before(rows: &[(Key, Value)], key: &Key) -> bool
    requires { AreSorted rows.now }
    ensures { IsTrue result → place_of rows.now key.now ≡ Err (length rows.now) }
{
    match rows.len().checked_sub(1) {
        Some(last) => is_before(&rows[last].0, key),
        None => true,
    }
}

/// Whether a key is before another.
#[tactic(auto, using(crate::proofs::OrderLemmas::derived_key_cmp))]
fn is_before(key: &Key, other: &Key) -> bool
    ensures { result ≡ is_lt (key_cmp key.now other.now) }
{
    key.cmp(other).is_lt()
}

/// The place of the key's row, or where it would go. One comparison where that is before all rows, else a binary
/// search.
fn place(rows: &[(Key, Value)], key: &Key) -> Result<usize, usize>
    requires { AreSorted rows.now }
    ensures place { result ≡ place_of rows.now key.now }
    ensures within { IsSearchInRange result (length rows.now) }
{
    let Some(first) = rows.first() else {
        return Err(0);
    };
    if is_before(key, &first.0) {
        return Err(0);
    }
    rows.binary_search_by(|row| row.0.cmp(key))
}

/// The rows at or after a key. One binary search.
fn tail_from<'a>(rows: &'a [(Key, Value)], key: &Key) -> &'a [(Key, Value)]
    requires { AreSorted rows.now }
    ensures { result.now ≡ rows_from rows.now key.now }
{
    match place(rows, key) {
        Ok(at) | Err(at) => &rows[at..],
    }
}

/// The rows after a key. One binary search.
fn tail_after<'a>(rows: &'a [(Key, Value)], key: &Key) -> &'a [(Key, Value)]
    requires { AreSorted rows.now }
    ensures { result.now ≡ rows_past rows.now key.now }
{
    match place(rows, key) {
        Ok(at) => &rows[at + 1..],
        Err(at) => &rows[at..],
    }
}

/// The rows that aren't before a span. One binary search.
fn tail_in<'a>(rows: &'a [(Key, Value)], span: &Span) -> &'a [(Key, Value)]
    requires { AreSorted rows.now }
    ensures { result.now ≡ rows_from_span rows.now span.now }
{
    let at = rows.partition_point(|row| span.cmp(&row.0).is_gt());
    &rows[at..]
}

/// How many of the rows are in a span. Two binary searches.
fn count_within(rows: &[(Key, Value)], span: &Span) -> usize
    requires { AreSorted rows.now }
    ensures { result ≡ count_in rows.now span.now }
{
    tail_in(rows, span).partition_point(|row| !span.cmp(&row.0).is_lt())
}

/// The rows before a key. One binary search.
fn head_before<'a>(rows: &'a [(Key, Value)], key: &Key) -> &'a [(Key, Value)]
    requires { AreSorted rows.now }
    ensures { result.now ≡ rows_before rows.now key.now }
{
    match place(rows, key) {
        Ok(at) | Err(at) => &rows[..at],
    }
}

/// What the last write of each key gives it. w writes cost w log w.
fn last_values(alloc: Global, writes: &[Write]) -> Result<BTreeMap<Key, Option<Value>>, AllocError>
    ensures { IfOk result (λ changes. DoAs writes.now changes.entries) }
{
    let mut last = BTreeMap::new(alloc);
    for write in writes {
        last = with_last(last, write)?;
    }
    Ok(last)
}

/// The changes with one more, in place of an earlier one of its key.
fn with_last(
    last: BTreeMap<Key, Option<Value>>,
    write: &Write,
) -> Result<BTreeMap<Key, Option<Value>>, AllocError>
    ensures updates { IfOk result (λ all. Updates key_cmp last all write.now.key (Some write.now.value)) }
    ensures ordered { IfOk result (λ all. AreOrdered all.entries) }
{
    let mut all = last;
    let (key, value) = copy_of_write(write)?;
    drop(all.insert(key, value)?);
    Ok(all)
}

/// The rows after changes. One pass over both, and a search for each change.
fn merged(
    alloc: Global,
    rows: &[(Key, Value)],
    changes: BTreeMap<Key, Option<Value>>,
) -> Result<Vec<(Key, Value)>, AllocError>
    requires { AreSorted rows.now }
    ensures { IfOk result (λ all. all.items ≡ changed rows.now changes.entries) }
{
    let mut all = Vec::with_capacity(alloc, rows.len())?;
    let mut rest = rows;
    for (key, value) in changes {
        let past = tail_after(rest, &key);
        push_copies(&mut all, head_before(rest, &key))?;
        push_own(&mut all, key, value)?;
        rest = past;
    }
    push_copies(&mut all, rest)?;
    Ok(all)
}

/// Adds the row of a key, if it has a value.
fn push_own(rows: &mut Vec<(Key, Value)>, key: Key, value: Option<Value>) -> Result<(), AllocError>
    ensures { OnOk result (rows.new.items ≡ rows.old.items ++ own_row key value) }
{
    if let Some(value) = value {
        rows.push((key, value))?;
    }
    Ok(())
}

/// Adds copies of rows.
fn push_copies(copies: &mut Vec<(Key, Value)>, rows: &[(Key, Value)]) -> Result<(), AllocError>
    ensures { OnOk result (copies.new.items ≡ copies.old.items ++ rows.now) }
{
    for row in rows {
        copies.push(copy_of_row(&row.0, &row.1)?)?;
    }
    Ok(())
}

fn copy_of_write(write: &Write) -> Result<(Key, Option<Value>), AllocError>
    ensures { IfOk result (λ copy. copy ≡ (write.now.key, write.now.value)) }
{
    match &write.value {
        Some(value) => {
            let (key, value) = copy_of_row(&write.key, value)?;
            Ok((key, Some(value)))
        }
        None => Ok((write.key.clone()?, None)),
    }
}

fn copy_of_row(key: &Key, value: &Value) -> Result<(Key, Value), AllocError>
    ensures { IfOk result (λ copy. copy ≡ (key.now, value.now)) }
{
    Ok((key.clone()?, value.clone()?))
}
