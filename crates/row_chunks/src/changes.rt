ghost use Rattle.std.specs.Prelude.{◌≡◌, ◌≤◌, ◌++◌, IfOk, IsTrue, drop, length, take};
ghost use Rattle.std.specs.List.Sorted.{IsSortedByKey, IsStableByKey};
ghost use Rattle.std.specs.Ordering.{is_lt};
ghost use Rattle.alto_rows.specs.Changes.{AreOrdered, DoAs, changed};
ghost use Rattle.alto_rows.specs.Order.{key_cmp};
ghost use Rattle.alto_rows.specs.Rows.{Rows, AreSorted};
ghost use Rattle.row_chunks.specs.Made.{changes_made, last_of};
ghost use Rattle.row_chunks.specs.Split.{changes_before, changes_behind, later_changes, own_changes};

use crate::block::Block;
use crate::change::Change;
use crate::cut::Cut;
use crate::slot::Slot;
use alto_rows::{Key, Write};
use std::alloc::{AllocError, Global};

/// The last write of each key, in the order of the keys. One comparison a write where their keys rise. Else they are
/// sorted: a few comparisons a write where they are some rising runs one behind another, and w writes cost w log w at
/// most.
pub(crate) fn changes_of(alloc: Global, writes: &[Write]) -> Result<Vec<Change>, AllocError>
    ensures does { IfOk result (λ changes. DoAs writes.now changes.items) }
    ensures ordered { IfOk result (λ changes. AreOrdered changes.items) }
{
    let made = made_of(alloc, writes)?;
    if are_rising(writes) {
        return Ok(made);
    }
    last_of_each(alloc, &in_order(made)?)
}

/// Whether the keys of writes rise. One comparison a write, up to the first that doesn't.
fn are_rising(writes: &[Write]) -> bool
    ensures { IsTrue result → AreOrdered (changes_made writes.now) }
{
    let Some((first, rest)) = writes.split_first() else {
        return true;
    };
    let mut last = first;
    for write in rest {
        if !is_before(&last.key, &write.key) {
            return false;
        }
        last = write;
    }
    true
}

/// Whether a key is before another.
#[tactic(auto, using(alto_rows::proofs::OrderLemmas::derived_key_cmp))]
fn is_before(key: &Key, other: &Key) -> bool
    ensures { result ≡ is_lt (key_cmp key.now other.now) }
{
    key.cmp(other).is_lt()
}

/// The change that each write makes, in their order.
fn made_of(alloc: Global, writes: &[Write]) -> Result<Vec<Change>, AllocError>
    ensures { IfOk result (λ changes. changes.items ≡ changes_made writes.now) }
{
    let mut changes = Vec::with_capacity(alloc, writes.len())?;
    for write in writes {
        changes.push(Change::new(write))?;
    }
    Ok(changes)
}

/// The changes in the order of their keys, those of one key in the order that they had.
fn in_order(changes: Vec<Change>) -> Result<Vec<Change>, AllocError>
    ensures sorted { IfOk result (λ all. IsSortedByKey (λ change. change.0) key_cmp all.items) }
    ensures stable { IfOk result (λ all. IsStableByKey (λ change. change.0) key_cmp changes.entry.items all.items) }
{
    let mut all = changes;
    all.sort_by(|one, other| one.key().cmp(other.key()))?;
    Ok(all)
}

/// The last change of each key, where they are in the order of their keys. One comparison a change.
fn last_of_each<'a>(alloc: Global, changes: &[Change<'a>]) -> Result<Vec<Change<'a>>, AllocError>
    requires { IsSortedByKey (λ change. change.0) key_cmp changes.now }
    ensures same { IfOk result (λ last. (rows : Rows) → AreSorted rows
        → changed rows last.items ≡ changed rows changes.now) }
    ensures ordered { IfOk result (λ last. AreOrdered last.items) }
{
    let mut last = Vec::with_capacity(alloc, changes.len())?;
    for at in 0..changes.len() {
        last = with_last(last, &changes[at], &changes[at + 1..])?;
    }
    Ok(last)
}

/// The changes with one more where it is the last of its key, with these behind it.
fn with_last<'a>(
    last: Vec<Change<'a>>,
    change: &Change<'a>,
    behind: &[Change],
) -> Result<Vec<Change<'a>>, AllocError>
    ensures { IfOk result (λ all. all.items ≡ last.entry.items ++ last_of change.now behind.now) }
{
    if let Some(next) = behind.first() {
        if !is_before(change.key(), next.key()) {
            return Ok(last);
        }
    }
    let mut all = last;
    all.push(change.again())?;
    Ok(all)
}

/// How many of the changes are those of a block, which are those before the first key of the next: all where it is the
/// last.
pub(crate) fn count_own<B: Block>(changes: &[Change], later: &[Slot<B>]) -> usize
    requires { AreOrdered changes.now }
    ensures within { result ≤ length changes.now }
    ensures own { take result changes.now ≡ own_changes later.now changes.now }
    ensures rest { drop result changes.now ≡ later_changes later.now changes.now }
{
    match later.first() {
        Some(next) => count_before(changes, &Cut::Before(next.key())),
        None => changes.len(),
    }
}

/// How many changes are before a cut. No search where the first isn't.
fn count_before(changes: &[Change], cut: &Cut) -> usize
    requires { AreOrdered changes.now }
    ensures within { result ≤ length changes.now }
    ensures before { take result changes.now ≡ changes_before cut.now changes.now }
    ensures behind { drop result changes.now ≡ changes_behind cut.now changes.now }
{
    let Some(first) = changes.first() else {
        return 0;
    };
    if cut.keeps(first.key()) {
        return 0;
    }
    changes.partition_point(|change| !cut.keeps(change.key()))
}
