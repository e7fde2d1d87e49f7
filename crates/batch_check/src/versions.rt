ghost use Rattle.std.specs.Prelude.{◌≡◌, ◌+◌, ◌^◌, ◌<◌, All, Decides, IfOk, length, option_copied};
ghost use Rattle.std.specs.Cmp.Lexicographic.{pointwise};
ghost use Rattle.alto_rows.specs.declared.resource.Resource as resource;
ghost use Rattle.alto_rows.specs.Good.{AreGood};
ghost use Rattle.alto_rows.specs.Rows.{after};
ghost use Rattle.alto_rows.specs.Versions.{declaring_key, is_declared, number_in, version_of};
ghost use Rattle.alto_edits.specs.Versions.{next_version, sequence_writes};
ghost use Rattle.batch_check.specs.Rules as spec;
ghost use Rattle.batch_check.specs.Rules.{KeepsVersions, edits_in};
ghost use Rattle.batch_check.specs.Touched as told;
ghost use Rattle.batch_check.specs.Touched.{HasTouched};

use crate::lookup::has_row;
use crate::touched::{all_dependents, parts_of};
use alto_rows::{Key, Resource, RowStore, Value, Write};
use std::alloc::{AllocError, Global};
use std::collections::BTreeSet;

/// Whether the version rows of a batch are exactly those of its other writes and stand behind them, for the rows before
/// it and the rows after it.
pub fn keeps_versions<R: RowStore>(
    alloc: Global,
    rows: &R,
    next: &R,
    writes: &[Write],
) -> Result<bool, AllocError>
    requires good { AreGood (R.rows rows.now) }
    requires next { R.rows next.now ≡ after (R.rows rows.now) writes.now }
    ensures { IfOk result (λ keeps. Decides keeps (KeepsVersions (R.rows rows.now) writes.now)) }
{
    let versions = versions_of(alloc, rows, next, writes)?;
    Ok(ends_in(writes, &versions))
}

/// The version rows that go with the writes of a batch that are of no version. Some searches for each resource.
fn versions_of<R: RowStore>(
    alloc: Global,
    rows: &R,
    next: &R,
    writes: &[Write],
) -> Result<Vec<Write>, AllocError>
    requires good { AreGood (R.rows rows.now) }
    requires next { R.rows next.now ≡ after (R.rows rows.now) writes.now }
    ensures { IfOk result (λ all. all.items ≡ sequence_writes (R.rows rows.now) (edits_in writes.now)) }
{
    let mut versions = Vec::new(alloc);
    for of in touched(alloc, rows, writes)? {
        if declares(next, &of)? {
            versions.push(next_version(rows, of))?;
        }
    }
    Ok(versions)
}

/// The resources that the writes of a batch touch, and perhaps some that aren't declared after it.
fn touched<R: RowStore>(
    alloc: Global,
    rows: &R,
    writes: &[Write],
) -> Result<BTreeSet<Resource>, AllocError>
    requires { AreGood (R.rows rows.now) }
    ensures { IfOk result (λ touched. HasTouched (R.rows rows.now) (edits_in writes.now) touched) }
{
    let parts = parts_of(alloc, writes)?;
    all_dependents(alloc, rows, &parts)
}

/// Whether a resource is declared.
fn declares<R: RowStore>(rows: &R, of: &Resource) -> Result<bool, AllocError>
    ensures { IfOk result (λ declares. declares ≡ is_declared (R.rows rows.now) of.now) }
{
    let key = declaring_key(of)?;
    let declares = has_row(rows, &key);
    // A call, since what is dropped in place takes a proof for each kind of key.
    drop(key);
    Ok(declares)
}

/// The key that declares a resource.
fn declaring_key(of: &Resource) -> Result<Key, AllocError>
    ensures { IfOk result (λ key. key ≡ declaring_key of.now) }
{
    Ok(match of {
        Resource::Net(net) | Resource::Prop(net) => Key::Net(net.clone()?),
        Resource::Cost(net, metric) => Key::Metric(net.clone()?, metric.clone()?),
    })
}

/// The write that gives a resource its next version.
fn next_version<R: RowStore>(rows: &R, of: Resource) -> Write
    requires { AreGood (R.rows rows.now) }
    ensures { result ≡ next_version (R.rows rows.now) of }
{
    let key = Key::Seq(of);
    let version = number_in(rows.get(&key));
    Write {
        key,
        value: Some(Value::Num(version + 1)),
    }
}

/// A row's number, 0 where it has none.
fn number_in(value: Option<&Value>) -> u64
    ensures { result ≡ number_in (option_copied value.entry) }
{
    match value {
        Some(Value::Num(n)) => *n,
        _ => 0,
    }
}

/// Whether these version rows are the last writes of a batch, and no other write is of a version.
fn ends_in(writes: &[Write], versions: &[Write]) -> bool
    ensures { result ≡ told.ends_in writes.now versions.now }
{
    if writes.len() < versions.len() {
        return false;
    }
    let (edits, last) = writes.split_at(writes.len() - versions.len());
    are_edits(edits) && are_same(last, versions)
}

/// Whether no write is of a version.
fn are_edits(writes: &[Write]) -> bool
    ensures { result ≡ told.are_edits writes.now }
{
    writes.iter().all(|write| !is_version(&write.key))
}

/// Whether a key is that of a version.
fn is_version(key: &Key) -> bool
    ensures { result ≡ spec.is_version key.now }
{
    matches!(key, Key::Seq(_))
}

/// Whether writes give these versions, one by one.
fn are_same(writes: &[Write], versions: &[Write]) -> bool
    requires { length writes.now ≡ length versions.now }
    ensures { result ≡ pointwise told.gives_version writes.now versions.now }
{
    for index in 0..versions.len() {
        if !gives_version(&writes[index], &versions[index]) {
            return false;
        }
    }
    true
}

/// Whether a write is of the key of a version row and gives its number.
fn gives_version(write: &Write, version: &Write) -> bool
    ensures { result ≡ told.gives_version write.now version.now }
{
    write.key.cmp(&version.key).is_eq()
        && number_in(write.value.as_ref()) == number_in(version.value.as_ref())
}
