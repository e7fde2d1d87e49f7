//! The updates graphs of a version, made from those of the version before. All that a batch left is shared.
ghost use Rattle.std.specs.Prelude.{◌≡◌, ◌≤◌, ◌<◌, ◌^◌, ◌-◌, [], true, IfOk, IfSome, map, option_map};
ghost use Rattle.std.specs.Arc.{arc_value};
ghost use Rattle.std.specs.BTreeMap.{is_at};
ghost use Rattle.std.specs.Ordering.{is_lt};
ghost use Rattle.alto_rows.specs.Good.{AreGood};
ghost use Rattle.alto_rows.specs.Order.{resource_cmp};
ghost use Rattle.alto_rows.specs.Versions.{is_declared, resources_of, version_of, window_of};
ghost use Rattle.alto_rows.specs.declared.key.Key.TheVariants as keys;
ghost use Rattle.alto_rows.specs.declared.resource.Resource.{Resource as TheResource};
ghost use Rattle.alto_rows.specs.Accepted.{Accepted};
ghost use Rattle.alto_book.specs.Acceptance.{with_batch};
ghost use Rattle.alto_book.specs.Book.{Book, rows_of};
ghost use Rattle.alto_book.specs.Legal.{IsLegal};
ghost use Rattle.alto_book.specs.Numbers as spec;
ghost use Rattle.alto_versions.specs.Front.{graphs_of};
ghost use Rattle.alto_versions.specs.Graphs.{AreTouching, entries, push_after};
ghost use Rattle.tips_graph.specs.Graph.{with_push};
ghost use Rattle.alto_versions.specs.Graphs as made;
ghost use Rattle.alto_versions.specs.Texts.{map_pieces, text_in};

use crate::followed::Followed;
use crate::texts::text_of;
use alto_rows::{Key, Resource, RowStore, Value, Write, touches};
use doc_pieces::Pieces;
use std::alloc::{AllocError, Global};
use std::sync::Arc;

/// The updates graphs after a batch with these writes, which led to these rows. They share the rows, and the graphs of
/// all that the batch gave no number. With no graphs and no writes they are those of a base with these rows. The keys
/// that touch each resource may have been found.
///
/// Costs a walk over the graphs, a search for each declared resource, which these are, and, where the keys haven't been
/// found, a look at each write for each that has a new number.
pub(crate) fn graphs_after<R: RowStore>(
    alloc: Global,
    graphs: &[(Resource, Arc<Followed<R>>)],
    texts: &[(Resource, Arc<Pieces>)],
    rows: &Arc<R>,
    resources: Vec<Resource>,
    writes: &[Write],
    keys: Vec<Vec<Key>>,
) -> Result<Vec<(Resource, Arc<Followed<R>>)>, AllocError>
    requires good { AreGood (R.rows (arc_value rows.now)) }
    requires resources { resources.items ≡ resources_of (R.rows (arc_value rows.now)) }
    requires keys { AreTouching writes.now (map (λ keys. keys.items) keys.items)
        (resources_of (R.rows (arc_value rows.now))) }
    requires texts { (of : TheResource)
        → IfSome (text_in (entries texts.now) of) (λ text. text ≡ map_pieces (R.rows (arc_value rows.now)) of) }
    ensures later { IfOk result (λ after. (book : Book) (batch : Accepted) → IsLegal book
        → IsLegal (with_batch book batch)
        → R.rows (arc_value rows.now) ≡ rows_of (with_batch book batch) → writes.now ≡ batch.writes
        → entries graphs.now ≡ graphs_of book → entries after.items ≡ graphs_of (with_batch book batch)) }
    ensures first { IfOk result (λ after. (book : Book) → book.batches ≡ [] → R.rows (arc_value rows.now) ≡ book.base
        → entries graphs.now ≡ [] → writes.now ≡ [] → entries after.items ≡ graphs_of book) }
{
    let mut left = graphs;
    let mut found = keys.into_iter();
    let mut after = Vec::new(alloc);
    for of in resources {
        left = graphs_from(left, &of);
        let own = found.next();
        let graph = graph_after(
            alloc,
            leading_graph(left, &of),
            text_of(texts, &of),
            &of,
            rows,
            writes,
            own,
        )?;
        after.push((of, graph))?;
    }
    Ok(after)
}

/// Graphs from the first that isn't of a resource before this one. Linear in the number of those before.
fn graphs_from<'a, R: RowStore>(
    graphs: &'a [(Resource, Arc<Followed<R>>)],
    of: &Resource,
) -> &'a [(Resource, Arc<Followed<R>>)]
    ensures { entries result.now ≡ made.graphs_from (entries graphs.now) of.now }
{
    let mut left = graphs;
    while let Some((first, rest)) = left.split_first() {
        if !is_before(&first.0, of) {
            return left;
        }
        left = rest;
    }
    left
}

/// The graph of a resource, where these begin with it.
fn leading_graph<'a, R: RowStore>(
    graphs: &'a [(Resource, Arc<Followed<R>>)],
    of: &Resource,
) -> Option<&'a Arc<Followed<R>>>
    ensures { option_map (λ graph. arc_value graph.now) result ≡ made.leading_graph (entries graphs.now) of.now }
{
    let (first, _) = graphs.split_first()?;
    if is_same(of, &first.0) {
        Some(&first.1)
    } else {
        None
    }
}

/// A copy of a resource.
pub(crate) fn copy_of(of: &Resource) -> Result<Resource, AllocError>
    ensures { IfOk result (λ copy. copy ≡ of.now) }
{
    of.clone()
}

/// Whether two resources are one.
pub(crate) fn is_same(of: &Resource, other: &Resource) -> bool
    ensures { result ≡ is_at (resource_cmp of.now) other.now }
{
    of.cmp(other).is_eq()
}

/// Whether a resource is before another.
fn is_before(of: &Resource, other: &Resource) -> bool
    ensures { result ≡ is_lt (resource_cmp of.now other.now) }
{
    of.cmp(other).is_lt()
}

/// The graph of a resource after a batch with these writes, which led to these rows: the same where it has no new
/// version, and begun with its version where it had none. The keys that touch the resource may have been found.
fn graph_after<R: RowStore>(
    alloc: Global,
    graph: Option<&Arc<Followed<R>>>,
    text: Option<&Arc<Pieces>>,
    of: &Resource,
    rows: &Arc<R>,
    writes: &[Write],
    keys: Option<Vec<Key>>,
) -> Result<Arc<Followed<R>>, AllocError>
    requires keys { IfSome keys (λ found. found.items ≡ spec.touching of.now writes.now) }
    requires good { AreGood (R.rows (arc_value rows.now)) }
    requires declared { is_declared (R.rows (arc_value rows.now)) of.now ≡ true }
    requires text { IfSome (option_map (λ text. arc_value text.now) text)
        (λ text. text ≡ map_pieces (R.rows (arc_value rows.now)) of.now) }
    ensures { IfOk result (λ after. arc_value after
        ≡ made.graph_after (option_map (λ graph. arc_value graph.now) graph.entry)
        of.now (R.rows (arc_value rows.now)) writes.now) }
{
    let version = version(&**rows, copy_of(of)?);
    let Some(graph) = graph else {
        let begun = Followed::resume(
            alloc,
            copy_of(of)?,
            window(&**rows),
            version.saturating_sub(1),
        )?;
        return pushed(alloc, &begun, text, of, rows, writes, keys);
    };
    if graph.graph().reached() < version {
        return pushed(alloc, graph, text, of, rows, writes, keys);
    }
    Arc::try_clone(graph)
}

/// The graph of a resource with one number more, which these writes made.
fn pushed<R: RowStore>(
    alloc: Global,
    graph: &Followed<R>,
    text: Option<&Arc<Pieces>>,
    of: &Resource,
    rows: &Arc<R>,
    writes: &[Write],
    keys: Option<Vec<Key>>,
) -> Result<Arc<Followed<R>>, AllocError>
    requires keys { IfSome keys (λ found. found.items ≡ spec.touching of.now writes.now) }
    requires room { graph.now.last < 2 ^ 63 - 1 }
    requires good { AreGood (R.rows (arc_value rows.now)) }
    requires declared { is_declared (R.rows (arc_value rows.now)) of.now ≡ true }
    requires text { IfSome (option_map (λ text. arc_value text.now) text)
        (λ text. text ≡ map_pieces (R.rows (arc_value rows.now)) of.now) }
    ensures { IfOk result (λ after. arc_value after
        ≡ with_push graph.now (push_after of.now (R.rows (arc_value rows.now)) writes.now)) }
{
    let keys = found_or_touching(alloc, keys, of, writes)?;
    Ok(Arc::new(alloc, graph.push(alloc, of, rows, keys, text)?)?)
}

/// The version that a resource has reached. One search.
fn version<R: RowStore>(rows: &R, of: Resource) -> u64
    requires { AreGood (R.rows rows.now) }
    ensures number { result ≡ version_of (R.rows rows.now) of }
    ensures room { result < 2 ^ 63 }
{
    let key = Key::Seq(of);
    let version = version_at(rows, &key);
    // a call: dropped in place the key takes long to prove, variant by variant
    drop(key);
    version
}

/// The version that the row of a key has, 0 where it has none. One search.
fn version_at<R: RowStore>(rows: &R, key: &Key) -> u64
    requires { AreGood (R.rows rows.now) }
    ensures number { (of : TheResource) → key.now ≡ keys.Seq of → result ≡ version_of (R.rows rows.now) of }
    ensures room { (of : TheResource) → key.now ≡ keys.Seq of → result < 2 ^ 63 }
{
    match rows.get(key) {
        Some(Value::Num(n)) => *n,
        _ => 0,
    }
}

/// How many versions of a resource are kept. One search.
fn window<R: RowStore>(rows: &R) -> u32
    requires { AreGood (R.rows rows.now) }
    ensures window { result ≡ window_of (R.rows rows.now) }
    ensures at_least { 2 ≤ result }
    ensures at_most { result ≤ 32 }
{
    match rows.get(&Key::Window) {
        Some(Value::Num(n)) => *n as u32,
        _ => 0,
    }
}

/// The keys that touch a resource, of these writes, where they haven't been found.
fn found_or_touching(
    alloc: Global,
    found: Option<Vec<Key>>,
    of: &Resource,
    writes: &[Write],
) -> Result<Vec<Key>, AllocError>
    requires { IfSome found (λ keys. keys.items ≡ spec.touching of.now writes.now) }
    ensures { IfOk result (λ keys. keys.items ≡ spec.touching of.now writes.now) }
{
    match found {
        Some(keys) => Ok(keys),
        None => touching(alloc, of, writes),
    }
}

/// The keys that touch a resource, of these writes.
pub(crate) fn touching(
    alloc: Global,
    of: &Resource,
    writes: &[Write],
) -> Result<Vec<Key>, AllocError>
    ensures { IfOk result (λ keys. keys.items ≡ spec.touching of.now writes.now) }
{
    let mut keys = Vec::new(alloc);
    for write in writes {
        if touches(of, &write.key) {
            keys.push(copied(&write.key)?)?;
        }
    }
    Ok(keys)
}

/// A copy of a key.
fn copied(key: &Key) -> Result<Key, AllocError>
    ensures { IfOk result (λ copy. copy ≡ key.now) }
{
    key.clone()
}
