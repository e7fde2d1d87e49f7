//! The texts of the documents of a version, in pieces, made from those of the version before. All pieces that a batch
//! left are shared.
ghost use Rattle.std.specs.Prelude.{◌≡◌, true, IfOk, IfSome, All, map, option_map};
ghost use Rattle.std.specs.Arc.{arc_value};
ghost use Rattle.alto_rows.specs.Good.{AreGood};
ghost use Rattle.alto_rows.specs.Rows.{Rows};
ghost use Rattle.alto_rows.specs.Rows as spec;
ghost use Rattle.alto_rows.specs.Versions.{is_declared, resources_of as declared_resources};
ghost use Rattle.alto_book.specs.Numbers.{touching as spec_touching};
ghost use Rattle.cost_tables.specs.Tables.{AreCostsOf};
ghost use Rattle.alto_versions.specs.Graphs.{AreTouching, entries};
ghost use Rattle.alto_versions.specs.Texts as made;
ghost use Rattle.alto_versions.specs.Texts.{AreTextsOf, IsTextOf, map_pieces, text_in};
ghost use Rattle.net_docs.specs.Differ.{DifferBy};

use crate::graphs::{is_same, touching};
use crate::resources::resources_of;
use alto_rows::{Key, Resource, RowStore, Write};
use cost_docs::{CostGroups, CostMap, cost_places};
use cost_tables::CostTables;
use doc_pieces::Pieces;
use net_docs::{NetMap, net_places};
use prop_docs::{PropMap, prop_places};
use std::alloc::{AllocError, Global};
use std::sync::Arc;

/// The texts of documents after a batch: one for each declared resource, and the keys of the batch that touch it.
#[derive(Drop)]
pub(crate) struct TextsWithKeys {
    /// The texts, in the order of resources.
    pub(crate) texts: Vec<(Resource, Arc<Pieces>)>,
    /// The keys that touch each of these resources.
    pub(crate) keys: Vec<Vec<Key>>,
}

/// The texts of the documents after a batch with these writes, which led to these rows and costs: one for each declared
/// resource, which these are. The groups that the batch left are shared. The keys that touch each resource are found
/// and copied once, and handed on.
///
/// Costs a look at each text and at each write for each resource, and for each that the batch touched one walk over its
/// groups and the writing of those that the batch touched.
pub(crate) fn texts_after<R: RowStore>(
    alloc: Global,
    texts: &[(Resource, Arc<Pieces>)],
    rows: &R,
    costs: &CostTables,
    resources: Vec<Resource>,
    writes: &[Write],
) -> Result<TextsWithKeys, AllocError>
    requires good { AreGood (R.rows rows.now) }
    requires costs { AreCostsOf (R.rows rows.now) costs.now }
    requires resources { resources.items ≡ declared_resources (R.rows rows.now) }
    ensures texts { IfOk result (λ after. (before : Rows) → R.rows rows.now ≡ spec.after before writes.now
        → AreTextsOf before (entries texts.now) → AreTextsOf (R.rows rows.now) (entries after.texts.items)) }
    ensures keys { IfOk result (λ after.
        AreTouching writes.now (map (λ keys. keys.items) after.keys.items) (declared_resources (R.rows rows.now))) }
{
    let mut after = Vec::new(alloc);
    let mut found = Vec::new(alloc);
    for of in resources {
        let keys = touching(alloc, &of, writes)?;
        let before = text_of(texts, &of);
        let text = text_after(alloc, before, &of, rows, costs, writes, &keys)?;
        after.push((of, text))?;
        found.push(keys)?;
    }
    Ok(TextsWithKeys {
        texts: after,
        keys: found,
    })
}

/// The texts of the documents of the rows, which have these costs: one for each declared resource.
///
/// Costs a walk over the rows of the networks and metrics, and the writing of each map.
pub(crate) fn texts_of<R: RowStore>(
    alloc: Global,
    rows: &R,
    costs: &CostTables,
) -> Result<Vec<(Resource, Arc<Pieces>)>, AllocError>
    requires good { AreGood (R.rows rows.now) }
    requires costs { AreCostsOf (R.rows rows.now) costs.now }
    ensures { IfOk result (λ texts. AreTextsOf (R.rows rows.now) (entries texts.items)) }
{
    let mut texts = Vec::new(alloc);
    for of in resources_of(alloc, rows)? {
        let text = written(alloc, rows, costs, &of)?;
        texts.push((of, text))?;
    }
    Ok(texts)
}

/// The text of a resource's document among these. Linear in their number.
pub(crate) fn text_of<'a>(
    texts: &'a [(Resource, Arc<Pieces>)],
    of: &Resource,
) -> Option<&'a Arc<Pieces>>
    ensures { option_map (λ text. arc_value text.now) result ≡ text_in (entries texts.now) of.now }
{
    for (resource, text) in texts {
        if is_same(of, resource) {
            return Some(text);
        }
    }
    None
}

/// The text of a declared resource's document after a batch with these writes, of which these keys touch it, and which
/// led to these rows: the same where they left the map.
fn text_after<R: RowStore>(
    alloc: Global,
    text: Option<&Arc<Pieces>>,
    of: &Resource,
    rows: &R,
    costs: &CostTables,
    writes: &[Write],
    keys: &[Key],
) -> Result<Arc<Pieces>, AllocError>
    requires good { AreGood (R.rows rows.now) }
    requires costs { AreCostsOf (R.rows rows.now) costs.now }
    requires declared { is_declared (R.rows rows.now) of.now ≡ true }
    requires keys { keys.now ≡ spec_touching of.now writes.now }
    ensures { IfOk result (λ after. (before : Rows) → R.rows rows.now ≡ spec.after before writes.now
        → IfSome (option_map (λ text. arc_value text.now) text.entry) (IsTextOf before of.now)
        → arc_value after ≡ map_pieces (R.rows rows.now) of.now) }
{
    let Some(text) = text else {
        return written(alloc, rows, costs, of);
    };
    if writes_epoch(writes) {
        return written(alloc, rows, costs, of);
    }
    text_at(alloc, text, of, rows, costs, keys)
}

/// The text of a resource's document at rows that differ by keys alone from those that this is the text at: the same
/// where there is no key.
fn text_at<R: RowStore>(
    alloc: Global,
    text: &Arc<Pieces>,
    of: &Resource,
    rows: &R,
    costs: &CostTables,
    keys: &[Key],
) -> Result<Arc<Pieces>, AllocError>
    requires good { AreGood (R.rows rows.now) }
    requires costs { AreCostsOf (R.rows rows.now) costs.now }
    ensures { IfOk result (λ after. (before : Rows) → DifferBy keys.now before (R.rows rows.now) of.now
        → arc_value text.now ≡ map_pieces before of.now → arc_value after ≡ map_pieces (R.rows rows.now) of.now) }
{
    if keys.is_empty() {
        return Arc::try_clone(text);
    }
    Ok(Arc::new(alloc, renewed(alloc, text, of, rows, costs, keys)?)?)
}

/// The pieces of a resource's map at rows that differ by these keys alone from those that these are the pieces at.
fn renewed<R: RowStore>(
    alloc: Global,
    text: &Pieces,
    of: &Resource,
    rows: &R,
    costs: &CostTables,
    keys: &[Key],
) -> Result<Pieces, AllocError>
    requires good { AreGood (R.rows rows.now) }
    requires costs { AreCostsOf (R.rows rows.now) costs.now }
    ensures { IfOk result (λ after. (before : Rows) → DifferBy keys.now before (R.rows rows.now) of.now
        → text.now ≡ map_pieces before of.now → after ≡ map_pieces (R.rows rows.now) of.now) }
{
    match of {
        Resource::Net(net) => {
            let places = net_places(alloc, net, keys)?;
            let map = NetMap::new(rows, net);
            text.renewed(alloc, &map, &map, &places)
        }
        Resource::Cost(net, metric) => {
            let places = cost_places(alloc, net, metric, keys)?;
            let map = CostMap::new(rows, net, metric);
            let groups = CostGroups::new(rows, net, metric, costs);
            text.renewed(alloc, &map, &groups, &places)
        }
        Resource::Prop(net) => {
            let places = prop_places(alloc, net, keys)?;
            let map = PropMap::new(rows, net);
            text.renewed(alloc, &map, &map, &places)
        }
    }
}

/// The text of a resource's document in these rows.
fn written<R: RowStore>(
    alloc: Global,
    rows: &R,
    costs: &CostTables,
    of: &Resource,
) -> Result<Arc<Pieces>, AllocError>
    requires good { AreGood (R.rows rows.now) }
    requires costs { AreCostsOf (R.rows rows.now) costs.now }
    ensures { IfOk result (λ text. arc_value text ≡ map_pieces (R.rows rows.now) of.now) }
{
    Ok(Arc::new(alloc, pieces(alloc, rows, costs, of)?)?)
}

/// The pieces of a resource's map in these rows.
#[tactic(auto, unfolding(crate::specs::Texts::map_pieces))]
fn pieces<R: RowStore>(
    alloc: Global,
    rows: &R,
    costs: &CostTables,
    of: &Resource,
) -> Result<Pieces, AllocError>
    requires good { AreGood (R.rows rows.now) }
    requires costs { AreCostsOf (R.rows rows.now) costs.now }
    ensures { IfOk result (λ pieces. pieces ≡ map_pieces (R.rows rows.now) of.now) }
{
    match of {
        Resource::Net(net) => {
            let map = NetMap::new(rows, net);
            Pieces::of(alloc, &map, &map)
        }
        Resource::Cost(net, metric) => {
            let map = CostMap::new(rows, net, metric);
            let groups = CostGroups::new(rows, net, metric, costs);
            Pieces::of(alloc, &map, &groups)
        }
        Resource::Prop(net) => {
            let map = PropMap::new(rows, net);
            Pieces::of(alloc, &map, &map)
        }
    }
}

/// Whether one of these writes is of the epoch.
fn writes_epoch(writes: &[Write]) -> bool
    ensures { result ≡ made.writes_epoch writes.now }
{
    writes.iter().any(|write| is_epoch(&write.key))
}

fn is_epoch(key: &Key) -> bool
    ensures { result ≡ made.is_epoch key.now }
{
    matches!(key, Key::Epoch)
}
