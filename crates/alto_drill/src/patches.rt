//! The trial of an edge: its bodies are made, read back and applied.
ghost use Rattle.std.specs.Prelude.{◌≡◌, [], ◌∷◌, true, All, Ok, IfOk, OnOk};
ghost use Rattle.serde_json.specs.Data.{Data};
ghost use Rattle.serde_json.specs.Written.{compact_text};
ghost use Rattle.json_tree.specs.Whole.{whole_value};
ghost use Rattle.json_patch.specs.OperationList.{operations_data};
ghost use Rattle.alto_rows.specs.Good.{AreGood};
ghost use Rattle.alto_rows.specs.Versions.{is_declared};
ghost use Rattle.tips_graph.specs.declared.status.EdgeStatus.TheVariants.{Here};
ghost use Rattle.edge_patch.specs.Documents as documents;
ghost use Rattle.edge_patch.specs.Merge.{merge_form};
ghost use Rattle.edge_patch.specs.OperationForm.{operation_form};
ghost use Rattle.edge_patch.specs.declared.form.PatchForm.TheVariants as form;
ghost use Rattle.alto_book.specs.Book.{Book};
ghost use Rattle.alto_book.specs.NumberLaws.{TellsNumbers};
ghost use Rattle.alto_book.specs.Numbers.{status_at};
ghost use Rattle.alto_book.specs.Walks.{document, document_at, patch};
ghost use Rattle.alto_drill.specs.Trials.{contents_of, with_contents, with_edges, with_resource};

use crate::edges::edges_of;
use crate::reading::{document_leads, patches_lead};
use crate::trials::Trials;
use alto_desk::Desk;
use alto_keeper::MemKeeper;
use alto_rows::{Key, Resource, RowStore};
use edge_patch::{document_text, json_edge, merge_edge};
use json_patch::ops_tree;
use json_tree::text;
use std::alloc::{AllocError, Global};
use tips_graph::Graph;

/// Tries all available edges of a resource.
pub(crate) fn try_resource<R: RowStore>(
    alloc: Global,
    desk: &Desk<MemKeeper, R>,
    of: &Resource,
    trials: &mut Trials,
) -> Result<(), AllocError>
    ensures { OnOk result (trials.new ≡ with_resource desk.now.ledger.book of.now trials.old) }
{
    let Some(graph) = desk.front().graph(of) else {
        return Ok(());
    };
    let edges = edges_of(alloc, graph)?;
    try_edges(alloc, graph, of, &edges, trials)
}

/// Tries edges of a resource.
fn try_edges<R: RowStore>(
    alloc: Global,
    graph: &Graph<R>,
    of: &Resource,
    edges: &[(u64, u64)],
    trials: &mut Trials,
) -> Result<(), AllocError>
    requires { (book : Book) × TellsNumbers graph.now book of.now
        × All (λ edge. status_at book of.now edge.0 edge.1 ≡ Here) edges.now }
    ensures { OnOk result ((book : Book) → TellsNumbers graph.now book of.now
        → trials.new ≡ with_edges book of.now edges.now trials.old) }
{
    for (i, j) in edges {
        try_edge(alloc, graph, of, *i, *j, trials)?;
    }
    Ok(())
}

/// Tries an edge of a resource.
fn try_edge<R: RowStore>(
    alloc: Global,
    graph: &Graph<R>,
    of: &Resource,
    i: u64,
    j: u64,
    trials: &mut Trials,
) -> Result<(), AllocError>
    requires { (book : Book) × TellsNumbers graph.now book of.now × (status_at book of.now i j ≡ Here) }
    ensures { OnOk result ((book : Book) → TellsNumbers graph.now book of.now
        → trials.new ≡ with_contents (document_at book of.now i) (document_at book of.now j)
        (contents_of book of.now (i, j)) trials.old) }
{
    let Some(rows) = graph.rows_at(j) else {
        unreachable!();
    };
    let Some(keys) = graph.span(alloc, i, j)? else {
        return try_document(alloc, of, &**rows, trials);
    };
    let Some(before) = graph.rows_at(i) else {
        unreachable!();
    };
    try_patches(alloc, of, &**before, &**rows, &keys, trials)
}

/// Tries the edge from 0 to rows: the whole document.
#[tactic(auto, using(crate::proofs::TrialLemmas::with_document))]
fn try_document<R: RowStore>(
    alloc: Global,
    of: &Resource,
    rows: &R,
    trials: &mut Trials,
) -> Result<(), AllocError>
    requires good { AreGood (R.rows rows.now) }
    requires declared { is_declared (R.rows rows.now) of.now ≡ true }
    ensures { OnOk result ((before : Data) → trials.new ≡ with_contents before
        (documents.document of.now (R.rows rows.now))
        (document (documents.document of.now (R.rows rows.now)) ∷ []) trials.old) }
{
    let document = document_text(alloc, of, rows)?;
    let leads = document_leads(alloc, &document, &document)?;
    trials.add_body(&document)?;
    trials.add_edge(leads)
}

/// Tries the edge between rows that differ at keys, in both forms.
fn try_patches<R: RowStore>(
    alloc: Global,
    of: &Resource,
    before: &R,
    after: &R,
    keys: &[Key],
    trials: &mut Trials,
) -> Result<(), AllocError>
    requires good_before { AreGood (R.rows before.now) }
    requires declared_before { is_declared (R.rows before.now) of.now ≡ true }
    requires good { AreGood (R.rows after.now) }
    requires declared { is_declared (R.rows after.now) of.now ≡ true }
    ensures { OnOk result (trials.new ≡ with_contents
        (documents.document of.now (R.rows before.now)) (documents.document of.now (R.rows after.now))
        (patch form.Merge of.now (R.rows before.now) (R.rows after.now) keys.now
        ∷ patch form.Operations of.now (R.rows before.now) (R.rows after.now) keys.now ∷ []) trials.old) }
{
    let start = document_text(alloc, of, before)?;
    let end = document_text(alloc, of, after)?;
    let merge = merge_text(alloc, of, after, keys)?;
    let operations = operations_text(alloc, of, before, after, keys)?;
    let leads = patches_lead(alloc, &start, &merge, &operations, &end)?;
    trials.add_patches(&merge, &operations, leads)
}

/// The text of an edge's merge patch, which reads as this patch.
#[tactic(auto, using(crate::proofs::DepthLemmas::merge_shallow))]
fn merge_text<R: RowStore>(
    alloc: Global,
    of: &Resource,
    after: &R,
    keys: &[Key],
) -> Result<Vec<u8>, AllocError>
    requires good { AreGood (R.rows after.now) }
    requires declared { is_declared (R.rows after.now) of.now ≡ true }
    ensures text { IfOk result (λ body. body.items ≡ compact_text (merge_form of.now (R.rows after.now) keys.now)) }
    ensures reads { IfOk result (λ body. whole_value body.items ≡ Ok (merge_form of.now (R.rows after.now) keys.now)) }
{
    let change = merge_edge(alloc, of, after, keys)?;
    text(alloc, &change)
}

/// The text of an edge's operations, which reads as these.
#[tactic(auto, using(crate::proofs::DepthLemmas::operations_shallow))]
fn operations_text<R: RowStore>(
    alloc: Global,
    of: &Resource,
    before: &R,
    after: &R,
    keys: &[Key],
) -> Result<Vec<u8>, AllocError>
    requires good_before { AreGood (R.rows before.now) }
    requires good { AreGood (R.rows after.now) }
    requires declared { is_declared (R.rows after.now) of.now ≡ true }
    ensures text { IfOk result (λ body. body.items
        ≡ compact_text (operations_data (operation_form of.now (R.rows before.now) (R.rows after.now) keys.now))) }
    ensures reads { IfOk result (λ body. whole_value body.items
        ≡ Ok (operations_data (operation_form of.now (R.rows before.now) (R.rows after.now) keys.now))) }
{
    let changes = json_edge(alloc, of, before, after, keys)?;
    text(alloc, &ops_tree(alloc, &changes)?)
}
