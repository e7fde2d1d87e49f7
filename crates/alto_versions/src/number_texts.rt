//! What is kept as text of a number of a resource.
ghost use Rattle.std.specs.Prelude.{◌≡◌, true, All, IfOk, IfSome, Some};
ghost use Rattle.std.specs.Arc.{arc_value};
ghost use Rattle.alto_rows.specs.Good.{AreGood};
ghost use Rattle.alto_rows.specs.Versions.{is_declared};
ghost use Rattle.alto_rows.specs.declared.resource.Resource.{Resource as TheResource};
ghost use Rattle.alto_versions.specs.Followed.{AreTextsAt, IsPatchText, text_in_form};
ghost use Rattle.alto_versions.specs.Texts.{map_pieces};
ghost use Rattle.edge_patch.specs.declared.form.PatchForm.{PatchForm as Form};
ghost use Rattle.tips_graph.specs.Graph.{GraphData, Push, rows_at};

use alto_rows::{Resource, RowStore};
use doc_pieces::Pieces;
use edge_patch::PatchForm;
use edge_text::{merge_text, operations_text};
use std::alloc::{AllocError, Global};
use std::marker::Model;
use std::sync::Arc;
use tips_graph::Graph;

/// How far the edges between two numbers lead (RFC 9569, section 3).
const STRIDES: [u64; 5] = [1, 2, 4, 8, 16];

/// A patch over more keys isn't kept, so that what a number keeps is small.
const MOST_KEYS: usize = 512;

/// A number of a resource, with the text of its document in pieces, and those of the patches that lead to it.
#[derive(Drop)]
pub(crate) struct NumberTexts {
    pub(crate) number: u64,
    pub(crate) document: Arc<Pieces>,
    patches: Vec<PatchTexts>,
}

impl Model for NumberTexts {
    ghost use Rattle.std.specs.Arc.{arc_value};
    ghost use Rattle.alto_versions.specs.Followed.{NumberTexts};

    ghost Value = { NumberTexts };

    ghost view = { λ texts. record {
      number = texts.number;
      document = arc_value texts.document;
      patches = texts.patches.items;
    } };
}

/// The texts of a patch in both forms, and the number from which it leads.
#[derive(Drop)]
struct PatchTexts {
    from: u64,
    merge: Vec<u8>,
    operations: Vec<u8>,
}

impl Model for PatchTexts {
    ghost use Rattle.alto_versions.specs.Followed.{PatchTexts};

    ghost Value = { PatchTexts };

    ghost view = { λ patch. record {
      from = patch.from;
      merge = patch.merge.items;
      operations = patch.operations.items;
    } };
}

impl NumberTexts {
    /// The texts of the last number of a graph, at which these are the rows, with these pieces of its document.
    pub(crate) fn newest<R: RowStore>(
        alloc: Global,
        of: &Resource,
        graph: &Graph<R>,
        rows: &R,
        document: Arc<Pieces>,
    ) -> Result<NumberTexts, AllocError>
        requires last { rows_at graph.now graph.now.last ≡ Some (R.rows rows.now) }
        requires kept { All (λ (push : Push). AreGood push.rows) graph.now.kept }
        requires good { AreGood (R.rows rows.now) }
        requires declared { is_declared (R.rows rows.now) of.now ≡ true }
        requires document { arc_value document ≡ map_pieces (R.rows rows.now) of.now }
        ensures { IfOk result (AreTextsAt graph.now of.now) }
    {
        Ok(NumberTexts {
            number: graph.reached(),
            document,
            patches: patches_to(alloc, of, graph, rows)?,
        })
    }

    /// The text of the patch that leads from a number, where it is kept. Linear in the patches.
    pub(crate) fn patch_from(&self, from: u64, form: PatchForm) -> Option<&[u8]>
        ensures { (graph : GraphData) (of : TheResource) → AreTextsAt graph of self.now
            → IfSome result (λ text. IsPatchText graph of form from self.now.number text.now) }
    {
        for patch in &self.patches {
            if patch.from == from {
                return Some(patch.text(form));
            }
        }
        None
    }
}

impl PatchTexts {
    /// The text in a form.
    fn text(&self, form: PatchForm) -> &[u8]
        ensures { result.now ≡ text_in_form self.now form }
    {
        match form {
            PatchForm::Merge => &self.merge,
            PatchForm::Operations => &self.operations,
        }
    }
}

/// The patches of a cost map that lead to the last number of a graph, at which these are the rows: those over few keys.
fn patches_to<R: RowStore>(
    alloc: Global,
    of: &Resource,
    graph: &Graph<R>,
    rows: &R,
) -> Result<Vec<PatchTexts>, AllocError>
    requires last { rows_at graph.now graph.now.last ≡ Some (R.rows rows.now) }
    requires kept { All (λ (push : Push). AreGood push.rows) graph.now.kept }
    requires good { AreGood (R.rows rows.now) }
    requires declared { is_declared (R.rows rows.now) of.now ≡ true }
    ensures { IfOk result (λ patches. All (λ patch. (form : Form)
        → IsPatchText graph.now of.now form patch.from graph.now.last (text_in_form patch form)) patches.items) }
{
    let mut patches = Vec::new(alloc);
    if !matches!(of, Resource::Cost(_, _)) {
        return Ok(patches);
    }
    for stride in STRIDES {
        if let Some(patch) = patch_by(alloc, of, graph, rows, stride)? {
            patches.push(patch)?;
        }
    }
    Ok(patches)
}

/// The patch that leads by a stride to the last number of a graph, at which these are the rows, where the edge can be
/// had and is over few keys.
fn patch_by<R: RowStore>(
    alloc: Global,
    of: &Resource,
    graph: &Graph<R>,
    rows: &R,
    stride: u64,
) -> Result<Option<PatchTexts>, AllocError>
    requires last { rows_at graph.now graph.now.last ≡ Some (R.rows rows.now) }
    requires kept { All (λ (push : Push). AreGood push.rows) graph.now.kept }
    requires good { AreGood (R.rows rows.now) }
    requires declared { is_declared (R.rows rows.now) of.now ≡ true }
    ensures { IfOk result (λ found. IfSome found (λ patch. (form : Form)
        → IsPatchText graph.now of.now form patch.from graph.now.last (text_in_form patch form))) }
{
    let last = graph.reached();
    let from = last.saturating_sub(stride);
    let Some(keys) = graph.kept_span(from, last) else {
        return Ok(None);
    };
    let Some(before) = graph.rows_at(from) else {
        return Ok(None);
    };
    if keys.len() > MOST_KEYS {
        return Ok(None);
    }
    Ok(Some(PatchTexts {
        from,
        merge: merge_text(alloc, of, rows, keys)?,
        operations: operations_text(alloc, of, &**before, rows, keys)?,
    }))
}
