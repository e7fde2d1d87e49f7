//! The updates graph of a resource, with what is kept as text of its numbers. A reply copies such a text, where it
//! would be written anew.
ghost use Rattle.std.specs.Prelude.{◌≡◌, ◌≤◌, ◌<◌, ◌^◌, ◌-◌, [], true, All, IfOk, IfSome, map, option_map};
ghost use Rattle.std.specs.Arc.{arc_value};
ghost use Rattle.alto_rows.specs.Good.{AreGood};
ghost use Rattle.alto_rows.specs.Versions.{is_declared};
ghost use Rattle.alto_versions.specs.Followed.{AreTextsAt, IsDocumentAt, IsPatchText};
ghost use Rattle.alto_versions.specs.Texts.{map_pieces};
ghost use Rattle.tips_graph.specs.Graph.{graph_from, with_push};
ghost use Rattle.tips_graph.specs.Keys.{key_set};

use crate::graphs::{copy_of, is_same};
use crate::number_texts::NumberTexts;
use alto_rows::{Key, Resource, RowStore};
use doc_pieces::Pieces;
use edge_patch::PatchForm;
use std::alloc::{AllocError, Global};
use std::marker::Model;
use std::sync::Arc;
use tips_graph::Graph;

/// The updates graph of a resource, and texts of some of its numbers. A contract sees the graph. The rows that it keeps
/// are good, and the texts are what its edges hold.
#[derive(Drop)]
pub struct Followed<R: RowStore> {
    of: Resource,
    graph: Graph<R>,
    texts: Vec<Arc<NumberTexts>>,
}

impl<R: RowStore> Model for Followed<R> {
    ghost use Rattle.std.specs.Prelude.{map};
    ghost use Rattle.std.specs.Arc.{arc_value};
    ghost use Rattle.alto_versions.specs.Followed.{HasTexts};
    ghost use Rattle.tips_graph.specs.Graph.{GraphData};

    ghost Value = { GraphData };

    ghost view = { λ followed. followed.graph };

    ghost invariant = { λ followed. HasTexts followed.graph followed.of (map arc_value followed.texts.items) };
}

impl<R: RowStore> Followed<R> {
    /// The graph of a resource that keeps no number, and whose next push makes `last + 1`.
    pub(crate) fn resume(
        alloc: Global,
        of: Resource,
        window: u32,
        last: u64,
    ) -> Result<Followed<R>, AllocError>
        requires at_least { 2 ≤ window }
        requires at_most { window ≤ 32 }
        requires room { last < 2 ^ 63 - 1 }
        ensures { IfOk result (λ followed. followed ≡ graph_from window last []) }
    {
        Ok(Followed {
            of,
            graph: Graph::resume(alloc, window, last)?,
            texts: Vec::new(alloc),
        })
    }

    /// The graph with one number more: the rows at it, and the keys that were written for it. Where the pieces of its
    /// document are given, they are kept, and, of a cost map, the patches that lead to the number over few keys.
    ///
    /// Costs what `Graph::push` costs, a pointer for each number that keeps texts, and the writing of these patches.
    pub(crate) fn push(
        &self,
        alloc: Global,
        of: &Resource,
        rows: &Arc<R>,
        keys: Vec<Key>,
        document: Option<&Arc<Pieces>>,
    ) -> Result<Followed<R>, AllocError>
        requires room { self.now.last < 2 ^ 63 - 1 }
        requires good { AreGood (R.rows (arc_value rows.now)) }
        requires declared { is_declared (R.rows (arc_value rows.now)) of.now ≡ true }
        requires document { IfSome (option_map (λ pieces. arc_value pieces.now) document)
            (λ pieces. pieces ≡ map_pieces (R.rows (arc_value rows.now)) of.now) }
        ensures { IfOk result (λ followed. followed
            ≡ with_push self.now (record { rows = R.rows (arc_value rows.now); keys = key_set keys.items })) }
    {
        let graph = self.graph.push(alloc, rows, keys)?;
        let mut texts = self.still_kept(alloc, of, graph.first())?;
        if let Some(document) = document {
            let document = Arc::try_clone(document)?;
            let newest = NumberTexts::newest(alloc, of, &graph, &**rows, document)?;
            texts.push(Arc::new(alloc, newest)?)?;
        }
        Ok(Followed {
            of: copy_of(of)?,
            graph,
            texts,
        })
    }

    /// The graph.
    pub fn graph(&self) -> &Graph<R>
        ensures { result.now ≡ self.now }
    {
        &self.graph
    }

    /// The text of the patch of an edge between two numbers, where it is kept. Linear in the numbers that keep texts.
    pub fn patch(&self, of: &Resource, form: PatchForm, i: u64, j: u64) -> Option<&[u8]>
        ensures { IfSome result (λ text. IsPatchText self.now of.now form i j text.now) }
    {
        self.texts_at(of, j)?.patch_from(i, form)
    }

    /// The pieces of the document at a number, where they are kept. Linear in the numbers that keep texts.
    pub fn document(&self, of: &Resource, number: u64) -> Option<&Arc<Pieces>>
        ensures { IfSome result (λ pieces. IsDocumentAt self.now of.now number (arc_value pieces.now)) }
    {
        Some(&self.texts_at(of, number)?.document)
    }

    /// The texts of a number, where they are kept.
    fn texts_at(&self, of: &Resource, number: u64) -> Option<&NumberTexts>
        ensures texts { IfSome result (λ texts. AreTextsAt self.now of.now texts.now) }
        ensures number { IfSome result (λ texts. texts.now.number ≡ number) }
    {
        if !is_same(of, &self.of) {
            return None;
        }
        for texts in &self.texts {
            if texts.number == number {
                return Some(texts);
            }
        }
        None
    }

    /// The texts of numbers from the first on, shared.
    fn still_kept(
        &self,
        alloc: Global,
        of: &Resource,
        first: u64,
    ) -> Result<Vec<Arc<NumberTexts>>, AllocError>
        ensures { IfOk result (λ kept. All (AreTextsAt self.now of.now) (map arc_value kept.items)) }
    {
        let mut kept = Vec::with_capacity(alloc, self.texts.len() + 1)?;
        if !is_same(of, &self.of) {
            return Ok(kept);
        }
        for texts in &self.texts {
            if first <= texts.number {
                kept.push(Arc::try_clone(texts)?)?;
            }
        }
        Ok(kept)
    }
}
