ghost use Rattle.std.specs.Prelude.{◌≡◌, ◌≤◌, ◌<◌, ◌+◌, ◌-◌, ◌*◌, ◌^◌, ◌∷◌, ◌++◌, [], IfOk, IfSome, map};
ghost use Rattle.std.specs.Prelude.{option_copied, option_map, slice_get, None, Some, if◌then◌else◌, IsTrue};
ghost use Rattle.std.specs.Arc.{arc_value};
ghost use Rattle.std.specs.Cow.{cow_slice_items};
ghost use Rattle.tips_graph.specs.Edges.{recommended_edge};
ghost use Rattle.tips_graph.specs.Graph.{Push, graph_of, graph_from, with_push, cut_at, first_of, last_of, keeps};
ghost use Rattle.tips_graph.specs.Graph.{span_of, status_of};
ghost use Rattle.tips_graph.specs.Graph as spec;
ghost use Rattle.tips_graph.specs.Keys.{key_set};
ghost use Rattle.tips_graph.specs.Shortcuts.{push_of, IsStride, IsListIfKept, HasLists, before_kept};
ghost use Rattle.tips_graph.specs.Sound.{IsSound};
ghost use Rattle.tips_graph.specs.declared.status.EdgeStatus.TheVariants.{Here};

use crate::keys::{distinct_keys, merged};
use crate::status::{EdgeStatus, edge_status, longest_stride};
use crate::step::Step;
use alto_rows::{Key, RowStore};
use std::alloc::{AllocError, Global};
use std::borrow::CowSlice;
use std::marker::Model;
use std::sync::Arc;

/// The keys of a longer edge are kept where those of its halves are no more together: what is kept costs memory, and
/// the push that forgets its number drops it. So at most half as many keys of an edge are surely kept.
const MOST_KEPT: usize = 1024;

/// The kept part of the updates graph of one resource (RFC 9569, section 3). It never changes: a push makes another,
/// which shares what both keep. A contract sees the window, the last number, and the kept pushes.
#[derive(Drop)]
pub struct Graph<R: RowStore> {
    window: u32,
    last: u64,
    kept: Vec<Arc<Step<R>>>,
}

impl<R: RowStore> Model for Graph<R> {
    ghost use Rattle.std.specs.Prelude.{map};
    ghost use Rattle.std.specs.Arc.{arc_value};
    ghost use Rattle.tips_graph.specs.Graph.{GraphData};
    ghost use Rattle.tips_graph.specs.Shortcuts.{graph_with, Stands};

    ghost Value = { GraphData };

    ghost view = { λ graph. graph_with graph.window graph.last (map arc_value graph.kept.items) };

    ghost invariant = { λ graph. Stands graph.window graph.last (map arc_value graph.kept.items) };
}

impl<R: RowStore> Graph<R> {
    /// A graph without pushes, which keeps `window` numbers at most.
    pub fn empty(alloc: Global, window: u32) -> Result<Graph<R>, AllocError>
        requires at_least { 2 ≤ window }
        requires at_most { window ≤ 32 }
        ensures { IfOk result (λ graph. graph ≡ graph_of window []) }
    {
        Graph::resume(alloc, window, 0)
    }

    /// A graph that keeps no number, and whose next push makes `last + 1`.
    pub fn resume(alloc: Global, window: u32, last: u64) -> Result<Graph<R>, AllocError>
        requires at_least { 2 ≤ window }
        requires at_most { window ≤ 32 }
        requires room { last < 2 ^ 63 - 1 }
        ensures { IfOk result (λ graph. graph ≡ graph_from window last []) }
    {
        Ok(Graph {
            window,
            last,
            kept: Vec::new(alloc),
        })
    }

    /// The graph with one number more: the rows at it, and the keys that were written for it, in any order. It shares
    /// the rows and all that it keeps of this graph.
    ///
    /// Costs n comparisons of the n keys where they rise, else n log n and as many copies; a comparison and a copy for
    /// each key of the longer edges with few keys that end at the number; and one pointer for each kept number.
    pub fn push(&self, alloc: Global, rows: &Arc<R>, keys: Vec<Key>) -> Result<Graph<R>, AllocError>
        requires { self.now.last < 2 ^ 63 - 1 }
        ensures { IfOk result (λ graph. graph
            ≡ with_push self.now (record { rows = R.rows (arc_value rows.now); keys = key_set keys.items })) }
    {
        let step = Arc::new(alloc, self.next_step(alloc, rows, keys)?)?;
        let forgotten = (self.kept.len() + 1).saturating_sub(self.window as usize);
        let mut kept = Vec::with_capacity(alloc, self.kept.len() + 1 - forgotten)?;
        append_shared(&mut kept, &self.kept[forgotten..])?;
        kept.push(step)?;
        Ok(Graph {
            window: self.window,
            last: self.last + 1,
            kept,
        })
    }

    /// The graph without the numbers before `first`, at which the rows are to be these. Only the edge from 0 leads to
    /// `first`. It shares all that it keeps. Costs one pointer for each number that stays.
    pub fn cut(&self, alloc: Global, first: u64, rows: &Arc<R>) -> Result<Graph<R>, AllocError>
        requires { IsTrue (keeps self.now first) }
        ensures { IfOk result (λ graph. graph ≡ cut_at self.now first (R.rows (arc_value rows.now))) }
    {
        let later = (self.last - first) as usize;
        let mut kept = Vec::with_capacity(alloc, later + 1)?;
        kept.push(Arc::new(alloc, first_step(alloc, rows)?)?)?;
        append_shared(&mut kept, &self.kept[self.kept.len() - later..])?;
        Ok(Graph {
            window: self.window,
            last: self.last,
            kept,
        })
    }

    /// The first number that is kept, 0 where there is none.
    pub fn first(&self) -> u64
        ensures { result ≡ first_of self.now }
    {
        if self.kept.is_empty() {
            return 0;
        }
        self.last + 1 - self.kept.len() as u64
    }

    /// The last number that is kept, 0 where there is none.
    pub fn last(&self) -> u64
        ensures number { result ≡ last_of self.now }
        ensures sound { IsSound self.now }
    {
        if self.kept.is_empty() {
            return 0;
        }
        self.last
    }

    /// The number that the pushes have reached, whether it is kept or not: the next push makes the one after it.
    pub fn reached(&self) -> u64
        ensures number { result ≡ self.now.last }
        ensures sound { IsSound self.now }
    {
        self.last
    }

    /// Whether an edge can be had: where no number is kept none can, and (0, 1) is awaited.
    pub fn status(&self, i: u64, j: u64) -> EdgeStatus
        ensures { result ≡ status_of self.now i j }
    {
        edge_status(self.first(), self.last(), i, j)
    }

    /// The rows at a number, `None` exactly where it isn't kept.
    pub fn rows_at(&self, s: u64) -> Option<&Arc<R>>
        ensures { option_map (λ rows. R.rows (arc_value rows.now)) result ≡ spec.rows_at self.now s }
    {
        Some(&self.step_to(s)?.rows)
    }

    /// The distinct keys that lead from one version to another, in their order, `None` exactly where that edge can't be
    /// had or leads from 0. Those of a single step are kept, as few of a longer edge are, and aren't copied. Else they
    /// are merged from those of its halves: at most four comparisons and copies for each key of the pushes between.
    pub fn span(
        &self,
        alloc: Global,
        i: u64,
        j: u64,
    ) -> Result<Option<CowSlice<'_, Key>>, AllocError>
        ensures { IfOk result (λ keys. option_map cow_slice_items keys ≡ span_of self.now i j) }
    {
        match self.status(i, j) {
            EdgeStatus::Here if 0 < i => Ok(Some(self.edge_keys(alloc, i, j)?)),
            _ => Ok(None),
        }
    }

    /// The distinct keys of an edge as `span` gives them, where they are kept, as those of a single step are.
    pub fn kept_span(&self, i: u64, j: u64) -> Option<&[Key]>
        ensures keys { IfSome result (λ keys. Some keys.now ≡ span_of self.now i j) }
        ensures single { j ≡ i + 1 → option_map (λ keys. keys.now) result ≡ span_of self.now i j }
    {
        match self.status(i, j) {
            EdgeStatus::Here if 0 < i => self.step_to(j)?.list(j - i),
            _ => None,
        }
    }

    /// The edge with which a client begins: the longest from the kept number that it holds, and else that from 0 to the
    /// last.
    pub fn recommend(&self, held: Option<u64>) -> (u64, u64)
        ensures { result ≡ recommended_edge (first_of self.now) (last_of self.now) held }
    {
        let last = self.last();
        match held {
            Some(held) if self.first() <= held && held < last => {
                (held, held + longest_stride(last, held))
            }
            Some(held) if held == last => (held, held + 1),
            _ => (0, last),
        }
    }

    /// The push of a number, `None` exactly where it isn't kept.
    fn step_to(&self, number: u64) -> Option<&Step<R>>
        ensures step { option_map push_of (option_copied result)
            ≡ (if keeps self.now number then slice_get self.now.kept (number - first_of self.now) else None) }
        ensures lists { IfSome result (λ step. HasLists (before_kept self.now) self.now.kept number step.now) }
        ensures sound { IsSound self.now }
    {
        let (first, last) = (self.first(), self.last());
        if number == 0 || number < first || last < number {
            return None;
        }
        let step = self.kept.get((number - first) as usize)?;
        Some(step)
    }

    /// The distinct keys of an edge between versions that can be had: those that are kept, or merged from its halves.
    fn edge_keys(&self, alloc: Global, i: u64, j: u64) -> Result<CowSlice<'_, Key>, AllocError>
        requires version { 0 < i }
        requires here { status_of self.now i j ≡ Here }
        ensures { IfOk result (λ keys. Some (cow_slice_items keys) ≡ span_of self.now i j) }
    {
        let Some(step) = self.step_to(j) else {
            unreachable!();
        };
        if let Some(keys) = step.list(j - i) {
            return Ok(CowSlice::Borrowed(keys));
        }
        let middle = i + (j - i) / 2;
        let older = self.edge_keys(alloc, i, middle)?;
        let newer = self.edge_keys(alloc, middle, j)?;
        Ok(CowSlice::Owned(merged(alloc, &older, &newer)?))
    }

    /// What the next push keeps: its rows, its distinct keys, and the lists of the longer edges that end at it.
    fn next_step(&self, alloc: Global, rows: &Arc<R>, keys: Vec<Key>) -> Result<Step<R>, AllocError>
        requires { self.now.last < 2 ^ 63 - 1 }
        ensures push { IfOk result (λ step. push_of step
            ≡ record { rows = R.rows (arc_value rows.now); keys = key_set keys.items }) }
        ensures lists { IfOk result (λ step.
            HasLists (before_kept self.now) (self.now.kept ++ push_of step ∷ []) (self.now.last + 1) step) }
    {
        let rows = Arc::try_clone(rows)?;
        let keys = distinct_keys(alloc, keys)?;
        let twos = self.doubled(alloc, 1, Some(&keys))?;
        let fours = self.doubled(alloc, 2, twos.as_deref())?;
        let eights = self.doubled(alloc, 4, fours.as_deref())?;
        let sixteens = self.doubled(alloc, 8, eights.as_deref())?;
        Ok(Step {
            rows,
            keys,
            twos,
            fours,
            eights,
            sixteens,
        })
    }

    /// The list of the edge by `2 * half` to the next push, from the list of its later half. It is `None` where no such
    /// edge begins at a kept number, and where the halves have many keys. One comparison a key.
    fn doubled(
        &self,
        alloc: Global,
        half: u64,
        newer: Option<&[Key]>,
    ) -> Result<Option<Vec<Key>>, AllocError>
        requires half { IsStride half }
        requires double { IsStride (2 * half) }
        requires room { self.now.last < 2 ^ 63 - 1 }
        ensures sound { IsSound self.now }
        ensures list { (push : Push)
            → IsListIfKept (before_kept self.now) (self.now.kept ++ push ∷ []) (self.now.last + 1) half
            (option_map (λ keys. keys.now) newer.entry)
            → IfOk result (λ list. IsListIfKept
            (before_kept self.now) (self.now.kept ++ push ∷ []) (self.now.last + 1) (2 * half)
            (option_map (λ keys. keys.items) list)) }
    {
        let kept = self.kept.len() as u64;
        if (self.last + 1) % (2 * half) != 0 || kept < 2 * half {
            return Ok(None);
        }
        let Some(older) = self.kept[(kept - half) as usize].list(half) else {
            return Ok(None);
        };
        let Some(newer) = newer else {
            return Ok(None);
        };
        if MOST_KEPT < older.len() + newer.len() {
            return Ok(None);
        }
        Ok(Some(merged(alloc, older, newer)?))
    }
}

/// The step to the first number of a graph: the rows at it, and no key, since no edge leads to it but from 0.
fn first_step<R: RowStore>(alloc: Global, rows: &Arc<R>) -> Result<Step<R>, AllocError>
    ensures { IfOk result (λ step. push_of step ≡ record { rows = R.rows (arc_value rows.now); keys = [] }) }
{
    Ok(Step {
        rows: Arc::try_clone(rows)?,
        keys: Vec::new(alloc),
        twos: None,
        fours: None,
        eights: None,
        sixteens: None,
    })
}

/// Puts the same steps, shared, at the end.
fn append_shared<R: RowStore>(
    kept: &mut Vec<Arc<Step<R>>>,
    steps: &[Arc<Step<R>>],
) -> Result<(), AllocError>
    ensures { IfOk result (λ done. map arc_value kept.new.items
        ≡ map arc_value kept.old.items ++ map arc_value steps.now) }
{
    for step in steps {
        kept.push(Arc::try_clone(step)?)?;
    }
    Ok(())
}
