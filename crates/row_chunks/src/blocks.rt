ghost use Rattle.std.specs.Prelude.{◌≡◌, ◌≤◌, ◌*◌, ◌++◌, [], IfOk, drop, length, option_copied};
ghost use Rattle.std.specs.List.{AllByRecursion, flat_map};
ghost use Rattle.alto_rows.specs.Changes.{AreOrdered, changed};
ghost use Rattle.alto_rows.specs.Rows.{Rows, AreSorted, IsRunOf};
ghost use Rattle.row_chunks.specs.Blocks.{AllBegin, AreCounted, BeginsAt, first_key, first_rows, joined};
ghost use Rattle.row_chunks.specs.Cut.{rows_behind};
ghost use Rattle.row_chunks.specs.Passed.{IsPassed};
ghost use Rattle.row_chunks.specs.Shared.{AllShare};

use crate::block::Block;
use crate::builder::changed_blocks;
use crate::change::Change;
use crate::copies::copy_of_key;
use crate::cut::Cut;
use crate::pieces::pieces;
use crate::shared::Shared;
use crate::slot::Slot;
use alto_rows::{Key, Value};
use std::alloc::{AllocError, Global};
use std::marker::Model;
use std::sync::Arc;

/// How many blocks a list has at most, where it is itself a block of a list.
const MOST_BLOCKS: usize = 16;

/// Blocks one after another. A contract sees their rows.
#[derive(Drop)]
pub(crate) struct Blocks<B: Block> {
    slots: Vec<Slot<B>>,
    total: usize,
}

impl<B: Block> Model for Blocks<B> {
    ghost use Rattle.alto_rows.specs.Rows.{Rows};
    ghost use Rattle.row_chunks.specs.Blocks.{AllBegin, AreCounted, joined};

    ghost Value = { Rows };

    ghost view = { λ blocks. joined blocks.slots.items };

    ghost invariant = { λ blocks. AllBegin blocks.slots.items × AreCounted 0 blocks.total blocks.slots.items };
}

impl<B: Block> Block for Blocks<B> {
    ghost rows = { λ blocks. blocks };

    ghost most = { 16 * B.most };

    fn few_rows() -> usize {
        B::few_rows().saturating_mul(MOST_BLOCKS)
    }

    fn empty(alloc: Global) -> Blocks<B> {
        Blocks {
            slots: Vec::new(alloc),
            total: 0,
        }
    }

    fn len(&self) -> usize {
        self.total
    }

    fn first_key(&self) -> Option<&Key> {
        Some(self.slots.first()?.key())
    }

    fn first_run(&self) -> &[(Key, Value)] {
        first_run_at(&self.slots, 0)
    }

    fn run_behind(&self, cut: &Cut, shared: Shared) -> &[(Key, Value)] {
        let passed = count_passed(&self.slots, cut, shared);
        run_round(&self.slots, passed, cut, shared)
    }

    fn count_behind(&self, cut: &Cut, shared: Shared) -> usize {
        let passed = count_passed(&self.slots, cut, shared);
        count_round(&self.slots, self.total, passed, cut, shared)
    }

    fn with_changed(
        self,
        alloc: Global,
        blocks: &Blocks<B>,
        changes: &[Change],
    ) -> Result<Blocks<B>, AllocError> {
        changed_blocks(alloc, self, &blocks.slots, changes)
    }

    fn divided(self, alloc: Global) -> Result<Vec<Blocks<B>>, AllocError> {
        let mut lists = Vec::new(alloc);
        for piece in pieces(alloc, self.slots, MOST_BLOCKS)? {
            lists.push(Blocks::of_slots(alloc, piece)?)?;
        }
        Ok(lists)
    }
}

impl<B: Block> Blocks<B> {
    /// The blocks of these slots, with their places anew.
    fn of_slots(alloc: Global, slots: Vec<Slot<B>>) -> Result<Blocks<B>, AllocError>
        requires { AllBegin slots.items }
        ensures whole { IfOk result (λ blocks. blocks ≡ joined slots.items) }
        ensures small { IfOk result (λ blocks. length blocks ≤ length slots.items * B.most) }
    {
        let mut blocks = Blocks {
            slots: Vec::with_capacity(alloc, slots.len())?,
            total: 0,
        };
        for slot in slots {
            blocks = blocks.with_slot(slot)?;
        }
        Ok(blocks)
    }

    /// The same blocks, with room for so many more.
    pub(crate) fn with_room(self, more: usize) -> Result<Blocks<B>, AllocError>
        ensures { IfOk result (λ same. same ≡ self) }
    {
        let Blocks { mut slots, total } = self;
        slots.reserve(more)?;
        Ok(Blocks { slots, total })
    }

    /// The blocks with others behind them.
    pub(crate) fn with_blocks(self, alloc: Global, blocks: Vec<B>) -> Result<Blocks<B>, AllocError>
        requires { AllByRecursion (λ block. length (B.rows block) ≤ B.most) blocks.items }
        ensures { IfOk result (λ all. all ≡ self ++ flat_map B.rows blocks.items) }
    {
        let mut all = self;
        for block in blocks {
            all = all.with_block(alloc, block)?;
        }
        Ok(all)
    }

    /// The blocks with one more behind them, where it has rows.
    fn with_block(self, alloc: Global, block: B) -> Result<Blocks<B>, AllocError>
        requires { length (B.rows block) ≤ B.most }
        ensures { IfOk result (λ all. all ≡ self ++ B.rows block) }
    {
        let Some(first) = block.first_key() else {
            return Ok(self);
        };
        let key = copy_of_key(first)?;
        self.with_slot(Slot::new(key, Arc::new(alloc, block)?))
    }

    /// The blocks with one more behind them. More rows than memory has addresses are out of memory.
    pub(crate) fn with_slot(self, slot: Slot<B>) -> Result<Blocks<B>, AllocError>
        requires { BeginsAt slot.first slot.rows }
        ensures whole { IfOk result (λ all. all ≡ self ++ slot.rows) }
        ensures small { length slot.rows ≤ B.most }
    {
        let Blocks { mut slots, total } = self;
        let after = total.checked_add(slot.block().len()).ok_or(AllocError)?;
        slots.push(slot.moved(total))?;
        Ok(Blocks {
            slots,
            total: after,
        })
    }
}

/// How many rows are behind a cut, where so many blocks begin before it.
fn count_round<B: Block>(
    slots: &[Slot<B>],
    total: usize,
    passed: usize,
    cut: &Cut,
    shared: Shared,
) -> usize
    requires begin { AllBegin slots.now }
    requires counted { AreCounted 0 total slots.now }
    requires sorted { AreSorted (joined slots.now) }
    requires passed { IsPassed cut.now slots.now passed }
    requires shared { AllShare cut.now shared (joined slots.now) }
    ensures { result ≡ length (rows_behind cut.now (joined slots.now)) }
{
    let later = count_from(slots, total, passed);
    let Some(last) = passed.checked_sub(1) else {
        return later;
    };
    count_at(slots, last, cut, shared_at(slots, last, cut, shared)) + later
}

/// How many rows the blocks from a place on have.
fn count_from<B: Block>(slots: &[Slot<B>], total: usize, at: usize) -> usize
    requires { AreCounted 0 total slots.now }
    ensures { result ≡ length (joined (drop at slots.now)) }
{
    match slots.get(at) {
        Some(slot) => total - slot.rows_before(),
        None => 0,
    }
}

/// How many rows of a block are behind a cut, none where it isn't there.
fn count_at<B: Block>(slots: &[Slot<B>], at: usize, cut: &Cut, shared: Shared) -> usize
    requires sorted { AreSorted (joined slots.now) }
    requires shared { AllShare cut.now shared (first_rows (drop at slots.now)) }
    ensures { result ≡ length (rows_behind cut.now (first_rows (drop at slots.now))) }
{
    match slots.get(at) {
        Some(slot) => slot.block().count_behind(cut, shared),
        None => 0,
    }
}

/// How many blocks begin before a cut. One binary search, which doesn't compare what all rows are known to share with
/// the cut.
fn count_passed<B: Block>(slots: &[Slot<B>], cut: &Cut, shared: Shared) -> usize
    requires begin { AllBegin slots.now }
    requires sorted { AreSorted (joined slots.now) }
    requires shared { AllShare cut.now shared (joined slots.now) }
    ensures { IsPassed cut.now slots.now result }
{
    slots.partition_point(|slot| !cut.keeps_in(slot.key(), shared))
}

/// What all rows of the block at a place share with a cut, where all rows share so much, which isn't compared. They lie
/// between the first keys of the block and of the next, and it looks at these alone: no block is read.
fn shared_at<B: Block>(slots: &[Slot<B>], at: usize, cut: &Cut, shared: Shared) -> Shared
    requires begin { AllBegin slots.now }
    requires sorted { AreSorted (joined slots.now) }
    requires shared { AllShare cut.now shared (joined slots.now) }
    ensures { AllShare cut.now result (first_rows (drop at slots.now)) }
{
    let Some(slot) = slots.get(at) else {
        return shared;
    };
    match slots.get(at + 1) {
        Some(next) => cut.shared(slot.key(), next.key(), shared),
        None => shared,
    }
}

/// The first rows of the blocks from a place on that lie together, none where there is no block.
fn first_run_at<'a, B: Block>(slots: &'a [Slot<B>], at: usize) -> &'a [(Key, Value)]
    requires { AllBegin slots.now }
    ensures { IsRunOf (joined (drop at slots.now)) result.now }
{
    match slots.get(at) {
        Some(slot) => slot.block().first_run(),
        None => &[],
    }
}

/// The first rows of a block that are behind a cut, none where it isn't there.
fn run_at<'a, B: Block>(
    slots: &'a [Slot<B>],
    at: usize,
    cut: &Cut,
    shared: Shared,
) -> &'a [(Key, Value)]
    requires sorted { AreSorted (joined slots.now) }
    requires shared { AllShare cut.now shared (first_rows (drop at slots.now)) }
    ensures { IsRunOf (rows_behind cut.now (first_rows (drop at slots.now))) result.now }
{
    match slots.get(at) {
        Some(slot) => slot.block().run_behind(cut, shared),
        None => &[],
    }
}

/// The rest of the block that a cut goes through or, where that is used up, the first run of the next, which isn't
/// searched.
fn run_round<'a, B: Block>(
    slots: &'a [Slot<B>],
    passed: usize,
    cut: &Cut,
    shared: Shared,
) -> &'a [(Key, Value)]
    requires begin { AllBegin slots.now }
    requires sorted { AreSorted (joined slots.now) }
    requires passed { IsPassed cut.now slots.now passed }
    requires shared { AllShare cut.now shared (joined slots.now) }
    ensures { IsRunOf (rows_behind cut.now (joined slots.now)) result.now }
{
    let Some(last) = passed.checked_sub(1) else {
        return first_run_at(slots, 0);
    };
    let run = run_at(slots, last, cut, shared_at(slots, last, cut, shared));
    if run.is_empty() {
        first_run_at(slots, passed)
    } else {
        run
    }
}
