ghost use Rattle.std.specs.Prelude.{◌≡◌, ◌≤◌, IfOk, length};
ghost use Rattle.std.specs.Arc.{arc_value};

use crate::block::Block;
use crate::copies::copy_of_key;
use alto_rows::Key;
use std::alloc::AllocError;
use std::marker::Model;
use std::sync::Arc;

/// A block in its place in a list, with what a search asks before it reads the block. A contract sees the rows.
#[derive(Drop)]
pub(crate) struct Slot<B: Block> {
    first: Key,
    before: usize,
    block: Arc<B>,
}

impl<B: Block> Model for Slot<B> {
    ghost use Rattle.std.specs.Prelude.{◌≤◌, length};
    ghost use Rattle.std.specs.Arc.{arc_value};
    ghost use Rattle.row_chunks.specs.Blocks.{Placed};

    ghost Value = { Placed };

    ghost view = { λ slot. record { first = slot.first; before = slot.before; rows = B.rows (arc_value slot.block) } };

    ghost invariant = { λ slot. length (B.rows (arc_value slot.block)) ≤ B.most };
}

impl<B: Block> Slot<B> {
    /// A block with its first key, in the first place.
    pub(crate) fn new(first: Key, block: Arc<B>) -> Slot<B>
        requires { length (B.rows (arc_value block)) ≤ B.most }
        ensures { result ≡ record { first = first; before = 0; rows = B.rows (arc_value block) } }
    {
        Slot {
            first,
            before: 0,
            block,
        }
    }

    /// The key of the block's first row.
    pub(crate) fn key(&self) -> &Key
        ensures { result.now ≡ self.now.first }
    {
        &self.first
    }

    /// How many rows the blocks before have.
    pub(crate) fn rows_before(&self) -> usize
        ensures { result ≡ self.now.before }
    {
        self.before
    }

    /// The block.
    pub(crate) fn block(&self) -> &B
        ensures rows { B.rows result.now ≡ self.now.rows }
        ensures small { length self.now.rows ≤ B.most }
    {
        &self.block
    }

    /// The same block behind so many rows.
    pub(crate) fn moved(self, before: usize) -> Slot<B>
        ensures { result ≡ record self { before = before } }
    {
        let Slot { first, block, .. } = self;
        Slot {
            first,
            before,
            block,
        }
    }

    /// The same block once more. Takes no memory.
    pub(crate) fn shared(&self) -> Result<Slot<B>, AllocError>
        ensures { IfOk result (λ slot. slot ≡ self.now) }
    {
        Ok(Slot {
            first: copy_of_key(&self.first)?,
            before: self.before,
            block: Arc::try_clone(&self.block)?,
        })
    }
}
