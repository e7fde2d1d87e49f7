ghost use Rattle.std.specs.Prelude.{◌≡◌, ◌++◌, [], IfOk};
ghost use Rattle.alto_rows.specs.Changes.{AreOrdered, changed};
ghost use Rattle.alto_rows.specs.Rows.{AreSorted};
ghost use Rattle.row_chunks.specs.Blocks.{AllBegin, BeginsAt, joined};

use crate::block::Block;
use crate::blocks::Blocks;
use crate::change::Change;
use crate::changes::count_own;
use crate::slot::Slot;
use std::alloc::{AllocError, Global};
use std::marker::Model;

/// A list of blocks in the making, and behind it rows that are in no block of the list yet. A contract sees all rows.
#[derive(Drop)]
struct Builder<B: Block> {
    list: Blocks<B>,
    loose: B,
}

impl<B: Block> Model for Builder<B> {
    ghost use Rattle.std.specs.Prelude.{◌++◌};
    ghost use Rattle.alto_rows.specs.Rows.{Rows};

    ghost Value = { Rows };

    ghost view = { λ builder. builder.list ++ B.rows builder.loose };
}

impl<B: Block> Builder<B> {
    /// The rows with those of a block after changes. The block is shared where nothing changes it and no row is loose.
    fn with_block(
        self,
        alloc: Global,
        slot: &Slot<B>,
        changes: &[Change],
    ) -> Result<Builder<B>, AllocError>
        requires begins { BeginsAt slot.now.first slot.now.rows }
        requires sorted { AreSorted slot.now.rows }
        requires ordered { AreOrdered changes.now }
        ensures { IfOk result (λ more. more ≡ self ++ changed slot.now.rows changes.now) }
    {
        let Builder { list, loose } = self;
        if changes.is_empty() && loose.len() == 0 {
            return Ok(Builder {
                list: list.with_slot(slot.shared()?)?,
                loose,
            });
        }
        Builder {
            list,
            loose: loose.with_changed(alloc, slot.block(), changes)?,
        }
        .closed_if_many(alloc)
    }

    /// The same rows, and few of them loose: so a small block is joined with the next.
    fn closed_if_many(self, alloc: Global) -> Result<Builder<B>, AllocError>
        ensures { IfOk result (λ same. same ≡ self) }
    {
        if self.loose.len() < B::few_rows() {
            return Ok(self);
        }
        Ok(Builder {
            list: self.closed(alloc)?,
            loose: B::empty(alloc),
        })
    }

    /// All rows in blocks of the list.
    fn closed(self, alloc: Global) -> Result<Blocks<B>, AllocError>
        ensures { IfOk result (λ list. list ≡ self) }
    {
        let Builder { list, loose } = self;
        list.with_blocks(alloc, loose.divided(alloc)?)
    }

    /// All rows in blocks of the list, after changes behind them.
    fn finished(self, alloc: Global, changes: &[Change]) -> Result<Blocks<B>, AllocError>
        requires { AreOrdered changes.now }
        ensures { IfOk result (λ list. list ≡ self ++ changed [] changes.now) }
    {
        let Builder { list, loose } = self;
        Builder {
            list,
            loose: loose.with_changed(alloc, &B::empty(alloc), changes)?,
        }
        .closed(alloc)
    }
}

/// A list, and behind it the rows of other blocks after changes. One pass over both: what no change touches is shared.
pub(crate) fn changed_blocks<B: Block>(
    alloc: Global,
    done: Blocks<B>,
    slots: &[Slot<B>],
    changes: &[Change],
) -> Result<Blocks<B>, AllocError>
    requires begin { AllBegin slots.now }
    requires sorted { AreSorted (joined slots.now) }
    requires ordered { AreOrdered changes.now }
    ensures { IfOk result (λ all. all ≡ done ++ changed (joined slots.now) changes.now) }
{
    let mut builder = Builder {
        list: done.with_room(slots.len())?,
        loose: B::empty(alloc),
    };
    let mut taken = 0;
    for at in 0..slots.len() {
        let rest = &changes[taken..];
        let own = count_own(rest, &slots[at + 1..]);
        builder = builder.with_block(alloc, &slots[at], &rest[..own])?;
        taken += own;
    }
    builder.finished(alloc, &changes[taken..])
}
