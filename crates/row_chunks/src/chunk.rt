ghost use Rattle.std.specs.Prelude.{◌≡◌, ◌≤◌, ◌++◌, [], IfOk, length, option_copied, true};
ghost use Rattle.std.specs.List.{AllByRecursion, flat_map};
ghost use Rattle.alto_rows.specs.Changes.{AreOrdered, changed};
ghost use Rattle.alto_rows.specs.Rows.{Rows, AreSorted, IsRunOf};
ghost use Rattle.row_chunks.specs.Blocks.{first_key};
ghost use Rattle.row_chunks.specs.Cut.{rows_behind};
ghost use Rattle.row_chunks.specs.Shared.{AllShare};

use crate::block::Block;
use crate::change::Change;
use crate::cut::Cut;
use crate::merge::with_changed;
use crate::pieces::pieces;
use crate::shared::Shared;
use alto_rows::{Key, Value};
use std::alloc::{AllocError, Global};
use std::marker::Model;

/// How many rows a chunk of a list has at most.
const MOST_ROWS: usize = 32;

/// How many rows a chunk of a list has at least, where others follow and a write has touched it.
const FEW_ROWS: usize = 8;

/// Rows that lie together. A contract sees the rows.
#[derive(Drop)]
pub(crate) struct Chunk {
    rows: Vec<(Key, Value)>,
}

impl Model for Chunk {
    ghost use Rattle.alto_rows.specs.Rows.{Rows};

    ghost Value = { Rows };

    ghost view = { λ chunk. chunk.rows.items };
}

impl Block for Chunk {
    ghost rows = { λ chunk. chunk };

    ghost most = { 32 };

    fn few_rows() -> usize {
        FEW_ROWS
    }

    fn empty(alloc: Global) -> Chunk {
        Chunk {
            rows: Vec::new(alloc),
        }
    }

    fn len(&self) -> usize {
        self.rows.len()
    }

    fn first_key(&self) -> Option<&Key> {
        Some(&self.rows.first()?.0)
    }

    fn first_run(&self) -> &[(Key, Value)] {
        &self.rows
    }

    fn run_behind(&self, cut: &Cut, shared: Shared) -> &[(Key, Value)] {
        tail_behind(&self.rows, cut, shared)
    }

    fn count_behind(&self, cut: &Cut, shared: Shared) -> usize {
        tail_behind(&self.rows, cut, shared).len()
    }

    fn with_changed(
        self,
        _alloc: Global,
        chunk: &Chunk,
        changes: &[Change],
    ) -> Result<Chunk, AllocError> {
        Ok(Chunk {
            rows: with_changed(self.rows, &chunk.rows, changes)?,
        })
    }

    fn divided(self, alloc: Global) -> Result<Vec<Chunk>, AllocError> {
        let pieces = pieces(alloc, self.rows, MOST_ROWS)?;
        let mut chunks = Vec::with_capacity(alloc, pieces.len())?;
        for piece in pieces {
            let mut rows = piece;
            rows.shrink_to_fit();
            chunks.push(Chunk { rows })?;
        }
        Ok(chunks)
    }
}

/// The rows behind a cut. One binary search, which doesn't compare what all rows are known to share with the cut; one
/// comparison where the cut is behind the key of the last row, as it is where a walk goes on.
fn tail_behind<'a>(rows: &'a [(Key, Value)], cut: &Cut, shared: Shared) -> &'a [(Key, Value)]
    requires sorted { AreSorted rows.now }
    requires shared { AllShare cut.now shared rows.now }
    ensures { result.now ≡ rows_behind cut.now rows.now }
{
    if is_used_up(rows, cut, shared) {
        return &[];
    }
    let at = rows.partition_point(|row| !cut.keeps_in(&row.0, shared));
    &rows[at..]
}

/// Whether a cut behind a key has no rows behind it. Looks at the last row, and of other cuts at none.
fn is_used_up(rows: &[(Key, Value)], cut: &Cut, shared: Shared) -> bool
    requires sorted { AreSorted rows.now }
    requires shared { AllShare cut.now shared rows.now }
    ensures { result ≡ true → rows_behind cut.now rows.now ≡ [] }
{
    match (cut, rows.last()) {
        (Cut::Behind(_), Some(row)) => !cut.keeps_in(&row.0, shared),
        _ => false,
    }
}
