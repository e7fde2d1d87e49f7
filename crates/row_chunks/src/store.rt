ghost use Rattle.std.specs.Prelude.{◌≡◌, [], IfOk, length, option_copied, option_map, slice_get};
ghost use Rattle.alto_rows.specs.Rows.{Rows, AreSorted, IsRunOf, value_of, after, rows_from, rows_past};
ghost use Rattle.alto_rows.specs.Span.{count_in, rows_from_span};

use crate::block::Block;
use crate::blocks::Blocks;
use crate::changes::changes_of;
use crate::chunk::Chunk;
use crate::cut::Cut;
use crate::shared::Shared;
use alto_rows::{Key, RowStore, Span, Value, Write};
use std::alloc::{AllocError, Global};
use std::marker::Model;

/// Chunks that are shared together: 1 to 16 of them.
type Page = Blocks<Chunk>;

/// Pages that are shared together: 1 to 16 of them.
type Volume = Blocks<Page>;

/// Rows in chunks that versions share: 1 to 32 rows in each. A contract sees them as one list, in the order of their
/// keys.
#[derive(Drop)]
pub struct Chunks {
    volumes: Blocks<Volume>,
}

impl Model for Chunks {
    ghost use Rattle.alto_rows.specs.Rows.{Rows, AreSorted};

    ghost Value = { Rows };

    ghost view = { λ chunks. chunks.volumes };

    ghost invariant = { λ chunks. AreSorted chunks.volumes };
}

impl RowStore for Chunks {
    ghost rows = { λ chunks. chunks };

    fn empty(alloc: Global) -> Result<Chunks, AllocError> {
        Ok(Chunks {
            volumes: Blocks::empty(alloc),
        })
    }

    /// One search among the first keys of volumes, one among those of a volume's pages, one among those of a page's
    /// chunks, and one in a chunk.
    fn get(&self, key: &Key) -> Option<&Value> {
        let row = self.run_from(key).first()?;
        if key.cmp(&row.0).is_eq() {
            Some(&row.1)
        } else {
            None
        }
    }

    fn next_from(&self, key: &Key) -> Option<(&Key, &Value)> {
        let row = self.run_from(key).first()?;
        Some((&row.0, &row.1))
    }

    /// The rest of a chunk or, where that is used up, the next chunk.
    fn run_from(&self, key: &Key) -> &[(Key, Value)] {
        self.volumes.run_behind(&Cut::Before(key), Shared::Nothing)
    }

    fn run_after(&self, key: &Key) -> &[(Key, Value)] {
        self.volumes.run_behind(&Cut::Behind(key), Shared::Nothing)
    }

    fn run_in(&self, span: &Span) -> &[(Key, Value)] {
        self.volumes
            .run_behind(&Cut::BeforeSpan(span), Shared::Nothing)
    }

    fn len(&self) -> usize {
        self.volumes.len()
    }

    /// Eight searches: for each end of the span one among the first keys of volumes, one among those of a volume's
    /// pages, one among those of a page's chunks, and one in a chunk.
    fn count_in(&self, span: &Span) -> usize {
        let from = self
            .volumes
            .count_behind(&Cut::BeforeSpan(span), Shared::Nothing);
        let past = self
            .volumes
            .count_behind(&Cut::BehindSpan(span), Shared::Nothing);
        from - past
    }

    /// One pass over the volumes and the writes, sorted by their keys, over the pages of each volume that a write
    /// touches and the chunks of each such page, and over the rows of each such chunk: v volumes, p such pages, c such
    /// chunks, r such rows and w writes cost v + p + c + r + w log w. Any other volume, page or chunk is shared, and
    /// nothing of it is read. Where a touched chunk is left with less than 8 rows, the next of its page is touched
    /// too, and joined with it; so is the page behind one that is left with less than 128, and the volume behind one
    /// that is left with less than 2,048.
    fn with(&self, alloc: Global, writes: &[Write]) -> Result<Chunks, AllocError> {
        let changes = changes_of(alloc, writes)?;
        Ok(Chunks {
            volumes: Blocks::empty(alloc).with_changed(alloc, &self.volumes, &changes)?,
        })
    }
}

/// Compiles only for what threads may share.
fn crosses_threads<T: Send + Sync>(_value: &T) {}

/// Threads may share chunks.
fn chunks_cross_threads(chunks: &Chunks) {
    crosses_threads(chunks);
}
