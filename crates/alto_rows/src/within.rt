ghost use Rattle.std.specs.Prelude.{◌≡◌, ◌++◌};
ghost use Rattle.std.specs.Iterator.{YieldsFirstRef, item_count};
ghost use Rattle.alto_rows.specs.Rows.{Rows};
ghost use Rattle.alto_rows.specs.Span.{rows_in};
ghost use Rattle.alto_rows.specs.Within.{AreIn, ComeFirst};

use crate::key::Key;
use crate::span::Span;
use crate::store::RowStore;
use crate::value::Value;
use crate::walk::{Walk, walk_from_span};
use std::marker::Model;

/// A walk over the rows of a span, in the order of their keys. A contract sees it as the list of the rows that are
/// left.
#[derive(Drop)]
pub struct Within<'a, R: RowStore> {
    walk: Walk<'a, R>,
    span: Span,
    known: usize,
    reach: usize,
}

impl<'a, R: RowStore> Model for Within<'a, R> {
    ghost use Rattle.alto_rows.specs.Rows.{Rows};
    ghost use Rattle.alto_rows.specs.Span.{rows_in};
    ghost use Rattle.alto_rows.specs.Within.{IsWithin};

    ghost Value = { Rows };

    ghost view = { λ within. rows_in within.walk within.span };

    ghost invariant = { λ within. IsWithin within.span within.walk within.known };
}

/// The rows of a span. It searches once for each run of the store, and ends at the first key outside. Where a key some
/// way ahead is in the span, all on the way to it are, and aren't compared: so r rows of a run cost about log r
/// comparisons.
pub fn rows_in<'a, R: RowStore>(store: &'a R, span: Span) -> Within<'a, R>
    ensures { result ≡ rows_in (R.rows store.now) span }
{
    let walk = walk_from_span(store, &span);
    Within {
        walk,
        span,
        known: 0,
        reach: 1,
    }
}

impl<'a, R: RowStore> Iterator for Within<'a, R> {
    type Item = &'a (Key, Value);

    ghost next_gives = { YieldsFirstRef (λ rows. rows) };

    ghost remaining = { item_count (λ rows. rows) };

    fn next(&mut self) -> Option<&'a (Key, Value)> {
        let row = self.walk.next()?;
        if self.known > 0 {
            self.known -= 1;
            return Some(row);
        }
        if !self.span.contains(&row.0) {
            return None;
        }
        self.known = known_ahead(self.walk.ahead(), &self.span, self.reach);
        self.reach = next_reach(self.reach, self.known);
        Some(row)
    }
}

/// So many rows, or as many as there are, where the last of them is in a span, and else none: all of them are in it
/// then, where the rows of the span come first. One comparison.
fn known_ahead(run: &[(Key, Value)], span: &Span, reach: usize) -> usize
    ensures { (rest : Rows) → ComeFirst span.now (run.now ++ rest) → AreIn span.now result (run.now ++ rest) }
{
    let near = reach.min(run.len());
    let Some(last) = near.checked_sub(1) else {
        return 0;
    };
    if span.contains(&run[last].0) { near } else { 0 }
}

/// How far ahead to look next: further where the rows up to there were in the span, and else not so far.
fn next_reach(reach: usize, known: usize) -> usize {
    if known > 0 {
        reach.saturating_mul(2)
    } else {
        (reach / 2).max(1)
    }
}
