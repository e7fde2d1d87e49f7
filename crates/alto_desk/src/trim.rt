//! A ledger whose base moves on.
ghost use Rattle.std.specs.Prelude.{◌≡◌, ◌+◌, ◌≤◌, ◌<◌, ◌^◌, IfOk, length, map, vec_items};
ghost use Rattle.std.specs.Arc.{arc_value};
ghost use Rattle.alto_rows.specs.Good.{AreGood};
ghost use Rattle.alto_rows.specs.Rows.{after};
ghost use Rattle.alto_book.specs.Acceptance.{with_batch};
ghost use Rattle.alto_book.specs.Book.{Book, trimmed, writes_in};
ghost use Rattle.alto_book.specs.Legal.{IsLegal};
ghost use Rattle.alto_versions.specs.Course.{Follows};
ghost use Rattle.alto_versions.specs.Front.{StandsFor};
ghost use Rattle.base_code.specs.Pieces.{base_pieces};
ghost use Rattle.alto_desk.specs.Ledger.{book_kept};
ghost use Rattle.alto_desk.specs.Trim.{base_of, trim_number};

use crate::ledger::Ledger;
use crate::next_base::{next_base, rows_with};
use crate::places::Places;
use alto_rows::{Batch, RowStore};
use alto_versions::{Course, Front};
use base_code::{Base, Kept, encode_base};
use std::alloc::{AllocError, Global};
use std::sync::Arc;

impl<R: RowStore> Ledger<R> {
    /// How many batches the base takes in where so many are to stay.
    pub(crate) fn taken_in(&self, keep: u32) -> usize
        ensures number { length self.now.book.receipts + result ≡ trim_number self.now.book keep }
        ensures within { result ≤ length self.now.book.batches }
    {
        self.batches.len().saturating_sub(keep as usize)
    }

    /// The number of the base that has taken in so many batches.
    pub(crate) fn number_behind(&self, count: usize) -> u64
        requires { count ≤ length self.now.book.batches }
        ensures number { result ≡ length self.now.book.receipts + count }
        ensures small { result < 2 ^ 63 }
    {
        self.receipts.len() as u64 + count as u64
    }

    /// The ledger of the same book whose base has taken in so many batches, and the pieces of that base.
    ///
    /// Costs what the store's `with` costs for each batch, a walk over the rows of the base, a copy of each receipt, a
    /// search for each id, two searches for each declared resource for each batch that stays, and a range table for
    /// each network.
    pub(crate) fn trimmed(
        &self,
        alloc: Global,
        count: usize,
    ) -> Result<(Ledger<R>, Vec<Vec<u8>>), AllocError>
        requires some { 1 ≤ length self.now.book.receipts + count }
        requires within { count ≤ length self.now.book.batches }
        ensures book { IfOk result (λ done. done.0.book ≡ trimmed self.now.book count) }
        ensures pieces { IfOk result (λ done.
            map vec_items done.1.items ≡ base_pieces (base_of (trimmed self.now.book count))) }
    {
        let (taken, left) = self.batches.split_at(count);
        let (rows, base) = next_base(alloc, &*self.base, &self.receipts, taken)?;
        let pieces = encode_base(alloc, &base)?;
        let Base {
            b: _,
            receipts,
            rows: _,
        } = base;
        Ok((ledger_of(alloc, rows, receipts, left)?, pieces))
    }
}

/// The ledger of a legal book, of its base rows, its receipts and its batches.
fn ledger_of<R: RowStore>(
    alloc: Global,
    base: Arc<R>,
    receipts: Vec<Kept>,
    batches: &[Arc<Batch>],
) -> Result<Ledger<R>, AllocError>
    requires { IsLegal (book_kept (R.rows (arc_value base)) receipts.items (map arc_value batches.now)) }
    ensures { IfOk result (λ ledger.
        ledger.book ≡ book_kept (R.rows (arc_value base)) receipts.items (map arc_value batches.now)) }
{
    let front = Arc::new(alloc, front_of(alloc, &base, &receipts, batches)?)?;
    let places = Places::of(alloc, &receipts, batches)?;
    Ok(Ledger {
        base,
        receipts,
        batches: shared(alloc, batches)?,
        places,
        writes: count_writes(batches),
        front,
    })
}

/// The version of a legal book, after all its batches.
fn front_of<R: RowStore>(
    alloc: Global,
    base: &Arc<R>,
    receipts: &[Kept],
    batches: &[Arc<Batch>],
) -> Result<Front<R>, AllocError>
    requires { IsLegal (book_kept (R.rows (arc_value base.now)) receipts.now (map arc_value batches.now)) }
    ensures { IfOk result (λ front.
        StandsFor front (book_kept (R.rows (arc_value base.now)) receipts.now (map arc_value batches.now))) }
{
    let mut course = Course::new(alloc, receipts.len() as u64, Arc::try_clone(base)?)?;
    for batch in batches {
        course = course_with(alloc, &course, batch)?;
    }
    course.into_front(alloc)
}

/// The course with one batch more.
fn course_with<R: RowStore>(
    alloc: Global,
    course: &Course<R>,
    batch: &Batch,
) -> Result<Course<R>, AllocError>
    requires room { course.now.n < 2 ^ 63 }
    requires good { AreGood (after course.now.rows batch.now.writes) }
    ensures { IfOk result (λ next. (book : Book) → IsLegal book → IsLegal (with_batch book batch.now)
        → Follows course.now book → Follows next (with_batch book batch.now)) }
{
    let rows = rows_with(alloc, course.rows(), batch)?;
    course.with(alloc, rows, &batch.writes)
}

/// The same batches, shared.
fn shared(alloc: Global, batches: &[Arc<Batch>]) -> Result<Vec<Arc<Batch>>, AllocError>
    ensures { IfOk result (λ shared. map arc_value shared.items ≡ map arc_value batches.now) }
{
    let mut shared = Vec::with_capacity(alloc, batches.len())?;
    for batch in batches {
        shared.push(Arc::try_clone(batch)?)?;
    }
    Ok(shared)
}

/// How many writes batches have.
fn count_writes(batches: &[Arc<Batch>]) -> u32
    requires { length (writes_in (map arc_value batches.now)) ≤ 524288 }
    ensures { result ≡ length (writes_in (map arc_value batches.now)) }
{
    let mut count = 0;
    for batch in batches {
        count += count_of(batch);
    }
    count
}

/// How many writes a batch has.
fn count_of(batch: &Batch) -> u32
    requires { length batch.now.writes ≤ 524288 }
    ensures { result ≡ length batch.now.writes }
{
    batch.writes.len() as u32
}
