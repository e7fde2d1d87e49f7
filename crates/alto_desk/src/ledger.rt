ghost use Rattle.std.specs.Prelude.{◌≡◌, ◌≢◌, ◌+◌, ℤ, pos, None, Ok, Err, All, IfErr, IfOk, OnOk, map};
ghost use Rattle.std.specs.Arc.{arc_value};
ghost use Rattle.alto_edits.specs.Compiled.{compiled};
ghost use Rattle.alto_edits.specs.Edits.{IsEdit};
ghost use Rattle.alto_book.specs.Acceptance.{accept, batch_of, past_of, with_batch};
ghost use Rattle.alto_book.specs.Acceptance as spec;
ghost use Rattle.alto_book.specs.Book.{all_kept, number_of, rows_of};
ghost use Rattle.alto_book.specs.Legal.{IsLegal};
ghost use Rattle.alto_versions.specs.Front.{StandsFor};
ghost use Rattle.batch_code.specs.Storable.{IsStorable};
ghost use Rattle.alto_desk.specs.Known as told;
ghost use Rattle.alto_desk.specs.Ledger.{HasRoom};

use crate::known::{answer_if_known, batch_of, last_moment};
use crate::places::Places;
use alto_book::{Command, EditFault, Receipt};
use alto_edits::{CompileFault, Past};
use alto_rows::{Batch, RowStore, Write};
use alto_rules::compile;
use alto_versions::Front;
use base_code::Kept;
use std::alloc::{AllocError, Global};
use std::marker::Model;
use std::sync::Arc;

/// A book of accepted batches, and the version that they have led to. A contract sees the book, how many batches there
/// is room for, and the places of ids.
#[derive(Drop)]
pub(crate) struct Ledger<R: RowStore> {
    pub(crate) base: Arc<R>,
    pub(crate) receipts: Vec<Kept>,
    pub(crate) batches: Vec<Arc<Batch>>,
    pub(crate) places: Places,
    pub(crate) writes: u32,
    pub(crate) front: Arc<Front<R>>,
}

impl<R: RowStore> Model for Ledger<R> {
    ghost use Rattle.std.specs.Prelude.{map, vec_capacity};
    ghost use Rattle.std.specs.Arc.{arc_value};
    ghost use Rattle.alto_desk.specs.Ledger.{LedgerData, Keeps, book_kept};

    ghost Value = { LedgerData };

    ghost view = { λ ledger. record {
      book = book_kept (R.rows (arc_value ledger.base)) ledger.receipts.items (map arc_value ledger.batches.items);
      room = vec_capacity ledger.batches;
      places = ledger.places;
    } };

    ghost invariant = { λ ledger.
        Keeps (book_kept (R.rows (arc_value ledger.base)) ledger.receipts.items (map arc_value ledger.batches.items))
        ledger.places ledger.writes (arc_value ledger.front) };
}

impl<R: RowStore> Ledger<R> {
    /// The version after all batches.
    pub(crate) fn front(&self) -> &Arc<Front<R>>
        ensures stands { StandsFor (arc_value result.now) self.now.book }
        ensures legal { IsLegal self.now.book }
    {
        &self.front
    }

    /// The batches, in order.
    pub(crate) fn batches(&self) -> &[Arc<Batch>]
        ensures { map arc_value result.now ≡ self.now.book.batches }
    {
        &self.batches
    }

    /// What an import is answered whose id has a batch. One search.
    pub(crate) fn answer_if_known(&self, command: &Command) -> Option<Result<Receipt, EditFault>>
        ensures { result ≡ told.answer_if_known (all_kept self.now.book) command.now }
    {
        answer_if_known(&self.places, &self.receipts, &self.batches, command)
    }

    /// The number of the next batch.
    pub(crate) fn next_number(&self) -> i64
        ensures { result ≡ pos (number_of self.now.book + 1) }
    {
        self.receipts.len() as i64 + self.batches.len() as i64 + 1
    }

    /// The batch of an import that is new.
    pub(crate) fn next_batch(
        &self,
        alloc: Global,
        command: Command,
        moment: u64,
    ) -> Result<Batch, EditFault>
        requires edits { All IsEdit command.edits }
        requires new { spec.known (all_kept self.now.book) command.id ≡ None }
        ensures ok { IfOk result (λ batch. accept self.now.book command moment ≡ record {
          answer = Ok (record { n = number_of self.now.book + 1; moment = batch.moment });
          book = with_batch self.now.book batch;
        }) }
        ensures new { IfOk result (λ batch. spec.known (all_kept self.now.book) batch.id ≡ None) }
        ensures legal { IfOk result (λ batch. IsLegal (with_batch self.now.book batch)) }
        ensures err { IfErr result (λ fault. fault ≢ EditFault.Memory
            → (accept self.now.book command moment).answer ≡ Err fault) }
        ensures own { result ≢ Err EditFault.Keeper }
        ensures storable { IfOk result IsStorable }
    {
        let writes = self.compile(alloc, &command)?;
        Ok(batch_of(command, moment.max(self.last_moment()), writes))
    }

    /// The version after one batch more.
    pub(crate) fn version_with(
        &self,
        alloc: Global,
        batch: &Batch,
    ) -> Result<Arc<Front<R>>, AllocError>
        requires { IsLegal (with_batch self.now.book batch.now) }
        ensures { IfOk result (λ front. StandsFor (arc_value front) (with_batch self.now.book batch.now)) }
    {
        Ok(Arc::new(alloc, self.front.with(alloc, batch)?)?)
    }

    /// Makes room for a batch whose id is new. One search. The id keeps its place where the batch doesn't come.
    pub(crate) fn reserve(&mut self, batch: &Batch) -> Result<(), AllocError>
        requires { spec.known (all_kept self.old.book) batch.now.id ≡ None }
        ensures book { self.new.book ≡ self.old.book }
        ensures room { OnOk result (HasRoom self.new batch.now.id) }
    {
        self.batches.reserve(1)?;
        let place = self.receipts.len() + self.batches.len();
        self.places.put(&batch.id, place)
    }

    /// Adds a batch, with the version after it, where there is room. Takes no memory.
    pub(crate) fn add(&mut self, batch: Arc<Batch>, front: Arc<Front<R>>) -> Receipt
        requires room { HasRoom self.old (arc_value batch).id }
        requires legal { IsLegal (with_batch self.old.book (arc_value batch)) }
        requires stands { StandsFor (arc_value front) (with_batch self.old.book (arc_value batch)) }
        ensures book { self.new.book ≡ with_batch self.old.book (arc_value batch) }
        ensures receipt { result ≡ record { n = number_of self.old.book + 1; moment = (arc_value batch).moment } }
    {
        let receipt = Receipt {
            n: self.front.n + 1,
            moment: batch.moment,
        };
        self.writes += batch.writes.len() as u32;
        self.batches.push_reserved(batch);
        self.front = front;
        receipt
    }

    /// The moment of the last batch, 0 where there is none.
    fn last_moment(&self) -> u64
        ensures { result ≡ spec.last_moment (all_kept self.now.book) }
    {
        last_moment(&self.receipts, &self.batches)
    }

    /// The rows after all batches.
    fn rows(&self) -> &R
        ensures rows { R.rows result.now ≡ rows_of self.now.book }
        ensures legal { IsLegal self.now.book }
    {
        &self.front.rows
    }

    /// What is kept past the base.
    fn past(&self) -> Past
        ensures { result ≡ past_of self.now.book }
    {
        Past {
            batches: self.batches.len() as u32,
            writes: self.writes,
        }
    }

    /// The writes of an import that is new.
    fn compile(&self, alloc: Global, command: &Command) -> Result<Vec<Write>, CompileFault>
        ensures ok { IfOk result (λ writes.
            compiled (rows_of self.now.book) command.now.edits (past_of self.now.book) ≡ Ok writes.items) }
        ensures err { IfErr result (λ fault. fault ≢ CompileFault.Memory
            → compiled (rows_of self.now.book) command.now.edits (past_of self.now.book) ≡ Err fault) }
        ensures legal { IsLegal self.now.book }
    {
        compile(alloc, self.rows(), &command.edits, self.past())
    }
}
