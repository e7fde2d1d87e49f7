//! A book from batches that were read: each has to follow those before it.
ghost use Rattle.std.specs.Prelude.{◌≡◌, ◌≢◌, ◌+◌, [], All, IfErr, IfOk, MatchBool};
ghost use Rattle.alto_book.specs.Acceptance.{past_of, with_batch};
ghost use Rattle.alto_book.specs.Book.{number_of, opening_rows, rows_of};
ghost use Rattle.alto_book.specs.Legal.{IsLegal};
ghost use Rattle.alto_rows.specs.Rows.{after};
ghost use Rattle.base_check.specs.Rules as judged;
ghost use Rattle.base_code.specs.Bases.{IsBase};
ghost use Rattle.batch_check.specs.Rules as check;
ghost use Rattle.batch_check.specs.Rules.{KeepsRules};
ghost use Rattle.batch_code.specs.Storable.{IsHead, IsStorable, IsStored};
ghost use Rattle.alto_desk.specs.Opening.{ExplainsBatch, IsLater, IsNew, TellsBroken, fault_at};
ghost use Rattle.alto_desk.specs.Records.{base_rows, book_from};

use crate::fault::OpenFault;
use crate::known::{known, last_moment};
use crate::ledger::Ledger;
use crate::places::Places;
use crate::records::Records;
use alto_edits::Past;
use alto_names::Epoch;
use alto_rows::{Batch, Key, RowStore, Value, Write};
use alto_versions::Course;
use base_check::check_base;
use base_code::{Base, Kept};
use batch_check::{BookRule, CheckFault, check};
use json_tree::Name;
use std::alloc::{AllocError, Global};
use std::marker::Model;
use std::sync::Arc;

/// A number of receipts that no memory holds.
pub(crate) const MOST_RECEIPTS: usize = 1 << 62;

/// A book that is being read: its version has no range tables yet. A contract sees the book.
#[derive(Drop)]
pub(crate) struct Opening<R: RowStore> {
    base: Arc<R>,
    receipts: Vec<Kept>,
    batches: Vec<Arc<Batch>>,
    places: Places,
    writes: u32,
    course: Course<R>,
}

impl<R: RowStore> Model for Opening<R> {
    ghost use Rattle.std.specs.Prelude.{map};
    ghost use Rattle.std.specs.Arc.{arc_value};
    ghost use Rattle.alto_book.specs.Book.{Book};
    ghost use Rattle.alto_desk.specs.Ledger.{HasRead, book_kept};

    ghost Value = { Book };

    ghost view = { λ opening.
        book_kept (R.rows (arc_value opening.base)) opening.receipts.items (map arc_value opening.batches.items) };

    ghost invariant = { λ opening.
        HasRead
        (book_kept (R.rows (arc_value opening.base)) opening.receipts.items (map arc_value opening.batches.items))
        opening.places opening.writes opening.course };
}

impl<R: RowStore> Opening<R> {
    /// The book that begins with a base, or that the base breaks its rule.
    fn new(alloc: Global, epoch: &Epoch, window: u32, base: Base) -> Result<Opening<R>, CheckFault>
        requires head { IsHead epoch.now window }
        requires base { IsBase base }
        ensures ok { IfOk result (λ opening. opening ≡ book_from epoch.now window base []) }
        ensures err { IfErr result (λ fault. judged.Explains fault (base_rows epoch.now window base) base.receipts) }
    {
        let Base {
            b: _,
            receipts,
            rows,
        } = base;
        // No memory holds so many.
        if receipts.len() >= MOST_RECEIPTS {
            return Err(CheckFault::Memory);
        }
        let first = first_rows::<R>(alloc, epoch, window)?;
        let whole = Arc::new(alloc, check_base(alloc, &first, rows, &receipts)?)?;
        let batches = Vec::new(alloc);
        let places = Places::of(alloc, &receipts, &batches)?;
        let course = Course::new(alloc, receipts.len() as u64, Arc::try_clone(&whole)?)?;
        Ok(Opening {
            base: whole,
            receipts,
            batches,
            places,
            writes: 0,
            course,
        })
    }

    /// The book with a batch more, or the first rule that the batch breaks.
    fn with(self, alloc: Global, batch: Batch) -> Result<Opening<R>, CheckFault>
        requires { IsStorable batch }
        ensures ok { IfOk result (λ opening. opening ≡ with_batch self batch) }
        ensures err { IfErr result (λ fault. ExplainsBatch fault self batch) }
        ensures legal { IsLegal self }
    {
        if !self.is_new(&batch) {
            return Err(CheckFault::Bad(BookRule::B1));
        }
        if !self.is_later(&batch) {
            return Err(CheckFault::Bad(BookRule::B2));
        }
        let rows = self.checked(alloc, &batch)?;
        let course = self.course.with(alloc, rows, &batch.writes)?;
        let Opening {
            base,
            receipts,
            mut batches,
            mut places,
            writes,
            course: _,
        } = self;
        let writes = writes + batch.writes.len() as u32;
        places.put(&batch.id, receipts.len() + batches.len())?;
        batches.push(Arc::new(alloc, batch)?)?;
        Ok(Opening {
            base,
            receipts,
            batches,
            places,
            writes,
            course,
        })
    }

    /// Whether no batch has this one's id. One search.
    fn is_new(&self, batch: &Batch) -> bool
        ensures { MatchBool result (IsNew self.now batch.now) (¬ IsNew self.now batch.now) }
    {
        known(&self.places, &self.receipts, &self.batches, &batch.id).is_none()
    }

    /// Whether the last batch isn't after this one.
    fn is_later(&self, batch: &Batch) -> bool
        ensures { MatchBool result (IsLater self.now batch.now) (¬ IsLater self.now batch.now) }
    {
        last_moment(&self.receipts, &self.batches) <= batch.moment
    }

    /// The rows after a batch, or the first of the rules on rows and writes that it breaks here.
    fn checked(&self, alloc: Global, batch: &Batch) -> Result<R, CheckFault>
        requires { All IsStored batch.now.writes }
        ensures next { IfOk result (λ rows. R.rows rows ≡ after (rows_of self.now) batch.now.writes) }
        ensures ok { IfOk result (λ rows. KeepsRules (rows_of self.now) batch.now.writes (past_of self.now)) }
        ensures err { IfErr result (λ fault.
            check.Explains fault (rows_of self.now) batch.now.writes (past_of self.now)) }
    {
        check(alloc, self.course.rows(), &batch.writes, self.past())
    }

    /// The number of the next batch.
    fn next_number(&self) -> u64
        ensures { result ≡ number_of self.now + 1 }
    {
        self.receipts.len() as u64 + self.batches.len() as u64 + 1
    }

    /// What is kept past the base.
    fn past(&self) -> Past
        ensures { result ≡ past_of self.now }
    {
        Past {
            batches: self.batches.len() as u32,
            writes: self.writes,
        }
    }

    /// The book, with the version that it has come to.
    pub(crate) fn into_ledger(self, alloc: Global) -> Result<Ledger<R>, AllocError>
        ensures { IfOk result (λ ledger. ledger.book ≡ self) }
    {
        let Opening {
            base,
            receipts,
            batches,
            places,
            writes,
            course,
        } = self;
        Ok(Ledger {
            base,
            receipts,
            batches,
            places,
            writes,
            front: Arc::new(alloc, course.into_front(alloc)?)?,
        })
    }
}

/// The book of the base and the batches that were read, in order, or the base or the first batch that breaks a rule.
///
/// The base costs what `check_base` costs, and a search for each id. Each batch costs what `check` costs, two searches
/// for its id, and what its resources' graphs cost; each network's range table is built once.
pub(crate) fn opened<R: RowStore>(alloc: Global, records: Records) -> Result<Ledger<R>, OpenFault>
    requires head { IsHead records.epoch records.window }
    requires base { IsBase records.base }
    requires storable { All IsStorable records.batches.items }
    ensures ok { IfOk result (λ ledger.
        ledger.book ≡ book_from records.epoch records.window records.base records.batches.items) }
    ensures err { IfErr result (λ fault.
        TellsBroken fault records.epoch records.window records.base records.batches.items) }
    ensures own { IfErr result (λ fault. fault ≢ OpenFault.Keeper) }
{
    let Records {
        epoch,
        window,
        base,
        batches,
    } = records;
    let mut opening = match Opening::new(alloc, &epoch, window, base) {
        Ok(opening) => opening,
        Err(fault) => return Err(fault_at(0, fault)),
    };
    for batch in batches {
        let number = opening.next_number();
        opening = match opening.with(alloc, batch) {
            Ok(opening) => opening,
            Err(fault) => return Err(fault_at(number, fault)),
        };
    }
    Ok(opening.into_ledger(alloc)?)
}

/// The fault of the base, with 0, or of the batch with a number.
fn fault_at(number: u64, fault: CheckFault) -> OpenFault
    ensures { result ≡ fault_at number fault }
{
    match fault {
        CheckFault::Bad(rule) => OpenFault::BadBook(number, rule),
        CheckFault::Memory => OpenFault::Memory,
    }
}

/// The rows of a new book: its epoch and its window.
fn first_rows<R: RowStore>(alloc: Global, epoch: &Epoch, window: u32) -> Result<R, AllocError>
    ensures { IfOk result (λ rows. R.rows rows ≡ opening_rows epoch.now window) }
{
    let epoch = Write {
        key: Key::Epoch,
        value: Some(Value::Text(Name::from_str(alloc, epoch.as_str())?)),
    };
    let window = Write {
        key: Key::Window,
        value: Some(Value::Num(u64::from(window))),
    };
    let none = R::empty(alloc)?;
    Ok(none.with(alloc, &[epoch, window])?)
}
