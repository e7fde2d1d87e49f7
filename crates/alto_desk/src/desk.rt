ghost use Rattle.std.specs.Prelude.{◌≡◌, ◌≢◌, ◌⊎◌, ◌+◌, ◌<◌, ◌^◌, ◌≤ℤ◌, pos, All, Err, IfErr, IfOk, None, Ok, OnErr};
ghost use Rattle.std.specs.Prelude.{OnOk, length, map};
ghost use Rattle.std.specs.Arc.{arc_value};
ghost use Rattle.alto_edits.specs.Edits.{IsEdit};
ghost use Rattle.alto_book.specs.Acceptance.{accept, known};
ghost use Rattle.alto_book.specs.Book.{all_kept, number_of};
ghost use Rattle.alto_book.specs.Legal.{IsLegal};
ghost use Rattle.alto_keeper.specs.Stored.{IsNext, StoredData, Stays, with_row};
ghost use Rattle.alto_keeper.specs.Stored.{IsKept, IsKeptOrAdded, LeavesFrom, LeavesOnly};
ghost use Rattle.alto_versions.specs.Front.{StandsFor};
ghost use Rattle.alto_desk.specs.Counts.{after_edit, after_fault, after_trim};
ghost use Rattle.alto_desk.specs.Crash.{IsSafe};
ghost use Rattle.alto_desk.specs.Opening.{Explains};
ghost use Rattle.alto_desk.specs.Records.{Backs, StoredAs};
ghost use Rattle.alto_desk.specs.Trim.{trim, trim_number};

use crate::fault::{OpenFault, TrimFault};
use crate::ledger::Ledger;
use crate::opening::opened;
use crate::records::read_records;
use crate::tally::Tally;
use alto_book::{Command, EditFault, Receipt};
use alto_keeper::{KeepFault, Keeper};
use alto_rows::{Batch, RowStore};
use alto_versions::Front;
use batch_code::encode;
use std::alloc::Global;
use std::sync::Arc;

/// A book of accepted batches and its records, and the version that they have led to.
#[derive(Drop)]
pub struct Desk<K: Keeper + Drop, R: RowStore> {
    keeper: K,
    ledger: Ledger<R>,
}

impl<K: Keeper + Drop, R: RowStore> Desk<K, R> {
    /// Opens the book of what a keeper keeps. A refusal gives the keeper back.
    ///
    /// Costs what its batches cost to be read and checked, one after another, and one range table for each network.
    pub fn open(alloc: Global, keeper: K) -> Result<Desk<K, R>, (K, OpenFault)>
        ensures opened { IfOk result (λ desk. K.is_clean desk.keeper → (stored : StoredData) → K.holds keeper stored
            → K.holds desk.keeper stored × StoredAs stored desk.ledger.book) }
        ensures refused { IfErr result (λ refusal. K.is_clean refusal.0 → (stored : StoredData) → K.holds keeper stored
            → K.holds refusal.0 stored × Explains refusal.1 stored) }

        // A crash may leave records of the book, or of one that is one call from it; a refusal adds nothing to these.
        ensures safe { IfOk result (λ desk. K.is_faithful desk.keeper → (stored : StoredData) → K.holds keeper stored
            → IsSafe K.Keeper desk.keeper desk.ledger.book) }
        ensures left { IfErr result (λ refusal. K.is_faithful refusal.0 → LeavesFrom (K.may_leave keeper)
            (K.holds keeper) (K.is_clean keeper) IsKept (K.may_leave refusal.0)) }

        ensures clean { IfOk result (λ desk. K.is_clean desk.keeper → K.is_clean keeper) }
        ensures doubt { IfErr result (λ refusal. K.is_clean refusal.0 → K.is_clean keeper) }
        ensures same { IfOk result (λ desk. K.faults desk.keeper ≡ K.faults keeper) }
        ensures counted { IfErr result (λ refusal. K.faults refusal.0 ≡ after_fault refusal.1 (K.faults keeper)) }
    {
        let mut keeper = keeper;
        match read_ledger(alloc, &mut keeper) {
            Ok(ledger) => {
                // The version says that the book is legal.
                let _version = ledger.front();
                Ok(Desk { keeper, ledger })
            }
            Err(fault) => Err((keeper, fault)),
        }
    }

    /// The version after all batches.
    pub fn front(&self) -> &Arc<Front<R>>
        ensures stands { StandsFor (arc_value result.now) self.now.ledger.book }
        ensures legal { IsLegal self.now.ledger.book }
    {
        self.ledger.front()
    }

    /// The batches past the base, in order.
    pub fn batches(&self) -> &[Arc<Batch>]
        ensures { map arc_value result.now ≡ self.now.ledger.book.batches }
    {
        self.ledger.batches()
    }

    /// The keeper again. Takes no memory.
    pub fn into_keeper(self) -> K
        ensures { result ≡ self.keeper }
    {
        let Desk { keeper, ledger: _ } = self;
        keeper
    }

    /// Accepts an import whole, or refuses it and leaves the book as it was. One that is known gets its receipt again.
    /// A batch is in the book exactly where the keeper took it: its version is made, and there is room for it, before
    /// the keeper is called.
    ///
    /// Costs what `compile` and the store's `with` cost, two searches for the id, two for each declared resource, whose
    /// graph the next version shares, a look at each write for each network, a range table for each network whose
    /// prefixes are written, and the bytes of the batch.
    pub fn edit(
        &mut self,
        alloc: Global,
        command: Command,
        moment: u64,
        tally: &mut Tally<K>,
    ) -> Result<Receipt, EditFault>
        requires { All IsEdit command.edits }

        ensures ok { IfOk result (λ receipt. (accept self.old.ledger.book command moment).answer ≡ Ok receipt) }
        ensures err { IfErr result (λ fault. fault ≢ EditFault.Memory → fault ≢ EditFault.Keeper
            → (accept self.old.ledger.book command moment).answer ≡ Err fault) }
        ensures accepted { OnOk result (self.new.ledger.book ≡ (accept self.old.ledger.book command moment).book) }
        ensures unchanged { OnErr result (self.new.ledger.book ≡ self.old.ledger.book) }
        ensures legal { IsLegal self.old.ledger.book }

        // What is kept stands for the book.
        ensures clean { K.is_clean self.new.keeper → K.is_clean self.old.keeper }
        ensures kept { K.is_clean self.new.keeper → Backs (K.holds self.old.keeper) self.old.ledger.book
            → Backs (K.holds self.new.keeper) self.new.ledger.book }

        // So is what a crash may leave, or it stands for a legal book that is one call from it.
        ensures faithful { K.is_faithful self.new.keeper → K.is_faithful self.old.keeper }
        ensures safe { K.is_faithful self.new.keeper → IsSafe K.Keeper self.old.keeper self.old.ledger.book
            → IsSafe K.Keeper self.new.keeper self.new.ledger.book }

        // `Keeper` is answered exactly where the keeper counted a fault.
        ensures faults { K.faults self.new.keeper ≡ after_edit result (K.faults self.old.keeper) }
        ensures tally { tally.new.count ≡ after_edit result tally.old.count }
    {
        // The version says that the book is legal.
        let _version = self.ledger.front();
        if let Some(answer) = self.ledger.answer_if_known(&command) {
            return answer;
        }
        self.accept_new(alloc, command, moment, tally)
    }

    /// Moves the base on, so that only the last `keep` batches stay beside it, and answers its number then. It never
    /// moves back. Receipts stay for good, and the book's rows and number are what they were. All is made before the
    /// keeper is called, which takes the records of the older batches away.
    ///
    /// Costs what the store's `with` costs for each batch, a walk over the rows of the base, its bytes, a copy of each
    /// receipt, a search for each id, two searches for each declared resource for each batch that stays, and a range
    /// table for each network.
    pub fn trim(&mut self, alloc: Global, keep: u32) -> Result<u64, TrimFault>
        ensures trimmed { OnOk result (self.new.ledger.book
            ≡ trim self.old.ledger.book (trim_number self.old.ledger.book keep)) }
        ensures number { IfOk result (λ number. number ≡ trim_number self.old.ledger.book keep) }
        ensures unchanged { OnErr result (self.new.ledger.book ≡ self.old.ledger.book) }
        ensures legal { IsLegal self.old.ledger.book }

        // What is kept stands for the book.
        ensures clean { K.is_clean self.new.keeper → K.is_clean self.old.keeper }
        ensures kept { K.is_clean self.new.keeper → Backs (K.holds self.old.keeper) self.old.ledger.book
            → Backs (K.holds self.new.keeper) self.new.ledger.book }

        // So is what a crash may leave, or it stands for a legal book that is one call from it.
        ensures faithful { K.is_faithful self.new.keeper → K.is_faithful self.old.keeper }
        ensures safe { K.is_faithful self.new.keeper → IsSafe K.Keeper self.old.keeper self.old.ledger.book
            → IsSafe K.Keeper self.new.keeper self.new.ledger.book }

        // The keeper isn't called where the base stays. `Keeper` is answered exactly where it counted a fault.
        ensures idle { trim_number self.old.ledger.book keep ≡ length self.old.ledger.book.receipts
            → self.new.keeper ≡ self.old.keeper }
        ensures faults { K.faults self.new.keeper ≡ after_trim result (K.faults self.old.keeper) }
    {
        // The version says that the book is legal.
        let _version = self.ledger.front();
        let count = self.ledger.taken_in(keep);
        let number = self.ledger.number_behind(count);
        if count == 0 {
            return Ok(number);
        }
        let (ledger, pieces) = self.ledger.trimmed(alloc, count)?;
        // So does the next one's.
        let _next = ledger.front();
        self.keeper.rebase(alloc, &pieces, row_number(number))?;
        self.ledger = ledger;
        Ok(number)
    }

    /// Accepts an import whose id is new, or refuses it.
    fn accept_new(
        &mut self,
        alloc: Global,
        command: Command,
        moment: u64,
        tally: &mut Tally<K>,
    ) -> Result<Receipt, EditFault>
        requires edits { All IsEdit command.edits }
        requires new { known (all_kept self.old.ledger.book) command.id ≡ None }

        ensures ok { IfOk result (λ receipt. (accept self.old.ledger.book command moment).answer ≡ Ok receipt) }
        ensures err { IfErr result (λ fault. fault ≢ EditFault.Memory → fault ≢ EditFault.Keeper
            → (accept self.old.ledger.book command moment).answer ≡ Err fault) }
        ensures accepted { OnOk result (self.new.ledger.book ≡ (accept self.old.ledger.book command moment).book) }
        ensures unchanged { OnErr result (self.new.ledger.book ≡ self.old.ledger.book) }

        ensures clean { K.is_clean self.new.keeper → K.is_clean self.old.keeper }
        ensures kept { K.is_clean self.new.keeper → Backs (K.holds self.old.keeper) self.old.ledger.book
            → Backs (K.holds self.new.keeper) self.new.ledger.book }
        ensures faithful { K.is_faithful self.new.keeper → K.is_faithful self.old.keeper }
        ensures safe { K.is_faithful self.new.keeper → IsLegal self.old.ledger.book
            → IsSafe K.Keeper self.old.keeper self.old.ledger.book
            → IsSafe K.Keeper self.new.keeper self.new.ledger.book }
        ensures faults { K.faults self.new.keeper ≡ after_edit result (K.faults self.old.keeper) }
        ensures tally { tally.new.count ≡ after_edit result tally.old.count }
    {
        let batch = Arc::new(alloc, self.ledger.next_batch(alloc, command, moment)?)?;
        let front = self.ledger.version_with(alloc, &batch)?;
        let bytes = encode(alloc, &batch)?;
        self.ledger.reserve(&batch)?;
        self.keep(alloc, &bytes, tally)?;
        Ok(self.ledger.add(batch, front))
    }

    /// Has the keeper keep the bytes of the next batch.
    fn keep(&mut self, alloc: Global, bytes: &[u8], tally: &mut Tally<K>) -> Result<(), EditFault>
        ensures ledger { self.new.ledger ≡ self.old.ledger }
        ensures clean { K.is_clean self.new.keeper → K.is_clean self.old.keeper }
        ensures kept { OnOk result (K.is_clean self.new.keeper → (stored : StoredData) → K.holds self.old.keeper stored
            → IsNext stored (pos (number_of self.old.ledger.book + 1))
            → K.holds self.new.keeper (with_row (pos (number_of self.old.ledger.book + 1)) bytes.now stored)) }
        ensures refused { OnErr result (K.is_clean self.new.keeper
            → Stays (K.holds self.old.keeper) (K.holds self.new.keeper)) }
        ensures faithful { K.is_faithful self.new.keeper → K.is_faithful self.old.keeper }
        ensures left { K.is_faithful self.new.keeper → LeavesFrom (K.may_leave self.old.keeper)
            (K.holds self.old.keeper) (K.is_clean self.old.keeper)
            (IsKeptOrAdded (pos (number_of self.old.ledger.book + 1)) bytes.now) (K.may_leave self.new.keeper) }
        ensures settled { OnOk result (K.is_faithful self.new.keeper → K.is_clean self.old.keeper
            × ((stored : StoredData) → K.holds self.old.keeper stored
            → IsNext stored (pos (number_of self.old.ledger.book + 1)) → K.is_clean self.new.keeper
            × LeavesOnly (K.may_leave self.new.keeper)
            (with_row (pos (number_of self.old.ledger.book + 1)) bytes.now stored))) }
        ensures faults { K.faults self.new.keeper ≡ after_edit result (K.faults self.old.keeper) }
        ensures tally { tally.new.count ≡ after_edit result tally.old.count }
        ensures own { IfErr result (λ fault. (fault ≡ EditFault.Memory) ⊎ (fault ≡ EditFault.Keeper)) }
    {
        match self.keeper.append(alloc, self.ledger.next_number(), bytes) {
            Ok(()) => Ok(()),
            Err(KeepFault::Failed) => {
                tally.raise();
                Err(EditFault::Keeper)
            }
            Err(KeepFault::Memory) => Err(EditFault::Memory),
        }
    }
}

/// The number of a batch as its row has it.
fn row_number(number: u64) -> i64
    requires { number < 2 ^ 63 }
    ensures number { result ≡ pos number }
    ensures from_zero { pos 0 ≤ℤ result }
{
    number as i64
}

/// The book of what a keeper keeps.
fn read_ledger<K: Keeper, R: RowStore>(
    alloc: Global,
    keeper: &mut K,
) -> Result<Ledger<R>, OpenFault>
    ensures opened { IfOk result (λ ledger. K.is_clean keeper.new → (stored : StoredData) → K.holds keeper.old stored
        → StoredAs stored ledger.book) }
    ensures refused { IfErr result (λ fault. K.is_clean keeper.new → (stored : StoredData) → K.holds keeper.old stored
        → Explains fault stored) }
    ensures stays { K.is_clean keeper.new → Stays (K.holds keeper.old) (K.holds keeper.new) }
    ensures settled { IfOk result (λ ledger. K.is_faithful keeper.new → (stored : StoredData)
        → K.holds keeper.old stored → StoredAs stored ledger.book × LeavesOnly (K.may_leave keeper.new) stored) }
    ensures left { K.is_faithful keeper.new → LeavesFrom (K.may_leave keeper.old) (K.holds keeper.old)
        (K.is_clean keeper.old) IsKept (K.may_leave keeper.new) }
    ensures clean { K.is_clean keeper.new → K.is_clean keeper.old }
    ensures same { OnOk result (K.faults keeper.new ≡ K.faults keeper.old) }
    ensures counted { IfErr result (λ fault. K.faults keeper.new ≡ after_fault fault (K.faults keeper.old)) }
{
    let stored = keeper.load(alloc)?;
    let records = read_records(alloc, stored)?;
    opened(alloc, records)
}
