ghost use Rattle.std.specs.Prelude.{◌≡◌, ◌≢◌, ℕ, false, All, [], ◌∷◌, ◌++◌, Err, Ok, IfOk, IfErr, OnOk, OnErr};
ghost use Rattle.std.specs.Prelude.{MatchResult};
ghost use Rattle.alto_edits.specs.Edits.{IsEdit};
ghost use Rattle.alto_book.specs.Acceptance.{accept};
ghost use Rattle.alto_desk.specs.Counts.{after_edit};
ghost use Rattle.alto_serve.specs.Events.{Emits, IsLook, IsSubmitted, PrefixOf, Submits};
ghost use Rattle.alto_hub.specs.Edits.{Goes, all_shown};
ghost use Rattle.alto_hub.specs.History.{book_at};
ghost use Rattle.alto_hub.specs.Seen.{known_at};

use crate::bell::Bell;
use crate::mark::{Head, Mark, Naming};
use crate::place::{Pen, Place, show};
use crate::published::Published;
use crate::submission::Submission;
use alto_desk::{Desk, EditFault, Receipt, Tally};
use alto_keeper::Keeper;
use row_chunks::Chunks;
use std::alloc::{AllocError, Global};
use std::marker::Model;
use std::sync::Wait;

/// What publishes, and what its end waits by.
pub struct Publisher<W: Wait + Drop, J: Naming> {
    pub(crate) pen: Pen<J>,
    pub(crate) rt: W,
}

impl<W: Wait + Drop, J: Naming> Drop for Publisher<W, J> {
    fn drop(self) {
        let Self { pen, rt } = self;
        drop(pen.take(&rt));
    }
}

/// The desk, the mark of the history that led to its book, and what publishes its versions. Contracts see that history
/// and the published part of it.
#[derive(Drop)]
pub struct Locked<W: Wait + Drop, K: Keeper + Drop, J: Naming> {
    pub(crate) desk: Desk<K, Chunks>,
    pub(crate) head: Head,
    pub(crate) mark: Mark,
    pub(crate) publisher: Publisher<W, J>,
    /// Whether the desk's version isn't published.
    pub(crate) owed: bool,
}

impl<W: Wait + Drop, K: Keeper + Drop, J: Naming> Model for Locked<W, K, J> {
    ghost use Rattle.alto_desk.specs.Records.{Backs};
    ghost use Rattle.alto_hub.specs.Edits.{Logs, IsLocked};
    ghost use Rattle.alto_hub.specs.Versions.{log_of};

    ghost Value = { Logs };

    ghost view = { λ locked. record { log = locked.mark.log; shown = log_of locked.publisher.pen.desk.shown.value } };

    ghost invariant = { λ locked. IsLocked J.name J.opening locked.desk.ledger.book locked.head locked.mark
        (log_of locked.publisher.pen.desk.shown.value) locked.owed
        × (K.is_clean locked.desk.keeper
        → J.was_clean × (J.backed → Backs (K.holds locked.desk.keeper) locked.desk.ledger.book)) };
}

impl<W: Wait + Drop, K: Keeper + Drop, J: Naming> Locked<W, K, J> {
    /// Has an import accepted or refused from a place. A version that is owed is published first. Then the place enters
    /// the desk's book, and once an import is accepted it is published, and the place learns of it. Out of memory, the
    /// version of an accepted import may be owed.
    pub fn edit<R: Wait, L: Bell>(
        &mut self,
        rt: &R,
        bell: &L,
        alloc: Global,
        place: &mut Place<J>,
        tally: &mut Tally<K>,
        submission: Submission,
    ) -> Result<Receipt, EditFault>
        requires { All IsEdit submission.0.edits }

        ensures goes { Goes self.old submission result self.new }

        ensures answered { result ≢ Err EditFault.Memory → (waits : ℕ)
            → Emits false (Submits submission.0 submission.1 result)
            (known_at J.opening place.old waits tally.old.count) (known_at J.opening place.new waits tally.new.count) }
        ensures lost { result ≡ Err EditFault.Memory → (waits : ℕ)
            → Emits false (PrefixOf (IsSubmitted submission.0 submission.1))
            (known_at J.opening place.old waits tally.old.count) (known_at J.opening place.new waits tally.new.count) }
        ensures stays { result ≡ Err EditFault.Memory
            → IsLook false (book_at J.opening place.old.seen) (book_at J.opening place.new.seen) }
    {
        // The place says that what it has seen is of the history.
        let _eye = place.eye();
        self.publish(rt, bell)?;
        place.enter(rt, &self.mark)?;
        let receipt = self.accept(rt, alloc, tally, submission)?;
        self.publish(rt, bell)?;
        place.learn(rt, &self.mark)?;
        Ok(receipt)
    }

    /// Publishes the desk's version where it is owed, and rings the bell.
    fn publish<R: Wait, L: Bell>(&mut self, rt: &R, bell: &L) -> Result<(), AllocError>
        ensures { MatchResult result (λ _. self.new ≡ all_shown self.old.log) (λ _. self.new ≡ self.old) }
    {
        if !self.owed {
            return Ok(());
        }
        let published = Published::new(self.desk.front(), &self.mark)?;
        show(rt, &mut self.publisher.pen, published)?;
        self.owed = false;
        bell.ring(self.desk.front().n);
        Ok(())
    }

    /// Has the desk accept or refuse an import. The version of what it accepts is owed.
    fn accept<R: Wait>(
        &mut self,
        rt: &R,
        alloc: Global,
        tally: &mut Tally<K>,
        submission: Submission,
    ) -> Result<Receipt, EditFault>
        requires { All IsEdit submission.0.edits }

        ensures ok { IfOk result (λ receipt.
            (accept (book_at J.opening self.old.log) submission.0 submission.1).answer ≡ Ok receipt) }
        ensures err { IfErr result (λ fault. fault ≢ EditFault.Memory → fault ≢ EditFault.Keeper
            → (accept (book_at J.opening self.old.log) submission.0 submission.1).answer ≡ Err fault) }
        ensures accepted { OnOk result
            (self.new ≡ record { log = self.old.log ++ submission ∷ []; shown = self.old.shown }) }
        ensures unchanged { OnErr result (self.new ≡ self.old) }
        ensures tally { tally.new.count ≡ after_edit result tally.old.count }
    {
        let ask = self.mark.ask(&submission);
        let Submission { command, moment } = submission;
        let receipt = self.desk.edit(alloc, command, moment, tally)?;
        self.mark.add(rt, &self.head, ask);
        self.owed = true;
        Ok(receipt)
    }
}
