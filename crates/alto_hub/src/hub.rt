ghost use Rattle.std.specs.Prelude.{◌≡◌, ◌≢◌, false, All, Err};
ghost use Rattle.alto_edits.specs.Edits.{IsEdit};
ghost use Rattle.alto_serve.specs.Events.{Emits, IsLook, IsSubmitted, PrefixOf, Submits};

use crate::bell::Bell;
use crate::locked::Locked;
use crate::mark::Naming;
use crate::place::Place;
use crate::submission::Submission;
use crate::visitor::Visitor;
use alto_desk::{EditFault, Receipt};
use alto_keeper::Keeper;
use std::alloc::Global;
use std::sync::{Mutex, Wait};

/// One desk behind a lock, whose versions readers see without it.
#[derive(Drop)]
pub struct Hub<W: Wait + Drop, K: Keeper + Drop, J: Naming> {
    pub(crate) locked: Mutex<Locked<W, K, J>>,
}

impl<W: Wait + Drop, K: Keeper + Drop, J: Naming> Hub<W, K, J> {
    /// Has an import accepted or refused, behind the lock.
    pub(crate) fn edit<R: Wait, L: Bell>(
        &self,
        rt: &R,
        bell: &L,
        alloc: Global,
        visitor: &mut Visitor<K, J>,
        submission: Submission,
    ) -> Result<Receipt, EditFault>
        requires { All IsEdit submission.0.edits }
        ensures answered { result ≢ Err EditFault.Memory
            → Emits false (Submits submission.0 submission.1 result) visitor.old visitor.new }
        ensures lost { result ≡ Err EditFault.Memory
            → Emits false (PrefixOf (IsSubmitted submission.0 submission.1)) visitor.old visitor.new }
        ensures stays { result ≡ Err EditFault.Memory → IsLook false visitor.old.seen visitor.new.seen }
    {
        let mut locked = self.locked.lock(rt);
        locked.edit(
            rt,
            bell,
            alloc,
            &mut visitor.place,
            &mut visitor.tally,
            submission,
        )
    }
}

/// Compiles only for what threads may share.
fn is_shared<T: Sync>(_value: &T) {}

/// Compiles only for what may go to a thread.
fn is_sent<T: Send>(_value: &T) {}

/// Threads may share a hub, and each may take a place.
fn hub_crosses_threads<W: Wait + Drop + Send, K: Keeper + Drop + Send, J: Naming + Send + Sync>(
    hub: &Hub<W, K, J>,
    place: &Place<J>,
) {
    is_shared(hub);
    is_sent(place);
}
