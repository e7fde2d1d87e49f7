ghost use Rattle.std.specs.Prelude.{◌≡◌, false, IfOk, OnOk, OnErr};
ghost use Rattle.std.specs.Arc.{arc_value};
ghost use Rattle.alto_versions.specs.Front.{StandsFor};
ghost use Rattle.alto_serve.specs.Events.{Emits, OneLook, OneWait, PrefixOf};
ghost use Rattle.alto_hub.specs.Seen.{known_at};

use crate::mark::Naming;
use crate::place::Place;
use alto_desk::{Front, Tally};
use row_chunks::Chunks;
use std::alloc::AllocError;
use std::marker::Model;
use std::sync::Arc;

/// A place, and the counts of the waits there and of the faults of records that its edits met. Contracts see what is
/// known of a seat.
#[derive(Drop)]
pub struct Visitor<K, J: Naming> {
    pub(crate) place: Place<J>,
    pub(crate) tally: Tally<K>,
    waits: u64,
}

impl<K, J: Naming> Model for Visitor<K, J> {
    ghost use Rattle.alto_serve.specs.Events.{Known};
    ghost use Rattle.alto_hub.specs.Seen.{known_at};

    ghost Value = { Known };

    ghost view = { λ visitor. known_at J.opening visitor.place visitor.waits visitor.tally.count };
}

impl<K, J: Naming> Visitor<K, J> {
    /// At this place, where nothing was counted yet.
    pub fn new(place: Place<J>) -> Visitor<K, J>
        ensures { result ≡ known_at J.opening place 0 0 }
    {
        Visitor {
            place,
            tally: Tally::new(),
            waits: 0,
        }
    }

    /// Looks, with no lock and no wait.
    pub fn look(&mut self) -> Result<Arc<Front<Chunks>>, AllocError>
        ensures stands { IfOk result (λ front. StandsFor (arc_value front) self.new.seen) }
        ensures looked { OnOk result (Emits false (OneLook self.new.seen) self.old self.new) }
        ensures lost { OnErr result (Emits false (PrefixOf (OneLook self.new.seen)) self.old self.new) }
    {
        self.place.look()
    }

    /// Counts a wait for more batches than this number.
    pub fn count_wait(&mut self, known: u64)
        ensures { Emits false (OneWait known) self.old self.new }
    {
        let _ = known;
        self.waits = self.waits.saturating_add(1);
    }
}
