ghost use Rattle.std.specs.Prelude.{◌≡◌, ◌≢◌, ◌≤ℤ◌, Err, pos, map, [], IfOk, OnOk, OnErr, vec_items};
ghost use Rattle.alto_keeper.specs.Stored.{numbered, with_row, rebased, faults_after};
ghost use Rattle.alto_keeper.specs.MemKeeper.{fails, has_failed, called};

use crate::fault::KeepFault;
use crate::keeper::Keeper;
use crate::stored::{Stored, StoredRow};
use std::alloc::{AllocError, Global};
use std::marker::Model;

/// Records in memory, for tests and drills. Chosen calls fail.
#[derive(Drop)]
pub struct MemKeeper {
    stored: Stored,
    failing: Vec<u64>,
    calls: u64,
    faults: u64,
}

impl Model for MemKeeper {
    ghost use Rattle.alto_keeper.specs.MemKeeper.{MemKeeperData};

    ghost Value = { MemKeeperData };

    ghost view = { λ keeper. record {
      stored = keeper.stored;
      failing = keeper.failing.items;
      calls = keeper.calls;
      faults = keeper.faults;
    } };
}

impl MemKeeper {
    /// Records of which these are kept.
    pub fn new(alloc: Global, stored: Stored) -> MemKeeper
        ensures { result ≡ record { stored = stored; failing = []; calls = 0; faults = 0 } }
    {
        MemKeeper {
            stored,
            failing: Vec::new(alloc),
            calls: 0,
            faults: 0,
        }
    }

    /// The same, where the calls of these numbers fail, counted from 0.
    pub fn with_failing(mut self, calls: Vec<u64>) -> MemKeeper
        ensures { result ≡ record self { failing = calls.items } }
    {
        self.failing = calls;
        self
    }

    /// All that is kept.
    pub fn stored(&self) -> &Stored
        ensures { result.now ≡ self.now.stored }
    {
        &self.stored
    }

    /// All that is kept, where the keeper is done with.
    pub fn into_stored(self) -> Stored
        ensures { result ≡ self.stored }
    {
        self.stored
    }

    /// How many calls have failed.
    pub fn faults(&self) -> u64
        ensures { result ≡ self.now.faults }
    {
        self.faults
    }
}

impl Keeper for MemKeeper {
    ghost use Rattle.std.specs.Prelude.{⊤, refl};

    ghost holds = { λ keeper kept. keeper.stored ≡ kept };

    ghost is_clean = { λ _. ⊤ };

    ghost is_faithful = { λ _. ⊤ };

    ghost may_leave = { λ keeper found. keeper.stored ≡ found };

    ghost faults = { λ keeper. keeper.faults };

    ghost faithful_if_clean = { λ _ clean. clean };

    ghost leaves_some = { λ keeper _. ∣ (keeper.stored, refl) ∣₁ };

    fn load(&mut self, alloc: Global) -> Result<Stored, KeepFault>
        ensures fails { has_failed result ≡ fails self.old }
        ensures called { self.new ≡ called result self.old.stored self.old }

        ensures loaded { IfOk result (λ all. all ≡ self.old.stored) }
        ensures stays { self.new.stored ≡ self.old.stored }
        ensures counted { self.new.faults ≡ faults_after result self.old.faults }
    {
        self.call()?;
        Ok(self.stored.try_clone(alloc)?)
    }

    fn append(&mut self, alloc: Global, n: i64, bytes: &[u8]) -> Result<(), KeepFault>
        ensures fails { has_failed result ≡ fails self.old }
        ensures called { self.new ≡ called result self.new.stored self.old }

        ensures added { OnOk result (self.new.stored ≡ with_row n bytes.now self.old.stored) }
        ensures refused { OnErr result (self.new.stored ≡ self.old.stored) }
        ensures counted { self.new.faults ≡ faults_after result self.old.faults }
    {
        self.call()?;
        let bytes = bytes.to_vec(alloc)?;
        self.stored.add(StoredRow { n, bytes })?;
        Ok(())
    }

    fn rebase(&mut self, alloc: Global, pieces: &[Vec<u8>], upto: i64) -> Result<(), KeepFault>
        requires upto { pos 0 ≤ℤ upto }

        ensures fails { has_failed result ≡ fails self.old }
        ensures called { self.new ≡ called result self.new.stored self.old }

        ensures rebased { OnOk result (self.new.stored ≡ rebased (map vec_items pieces.now) upto self.old.stored) }
        ensures refused { OnErr result (self.new.stored ≡ self.old.stored) }
        ensures counted { self.new.faults ≡ faults_after result self.old.faults }
    {
        self.call()?;
        let base = numbered(alloc, pieces)?;
        self.stored.rebase(base, upto);
        Ok(())
    }
}

impl MemKeeper {
    /// Counts a call, which fails where it was chosen to.
    fn call(&mut self) -> Result<(), KeepFault>
        ensures fails { has_failed result ≡ fails self.old }
        ensures memory { result ≢ Err KeepFault.Memory }
        ensures called { self.new ≡ called result self.old.stored self.old }
    {
        let call = self.calls;
        self.calls = call.saturating_add(1);
        if self.failing.contains(&call) {
            self.faults = self.faults.saturating_add(1);
            return Err(KeepFault::Failed);
        }
        Ok(())
    }
}

/// Pieces under their numbers from 0 on.
fn numbered(alloc: Global, pieces: &[Vec<u8>]) -> Result<Vec<StoredRow>, AllocError>
    ensures { IfOk result (λ rows. rows.items ≡ numbered 0 (map vec_items pieces.now)) }
{
    let mut rows = Vec::with_capacity(alloc, pieces.len())?;
    for (index, piece) in pieces.iter().enumerate() {
        rows.push(StoredRow {
            n: index as i64,
            bytes: piece.to_vec(alloc)?,
        })?;
    }
    Ok(rows)
}
