ghost use Rattle.std.specs.Prelude.{◌≡◌, ◌≢◌, ℕ, false, List, [], Err, IsTrue, IfOk, OnOk, option_copied};
ghost use Rattle.alto_keeper.specs.Stored.{nothing};
ghost use Rattle.alto_keeper.specs.MemKeeper.{has_failed};
ghost use Rattle.alto_keeper.specs.MemVault.{entry_at, held_at, knows, fails, called, opened};

use crate::fault::KeepFault;
use crate::keeper::Keeper;
use crate::mem_keeper::MemKeeper;
use crate::stored::Stored;
use crate::vault::Vault;
use std::alloc::{AllocError, Global};
use std::collections::BTreeMap;
use std::marker::Model;

/// Records in memory by their paths, for tests and drills. Chosen opens fail, and chosen calls of each keeper.
#[derive(Drop)]
pub struct MemVault {
    held: BTreeMap<String, Stored>,
    failing: Vec<u64>,
    failing_keepers: Vec<u64>,
    calls: u64,
    faults: u64,
}

impl Model for MemVault {
    ghost use Rattle.alto_keeper.specs.MemVault.{MemVaultData};

    ghost Value = { MemVaultData };

    ghost view = { λ vault. record {
      held = vault.held.entries;
      failing = vault.failing.items;
      failing_keepers = vault.failing_keepers.items;
      calls = vault.calls;
      faults = vault.faults;
    } };
}

impl MemVault {
    /// A vault that holds nothing.
    pub fn new(alloc: Global) -> MemVault
        ensures nothing { (path : List ℕ) → held_at result path ≡ nothing }
        ensures unknown { (path : List ℕ) → knows result path ≡ false }
        ensures fresh { result ≡ record { held = []; failing = []; failing_keepers = []; calls = 0; faults = 0 } }
    {
        MemVault {
            held: BTreeMap::new(alloc),
            failing: Vec::new(alloc),
            failing_keepers: Vec::new(alloc),
            calls: 0,
            faults: 0,
        }
    }

    /// The same, where the opens of these numbers fail, counted from 0.
    pub fn with_failing(mut self, opens: Vec<u64>) -> MemVault
        ensures { result ≡ record self { failing = opens.items } }
    {
        self.failing = opens;
        self
    }

    /// The same, where the calls of these numbers fail of each keeper that is opened, counted from 0.
    pub fn with_failing_keepers(mut self, calls: Vec<u64>) -> MemVault
        ensures { result ≡ record self { failing_keepers = calls.items } }
    {
        self.failing_keepers = calls;
        self
    }

    /// All that is held at a path, or nothing where it was never opened.
    pub fn stored(&self, path: &str) -> Option<&Stored>
        ensures { option_copied result ≡ entry_at self.now path.now }
    {
        self.held.get(path)
    }

    /// How many opens have failed, and how many keepers had failed when they were closed.
    pub fn faults(&self) -> u64
        ensures { result ≡ self.now.faults }
    {
        self.faults
    }
}

impl Vault for MemVault {
    ghost use Rattle.std.specs.Prelude.{⊤};

    type Keeper = MemKeeper;

    ghost holds = { λ vault path kept. held_at vault path ≡ kept };

    ghost is_clean = { λ _. ⊤ };

    ghost knows = { λ vault path. knows vault path };

    ghost faults = { λ vault. vault.faults };

    fn open(&mut self, alloc: Global, path: &str) -> Result<MemKeeper, KeepFault>
        ensures fails { has_failed result ≡ fails self.old }
        ensures opened { IfOk result (λ keeper. keeper ≡ opened self.old path.now) }
        ensures called { self.new ≡ called result self.new.held self.old }

        ensures stays { (other : List ℕ) → held_at self.new other ≡ held_at self.old other }
        ensures known { OnOk result (IsTrue (knows self.new path.now)) }
        ensures remembered { (other : List ℕ) → IsTrue (knows self.old other) → IsTrue (knows self.new other) }
    {
        self.call()?;
        let keeper = self.keeper_at(alloc, path)?;
        self.learn(alloc, path)?;
        Ok(keeper)
    }

    fn close(&mut self, path: &str, keeper: MemKeeper) {
        if keeper.faults() > 0 {
            self.faults = self.faults.saturating_add(1);
        }
        self.put(path, keeper.into_stored());
    }
}

impl MemVault {
    /// Counts an open, which fails where it was chosen to.
    fn call(&mut self) -> Result<(), KeepFault>
        ensures fails { has_failed result ≡ fails self.old }
        ensures memory { result ≢ Err KeepFault.Memory }
        ensures called { self.new ≡ called result self.old.held self.old }
    {
        let call = self.calls;
        self.calls = call.saturating_add(1);
        if self.failing.contains(&call) {
            self.faults = self.faults.saturating_add(1);
            return Err(KeepFault::Failed);
        }
        Ok(())
    }

    /// A keeper of a copy of what is held at a path.
    fn keeper_at(&self, alloc: Global, path: &str) -> Result<MemKeeper, AllocError>
        ensures { IfOk result (λ keeper. keeper ≡ opened self.now path.now) }
    {
        let failing = self.failing_keepers.to_vec(alloc)?;
        let stored = match self.stored(path) {
            Some(stored) => stored.try_clone(alloc)?,
            None => Stored::empty(alloc),
        };
        Ok(MemKeeper::new(alloc, stored).with_failing(failing))
    }

    /// Knows a path, with nothing where it is new.
    fn learn(&mut self, alloc: Global, path: &str) -> Result<(), AllocError>
        ensures known { OnOk result (IsTrue (knows self.new path.now)) }
        ensures remembered { (other : List ℕ) → IsTrue (knows self.old other) → IsTrue (knows self.new other) }
        ensures stays { (other : List ℕ) → held_at self.new other ≡ held_at self.old other }
        ensures rest { self.new ≡ record self.old { held = self.new.held } }
    {
        if self.held.contains_key(path) {
            return Ok(());
        }
        let key = String::from_str(alloc, path)?;
        self.held.insert(key, Stored::empty(alloc))?;
        Ok(())
    }

    /// Puts records in place of those that are held at a known path.
    fn put(&mut self, path: &str, stored: Stored)
        requires known { IsTrue (knows self.old path.now) }
        ensures put { held_at self.new path.now ≡ stored }
        ensures others { (other : List ℕ) → other ≢ path.now → held_at self.new other ≡ held_at self.old other }
        ensures remembered { (other : List ℕ) → IsTrue (knows self.old other) → IsTrue (knows self.new other) }
        ensures rest { self.new ≡ record self.old { held = self.new.held } }
    {
        let Some(held) = self.held.get_mut(path) else {
            return;
        };
        *held = stored;
    }
}
